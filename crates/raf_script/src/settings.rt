//! The first five lines of a script, and the whole of it.
ghost use Rattle.std.specs.Prelude.{◌≡◌, ◌∷◌, [], ◌^◌, ◌<◌, IfOk, codes, length};
ghost use Rattle.aegis_core.specs.Sealing as sealing;
ghost use Rattle.raf_format.specs.Numbers.{variant_of};
ghost use Rattle.raf_script.specs.Words.{words};
ghost use Rattle.raf_script.specs.Lines.{Gives, fits, lines};
ghost use Rattle.raf_script.specs.Script.{Reads, settings_of};
ghost use Rattle.raf_script.specs.Reading.{argument, algorithm_named, algorithm_words, key_words, randomness_words, tree_words, version_named, start_words, may_hold, command_words, settings, whole};

use crate::lines::{commands_from, line_at};
use crate::script::{Medium, Randomness, Script, ScriptError, Settings, Start};
use crate::values::{bytes_at, number_at, small_at};
use crate::words::{LineWords, words_of};
use raf::Data;
use raf_format::{AlgorithmId, Version};
use std::alloc::Global;

// The second word of a line of two words, whose first word is this name.
#[tactic(auto, unfolding(crate::specs::Reading::argument))]
pub fn argument_at<'a>(number: u64, name: &[u8], line: &'a [u8]) -> Result<&'a [u8], ScriptError>
    ensures { Gives (λ x. x.now) result (argument number name.now (words line.now)) }
{
    match words_of(line) {
        LineWords::One(_) => Err(ScriptError::Line(number)),
        LineWords::Two(word, value) => {
            if word == name {
                Ok(value)
            } else {
                Err(ScriptError::Line(number))
            }
        }
        LineWords::Three(_, _, _) => Err(ScriptError::Line(number)),
        LineWords::More => Err(ScriptError::Line(number)),
    }
}

#[tactic(auto, unfolding(crate::specs::Reading::algorithm_named))]
fn algorithm_of(number: u64, name: &[u8]) -> Result<AlgorithmId, ScriptError>
    ensures { Gives (λ a. a) result (algorithm_named number name.now) }
{
    if name == b"aegis128l".as_slice() {
        Ok(AlgorithmId::Aegis128L)
    } else if name == b"aegis128x2".as_slice() {
        Ok(AlgorithmId::Aegis128X2)
    } else if name == b"aegis128x4".as_slice() {
        Ok(AlgorithmId::Aegis128X4)
    } else if name == b"aegis256".as_slice() {
        Ok(AlgorithmId::Aegis256)
    } else if name == b"aegis256x2".as_slice() {
        Ok(AlgorithmId::Aegis256X2)
    } else if name == b"aegis256x4".as_slice() {
        Ok(AlgorithmId::Aegis256X4)
    } else {
        Err(ScriptError::Line(number))
    }
}

#[tactic(auto, unfolding(crate::specs::Reading::algorithm_words))]
pub fn algorithm_at(number: u64, line: &[u8]) -> Result<AlgorithmId, ScriptError>
    ensures { Gives (λ a. a) result (algorithm_words number (words line.now)) }
{
    let name = argument_at(number, b"alg".as_slice(), line)?;
    algorithm_of(number, name)
}

// How many bytes a key of the algorithm has.
fn key_len(algorithm: AlgorithmId) -> usize
    ensures { result ≡ sealing.key_len (variant_of algorithm) }
{
    match algorithm {
        AlgorithmId::Aegis128L | AlgorithmId::Aegis128X2 | AlgorithmId::Aegis128X4 => 16,
        AlgorithmId::Aegis256 | AlgorithmId::Aegis256X2 | AlgorithmId::Aegis256X4 => 32,
    }
}

#[tactic(auto, unfolding(crate::specs::Reading::key_words))]
pub fn key_at(
    alloc: Global,
    number: u64,
    algorithm: AlgorithmId,
    line: &[u8],
) -> Result<Data, ScriptError>
    ensures { Gives (λ k. k) result (key_words number algorithm (words line.now)) }
{
    let text = argument_at(number, b"key".as_slice(), line)?;
    let key = bytes_at(alloc, number, text)?;
    if key.as_slice().len() == key_len(algorithm) {
        Ok(key)
    } else {
        Err(ScriptError::Line(number))
    }
}

fn randomness_at(alloc: Global, number: u64, line: &[u8]) -> Result<Randomness, ScriptError>
    ensures { Gives (λ r. r) result (randomness_words number (words line.now)) }
{
    let LineWords::Two(word, text) = words_of(line) else {
        return Err(ScriptError::Line(number));
    };
    if word == b"random".as_slice() {
        return Ok(Randomness::Random(bytes_at(alloc, number, text)?));
    }
    if word != b"seed".as_slice() {
        return Err(ScriptError::Line(number));
    }
    let bytes = bytes_at(alloc, number, text)?;
    if bytes.as_slice().len() != 32 {
        return Err(ScriptError::Line(number));
    }
    let mut seed = [0; 32];
    seed.copy_from_slice(bytes.as_slice());
    Ok(Randomness::Seed(seed))
}

fn tree_at(number: u64, line: &[u8]) -> Result<Option<u64>, ScriptError>
    ensures { Gives (λ t. t) result (tree_words number (words line.now)) }
{
    match words_of(line) {
        LineWords::One(_) => Err(ScriptError::Line(number)),
        LineWords::Two(word, kind) => {
            if word == b"merkle".as_slice() && kind == b"none".as_slice() {
                Ok(None)
            } else {
                Err(ScriptError::Line(number))
            }
        }
        LineWords::Three(word, kind, most) => {
            if word == b"merkle".as_slice() && kind == b"sha256".as_slice() {
                Ok(Some(number_at(number, most)?))
            } else {
                Err(ScriptError::Line(number))
            }
        }
        LineWords::More => Err(ScriptError::Line(number)),
    }
}

pub fn version_at(number: u64, word: &[u8]) -> Result<Version, ScriptError>
    ensures { Gives (λ v. v) result (fits number (version_named word.now)) }
{
    if word == b"1".as_slice() {
        Ok(Version::V1)
    } else if word == b"2".as_slice() {
        Ok(Version::V2)
    } else {
        Err(ScriptError::Line(number))
    }
}

// Whether a script may say that its storage holds these bytes.
fn may_hold(medium: Medium, bytes: &Data) -> bool
    ensures { result ≡ may_hold medium bytes.now }
{
    match medium {
        Medium::Memory => true,
        Medium::Disk => bytes.as_slice().is_empty(),
    }
}

// What a storage holds.
fn storage_at(alloc: Global, number: u64, medium: Medium, text: &[u8]) -> Result<Start, ScriptError>
    ensures { Gives (λ s. s) result (start_words number medium (codes "storage" ∷ text.now ∷ [])) }
{
    let bytes = bytes_at(alloc, number, text)?;
    if may_hold(medium, &bytes) {
        Ok(Start::Storage(bytes))
    } else {
        Err(ScriptError::Line(number))
    }
}

// What a storage holds, or the chunk size of a new file of version 1.
fn start_of_two(
    alloc: Global,
    number: u64,
    medium: Medium,
    word: &[u8],
    text: &[u8],
) -> Result<Start, ScriptError>
    ensures { Gives (λ s. s) result (start_words number medium (word.now ∷ text.now ∷ [])) }
{
    if word == b"storage".as_slice() {
        return storage_at(alloc, number, medium, text);
    }
    if word != b"create".as_slice() {
        return Err(ScriptError::Line(number));
    }
    let chunk_size = small_at(number, text)?;
    Ok(Start::Create {
        chunk_size,
        version: Version::V1,
    })
}

// The chunk size of a new file, and its version.
fn start_of_three(
    number: u64,
    medium: Medium,
    word: &[u8],
    text: &[u8],
    version: &[u8],
) -> Result<Start, ScriptError>
    ensures { Gives (λ s. s) result (start_words number medium (word.now ∷ text.now ∷ version.now ∷ [])) }
{
    if word != b"create".as_slice() {
        return Err(ScriptError::Line(number));
    }
    let chunk_size = small_at(number, text)?;
    let version = version_at(number, version)?;
    Ok(Start::Create {
        chunk_size,
        version,
    })
}

fn start_at(alloc: Global, number: u64, medium: Medium, line: &[u8]) -> Result<Start, ScriptError>
    ensures { Gives (λ s. s) result (start_words number medium (words line.now)) }
{
    match words_of(line) {
        LineWords::One(_) => Err(ScriptError::Line(number)),
        LineWords::Two(word, text) => start_of_two(alloc, number, medium, word, text),
        LineWords::Three(word, text, version) => start_of_three(
            number, medium, word, text, version,
        ),
        LineWords::More => Err(ScriptError::Line(number)),
    }
}

/// The settings on the first five lines, and what stands after them.
#[tactic(auto, unfolding(crate::specs::Reading::settings))]
pub fn settings_at(
    alloc: Global,
    text: &[u8],
    medium: Medium,
) -> Result<(Settings, &[u8]), ScriptError>
    ensures read { Gives (λ x. (x.0, lines x.1.now)) result (settings medium text.now) }
    ensures shorter { IfOk result (λ x. length x.1.now < length text.now) }
{
    let (line, rest) = line_at(1, text)?;
    let algorithm = algorithm_at(1, line)?;
    let (line, rest) = line_at(2, rest)?;
    let key = key_at(alloc, 2, algorithm, line)?;
    let (line, rest) = line_at(3, rest)?;
    let randomness = randomness_at(alloc, 3, line)?;
    let (line, rest) = line_at(4, rest)?;
    let max_chunks = tree_at(4, line)?;
    let (line, rest) = line_at(5, rest)?;
    let start = start_at(alloc, 5, medium, line)?;
    let settings = Settings {
        algorithm,
        key,
        randomness,
        max_chunks,
        start,
    };
    Ok((settings, rest))
}

// The content of the script, or its first wrong line.
fn read_script(alloc: Global, text: &[u8], medium: Medium) -> Result<Script, ScriptError>
    requires { length text.now < 2 ^ 32 }
    ensures { Gives (λ s. (settings_of s, s.commands)) result (whole command_words medium text.now) }
{
    let (settings, rest) = settings_at(alloc, text, medium)?;
    let commands = commands_from(alloc, 6, rest)?;
    Ok(Script {
        algorithm: settings.algorithm,
        key: settings.key,
        randomness: settings.randomness,
        max_chunks: settings.max_chunks,
        start: settings.start,
        commands,
    })
}

/// The content that the text spells, or its first wrong line: the first that doesn't fit its place. For a disk the fifth line doesn't
/// spell bytes.
pub fn parse(alloc: Global, text: &[u8], medium: Medium) -> Result<Script, ScriptError>
    requires { length text.now < 2 ^ 32 }
    ensures { Reads medium text.now result }
{
    read_script(alloc, text, medium)
}
