//! The source of a conversion: an old file, and how a new one is to be made.
ghost use Rattle.std.specs.Prelude.{◌≡◌};
ghost use Rattle.raf_script.specs.Words.{words};
ghost use Rattle.raf_script.specs.Lines.{Gives};
ghost use Rattle.raf_script.specs.Reading.{bytes_words, create_words, conversion};
ghost use Rattle.raf_script.specs.Conversion.{ReadsConversion};

use crate::lines::{line_at, no_line};
use crate::script::ScriptError;
use crate::settings::{algorithm_at, argument_at, key_at, version_at};
use crate::values::{bytes_at, small_at};
use crate::words::{LineWords, words_of};
use raf::Data;
use raf_format::{AlgorithmId, Version};
use std::alloc::Global;

/// What a conversion is of.
#[derive(Drop)]
pub struct Conversion {
    /// The algorithm of the old file.
    pub old_algorithm: AlgorithmId,
    /// The old file's key, of its algorithm's length.
    pub old_key: Data,
    /// What the old file's storage holds.
    pub storage: Data,
    /// The algorithm of the new file.
    pub algorithm: AlgorithmId,
    /// The new file's key, of its algorithm's length.
    pub key: Data,
    /// The random bytes for the new file, from the front.
    pub random: Data,
    /// How many bytes the new file's chunks have.
    pub chunk_size: u32,
    /// The version of the new file's layout.
    pub version: Version,
}

// The bytes on a line of two words, whose first word is this name.
#[tactic(auto, unfolding(crate::specs::Reading::bytes_words))]
fn named_bytes_at(alloc: Global, number: u64, name: &[u8], line: &[u8]) -> Result<Data, ScriptError>
    ensures { Gives (λ b. b) result (bytes_words number name.now (words line.now)) }
{
    let text = argument_at(number, name, line)?;
    bytes_at(alloc, number, text)
}

// The chunk size and the version of the new file.
fn create_at(number: u64, line: &[u8]) -> Result<(u32, Version), ScriptError>
    ensures { Gives (λ c. c) result (create_words number (words line.now)) }
{
    match words_of(line) {
        LineWords::Three(word, size, version) => {
            if word != b"create".as_slice() {
                return Err(ScriptError::Line(number));
            }
            let size = small_at(number, size)?;
            let version = version_at(number, version)?;
            Ok((size, version))
        }
        LineWords::One(_) => Err(ScriptError::Line(number)),
        LineWords::Two(_, _) => Err(ScriptError::Line(number)),
        LineWords::More => Err(ScriptError::Line(number)),
    }
}

// The content of the text, or its first wrong line.
#[tactic(auto, unfolding(crate::specs::Reading::conversion))]
fn read_conversion(alloc: Global, text: &[u8]) -> Result<Conversion, ScriptError>
    ensures { Gives (λ c. c) result (conversion text.now) }
{
    let (line, rest) = line_at(1, text)?;
    let old_algorithm = algorithm_at(1, line)?;
    let (line, rest) = line_at(2, rest)?;
    let old_key = key_at(alloc, 2, old_algorithm, line)?;
    let (line, rest) = line_at(3, rest)?;
    let storage = named_bytes_at(alloc, 3, b"storage".as_slice(), line)?;
    let (line, rest) = line_at(4, rest)?;
    let algorithm = algorithm_at(4, line)?;
    let (line, rest) = line_at(5, rest)?;
    let key = key_at(alloc, 5, algorithm, line)?;
    let (line, rest) = line_at(6, rest)?;
    let random = named_bytes_at(alloc, 6, b"random".as_slice(), line)?;
    let (line, rest) = line_at(7, rest)?;
    let (chunk_size, version) = create_at(7, line)?;
    if !no_line(rest) {
        return Err(ScriptError::Line(8));
    }
    Ok(Conversion {
        old_algorithm,
        old_key,
        storage,
        algorithm,
        key,
        random,
        chunk_size,
        version,
    })
}

/// The content that the text of a conversion spells, seven lines, or its first wrong line: the first that doesn't fit its place, which an
/// eighth line never does. `OutOfMemory` where no memory was found for the content.
pub fn parse_conversion(alloc: Global, text: &[u8]) -> Result<Conversion, ScriptError>
    ensures { ReadsConversion text.now result }
{
    read_conversion(alloc, text)
}
