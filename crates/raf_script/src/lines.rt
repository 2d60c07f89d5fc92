//! The lines of a text, and the commands of a script among them.
ghost use Rattle.std.specs.Prelude.{◌≡◌, ◌^◌, ◌<◌, ◌+◌, ◌∷◌, [], None, IfOk, OnErr, length};
ghost use Rattle.raf_script.specs.Lines.{Gives, first, lines};
ghost use Rattle.raf_script.specs.Words.{words};
ghost use Rattle.raf_script.specs.Reading.{plain_command, truncate_command, range_command, command_words, items, is_end};

use crate::script::{Commands, ScriptError};
use crate::values::{bytes_at, number_at};
use crate::words::{LineWords, cut_at, words_of};
use raf::Command;
use std::alloc::Global;

/// The line with this number, and what stands after it.
#[tactic(auto, using(crate::proofs::PartsLemmas::line_read, crate::proofs::PartsLemmas::line_missing, crate::proofs::PartsLemmas::line_cut))]
pub fn line_at(number: u64, text: &[u8]) -> Result<(&[u8], &[u8]), ScriptError>
    ensures read { Gives (λ x. (x.0.now, lines x.1.now)) result (first number (lines text.now)) }
    ensures shorter { IfOk result (λ x. length x.1.now < length text.now) }
    ensures cut { OnErr result (0 < length text.now → lines text.now ≡ None ∷ []) }
{
    match cut_at(text, b'\n') {
        Some(cut) => Ok(cut),
        None => Err(ScriptError::Line(number)),
    }
}

/// Whether no line is left.
#[tactic(auto, using(crate::proofs::PartsLemmas::end_of))]
pub fn no_line(text: &[u8]) -> bool
    ensures { result ≡ is_end (lines text.now) }
{
    text.is_empty()
}

// A command of one word.
#[tactic(auto, unfolding(crate::specs::Reading::plain_command))]
fn plain_at(number: u64, word: &[u8]) -> Result<Command, ScriptError>
    ensures { Gives (λ c. c) result (plain_command number word.now) }
{
    if word == b"size".as_slice() {
        Ok(Command::Size)
    } else if word == b"sync".as_slice() {
        Ok(Command::Sync)
    } else if word == b"rebuild".as_slice() {
        Ok(Command::Rebuild)
    } else if word == b"verify".as_slice() {
        Ok(Command::Verify)
    } else if word == b"commitment".as_slice() {
        Ok(Command::Commitment)
    } else {
        Err(ScriptError::Line(number))
    }
}

// A command of two words.
#[tactic(auto, unfolding(crate::specs::Reading::truncate_command))]
fn truncate_at(number: u64, word: &[u8], size: &[u8]) -> Result<Command, ScriptError>
    ensures { Gives (λ c. c) result (truncate_command number word.now size.now) }
{
    if word != b"truncate".as_slice() {
        return Err(ScriptError::Line(number));
    }
    let size = number_at(number, size)?;
    Ok(Command::Truncate { size })
}

// A command of three words.
#[tactic(auto, unfolding(crate::specs::Reading::range_command))]
fn range_at(
    alloc: Global,
    number: u64,
    word: &[u8],
    offset: &[u8],
    rest: &[u8],
) -> Result<Command, ScriptError>
    ensures { Gives (λ c. c) result (range_command number word.now offset.now rest.now) }
{
    if word == b"read".as_slice() {
        let offset = number_at(number, offset)?;
        let len = number_at(number, rest)? as usize;
        return Ok(Command::Read { offset, len });
    }
    if word == b"write".as_slice() {
        let offset = number_at(number, offset)?;
        let bytes = bytes_at(alloc, number, rest)?;
        return Ok(Command::Write { offset, bytes });
    }
    Err(ScriptError::Line(number))
}

fn command_at(alloc: Global, number: u64, line: &[u8]) -> Result<Command, ScriptError>
    ensures { Gives (λ c. c) result (command_words number (words line.now)) }
{
    match words_of(line) {
        LineWords::One(word) => plain_at(number, word),
        LineWords::Two(word, size) => truncate_at(number, word, size),
        LineWords::Three(word, offset, rest) => range_at(alloc, number, word, offset, rest),
        LineWords::More => Err(ScriptError::Line(number)),
    }
}

/// The commands of these lines, the first of which has this number.
pub fn commands_from(alloc: Global, number: u64, text: &[u8]) -> Result<Commands, ScriptError>
    requires { number + length text.now < 2 ^ 64 }
    ensures { Gives (λ c. c) result (items command_words number (lines text.now)) }
{
    let mut list = Commands::new(alloc);
    let mut next = number;
    let mut rest = text;
    while !rest.is_empty() {
        let (line, after) = line_at(next, rest)?;
        let command = command_at(alloc, next, line)?;
        list.push(command)?;
        next += 1;
        rest = after;
    }
    Ok(list)
}
