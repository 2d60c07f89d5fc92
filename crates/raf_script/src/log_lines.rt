//! The commands of a log, and the whole of its source.
ghost use Rattle.std.specs.Prelude.{◌≡◌, ◌^◌, ◌<◌, ◌+◌, length};
ghost use Rattle.raf_script.specs.Words.{words};
ghost use Rattle.raf_script.specs.Lines.{Gives, lines};
ghost use Rattle.raf_script.specs.LogScript.{ReadsLog, log_settings};
ghost use Rattle.raf_script.specs.Reading.{plain_log_command, entry_command, log_command_words, items, whole};
ghost use Rattle.raf_script.specs.declared.script.Medium.TheVariants.{Memory};

use crate::lines::line_at;
use crate::log_script::{LogCommands, LogScript};
use crate::script::{Medium, ScriptError};
use crate::settings::settings_at;
use crate::values::{bytes_at, number_at};
use crate::words::{LineWords, words_of};
use raf_log::LogCommand;
use std::alloc::Global;

// A command of one word.
#[tactic(auto, unfolding(crate::specs::Reading::plain_log_command))]
fn plain_log_at(number: u64, word: &[u8]) -> Result<LogCommand, ScriptError>
    ensures { Gives (λ c. c) result (plain_log_command number word.now) }
{
    if word == b"count".as_slice() {
        Ok(LogCommand::Count)
    } else if word == b"commitment".as_slice() {
        Ok(LogCommand::Commitment)
    } else {
        Err(ScriptError::Line(number))
    }
}

// A command of two words.
#[tactic(auto, unfolding(crate::specs::Reading::entry_command))]
fn entry_at(alloc: Global, number: u64, word: &[u8], rest: &[u8]) -> Result<LogCommand, ScriptError>
    ensures { Gives (λ c. c) result (entry_command number word.now rest.now) }
{
    if word == b"append".as_slice() {
        return Ok(LogCommand::Append(bytes_at(alloc, number, rest)?));
    }
    if word == b"get".as_slice() {
        return Ok(LogCommand::Get(number_at(number, rest)?));
    }
    Err(ScriptError::Line(number))
}

fn log_command_at(alloc: Global, number: u64, line: &[u8]) -> Result<LogCommand, ScriptError>
    ensures { Gives (λ c. c) result (log_command_words number (words line.now)) }
{
    match words_of(line) {
        LineWords::One(word) => plain_log_at(number, word),
        LineWords::Two(word, rest) => entry_at(alloc, number, word, rest),
        LineWords::Three(_, _, _) => Err(ScriptError::Line(number)),
        LineWords::More => Err(ScriptError::Line(number)),
    }
}

// The commands of these lines, the first of which has this number.
fn log_commands_from(alloc: Global, number: u64, text: &[u8]) -> Result<LogCommands, ScriptError>
    requires { number + length text.now < 2 ^ 64 }
    ensures { Gives (λ c. c) result (items log_command_words number (lines text.now)) }
{
    let mut list = LogCommands::new(alloc);
    let mut next = number;
    let mut rest = text;
    while !rest.is_empty() {
        let (line, after) = line_at(next, rest)?;
        let command = log_command_at(alloc, next, line)?;
        list.push(command)?;
        next += 1;
        rest = after;
    }
    Ok(list)
}

// The content of the text, or its first wrong line.
fn read_log(alloc: Global, text: &[u8]) -> Result<LogScript, ScriptError>
    requires { length text.now < 2 ^ 32 }
    ensures { Gives (λ s. (log_settings s, s.commands)) result (whole log_command_words Memory text.now) }
{
    let (settings, rest) = settings_at(alloc, text, Medium::Memory)?;
    let commands = log_commands_from(alloc, 6, rest)?;
    Ok(LogScript {
        algorithm: settings.algorithm,
        key: settings.key,
        randomness: settings.randomness,
        max_chunks: settings.max_chunks,
        start: settings.start,
        commands,
    })
}

/// The content that the text of a log spells, or its first wrong line: the first that doesn't fit its place. `OutOfMemory` where no memory
/// was found for the content.
pub fn parse_log(alloc: Global, text: &[u8]) -> Result<LogScript, ScriptError>
    requires { length text.now < 2 ^ 32 }
    ensures { ReadsLog text.now result }
{
    read_log(alloc, text)
}
