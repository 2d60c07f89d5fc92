//! What is asked of a file, line by line.
use crate::words::{Fault, data, number};
use raf::{Command, Data};
use std::alloc::Global;
use std::io::SeekFrom;

/// What is asked of a cursor.
#[derive(Drop)]
pub enum Move {
    /// To go there.
    Seek(SeekFrom),
    /// At most so many bytes.
    Read(usize),
    /// To put these bytes.
    Write(Data),
    /// To make the file durable.
    Flush,
    /// Why it last refused.
    LastError,
}

/// What is asked of a log.
#[derive(Drop)]
pub enum LogStep {
    /// This entry at the end.
    Append(Data),
    /// The entry of this index.
    Get(u64),
    /// How many there are.
    Count,
    /// Room for so many more.
    Reserve(usize),
}

/// A line below `create`, `open`, `cursor` or `session`.
#[derive(Drop)]
pub enum Step {
    /// A command.
    Ask(Command),
    /// The commitment, into room for so many bytes.
    Commit(usize),
    /// The storage's bytes at an offset become these, behind the file's back.
    Poke(u64, Data),
    /// What the storage was asked so far.
    Asked,
    /// How long a hash is.
    HashLen,
    /// A proof of the chunk at an index.
    Prove(u64),
    /// Proofs of all chunks, which have so many bytes but for the last one.
    ProveAll(usize),
    /// Something of a cursor.
    Glide(Move),
    /// Something of a log.
    Log(LogStep),
}

// A command.
fn command_of(alloc: Global, words: &[&str]) -> Result<Command, Fault> {
    Ok(match words {
        ["read", offset, len] => Command::Read {
            offset: number(offset)?,
            len: number(len)? as usize,
        },
        ["write", offset, bytes] => Command::Write {
            offset: number(offset)?,
            bytes: Data::from_vec(data(alloc, bytes)?),
        },
        ["truncate", size] => Command::Truncate {
            size: number(size)?,
        },
        ["size"] => Command::Size,
        ["sync"] => Command::Sync,
        ["rebuild"] => Command::Rebuild,
        ["verify"] => Command::Verify,
        ["commitment"] => Command::Commitment,
        _ => return Err(Fault::Line),
    })
}

// A number with a sign.
fn signed(word: &str) -> Result<i64, Fault> {
    match word.parse::<i64>() {
        Ok(n) => Ok(n),
        Err(_) => Err(Fault::Line),
    }
}

// What is asked of a cursor.
fn move_of(alloc: Global, words: &[&str]) -> Result<Move, Fault> {
    Ok(match words {
        ["seek", "start", offset] => Move::Seek(SeekFrom::Start(number(offset)?)),
        ["seek", "end", offset] => Move::Seek(SeekFrom::End(signed(offset)?)),
        ["seek", "current", offset] => Move::Seek(SeekFrom::Current(signed(offset)?)),
        ["read", len] => Move::Read(number(len)? as usize),
        ["write", bytes] => Move::Write(Data::from_vec(data(alloc, bytes)?)),
        ["flush"] => Move::Flush,
        ["last-error"] => Move::LastError,
        _ => return Err(Fault::Line),
    })
}

/// The step that these words name.
pub fn step_of(alloc: Global, words: &[&str]) -> Result<Step, Fault> {
    Ok(match words {
        ["commitment", room] => Step::Commit(number(room)? as usize),
        ["poke", offset, bytes] => {
            Step::Poke(number(offset)?, Data::from_vec(data(alloc, bytes)?))
        }
        ["asked"] => Step::Asked,
        ["hash-len"] => Step::HashLen,
        ["append", entry] => Step::Log(LogStep::Append(Data::from_vec(data(alloc, entry)?))),
        ["get", index] => Step::Log(LogStep::Get(number(index)?)),
        ["count"] => Step::Log(LogStep::Count),
        ["reserve", count] => Step::Log(LogStep::Reserve(number(count)? as usize)),
        ["prove", index] => Step::Prove(number(index)?),
        ["prove-all", chunk_size] => Step::ProveAll(number(chunk_size)? as usize),
        ["seek", ..] | ["read", _] | ["write", _] | ["flush"] | ["last-error"] => {
            Step::Glide(move_of(alloc, words)?)
        }
        _ => Step::Ask(command_of(alloc, words)?),
    })
}

/// The commands of steps that are commands.
pub fn commands_of(alloc: Global, steps: Vec<Step>) -> Result<Vec<Command>, Fault> {
    let mut commands = Vec::new(alloc);
    for step in steps {
        match step {
            Step::Ask(command) => commands.push(command)?,
            _ => return Err(Fault::Line),
        }
    }
    Ok(commands)
}
