//! What the source of a log says.
ghost use Rattle.std.specs.Prelude.{◌≡◌, ◌∷◌, [], ◌++◌, OnOk, OnErr, List};
ghost use Rattle.raf_log.specs.declared.command.LogCommand.{LogCommand};

use crate::script::{Randomness, Start};
use raf::Data;
use raf_format::AlgorithmId;
use raf_log::LogCommand;
use std::alloc::{AllocError, Global};
use std::marker::Model;

/// Commands of a log, which contracts see as a list.
#[derive(Drop)]
pub struct LogCommands {
    items: Vec<LogCommand>,
}

impl Model for LogCommands {
    ghost Value = { List LogCommand };

    ghost view = { λ c. c.items.items };
}

impl LogCommands {
    /// No command.
    pub fn new(alloc: Global) -> LogCommands
        ensures { result ≡ [] }
    {
        LogCommands {
            items: Vec::new(alloc),
        }
    }

    /// Adds a command at the end.
    pub fn push(&mut self, command: LogCommand) -> Result<(), AllocError>
        ensures ok { OnOk result (self.new ≡ self.old ++ command ∷ []) }
        ensures err { OnErr result (self.new ≡ self.old) }
    {
        self.items.push(command)?;
        Ok(())
    }

    /// The commands in order.
    pub fn as_slice(&self) -> &[LogCommand]
        ensures { result.now ≡ self.now }
    {
        &self.items
    }
}

/// The content of a log's source.
#[derive(Drop)]
pub struct LogScript {
    /// The algorithm that seals the file.
    pub algorithm: AlgorithmId,
    /// The file's key, of the algorithm's length.
    pub key: Data,
    /// Where the random bytes come from.
    pub randomness: Randomness,
    /// The most chunks of the file's tree, where it has one.
    pub max_chunks: Option<u64>,
    /// What the storage holds at first.
    pub start: Start,
    /// The commands in order.
    pub commands: LogCommands,
}
