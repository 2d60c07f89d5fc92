//! What a script says.
ghost use Rattle.std.specs.Prelude.{◌≡◌, ◌∷◌, [], ◌++◌, OnOk, OnErr, List, ℕ};
ghost use Rattle.raf.specs.declared.command.Command.{Command};
ghost use Rattle.raf_script.specs.declared.script.ScriptError.TheVariants.{OutOfMemory};

use raf::{Command, Data};
use raf_format::{AlgorithmId, Version};
use std::alloc::{AllocError, AllocFailed, Global};
use std::marker::Model;

/// Commands, which contracts see as a list.
#[derive(Drop)]
pub struct Commands {
    items: Vec<Command>,
}

impl Model for Commands {
    ghost Value = { List Command };

    ghost view = { λ c. c.items.items };
}

impl Commands {
    /// No command.
    pub fn new(alloc: Global) -> Commands
        ensures { result ≡ [] }
    {
        Commands {
            items: Vec::new(alloc),
        }
    }

    /// Adds a command at the end.
    pub fn push(&mut self, command: Command) -> Result<(), AllocError>
        ensures ok { OnOk result (self.new ≡ self.old ++ command ∷ []) }
        ensures err { OnErr result (self.new ≡ self.old) }
    {
        self.items.push(command)?;
        Ok(())
    }

    /// The commands in order.
    pub fn as_slice(&self) -> &[Command]
        ensures { result.now ≡ self.now }
    {
        &self.items
    }
}

/// Where a script's random bytes come from.
#[derive(Drop)]
pub enum Randomness {
    /// These bytes, from the front.
    Random(Data),
    /// A generator with this seed.
    Seed([u8; 32]),
}

/// Where a script's storage is.
#[derive(Clone, Copy, Debug, PartialEq, Eq)]
pub enum Medium {
    /// In memory: the script says what it holds.
    Memory,
    /// On a disk, which holds what it holds.
    Disk,
}

/// What the storage of a script holds at first.
#[derive(Drop)]
pub enum Start {
    /// These bytes; on a disk none, which stand for those that it holds.
    Storage(Data),
    /// A new file.
    Create {
        /// How many bytes its chunks have.
        chunk_size: u32,
        /// The version of its layout.
        version: Version,
    },
}

/// The first five lines of a script or of a log.
#[derive(Drop)]
pub struct Settings {
    /// The algorithm that seals the file.
    pub algorithm: AlgorithmId,
    /// The file's key, of the algorithm's length.
    pub key: Data,
    /// Where the random bytes come from.
    pub randomness: Randomness,
    /// The most chunks of the file's tree, where it has one.
    pub max_chunks: Option<u64>,
    /// What the storage holds at first.
    pub start: Start,
}

/// The content of a script.
#[derive(Drop)]
pub struct Script {
    /// The algorithm that seals the file.
    pub algorithm: AlgorithmId,
    /// The file's key, of the algorithm's length.
    pub key: Data,
    /// Where the random bytes come from.
    pub randomness: Randomness,
    /// The most chunks of the file's tree, where it has one.
    pub max_chunks: Option<u64>,
    /// What the storage holds at first.
    pub start: Start,
    /// The commands in order.
    pub commands: Commands,
}

/// Why a script could not be read.
#[derive(Clone, Copy, Debug, PartialEq, Eq)]
pub enum ScriptError {
    /// The first wrong line, counted from 1.
    Line(u64),
    /// No memory was found for the content.
    OutOfMemory,
}

impl From<AllocError> for ScriptError {
    ghost from_gives = { λ _ e. e ≡ OutOfMemory };

    fn from(_: AllocError) -> Self {
        ScriptError::OutOfMemory
    }
}

impl<T: Drop> From<AllocFailed<T>> for ScriptError {
    ghost from_gives = { λ _ e. e ≡ OutOfMemory };

    fn from(_: AllocFailed<T>) -> Self {
        ScriptError::OutOfMemory
    }
}
