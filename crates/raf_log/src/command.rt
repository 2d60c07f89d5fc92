//! The commands of a log's session and the replies to them.
ghost use Rattle.std.specs.Prelude.{◌≡◌, List, length, slice_get, Option};
ghost use Rattle.std.specs.Prelude.{IfSome, IsNone, IsSome, ◌↔◌, ◌<◌, ◌≤◌};
ghost use Rattle.raf_log.specs.Call.{is_log_fault};

use crate::error::LogErrorKind;
use raf::{Data, ErrorKind};
use std::marker::Model;

/// What is asked of a log.
#[derive(Drop)]
pub enum LogCommand {
    /// Puts this entry at the end.
    Append(Data),
    /// The entry of this index.
    Get(u64),
    /// How many entries are there?
    Count,
    /// The commitment of the file's Merkle tree.
    Commitment,
}

/// What a log answers.
#[derive(Drop)]
pub enum LogReply {
    /// To `Append`: the new entry's index.
    Appended(u64),
    /// To `Get`: the entry.
    Entry(Data),
    /// To `Get`: no entry has this index.
    Absent,
    /// To `Count`.
    Count(u64),
    /// To `Commitment`.
    Commitment(Data),
    /// The command was refused, and this is why.
    Refused(LogErrorKind),
}

impl LogReply {
    /// It says that a storage, a source or a hasher failed.
    pub fn is_fault(&self) -> bool
        ensures { result ≡ is_log_fault self.now }
    {
        matches!(
            self,
            LogReply::Refused(LogErrorKind::Raf(ErrorKind::Io | ErrorKind::Rng | ErrorKind::Hash))
        )
    }
}

/// The replies to a list of commands, in order.
#[derive(Drop)]
pub struct LogReplies {
    items: Vec<LogReply>,
}

impl Model for LogReplies {
    ghost use Rattle.std.specs.Prelude.{List};
    ghost use Rattle.raf_log.specs.declared.command.LogReply.{LogReply};

    ghost Value = { List LogReply };

    ghost view = { λ r. r.items.items };
}

impl LogReplies {
    /// These replies. It takes no memory.
    pub fn from_vec(items: Vec<LogReply>) -> LogReplies
        ensures { result ≡ items.items }
    {
        LogReplies { items }
    }

    /// How many there are.
    pub fn len(&self) -> usize
        ensures { result ≡ length self.now }
    {
        self.items.len()
    }

    /// The reply at this index, or None exactly where there is none.
    pub fn get(&self, i: usize) -> Option<&LogReply>
        ensures there { i < length self.now → IfSome result (λ r. slice_get self.now i ≡ Some r.now) }
        ensures none { IsNone result ↔ (length self.now ≤ i) }
    {
        self.items.get(i)
    }
}
