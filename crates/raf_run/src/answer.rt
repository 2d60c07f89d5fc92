//! What a run may answer.

use aegis::raf::{Data, Error, Replies};
use raf_log::{LogError, LogReplies};

/// How a script's run in memory ended: the replies or the refusal, and the bytes of the storage that it handed back.
#[derive(Drop)]
pub struct End {
    /// The replies, or why there are none.
    pub outcome: Result<Replies, Error>,
    /// The bytes of the storage afterwards.
    pub storage: Data,
}

/// How a log's run in memory ended: the replies or the refusal, and the bytes of the storage that it handed back.
#[derive(Drop)]
pub struct LogEnd {
    /// The replies, or why there are none.
    pub outcome: Result<LogReplies, LogError>,
    /// The bytes of the storage afterwards.
    pub storage: Data,
}

/// What the demo tells of its file.
#[derive(Clone, Copy, Debug, PartialEq, Eq)]
pub struct Report {
    /// How many bytes the file has.
    pub size: u64,
    /// The sum of these bytes.
    pub sum: u64,
    /// How many bytes the storage has.
    pub storage: u64,
}

/// Everything that a run may answer.
#[derive(Drop)]
pub enum Answer {
    /// The words are no form of the program.
    Usage,
    /// There is no disk to run a script over.
    NoDisk,
    /// The source failed.
    ReadFault,
    /// The source has more than 2^26 bytes.
    Long,
    /// The source's bytes are no script, and this is the first wrong line.
    Wrong(u64),
    /// No memory was found.
    OutOfMemory,
    /// The script was run in memory.
    Ended(End),
    /// The script was run over the disk: the replies, or why there are none.
    Filed(Result<Replies, Error>),
    /// The commands of a log were run in memory.
    Logged(LogEnd),
    /// The demo was run, and none of its replies was a refusal.
    Shown(Report),
}
