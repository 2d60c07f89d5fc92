//! Why a call on a log was refused.
ghost use Rattle.std.specs.Prelude.{◌≡◌};
ghost use Rattle.raf_log.specs.Kinds.{log_kind};

use raf::{Error, ErrorKind};
use std::alloc::{AllocError, AllocFailed};
use thiserror::Error;

/// Why a call on a log was refused.
#[derive(Debug, Drop, Error)]
pub enum LogError {
    /// A call on the file was refused.
    #[error("{0}")]
    Raf(Error),
    /// The bytes of the file aren't those of a log.
    #[error("not a log")]
    Format,
    /// The entry has more than 65536 bytes.
    #[error("entry too long")]
    TooLong,
    /// No memory was found.
    #[error("out of memory")]
    OutOfMemory,
    /// The lengths of all replies add up to more than a `usize` has.
    #[error("overflow")]
    Overflow,
}

/// A [`LogError`] without what the storage said.
#[derive(Clone, Copy, Debug, PartialEq, Eq)]
pub enum LogErrorKind {
    /// A call on the file was refused.
    Raf(ErrorKind),
    /// The bytes of the file aren't those of a log.
    Format,
    /// The entry has more than 65536 bytes.
    TooLong,
    /// No memory was found.
    OutOfMemory,
    /// The lengths of all replies add up to more than a `usize` has.
    Overflow,
}

impl LogError {
    /// The kind of the same name.
    pub fn kind(&self) -> LogErrorKind
        ensures { result ≡ log_kind self.now }
    {
        match self {
            LogError::Raf(error) => LogErrorKind::Raf(error.kind()),
            LogError::Format => LogErrorKind::Format,
            LogError::TooLong => LogErrorKind::TooLong,
            LogError::OutOfMemory => LogErrorKind::OutOfMemory,
            LogError::Overflow => LogErrorKind::Overflow,
        }
    }
}
