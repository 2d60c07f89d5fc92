//! The errors of the cipher crates.

use std::{error, fmt};

/// Why a call of a cipher was refused.
#[derive(Clone, Copy, Debug, PartialEq, Eq)]
pub enum Error {
    /// No message has this cipher text and tag.
    InvalidTag = 1,
    /// The rest of the destination is shorter than the piece.
    OutputBufferTooSmall,
    /// The total would pass 2^61 - 1 bytes.
    MessageTooLong,
    /// There is no memory for the answer.
    OutOfMemory,
}

impl fmt::Display for Error {
    fn fmt<W: fmt::Write>(&self, f: &mut fmt::Formatter<W>) -> fmt::Result {
        match self {
            Error::InvalidTag => write!(f, "invalid tag"),
            Error::OutputBufferTooSmall => write!(f, "output buffer too small"),
            Error::MessageTooLong => write!(f, "message too long"),
            Error::OutOfMemory => write!(f, "out of memory"),
        }
    }
}

impl error::Error for Error {}
