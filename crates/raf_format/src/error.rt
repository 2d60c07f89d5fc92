//! Why a call on the layout of a file was refused.

use thiserror::Error;

/// Why a call on the layout of a file was refused.
#[derive(Clone, Copy, Debug, PartialEq, Eq, Error)]
pub enum FormatError {
    /// The bytes are no header of an encrypted file: magic, version, a zero byte or the chunk size is wrong.
    #[error("invalid header")]
    Header,
    /// No algorithm has this number.
    #[error("unknown algorithm id")]
    UnknownAlgorithm,
    /// The key has neither 16 nor 32 bytes.
    #[error("key length must be 16 or 32 bytes")]
    KeyLength,
    /// The context has more than 120 bytes beside a key of 16, or more than 72 beside a key of 32.
    #[error("context too long")]
    ContextTooLong,
}
