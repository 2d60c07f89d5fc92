//! The errors of sealed streams.

use thiserror::Error;

/// Why a call on a sealed stream was refused.
#[derive(Clone, Copy, Debug, PartialEq, Eq, Error)]
pub enum StreamError {
    /// A frame's mark or length isn't one of a stream.
    #[error("invalid frame")]
    Frame = 1,
    /// No message has a frame's cipher text and tag.
    #[error("invalid tag")]
    InvalidTag,
    /// Bytes follow the end of the stream.
    #[error("bytes after the end")]
    Trailing,
    /// The end of the stream was sealed.
    #[error("stream is finished")]
    Finished,
    /// There is no memory for a frame.
    #[error("out of memory")]
    OutOfMemory,
}
