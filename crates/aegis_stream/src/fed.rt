//! What a call of `feed` did.

/// What a call of [`Opener::feed`](crate::Opener::feed) did.
#[derive(Clone, Copy, Debug, PartialEq, Eq)]
pub struct Fed {
    /// How many bytes of the input were taken.
    pub taken: usize,
    /// How many bytes of a message were written.
    pub written: usize,
    /// Whether the stream is ended.
    pub ended: bool,
}
