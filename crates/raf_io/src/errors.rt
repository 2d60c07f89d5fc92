//! The errors of the file calls, their kinds, and the reasons why an argument was refused.
ghost use Rattle.std.specs.Prelude.{◌≡◌};
ghost use Rattle.raf_io.specs.Kinds.{kind_of};

use std::io;
use thiserror::Error;

/// Why a call on an encrypted file was refused.
#[derive(Debug, Drop, Error)]
pub enum Error {
    /// The storage failed.
    #[error("I/O error: {0}")]
    Io(io::Error),
    /// An argument, a header or a setting isn't acceptable.
    #[error("invalid argument: {0}")]
    InvalidArgument(Reason),
    /// A tag is wrong: the bytes aren't what was sealed under this key.
    #[error("authentication failed")]
    AuthenticationFailed,
    /// A file is to be made where there is one already.
    #[error("file already exists")]
    AlreadyExists,
    /// There is no such file.
    #[error("file not found")]
    NotFound,
    /// A position, a size or a count doesn't fit.
    #[error("overflow")]
    Overflow,
    /// The call needs a hasher, and the file has none.
    #[error("merkle tree not enabled")]
    MerkleNotEnabled,
    /// The chunk of this index isn't what it was. No call answers this.
    #[error("corrupted chunk at index {0}")]
    CorruptedChunk(u64),
    /// The source of random bytes failed.
    #[error("random number generator error")]
    Rng,
    /// The hasher failed.
    #[error("hasher error")]
    Hash,
    /// An earlier change was cut short.
    #[error("file handle is broken")]
    Broken,
    /// No memory was found.
    #[error("out of memory")]
    OutOfMemory,
}

/// What is wrong with an argument.
#[derive(Clone, Copy, Debug, PartialEq, Eq, Error)]
pub enum Reason {
    /// The header isn't one of an encrypted file.
    #[error("invalid header")]
    Header,
    /// No algorithm has this number.
    #[error("unknown algorithm id")]
    UnknownAlgorithm,
    /// The file is of another algorithm.
    #[error("algorithm mismatch")]
    AlgorithmMismatch,
    /// The storage isn't as long as its header says.
    #[error("invalid header or configuration")]
    Layout,
    /// The chunk size isn't between 16 and 1048576 bytes.
    #[error("invalid configuration")]
    ChunkSize,
    /// The hasher's answers have fewer than 8 or more than 64 bytes.
    #[error("hash_len must be between 8 and 64")]
    HashLen,
    /// A tree for no chunk at all.
    #[error("max_chunks must be at least 1")]
    MaxChunks,
    /// A key that has neither 16 nor 32 bytes.
    #[error("key length must be 16 or 32 bytes")]
    KeyLength,
    /// A context of more than 120 bytes beside a key of 16, or of more than 72 beside a key of 32.
    #[error("context too long")]
    ContextTooLong,
    /// No room for the commitment.
    #[error("commitment buffer too short")]
    CommitmentBuffer,
    /// A position below 0 or past the last one.
    #[error("seek overflow")]
    SeekOverflow,
}

/// An [`Error`] without what the storage said.
#[derive(Clone, Copy, Debug, PartialEq, Eq)]
pub enum ErrorKind {
    /// The storage failed.
    Io,
    /// An argument, a header or a setting isn't acceptable.
    InvalidArgument(Reason),
    /// A tag is wrong: the bytes aren't what was sealed under this key.
    AuthenticationFailed,
    /// A file is to be made where there is one already.
    AlreadyExists,
    /// There is no such file.
    NotFound,
    /// A position, a size or a count doesn't fit.
    Overflow,
    /// The call needs a hasher, and the file has none.
    MerkleNotEnabled,
    /// The chunk of this index isn't what it was. No call answers this.
    CorruptedChunk(u64),
    /// The source of random bytes failed.
    Rng,
    /// The hasher failed.
    Hash,
    /// An earlier change was cut short.
    Broken,
    /// No memory was found.
    OutOfMemory,
}

impl Error {
    /// The kind of the same name.
    pub fn kind(&self) -> ErrorKind
        ensures { result ≡ kind_of self.now }
    {
        match self {
            Error::Io(_) => ErrorKind::Io,
            Error::InvalidArgument(reason) => ErrorKind::InvalidArgument(*reason),
            Error::AuthenticationFailed => ErrorKind::AuthenticationFailed,
            Error::AlreadyExists => ErrorKind::AlreadyExists,
            Error::NotFound => ErrorKind::NotFound,
            Error::Overflow => ErrorKind::Overflow,
            Error::MerkleNotEnabled => ErrorKind::MerkleNotEnabled,
            Error::CorruptedChunk(index) => ErrorKind::CorruptedChunk(*index),
            Error::Rng => ErrorKind::Rng,
            Error::Hash => ErrorKind::Hash,
            Error::Broken => ErrorKind::Broken,
            Error::OutOfMemory => ErrorKind::OutOfMemory,
        }
    }
}

impl From<io::Error> for Error {
    ghost use Rattle.raf_io.specs.declared.errors.Error.TheVariants as error;

    ghost from_gives = { λ fault e. e ≡ error.Io fault };

    /// The storage's fault, as `Io`.
    fn from(fault: io::Error) -> Error {
        Error::Io(fault)
    }
}
