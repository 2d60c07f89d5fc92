//! What errors print.
use aegis::raf::{Error, FormatError, Reason};
use raf_tree::TreeError;
use std::alloc::Global;
use std::fmt::Display;
use std::io;
use std::test::Fail;

// Whether a value prints this text.
fn prints<T: Display>(alloc: Global, value: &T, want: &str) -> Result<bool, Fail> {
    Ok(format!(in alloc; "{value}")?.as_str() == want)
}

// Why an argument is no valid one, and the end of what that error prints.
const REASONS: [(Reason, &str); 11] = [
    (Reason::Header, "invalid header"),
    (Reason::UnknownAlgorithm, "unknown algorithm id"),
    (Reason::AlgorithmMismatch, "algorithm mismatch"),
    (Reason::Layout, "invalid header or configuration"),
    (Reason::ChunkSize, "invalid configuration"),
    (Reason::HashLen, "hash_len must be between 8 and 64"),
    (Reason::MaxChunks, "max_chunks must be at least 1"),
    (Reason::KeyLength, "key length must be 16 or 32 bytes"),
    (Reason::ContextTooLong, "context too long"),
    (Reason::CommitmentBuffer, "commitment buffer too short"),
    (Reason::SeekOverflow, "seek overflow"),
];

#[test]
fn errors_of_a_file_are_printed(rt: HostRuntime) -> Result<(), Fail> {
    let alloc = rt.alloc();
    for (reason, end) in REASONS {
        let want = format!(in alloc; "invalid argument: {end}")?;
        assert!(rt;
            prints(alloc, &Error::InvalidArgument(reason), want.as_str())?,
            "{end}"
        );
    }
    let missing = io::Error::from(io::ErrorKind::NotFound);
    let table = [
        (Error::AuthenticationFailed, "authentication failed"),
        (Error::AlreadyExists, "file already exists"),
        (Error::NotFound, "file not found"),
        (Error::Overflow, "overflow"),
        (Error::MerkleNotEnabled, "merkle tree not enabled"),
        (Error::CorruptedChunk(12), "corrupted chunk at index 12"),
        (Error::Io(missing), "I/O error: entity not found"),
        (Error::Rng, "random number generator error"),
        (Error::Hash, "hasher error"),
        (Error::Broken, "file handle is broken"),
        (Error::OutOfMemory, "out of memory"),
    ];
    for (error, want) in &table {
        assert!(rt; prints(alloc, error, want)?, "{want}");
    }
    Ok(())
}

#[test]
fn errors_of_the_layout_and_of_a_tree_are_printed(rt: HostRuntime) -> Result<(), Fail> {
    let alloc = rt.alloc();
    let of_the_layout = [
        (FormatError::Header, "invalid header"),
        (FormatError::UnknownAlgorithm, "unknown algorithm id"),
        (FormatError::KeyLength, "key length must be 16 or 32 bytes"),
        (FormatError::ContextTooLong, "context too long"),
    ];
    for (error, want) in &of_the_layout {
        assert!(rt; prints(alloc, error, want)?, "{want}");
    }
    let of_a_tree = [
        (TreeError::HashLen, "hash_len must be between 8 and 64"),
        (TreeError::MaxChunks, "max_chunks must be at least 1"),
        (TreeError::Overflow, "overflow"),
        (TreeError::OutOfMemory, "out of memory"),
    ];
    for (error, want) in &of_a_tree {
        assert!(rt; prints(alloc, error, want)?, "{want}");
    }
    Ok(())
}
