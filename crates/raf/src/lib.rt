//! An encrypted random-access file over a storage, answering commands.
#![tactic(auto)]

mod builder;
mod carrying;
mod changing;
mod clashing;
mod command;
mod committing;
mod converting;
mod creating;
mod cursor;
mod data;
mod file;
mod growing;
mod laws;
mod loading;
mod opening;
mod outside;
mod overwriting;
mod paths;
mod planning;
mod preparing;
mod probing;
mod reading;
mod repairing;
mod serving;
mod staging;
mod storing;
mod verifying;

pub use builder::{OpenError, RafBuilder};
pub use clashing::Verdict;
pub use command::{Command, Replies, Reply};
pub use converting::{ConvertError, Side, convert};
pub use cursor::RafCursor;
pub use data::Data;
pub use file::{Raf, clash};
pub use laws::{complete, contents, holds_again, put_behind, write_then_read, write_through};
pub use outside::Parts;
pub use paths::PathError;
pub use probing::{derive_key, probe};
pub use raf_format::{
    Aegis128L, Aegis128X2, Aegis128X4, Aegis256, Aegis256X2, Aegis256X4, Algorithm, AlgorithmId,
    FormatError, Header, RafInfo, Version, unprotected, write_header,
};
pub use raf_io::{Error, ErrorKind, MemIo, RafIo, RafRng, Reason, VecRng};
pub use raf_os::{FileIo, OsRng};
pub use raf_tree::{FakeHasher, HashFault, MerkleHasher, NoMerkle, Place, Sha256Hasher};
pub use repairing::repair;
pub use serving::{SessionEnd, session};
