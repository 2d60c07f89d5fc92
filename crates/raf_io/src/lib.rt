//! The outside of an encrypted file: its errors, the storage and the source of random bytes that it is given, and both in memory.
#![tactic(auto)]

mod errors;
mod memory;
mod source;
mod storage;

pub use errors::{Error, ErrorKind, Reason};
pub use memory::MemIo;
pub use source::{RafRng, VecRng};
pub use storage::RafIo;
