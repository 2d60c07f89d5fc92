//! The storages and the random sources of the host: a file of its file system, and a source of `rand_core`.
//!
//! This is the edge of what is proved. The host is trusted for what a file holds and for what a source gives: neither tells it. What is
//! proved of them is the contract of `RafIo` and of `RafRng`, that is, their counts and that no fault is told as a success; and of the
//! loops below them, that no part is taken as the whole.
#![tactic(auto)]

mod file;
mod place;
mod source;
mod whole;

pub use file::FileIo;
pub use source::OsRng;
