//! Proofs that a chunk is in a committed file, as a verifier sees them: with the commitment and a hasher, and without the file, its key
//! and its cipher.
#![tactic(auto)]

mod bytes;
mod checking;
mod laws;
mod sha;

pub use bytes::{FRONT_LEN, check_bytes, write_parts};
pub use checking::{can_be_checked, check_parts};
pub use laws::{honest_proofs, one_proof};
pub use sha::{check_number, check_sha256};
