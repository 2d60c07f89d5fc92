//! Proofs that a chunk is in a committed file.
#![tactic(auto)]

mod checking;
mod proof;
mod proving;

pub use checking::check;
pub use proof::Proof;
pub use proving::prove;
