//! Sealing all the bytes of a source as one stream into a sink, and opening such a stream.
#![tactic(auto)]

mod ends;
mod filling;
mod laws;
mod sealing;
mod unsealing;

pub use ends::StreamEnd;
pub use laws::seal_then_unseal;
pub use sealing::seal;
pub use unsealing::unseal;
