//! A sealed stream of messages: 8 bytes of prefix, and a frame for each message, under AEGIS-128L.
#![tactic(auto)]

mod error;
mod fed;
mod frame;
mod head;
mod laws;
mod opener;
mod pending;
mod sealer;
mod unsealer;

pub use error::StreamError;
pub use fed::Fed;
pub use frame::{MESSAGE_BYTES, PREFIX_BYTES};
pub use laws::stream_laws;
pub use opener::Opener;
pub use sealer::Sealer;
