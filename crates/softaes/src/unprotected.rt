//! The rounds and key schedules by tables, with the calls of the crate's root.
//!
//! The look-ups depend on the block and the key, so their time may tell of both where the tables lie in a
//! cache that is shared: hence the name, which is upstream's.

mod block;
pub mod key_schedule;
mod rounds;
pub(crate) mod tables;

pub use block::Block;
pub use rounds::SoftAes;
