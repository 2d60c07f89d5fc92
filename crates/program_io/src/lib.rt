//! A source and a sink of bytes for a program: in memory, with calls that are to fail, and over any reader and writer of std.
#![tactic(auto)]

mod memory;
mod standard;
mod streams;
mod whole;

pub use memory::{VecSink, VecSource};
pub use standard::{ReadSource, WriteSink};
pub use streams::{Failed, Sink, Source};
pub use whole::{ReadError, read_whole, write_whole};
