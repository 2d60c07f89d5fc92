//! Any reader and any writer of std as a source and a sink, with a count of faults. They tell no bytes.
ghost use Rattle.std.specs.Prelude.{◌≡◌, None, ℕ, OnErr};
ghost use Rattle.std.specs.Io.{ReadsAtMost, WritesAtMost};
ghost use Rattle.std.specs.Io.KnownBytes.{ReadConsumes, WriteAppends};
ghost use Rattle.counts.specs.Counts.{HasCause, raised};
ghost use Rattle.program_io.specs.Streams.{TellsAsBefore, TakesSome};

use crate::streams::{Failed, Sink, Source};
use std::io::{Read, Write};

/// A reader of std as a source. What it reads is the host's affair; what is proved is the trait's contract, and that it hands on what
/// the reader gives.
#[derive(Drop)]
pub struct ReadSource<T> {
    inner: T,
    faults: u64,
}

impl<T: Read> ReadSource<T> {
    /// The source of what this reader gives, with no fault so far.
    pub fn new(inner: T) -> ReadSource<T>
        ensures reader { result.inner ≡ inner }
        ensures faults { result.faults ≡ 0 }
    {
        ReadSource { inner, faults: 0 }
    }
}

impl<T: Read> Source for ReadSource<T> {
    ghost left = { λ _. None };

    ghost faults = { λ s. s.faults };

    fn read(&mut self, buf: &mut [u8]) -> Result<usize, Failed>
        ensures bound { ReadsAtMost result buf.new }
        ensures bytes { ReadConsumes None None result buf.new }
        ensures tells { TellsAsBefore None None }
        ensures cause { HasCause self.old.faults self.new.faults result }
        ensures one { OnErr result (self.new.faults ≡ raised self.old.faults 1) }
        // Where the reader's bytes are known, it gives just those.
        ensures reader { ReadConsumes (T.remaining self.old.inner) (T.remaining self.new.inner) result buf.new }
    {
        match self.inner.read(buf) {
            Ok(count) => Ok(count),
            Err(_) => {
                self.faults = self.faults.saturating_add(1);
                Err(Failed)
            }
        }
    }
}

/// A writer of std as a sink. What becomes of the bytes is the host's affair; what is proved is the trait's contract, and that the
/// writer is given them.
#[derive(Drop)]
pub struct WriteSink<T> {
    inner: T,
    faults: u64,
}

impl<T: Write> WriteSink<T> {
    /// The sink of what this writer takes, with no fault so far.
    pub fn new(inner: T) -> WriteSink<T>
        ensures writer { result.inner ≡ inner }
        ensures faults { result.faults ≡ 0 }
    {
        WriteSink { inner, faults: 0 }
    }
}

impl<T: Write> Sink for WriteSink<T> {
    ghost written = { λ _. None };

    ghost faults = { λ s. s.faults };

    // A writer that takes nothing of a piece would be asked for ever: that is a fault.
    fn write(&mut self, buf: &[u8]) -> Result<usize, Failed>
        ensures bound { WritesAtMost result buf.now }
        ensures some { TakesSome result buf.now }
        ensures bytes { WriteAppends None None result buf.now }
        ensures tells { TellsAsBefore None None }
        ensures cause { HasCause self.old.faults self.new.faults result }
        ensures one { OnErr result (self.new.faults ≡ raised self.old.faults 1) }
        // Where the writer's bytes are known, it has them.
        ensures writer { WriteAppends (T.contents self.old.inner) (T.contents self.new.inner) result buf.now }
    {
        match self.inner.write(buf) {
            Ok(count) if count != 0 || buf.is_empty() => Ok(count),
            _ => {
                self.faults = self.faults.saturating_add(1);
                Err(Failed)
            }
        }
    }
}
