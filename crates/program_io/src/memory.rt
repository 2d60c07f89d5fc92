//! A source and a sink in memory, which tell all. Calls can be made to fail, by their numbers.
ghost use Rattle.std.specs.Prelude.{◌≡◌, ◌≤◌, [], ℕ, List, Some, drop, Contains, IsErr, ◌↔◌, length, IfOk, OnErr};
ghost use Rattle.std.specs.Io.{ReadsAtMost, WritesAtMost};
ghost use Rattle.std.specs.Io.KnownBytes.{ReadConsumes, WriteAppends};
ghost use Rattle.counts.specs.Counts.{HasCause, raised};
ghost use Rattle.program_io.specs.Streams.{TellsAsBefore, TakesSome};
ghost use Rattle.program_io.specs.Memory.{Memory};

use crate::streams::{Failed, Sink, Source};
use std::alloc::Global;
use std::marker::Model;

/// A source of these bytes. The calls whose numbers, counted from 0, are in a list fail and move nothing.
#[derive(Drop)]
pub struct VecSource {
    bytes: Vec<u8>,
    at: usize,
    fail: Vec<u64>,
    calls: u64,
    faults: u64,
}

impl Model for VecSource {
    ghost Value = { Memory };

    ghost view = { λ s. record { bytes = drop s.at s.bytes.items; fail = s.fail.items; calls = s.calls; faults = s.faults } };

    ghost invariant = { λ s. s.at ≤ length s.bytes.items };
}

impl VecSource {
    /// A source of `bytes`, whose calls with the numbers in `fail` are to fail.
    pub fn new(bytes: Vec<u8>, fail: Vec<u64>) -> VecSource
        ensures { result ≡ record { bytes = bytes.items; fail = fail.items; calls = 0; faults = 0 } }
    {
        VecSource {
            bytes,
            at: 0,
            fail,
            calls: 0,
            faults: 0,
        }
    }
}

impl Source for VecSource {
    ghost left = { λ s. Some s.bytes };

    ghost faults = { λ s. s.faults };

    fn read(&mut self, buf: &mut [u8]) -> Result<usize, Failed>
        ensures bound { ReadsAtMost result buf.new }
        ensures bytes { ReadConsumes (Some self.old.bytes) (Some self.new.bytes) result buf.new }
        ensures tells { TellsAsBefore (Some self.old.bytes) (Some self.new.bytes) }
        ensures cause { HasCause self.old.faults self.new.faults result }
        ensures one { OnErr result (self.new.faults ≡ raised self.old.faults 1) }
        // A fault comes exactly where the call's number is in the list.
        ensures exact { IsErr result ↔ Contains self.old.fail self.old.calls }
        ensures count { self.new.calls ≡ raised self.old.calls 1 }
        ensures fail { self.new.fail ≡ self.old.fail }
    {
        let number = self.calls;
        self.calls = number.saturating_add(1);
        if self.fail.contains(&number) {
            self.faults = self.faults.saturating_add(1);
            return Err(Failed);
        }
        let left = &self.bytes[self.at..];
        let count = left.len().min(buf.len());
        buf[..count].copy_from_slice(&left[..count]);
        self.at += count;
        Ok(count)
    }
}

/// A sink that keeps what it takes. The calls whose numbers, counted from 0, are in a list fail and take nothing.
#[derive(Drop)]
pub struct VecSink {
    bytes: Vec<u8>,
    fail: Vec<u64>,
    calls: u64,
    faults: u64,
}

impl Model for VecSink {
    ghost Value = { Memory };

    ghost view = { λ s. record { bytes = s.bytes.items; fail = s.fail.items; calls = s.calls; faults = s.faults } };
}

impl VecSink {
    /// An empty sink, whose calls with the numbers in `fail` are to fail.
    pub fn new(alloc: Global, fail: Vec<u64>) -> VecSink
        ensures { result ≡ record { bytes = []; fail = fail.items; calls = 0; faults = 0 } }
    {
        VecSink {
            bytes: Vec::new(alloc),
            fail,
            calls: 0,
            faults: 0,
        }
    }

    /// What was written so far.
    pub fn written(&self) -> &[u8]
        ensures { result.now ≡ self.now.bytes }
    {
        &self.bytes
    }
}

impl Sink for VecSink {
    ghost written = { λ s. Some s.bytes };

    ghost faults = { λ s. s.faults };

    fn write(&mut self, buf: &[u8]) -> Result<usize, Failed>
        ensures bound { WritesAtMost result buf.now }
        ensures some { TakesSome result buf.now }
        ensures bytes { WriteAppends (Some self.old.bytes) (Some self.new.bytes) result buf.now }
        ensures tells { TellsAsBefore (Some self.old.bytes) (Some self.new.bytes) }
        ensures cause { HasCause self.old.faults self.new.faults result }
        ensures one { OnErr result (self.new.faults ≡ raised self.old.faults 1) }
        // Every piece that is taken is taken whole.
        ensures whole { IfOk result (λ n. n ≡ length buf.now) }
        // A call whose number is in the list fails. So does one that finds no memory.
        ensures listed { Contains self.old.fail self.old.calls → IsErr result }
        ensures count { self.new.calls ≡ raised self.old.calls 1 }
        ensures fail { self.new.fail ≡ self.old.fail }
    {
        let number = self.calls;
        self.calls = number.saturating_add(1);
        if self.fail.contains(&number) || self.bytes.extend_from_slice(buf).is_err() {
            self.faults = self.faults.saturating_add(1);
            return Err(Failed);
        }
        Ok(buf.len())
    }
}
