//! A source and a sink of bytes: what is left of the one, what was written to the other, and how often they failed.
ghost use Rattle.std.specs.Prelude.{List, ℕ};
ghost use Rattle.std.specs.Io.{ReadsAtMost, WritesAtMost};
ghost use Rattle.std.specs.Io.KnownBytes.{ReadConsumes, WriteAppends};
ghost use Rattle.std.specs.declared.option.Option.{Option};
ghost use Rattle.counts.specs.Counts.{HasCause};
ghost use Rattle.program_io.specs.Streams.{TellsAsBefore, TakesSome};

/// A call that the source or the sink didn't carry out.
#[derive(Clone, Copy, Debug, PartialEq, Eq)]
pub struct Failed;

/// Where bytes come from.
pub trait Source {
    /// The bytes that are left, where the source tells them.
    ghost left: { Self → Option (List ℕ) };

    /// How often a read has failed. The count stops at 2^64 - 1.
    ghost faults: { Self → ℕ };

    /// Moves bytes from the front of what is left to the front of `buf`, and answers how many. Into a `buf` that
    /// isn't empty it moves none only at the end. A call that fails moves none and counts a fault.
    fn read(&mut self, buf: &mut [u8]) -> Result<usize, Failed>
        ensures bound { ReadsAtMost result buf.new }
        ensures bytes { ReadConsumes (left self.old) (left self.new) result buf.new }
        ensures tells { TellsAsBefore (left self.old) (left self.new) }
        ensures cause { HasCause (faults self.old) (faults self.new) result };
}

/// Where bytes go.
pub trait Sink {
    /// What was written so far, where the sink tells it.
    ghost written: { Self → Option (List ℕ) };

    /// How often a write has failed. The count stops at 2^64 - 1.
    ghost faults: { Self → ℕ };

    /// Appends the front of a piece, at least one byte of a piece that isn't empty, and answers how many. A call that
    /// fails appends nothing and counts a fault.
    fn write(&mut self, buf: &[u8]) -> Result<usize, Failed>
        ensures bound { WritesAtMost result buf.now }
        ensures some { TakesSome result buf.now }
        ensures bytes { WriteAppends (written self.old) (written self.new) result buf.now }
        ensures tells { TellsAsBefore (written self.old) (written self.new) }
        ensures cause { HasCause (faults self.old) (faults self.new) result };
}
