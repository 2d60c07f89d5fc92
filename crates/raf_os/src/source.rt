//! A source of `rand_core` as the random source of a file. It doesn't tell what it has left, and keeps the counts.
ghost use Rattle.std.specs.Prelude.{◌≡◌, None, true, false, length, IfErr, OnOk, OnErr};
ghost use Rattle.counts.specs.Counts.{raised, HasCause};
ghost use Rattle.raf_io.specs.Kinds.{kind_of};
ghost use Rattle.raf_io.specs.Source.{Takes, TakesAtMost, IsShort};

use raf_io::{Error, ErrorKind, RafRng};
use rand_core::TryRng;

/// A source that hands on what one of `rand_core` gives. A call of it that fails is a fault.
#[derive(Drop)]
pub struct OsRng<T: TryRng> {
    inner: T,
    faults: u64,
    asked: u64,
}

impl<T: TryRng> OsRng<T> {
    /// The source of what this one gives, of which nothing was asked.
    pub fn new(inner: T) -> OsRng<T>
        ensures inner { result.inner ≡ inner }
        ensures faults { result.faults ≡ 0 }
        ensures asked { result.asked ≡ 0 }
    {
        OsRng {
            inner,
            faults: 0,
            asked: 0,
        }
    }
}

impl<T: TryRng + Drop> RafRng for OsRng<T> {
    ghost left = { λ _. None };

    ghost faults = { λ s. s.faults };

    ghost asked = { λ s. s.asked };

    ghost exact = { false };

    fn fill(&mut self, buf: &mut [u8]) -> Result<(), Error>
        ensures taken { OnOk result (Takes None buf.new None) }
        ensures kept { OnErr result (TakesAtMost None (length buf.old) None) }
        ensures kind { IfErr result (λ e. kind_of e ≡ ErrorKind.Rng) }
        ensures cause { HasCause self.old.faults self.new.faults result }
        ensures short { false ≡ true → OnErr result (IsShort None (length buf.old)) }
        ensures asked { self.new.asked ≡ raised self.old.asked (length buf.old) }
        ensures one { OnErr result (self.new.faults ≡ raised self.old.faults 1) }
        // What is handed on is what the source may give.
        ensures given { OnOk result (T.may_fill self.old.inner buf.new self.new.inner) }
    {
        self.asked = self.asked.saturating_add(buf.len() as u64);
        match self.inner.try_fill_bytes(buf) {
            Ok(()) => Ok(()),
            Err(_) => {
                self.faults = self.faults.saturating_add(1);
                Err(Error::Rng)
            }
        }
    }
}
