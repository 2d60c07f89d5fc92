//! A random source that a seed decides.
ghost use Rattle.std.specs.Prelude.{◌≡◌, List, ℕ, length, None, true, Bool, IsOk, IfErr, OnOk, OnErr};
ghost use Rattle.raf_io.specs.Kinds.{kind_of};
ghost use Rattle.raf_io.specs.Source.{Takes, TakesAtMost, IsShort};
ghost use Rattle.counts.specs.Counts.{raised, HasCause};
ghost use Rattle.rand_core.specs.Steps.{stream_of, steps_u32};
ghost use Rattle.rand_core.specs.Stream.{fill_bytes};
ghost use Rattle.rand_chacha.specs.ChaCha.{next_word, of_seed};

use aegis::raf::{Error, ErrorKind, RafRng};
use rand_chacha::ChaCha20Rng;
use rand_core::{Rng, SeedableRng};

/// The generator ChaCha20, begun from a seed. It never fails, and doesn't tell its bytes.
#[derive(Drop)]
pub struct SeedRng {
    generator: ChaCha20Rng,
    asked: u64,
}

impl SeedRng {
    /// The generator of this seed, of which nothing was asked.
    pub fn new(seed: [u8; 32]) -> SeedRng
        ensures asked { result.asked ≡ 0 }
        ensures generator { result.generator ≡ of_seed seed }
    {
        SeedRng {
            generator: ChaCha20Rng::from_seed(seed),
            asked: 0,
        }
    }
}

impl RafRng for SeedRng {
    ghost left = { λ _. None };

    ghost faults = { λ _. 0 };

    ghost asked = { λ s. s.asked };

    ghost exact = { true };

    fn fill(&mut self, buf: &mut [u8]) -> Result<(), Error>
        ensures taken { OnOk result (Takes None buf.new None) }
        ensures kept { OnErr result (TakesAtMost None (length buf.old) None) }
        ensures kind { IfErr result (λ e. kind_of e ≡ ErrorKind.Rng) }
        ensures cause { HasCause 0 0 result }
        ensures short { true ≡ true → OnErr result (IsShort None (length buf.old)) }
        ensures asked { self.new.asked ≡ raised self.old.asked (length buf.old) }
        // It never fails, and gives the generator's next bytes.
        ensures ok { IsOk result }
        ensures given { (buf.new, stream_of (steps_u32 (next_word 10)) self.new.generator)
            ≡ fill_bytes (length buf.new) (stream_of (steps_u32 (next_word 10)) self.old.generator) }
    {
        self.asked = self.asked.saturating_add(buf.len() as u64);
        self.generator.fill_bytes(buf);
        Ok(())
    }
}
