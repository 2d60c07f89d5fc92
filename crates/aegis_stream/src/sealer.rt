//! Sealing a stream, frame by frame.

ghost use Rattle.std.specs.Prelude.{◌≡◌, ◌↔◌, ◌+◌, ◌-◌, ◌^◌, ◌<◌, ◌≤◌, [], false, length, IsOk, IfOk, IfErr, OnErr};
ghost use Rattle.aegis_stream.specs.Sealing.{Spells, IsSealed};

use crate::error::StreamError;
use crate::frame::{FRAME_BYTES, write};
use std::fmt;
use std::marker::Model;

/// Seals a stream under a key: its prefix of 8 bytes, which no other stream under this key may have, and
/// then a frame for each message. Contracts see the key, the prefix, how many frames were sealed, and
/// whether the stream is ended.
#[derive(Drop)]
pub struct Sealer {
    key: [u8; 16],
    prefix: [u8; 8],
    frames: u64,
    ended: bool,
}

impl Model for Sealer {
    ghost use Rattle.aegis_stream.specs.Sealing.{Sealing};

    ghost Value = { Sealing };

    ghost view = { λ s. record { key = s.key; prefix = s.prefix; frames = s.frames; ended = s.ended } };
}

impl Sealer {
    /// A stream with no frame yet.
    pub fn new(key: &[u8; 16], prefix: &[u8; 8]) -> Sealer
        ensures now { result ≡ record { key = key.now; prefix = prefix.now; frames = 0; ended = false } }
        ensures stream { Spells result [] prefix.now }
    {
        Sealer {
            key: *key,
            prefix: *prefix,
            frames: 0,
            ended: false,
        }
    }

    /// Writes the stream's first 8 bytes, its prefix.
    pub fn begin(&self, out: &mut [u8; 8])
        ensures { out.new ≡ self.now.prefix }
    {
        *out = self.prefix;
    }

    /// How many frames were sealed.
    pub fn frames(&self) -> u64
        ensures { result ≡ self.now.frames }
    {
        self.frames
    }

    /// Writes the next frame to the front of `out` and gives its length, 21 bytes more than the piece's. The
    /// piece has 1 to 65536 bytes; it may be empty where it is the last one. The only refusal is
    /// `Finished`, exactly where the last piece was sealed; nothing changes then.
    pub fn seal(&mut self, piece: &[u8], last: bool, out: &mut [u8]) -> Result<usize, StreamError>
        requires most { length piece.now ≤ 65536 }
        requires some { last ≡ false → 0 < length piece.now }
        requires room { 21 + length piece.now ≤ length out.old }
        requires frames { self.old.frames < 2 ^ 64 - 1 }
        ensures sealed { IfOk result (IsSealed self.old self.new piece.now last out.old out.new) }
        ensures ok { IsOk result ↔ (self.old.ended ≡ false) }
        ensures refused { IfErr result (λ e. e ≡ StreamError.Finished) }
        ensures stays { OnErr result (self.new ≡ self.old) }
        ensures out { OnErr result (out.new ≡ out.old) }
    {
        if self.ended {
            return Err(StreamError::Finished);
        }
        let len = FRAME_BYTES + piece.len();
        write(
            &self.key,
            &self.prefix,
            self.frames,
            last,
            piece,
            &mut out[..len],
        );
        self.frames += 1;
        self.ended = last;
        Ok(len)
    }
}

impl fmt::Debug for Sealer {
    fn fmt<W: fmt::Write>(&self, f: &mut fmt::Formatter<W>) -> fmt::Result {
        f.debug_struct("Sealer").finish_non_exhaustive()
    }
}
