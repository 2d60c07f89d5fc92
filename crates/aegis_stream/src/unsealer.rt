//! Opening the frames of a stream, one after another.

ghost use Rattle.std.specs.Prelude.{◌≡◌, ◌-◌, ◌^◌, ◌<◌, ◌≤◌, [], false, length, true, IfOk, IfErr};
ghost use Rattle.aegis_stream.specs.Progress.{Moves};

use crate::error::StreamError;
use crate::fed::Fed;
use crate::frame::{FRAME_BYTES, HEAD_BYTES, nonce};
use crate::head::read_head;
use crate::pending::Pending;
use std::alloc::{AllocError, Global};
use std::marker::Model;

// The frames of a stream, after its prefix. Contracts see how far they are opened.
#[derive(Drop)]
pub struct Unsealer {
    pending: Pending,
    frames: u64,
    ended: bool,
}

impl Model for Unsealer {
    ghost use Rattle.aegis_stream.specs.Progress.{Progress, IsBegun};

    ghost Value = { Progress };

    ghost view = { λ u. record { begun = u.pending; frames = u.frames; ended = u.ended } };

    ghost invariant = { λ u. IsBegun u.pending };
}

impl Unsealer {
    // No frame yet, and room for one.
    pub fn new(alloc: Global) -> Result<Unsealer, AllocError>
        ensures { IfOk result (λ u. u ≡ record { begun = []; frames = 0; ended = false }) }
    {
        Ok(Unsealer {
            pending: Pending::new(alloc)?,
            frames: 0,
            ended: false,
        })
    }

    pub fn frames(&self) -> u64
        ensures { result ≡ self.now.frames }
    {
        self.frames
    }

    // Takes bytes up to the end of a frame or of the input, and writes a frame's message once its tag fits.
    pub fn feed(
        &mut self,
        key: &[u8; 16],
        prefix: &[u8; 8],
        input: &[u8],
        out: &mut [u8],
    ) -> Result<Fed, StreamError>
        requires room { 65536 ≤ length out.old }
        requires frames { self.old.frames < 2 ^ 64 - 1 }
        ensures { Moves key.now prefix.now self.old self.new input.now out.old out.new result }
    {
        if self.ended {
            return past_end(input);
        }
        let begun = self.pending.len();
        let front = self.pending.fill(input, HEAD_BYTES);
        let head = match read_head(self.pending.bytes()) {
            Ok(Some(head)) => head,
            Ok(None) => {
                return Ok(kept(front));
            }
            Err(refusal) => {
                self.pending.truncate(begun);
                return Err(refusal);
            }
        };
        let rest = &input[front..];
        let missing = FRAME_BYTES + head.len - self.pending.len();
        if rest.len() < missing {
            let more = self.pending.fill(rest, FRAME_BYTES + head.len);
            return Ok(kept(front + more));
        }
        let nonce = nonce(prefix, self.frames);
        if !self
            .pending
            .open(key, &nonce, head.len, &rest[..missing], out)
        {
            self.pending.truncate(begun);
            return Err(StreamError::InvalidTag);
        }
        self.frames += 1;
        self.ended = head.last;
        Ok(Fed {
            taken: front + missing,
            written: head.len,
            ended: head.last,
        })
    }
}

// Bytes that bring no frame yet.
fn kept(taken: usize) -> Fed
    ensures { result ≡ record { taken = taken; written = 0; ended = false } }
{
    Fed {
        taken,
        written: 0,
        ended: false,
    }
}

// After the end no byte may follow.
fn past_end(input: &[u8]) -> Result<Fed, StreamError>
    ensures ok { IfOk result (λ fed. (input.now ≡ []) × (fed ≡ record { taken = 0; written = 0; ended = true })) }
    ensures refused { IfErr result (λ e. (0 < length input.now) × (e ≡ StreamError.Trailing)) }
{
    if input.is_empty() {
        Ok(Fed {
            taken: 0,
            written: 0,
            ended: true,
        })
    } else {
        Err(StreamError::Trailing)
    }
}
