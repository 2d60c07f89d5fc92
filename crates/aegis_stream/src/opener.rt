//! Opening a stream, in whatever pieces its bytes come.

ghost use Rattle.std.specs.Prelude.{◌≡◌, ◌+◌, ◌-◌, ◌++◌, ◌^◌, ◌<◌, ◌≤◌, List, ℕ, [], false, length, take, Some, None, Err, IfOk, IfErr};
ghost use Rattle.aegis_stream.specs.Opening.{Took, Feeds};
ghost use Rattle.aegis_stream.specs.declared.error.StreamError.{StreamError};

use crate::error::StreamError;
use crate::fed::Fed;
use crate::frame::PREFIX_BYTES;
use crate::unsealer::Unsealer;
use std::alloc::Global;
use std::fmt;
use std::marker::Model;

/// Opens a stream under a key. Its bytes may come in any pieces; a message comes out once the tag of its
/// frame was compared. Contracts see the key, the bytes that are kept, how many frames were opened, whether
/// the stream is ended, and the refusal that stands.
#[derive(Drop)]
pub struct Opener {
    key: [u8; 16],
    prefix: [u8; 8],
    prefix_len: usize,
    unsealer: Unsealer,
    refused: Option<StreamError>,
}

impl Model for Opener {
    ghost use Rattle.std.specs.Prelude.{◌≤◌, take};
    ghost use Rattle.aegis_stream.specs.Opening.{Opening};

    ghost Value = { Opening };

    ghost view = { λ o. record { key = o.key; prefix = take o.prefix_len o.prefix; begun = o.unsealer.begun; frames = o.unsealer.frames; ended = o.unsealer.ended; refused = o.refused } };

    ghost invariant = { λ o. o.prefix_len ≤ 8 };
}

impl Opener {
    /// A stream of which nothing was taken. The only refusal is `OutOfMemory`: room is made for the longest
    /// frame, and no other call takes memory.
    pub fn new(alloc: Global, key: &[u8; 16]) -> Result<Opener, StreamError>
        ensures now { IfOk result (λ o. o ≡ record { key = key.now; prefix = []; begun = []; frames = 0; ended = false; refused = None }) }
        ensures took { IfOk result (λ o. Took o []) }
        ensures refused { IfErr result (λ e. e ≡ StreamError.OutOfMemory) }
    {
        let Ok(unsealer) = Unsealer::new(alloc) else {
            return Err(StreamError::OutOfMemory);
        };
        Ok(Opener {
            key: *key,
            prefix: [0; 8],
            prefix_len: 0,
            unsealer,
            refused: None,
        })
    }

    /// How many frames were opened.
    pub fn frames(&self) -> u64
        ensures { result ≡ self.now.frames }
    {
        self.unsealer.frames()
    }

    /// Takes bytes of `input` up to the end of one frame or of the input, and writes the message of a frame
    /// to the front of `out`, which has at least 65536 bytes, once its tag was compared. Of an input that is
    /// not empty it takes at least one byte.
    ///
    /// It is refused exactly where the bytes taken so far and the input bring no further message, and the
    /// stream then stands so: `Frame`, the next frame's mark or length is there and none of a stream;
    /// `InvalidTag`, the next frame is whole and no message has its tag; `Trailing`, bytes follow the end. A
    /// refused call takes nothing and writes nothing, and every later one answers the same.
    pub fn feed(&mut self, input: &[u8], out: &mut [u8]) -> Result<Fed, StreamError>
        requires room { 65536 ≤ length out.old }
        requires frames { self.old.frames < 2 ^ 64 - 1 }
        ensures feeds { (taken : List ℕ) → Took self.old taken → Feeds self.old self.new taken input.now out.old out.new result }
        ensures stands { (e : StreamError) → self.old.refused ≡ Some e → result ≡ Err e }
    {
        if let Some(refusal) = self.refused {
            return Err(refusal);
        }
        let missing = PREFIX_BYTES - self.prefix_len;
        if input.len() < missing {
            let end = self.prefix_len + input.len();
            self.prefix[self.prefix_len..end].copy_from_slice(input);
            self.prefix_len = end;
            return Ok(Fed {
                taken: input.len(),
                written: 0,
                ended: false,
            });
        }
        let (front, rest) = input.split_at(missing);
        let prefix = completed(&self.prefix, self.prefix_len, front);
        match self.unsealer.feed(&self.key, &prefix, rest, out) {
            Ok(fed) => {
                self.prefix = prefix;
                self.prefix_len = PREFIX_BYTES;
                Ok(Fed {
                    taken: missing + fed.taken,
                    ..fed
                })
            }
            Err(refusal) => {
                self.refused = Some(refusal);
                Err(refusal)
            }
        }
    }
}

// The prefix whose first `len` bytes were there and whose others came now.
fn completed(prefix: &[u8; 8], len: usize, front: &[u8]) -> [u8; 8]
    requires { len + length front.now ≡ 8 }
    ensures { result ≡ take len prefix.now ++ front.now }
{
    let mut completed = *prefix;
    if !front.is_empty() {
        completed[len..].copy_from_slice(front);
    }
    completed
}

impl fmt::Debug for Opener {
    fn fmt<W: fmt::Write>(&self, f: &mut fmt::Formatter<W>) -> fmt::Result {
        f.debug_struct("Opener").finish_non_exhaustive()
    }
}
