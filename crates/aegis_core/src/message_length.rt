//! How long a message may be.

ghost use Rattle.std.specs.Prelude.{◌≡◌, ◌+◌, ◌^◌, ◌<◌, ⊤};

use crate::error::Error;
use std::alloc::AllocError;

// The most bytes that a message has, 2^61 - 1.
pub(crate) const MOST: u64 = 0x1fff_ffff_ffff_ffff;

/// The total length of a message that comes in pieces, in bytes.
pub struct MessageLength {
    total: u64,
    ghost in_range: { total < 2 ^ 61 },
}

impl Clone for MessageLength {
    ghost is_clone = { λ x y. y ≡ x };

    ghost is_infallible = { λ _. ⊤ };

    fn clone(&self) -> Result<MessageLength, AllocError> {
        Ok(*self)
    }
}

impl Copy for MessageLength {}

impl MessageLength {
    ghost use Rattle.std.specs.Prelude.{◌↔◌, IsTrue, IsOk, OnOk, OnErr, IfErr};
    ghost use Rattle.aegis_core.specs.MessageLength.{message_total};

    /// No bytes yet.
    pub fn new() -> MessageLength
        ensures { message_total result ≡ 0 }
    {
        MessageLength { total: 0 }
    }

    /// The total, in bytes.
    pub fn total(&self) -> u64
        ensures { result ≡ message_total self.now }
    {
        self.total
    }

    /// Whether the total with `len` more bytes is at most 2^61 - 1 bytes.
    pub fn fits(&self, len: usize) -> bool
        ensures { IsTrue result ↔ (message_total self.now + len < 2 ^ 61) }
    {
        len as u64 <= MOST - self.total
    }

    /// Adds `len` bytes to the total. `MessageTooLong` exactly where they do not fit; the total then
    /// stays.
    pub fn try_add(&mut self, len: usize) -> Result<(), Error>
        ensures ok { IsOk result ↔ (message_total self.old + len < 2 ^ 61) }
        ensures adds { OnOk result (message_total self.new ≡ message_total self.old + len) }
        ensures stays { OnErr result (self.new ≡ self.old) }
        ensures refused { IfErr result (λ e. e ≡ Error.MessageTooLong) }
    {
        if !self.fits(len) {
            return Err(Error::MessageTooLong);
        }
        self.total += len as u64;
        Ok(())
    }
}
