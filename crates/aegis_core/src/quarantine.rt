//! A lent destination whose bytes come out only at the end.

ghost use Rattle.std.specs.Prelude.{◌≡◌, ◌↔◌, ℕ, ◌+◌, ◌^◌, ◌<◌, ◌≤◌, ◌++◌, List, [], length, take, drop, IsOk, IfErr};
ghost use Rattle.aegis_core.specs.Family.{Family, cipher_text, keyed};
ghost use Rattle.aegis_core.specs.Pieces.{Holds, total_of};

use crate::error::Error;
use crate::lane_state::LaneState;
use crate::pieces::Pieces;
use std::marker::Model;

/// A destination, and how much of its front is written. Contracts see the written bytes, how many there may
/// be, and the bytes behind them, which stay as they were lent.
#[derive(Drop)]
pub struct Quarantine<'a> {
    buf: &'a mut [u8],
    len: usize,
}

impl<'a> Model for Quarantine<'a> {
    ghost use Rattle.std.specs.Prelude.{◌≤◌, length, take, drop};
    ghost use Rattle.aegis_core.specs.Written.{Written};

    ghost Value = { Written };

    ghost view = { λ q. record { bytes = take q.len q.buf.now; capacity = length q.buf.now; rest = drop q.len q.buf.now } };

    ghost invariant = { λ q. q.len ≤ length q.buf.now };
}

impl<'a> Quarantine<'a> {
    /// The destination, with nothing written.
    pub fn new(buf: &'a mut [u8]) -> Quarantine<'a>
        ensures bytes { result.bytes ≡ [] }
        ensures capacity { result.capacity ≡ length buf.old }
        ensures rest { result.rest ≡ buf.old }
    {
        Quarantine { buf, len: 0 }
    }

    /// Whether `len` more bytes have room: `OutputBufferTooSmall` exactly where they have not.
    pub fn fits(&self, len: usize) -> Result<(), Error>
        ensures ok { IsOk result ↔ (length self.now.bytes + len ≤ self.now.capacity) }
        ensures refused { IfErr result (λ e. e ≡ Error.OutputBufferTooSmall) }
    {
        if len <= self.buf.len() - self.len {
            Ok(())
        } else {
            Err(Error::OutputBufferTooSmall)
        }
    }

    /// Appends a piece that has room.
    pub fn put(&mut self, piece: &[u8])
        requires { length self.old.bytes + length piece.now ≤ self.old.capacity }
        ensures bytes { self.new.bytes ≡ self.old.bytes ++ piece.now }
        ensures capacity { self.new.capacity ≡ self.old.capacity }
        ensures rest { self.new.rest ≡ drop (length piece.now) self.old.rest }
    {
        let end = self.len + piece.len();
        self.buf[self.len..end].copy_from_slice(piece);
        self.len = end;
    }

    // Appends the decryption of a piece that has room.
    pub(crate) fn put_decrypted<S: LaneState>(&mut self, pieces: &mut Pieces<S>, piece: &[u8])
        requires room { length self.old.bytes + length piece.now ≤ self.old.capacity }
        requires fits { total_of pieces.old + length piece.now < 2 ^ 61 }
        ensures capacity { self.new.capacity ≡ self.old.capacity }
        ensures rest { self.new.rest ≡ drop (length piece.now) self.old.rest }
        ensures long { length self.new.bytes ≡ length self.old.bytes + length piece.now }
        ensures total { total_of pieces.new ≡ total_of pieces.old + length piece.now }
        ensures holds { (f : Family) (key nonce ad : List ℕ) → Holds S.family S.lanes f pieces.old key nonce ad self.old.bytes
            → Holds S.family S.lanes f pieces.new key nonce ad self.new.bytes }
        ensures text { (f : Family) (key nonce ad : List ℕ) → Holds S.family S.lanes f pieces.old key nonce ad self.old.bytes
            → piece.now ≡ drop (length self.old.bytes) (cipher_text f (keyed f key nonce ad) self.new.bytes) }
        ensures prefix { take (length self.old.bytes) self.new.bytes ≡ self.old.bytes }
    {
        let end = self.len + piece.len();
        self.buf[self.len..end].copy_from_slice(piece);
        pieces.decrypt(&mut self.buf[self.len..end]);
        self.len = end;
    }

    /// The written bytes.
    pub fn release(self) -> &'a mut [u8]
        ensures { result.now ≡ self.entry.bytes }
    {
        let Quarantine { buf, len } = self;
        &mut buf[..len]
    }

    // Overwrites the written bytes with zeros and forgets them.
    pub(crate) fn zero(&mut self)
        ensures bytes { self.new.bytes ≡ [] }
        ensures capacity { self.new.capacity ≡ self.old.capacity }
    {
        let len = self.len;
        self.buf[..len].fill(0);
        self.len = 0;
    }
}
