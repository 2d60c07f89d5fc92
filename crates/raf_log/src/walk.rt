//! Where the entries of a log begin, found in its bytes as they come in pieces.
ghost use Rattle.std.specs.Prelude.{◌≡◌, ◌+◌, ◌-◌, ◌^◌, ◌<◌, ◌≤◌, List, ℕ, length, take, drop, OnOk, true, false};
ghost use Rattle.raf_log.specs.Log.{Spaced};
ghost use Rattle.raf_log.specs.Walk.{Walked, Stands};

use std::alloc::{AllocError, Global};

/// The most bytes of an entry.
pub const ENTRY_BYTES: usize = 65536;

// The bytes of an entry's length.
pub const HEAD_BYTES: usize = 4;

// The most bytes of an entry's spelling.
pub const LINE_BYTES: usize = 65540;

// How far the entries are found: where they begin, where the next one would, and whether the bytes can still be a log.
#[derive(Drop)]
pub struct Walk {
    pub starts: Vec<u64>,
    pub next: u64,
    pub formed: bool,
}

impl Walk {
    // Nothing is found yet.
    pub fn new(alloc: Global) -> Walk
        ensures begins { (x : List ℕ) → Walked x result.starts.items result.next result.formed }
        ensures spaced { Spaced 0 result.starts.items result.next }
        ensures formed { (result.formed ≡ true) × (result.next ≡ 0) }
    {
        Walk {
            starts: Vec::new(alloc),
            next: 0,
            formed: true,
        }
    }

    // How many of the bytes between two places are those of a length that isn't there whole.
    pub fn cut(&self, at: u64, end: u64) -> usize
        requires order { at ≤ end }
        requires begins { self.now.formed ≡ true → at ≤ self.now.next }
        requires near { self.now.formed ≡ true → end < self.now.next + 4 }
        ensures most { (result < 4) × (result ≤ end - at) }
        ensures rest { self.now.formed ≡ true → end - result ≤ self.now.next }
    {
        if self.formed && self.next < end {
            (end - self.next) as usize
        } else {
            0
        }
    }

    // Takes the next length, which lies in the piece.
    fn step(&mut self, piece: &[u8], at: u64, size: u64) -> Result<(), AllocError>
        requires formed { self.old.formed ≡ true }
        requires begins { at ≤ self.old.next }
        requires inside { self.old.next + 4 ≤ at + length piece.now }
        requires within { at + length piece.now ≤ size }
        requires fits { size < 2 ^ 64 }
        ensures walked { (x : List ℕ) → Stands x piece.now at size → Walked x self.old.starts.items self.old.next true
            → OnOk result (Walked x self.new.starts.items self.new.next self.new.formed) }
        ensures spaced { Spaced 0 self.old.starts.items self.old.next → OnOk result (Spaced 0 self.new.starts.items self.new.next) }
        ensures most { self.new.formed ≡ true → self.new.next ≤ size }
        ensures onward { self.new.formed ≡ true → self.old.next < self.new.next }
    {
        let place = (self.next - at) as usize;
        let mut head = [0u8; 4];
        head.copy_from_slice(&piece[place..place + HEAD_BYTES]);
        let len = u64::from(u32::from_le_bytes(head));
        if len > ENTRY_BYTES as u64 || len > size - self.next - 4 {
            self.formed = false;
            return Ok(());
        }
        let start = self.next;
        self.next = start + 4 + len;
        self.starts.push(start)?;
        Ok(())
    }

    // Goes over the lengths that lie in a piece of the bytes, which are this many.
    pub fn over(&mut self, piece: &[u8], at: u64, size: u64) -> Result<(), AllocError>
        requires begins { self.old.formed ≡ true → (at ≤ self.old.next) × (self.old.next ≤ size) }
        requires within { at + length piece.now ≤ size }
        requires fits { size < 2 ^ 64 }
        ensures walked { (x : List ℕ) → Stands x piece.now at size → Walked x self.old.starts.items self.old.next self.old.formed
            → OnOk result (Walked x self.new.starts.items self.new.next self.new.formed) }
        ensures spaced { Spaced 0 self.old.starts.items self.old.next → OnOk result (Spaced 0 self.new.starts.items self.new.next) }
        ensures most { self.new.formed ≡ true → self.new.next ≤ size }
        ensures past { OnOk result (self.new.formed ≡ true → (at ≤ self.new.next) × (at + length piece.now < self.new.next + 4)) }
    {
        let end = at + piece.len() as u64;
        while self.formed && HEAD_BYTES as u64 <= size - self.next && self.next + 4 <= end {
            self.step(piece, at, size)?;
        }
        Ok(())
    }
}
