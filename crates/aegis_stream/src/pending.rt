//! The bytes of the frame that is begun.

ghost use Rattle.std.specs.Prelude.{◌≡◌, ℕ, ◌+◌, ◌-◌, ◌<◌, ◌≤◌, ◌++◌, List, [], min, length, take, drop, IfOk, Some, None};
ghost use Rattle.std.specs.Bool.{OnTrue, OnFalse};
ghost use Rattle.aegis_core.specs.Sealing.{Unseals};
ghost use Rattle.aegis_core.specs.declared.variant.Variant.TheVariants.{Aegis128L};

use crate::frame::{FRAME_BYTES, HEAD_BYTES, MESSAGE_BYTES};
use aegis_128::aegis128l::Aegis128L;
use std::alloc::{AllocError, Global};
use std::marker::Model;

// Room for the longest frame, and how much of it is filled. Contracts see the bytes that are filled in.
#[derive(Drop)]
pub struct Pending {
    buffer: Vec<u8>,
    filled: usize,
}

impl Model for Pending {
    ghost use Rattle.std.specs.Prelude.{◌≡◌, ◌≤◌, ℕ, List, length, take};

    ghost Value = { List ℕ };

    ghost view = { λ p. take p.filled p.buffer.items };

    ghost invariant = { λ p. (length p.buffer.items ≡ 65557) × (p.filled ≤ 65557) };
}

impl Pending {
    // Room for a frame, with nothing in it.
    pub fn new(alloc: Global) -> Result<Pending, AllocError>
        ensures { IfOk result (λ p. p ≡ []) }
    {
        Ok(Pending {
            buffer: vec![in alloc; 0; FRAME_BYTES + MESSAGE_BYTES]?,
            filled: 0,
        })
    }

    pub fn len(&self) -> usize
        ensures len { result ≡ length self.now }
        ensures most { result ≤ 65557 }
    {
        self.filled
    }

    pub fn bytes(&self) -> &[u8]
        ensures { result.now ≡ self.now }
    {
        &self.buffer[..self.filled]
    }

    // Appends bytes of `input` until there are `most` or the input is at its end, and gives how many.
    pub fn fill(&mut self, input: &[u8], most: usize) -> usize
        requires { most ≤ 65557 }
        ensures count { result ≡ min (most - length self.old) (length input.now) }
        ensures bytes { self.new ≡ self.old ++ take result input.now }
    {
        let count = most.saturating_sub(self.filled).min(input.len());
        if count == 0 {
            return 0;
        }
        let end = self.filled + count;
        self.buffer[self.filled..end].copy_from_slice(&input[..count]);
        self.filled = end;
        count
    }

    // Forgets all but the first `len` bytes.
    pub fn truncate(&mut self, len: usize)
        requires { len ≤ length self.old }
        ensures { self.new ≡ take len self.old }
    {
        self.filled = len;
    }

    // Opens the frame that begins with the bytes that are there and ends with `rest`, and whose message has `len`
    // bytes, into the front of `out`: whether a message has its cipher text and tag. Where none has, `out` stays,
    // and the head and the bytes that are there are as many as before at least.
    pub fn open(
        &mut self,
        key: &[u8; 16],
        nonce: &[u8; 16],
        len: usize,
        rest: &[u8],
        out: &mut [u8],
    ) -> bool
        requires head { 5 ≤ length self.old }
        requires whole { length self.old + length rest.now ≡ 21 + len }
        requires most { len ≤ 65536 }
        requires room { len ≤ length out.old }
        ensures message { OnTrue result (Unseals Aegis128L 16 key.now nonce.now (take 5 (self.old ++ rest.now)) (take len (drop 5 (self.old ++ rest.now)))
            (take 16 (drop (5 + len) (self.old ++ rest.now))) (Some (take len out.new))) }
        ensures emptied { OnTrue result (self.new ≡ []) }
        ensures none { OnFalse result (Unseals Aegis128L 16 key.now nonce.now (take 5 (self.old ++ rest.now)) (take len (drop 5 (self.old ++ rest.now)))
            (take 16 (drop (5 + len) (self.old ++ rest.now))) None) }
        ensures count { OnFalse result (length self.old ≤ length self.new) }
        ensures head { OnFalse result (take 5 self.new ≡ take 5 self.old) }
        ensures out { OnFalse result (out.new ≡ out.old) }
        ensures rest { drop len out.new ≡ drop len out.old }
    {
        if self.filled == HEAD_BYTES {
            return self.open_behind(key, nonce, len, rest, out);
        }
        self.fill(rest, FRAME_BYTES + len);
        self.open_filled(key, nonce, len, out)
    }

    // The same where the head alone is there: the message is decrypted on its way into the buffer.
    fn open_behind(
        &mut self,
        key: &[u8; 16],
        nonce: &[u8; 16],
        len: usize,
        rest: &[u8],
        out: &mut [u8],
    ) -> bool
        requires head { length self.old ≡ 5 }
        requires whole { length rest.now ≡ 16 + len }
        requires most { len ≤ 65536 }
        requires room { len ≤ length out.old }
        ensures message { OnTrue result (Unseals Aegis128L 16 key.now nonce.now self.old (take len rest.now) (drop len rest.now) (Some (take len out.new))) }
        ensures emptied { OnTrue result (self.new ≡ []) }
        ensures none { OnFalse result (Unseals Aegis128L 16 key.now nonce.now self.old (take len rest.now) (drop len rest.now) None) }
        ensures stays { OnFalse result (self.new ≡ self.old) }
        ensures out { OnFalse result (out.new ≡ out.old) }
        ensures rest { drop len out.new ≡ drop len out.old }
    {
        let (text, end) = rest.split_at(len);
        let mut tag = [0u8; 16];
        tag.copy_from_slice(end);
        let (head, room) = self.buffer.split_at_mut(HEAD_BYTES);
        let (message, _) = room.split_at_mut(len);
        match Aegis128L::<16>::new(key, nonce).decrypt_into(text, message, &tag, head) {
            Ok(()) => {
                out[..len].copy_from_slice(message);
                self.filled = 0;
                true
            }
            Err(_) => false,
        }
    }

    // The same where the frame is there whole.
    fn open_filled(&mut self, key: &[u8; 16], nonce: &[u8; 16], len: usize, out: &mut [u8]) -> bool
        requires whole { length self.old ≡ 21 + len }
        requires room { len ≤ length out.old }
        ensures message { OnTrue result (Unseals Aegis128L 16 key.now nonce.now (take 5 self.old) (take len (drop 5 self.old)) (take 16 (drop (5 + len) self.old)) (Some (take len out.new))) }
        ensures emptied { OnTrue result (self.new ≡ []) }
        ensures none { OnFalse result (Unseals Aegis128L 16 key.now nonce.now (take 5 self.old) (take len (drop 5 self.old)) (take 16 (drop (5 + len) self.old)) None) }
        ensures count { OnFalse result (length self.new ≡ length self.old) }
        ensures head { OnFalse result (take 5 self.new ≡ take 5 self.old) }
        ensures out { OnFalse result (out.new ≡ out.old) }
        ensures rest { drop len out.new ≡ drop len out.old }
    {
        let (head, rest) = self.buffer.split_at_mut(HEAD_BYTES);
        let (text, rest) = rest.split_at_mut(len);
        let mut tag = [0u8; 16];
        tag.copy_from_slice(&rest[..16]);
        match Aegis128L::<16>::new(key, nonce).decrypt_in_place(text, &tag, head) {
            Ok(()) => {
                out[..len].copy_from_slice(text);
                self.filled = 0;
                true
            }
            Err(_) => false,
        }
    }
}
