//! A message in pieces.

ghost use Rattle.std.specs.Prelude.{◌^◌, ◌<◌, ◌≤◌};

use crate::bytes::xor_into;
use crate::crypt::{absorb_all, absorb_tail};
use crate::lane_state::LaneState;
use crate::lanes128::Lanes128;
use crate::lanes256::Lanes256;
use crate::message_length::MOST;
use softaes::Block;
use std::alloc::AllocError;

/// A message that comes piece by piece: the lanes have taken in its whole blocks, and the bytes that
/// are left stand in front of a block.
pub struct Pieces<S> {
    lanes: S,
    block: [u8; 128],
    total: u64,
    ad_len: u64,
    ghost total_fits: { total < 2 ^ 61 },
    ghost ad_fits: { ad_len < 2 ^ 61 },
}

impl<S: Copy> Clone for Pieces<S> {
    ghost use Rattle.std.specs.Prelude.{◌≡◌, ⊤};

    ghost is_clone = { λ x y. y ≡ x };

    ghost is_infallible = { λ _. ⊤ };

    fn clone(&self) -> Result<Pieces<S>, AllocError> {
        Ok(*self)
    }
}

impl<S: Copy> Copy for Pieces<S> {}

impl<S: LaneState> Pieces<S> {
    ghost use Rattle.std.specs.Prelude.{◌≡◌, ◌⊎◌, ◌↔◌, ℕ, ◌+◌, ◌%◌, ◌++◌, List, [], length, drop, replicate, IsTrue};
    ghost use Rattle.aegis_core.specs.Family.{Family, absorbed, cipher_text, keyed, sealed_by, mac_by};
    ghost use Rattle.aegis_core.specs.Pieces.{Holds, total_of};

    /// The empty message, after associated data of at most 2^61 - 1 bytes, on lanes in their initial
    /// state.
    pub(crate) fn start(lanes: S, ad: &[u8]) -> Pieces<S>
        requires { length ad.now < 2 ^ 61 }
        ensures total { total_of result ≡ 0 }
        ensures holds { (key nonce : List ℕ) → S.lanes lanes ≡ (S.family lanes).initial key nonce
            → Holds S.family S.lanes (S.family lanes) result key nonce ad.now [] }
    {
        let mut lanes = lanes;
        absorb_all(&mut lanes, ad);
        Pieces {
            lanes,
            block: [0; 128],
            total: 0,
            ad_len: ad.len() as u64,
        }
    }

    /// Whether `len` more bytes keep the total at most 2^61 - 1 bytes.
    pub fn fits(&self, len: usize) -> bool
        ensures { IsTrue result ↔ (total_of self.now + len < 2 ^ 61) }
    {
        len as u64 <= MOST - self.total
    }

    // Takes in bytes that go no further than the block; a whole block goes straight through.
    fn take_in(&mut self, piece: &[u8])
        requires room { self.old.total % (S.family self.old.lanes).rate + length piece.now ≤ (S.family self.old.lanes).rate }
        requires fits { self.old.total + length piece.now < 2 ^ 61 }
        ensures total { self.new.total ≡ self.old.total + length piece.now }
        ensures same { S.family self.new.lanes ≡ S.family self.old.lanes }
        ensures holds { (f : Family) (key nonce ad m : List ℕ) → Holds S.family S.lanes f self.old key nonce ad m
            → Holds S.family S.lanes f self.new key nonce ad (m ++ piece.now) }
    {
        let rate = self.lanes.rate();
        if piece.len() == rate {
            self.lanes.absorb(piece);
            self.total += rate as u64;
            return;
        }
        let used = (self.total % rate as u64) as usize;
        self.block[used..used + piece.len()].copy_from_slice(piece);
        self.total += piece.len() as u64;
        if used + piece.len() == rate {
            self.lanes.absorb(&self.block[..rate]);
        }
    }

    // Encrypts bytes that go no further than the block; a whole block goes straight through.
    fn encrypt_part(&mut self, piece: &mut [u8])
        requires room { self.old.total % (S.family self.old.lanes).rate + length piece.old ≤ (S.family self.old.lanes).rate }
        requires fits { self.old.total + length piece.old < 2 ^ 61 }
        ensures total { self.new.total ≡ self.old.total + length piece.old }
        ensures same { S.family self.new.lanes ≡ S.family self.old.lanes }
        ensures holds { (f : Family) (key nonce ad m : List ℕ) → Holds S.family S.lanes f self.old key nonce ad m
            → Holds S.family S.lanes f self.new key nonce ad (m ++ piece.old) }
        ensures text { (f : Family) (key nonce ad m : List ℕ) → Holds S.family S.lanes f self.old key nonce ad m
            → piece.new ≡ drop (length m) (cipher_text f (keyed f key nonce ad) (m ++ piece.old)) }
    {
        let rate = self.lanes.rate();
        if piece.len() == rate {
            self.lanes.encrypt(piece);
            self.total += rate as u64;
            return;
        }
        let used = (self.total % rate as u64) as usize;
        let mut keystream = [0u8; 128];
        self.lanes.keystream(&mut keystream[..rate]);
        self.take_in(piece);
        xor_into(piece, &keystream[used..rate]);
    }

    // Decrypts bytes that go no further than the block; a whole block goes straight through.
    fn decrypt_part(&mut self, piece: &mut [u8])
        requires room { self.old.total % (S.family self.old.lanes).rate + length piece.old ≤ (S.family self.old.lanes).rate }
        requires fits { self.old.total + length piece.old < 2 ^ 61 }
        ensures total { self.new.total ≡ self.old.total + length piece.old }
        ensures same { S.family self.new.lanes ≡ S.family self.old.lanes }
        ensures holds { (f : Family) (key nonce ad m : List ℕ) → Holds S.family S.lanes f self.old key nonce ad m
            → Holds S.family S.lanes f self.new key nonce ad (m ++ piece.new) }
        ensures text { (f : Family) (key nonce ad m : List ℕ) → Holds S.family S.lanes f self.old key nonce ad m
            → piece.old ≡ drop (length m) (cipher_text f (keyed f key nonce ad) (m ++ piece.new)) }
    {
        let rate = self.lanes.rate();
        if piece.len() == rate {
            self.lanes.decrypt(piece);
            self.total += rate as u64;
            return;
        }
        let used = (self.total % rate as u64) as usize;
        let mut keystream = [0u8; 128];
        self.lanes.keystream(&mut keystream[..rate]);
        xor_into(piece, &keystream[used..rate]);
        self.take_in(piece);
    }

    /// Encrypts the next piece in place: the bytes of the whole cipher text (AEGIS specification,
    /// "Authenticated Encryption") from the bytes so far on. The total stays at most 2^61 - 1 bytes.
    pub fn encrypt(&mut self, piece: &mut [u8])
        requires { total_of self.old + length piece.old < 2 ^ 61 }
        ensures total { total_of self.new ≡ total_of self.old + length piece.old }
        ensures holds { (f : Family) (key nonce ad m : List ℕ) → Holds S.family S.lanes f self.old key nonce ad m
            → Holds S.family S.lanes f self.new key nonce ad (m ++ piece.old) }
        ensures text { (f : Family) (key nonce ad m : List ℕ) → Holds S.family S.lanes f self.old key nonce ad m
            → piece.new ≡ drop (length m) (cipher_text f (keyed f key nonce ad) (m ++ piece.old)) }
    {
        let rate = self.lanes.rate();
        let mut at = 0;
        'parts: while at < piece.len() {
            let used = (self.total % rate as u64) as usize;
            let n = (piece.len() - at).min(rate - used);
            self.encrypt_part(&mut piece[at..at + n]);
            at += n;
        }
    }

    /// Decrypts the next piece in place, as `encrypt` would have encrypted it. The total stays at most
    /// 2^61 - 1 bytes.
    pub fn decrypt(&mut self, piece: &mut [u8])
        requires { total_of self.old + length piece.old < 2 ^ 61 }
        ensures total { total_of self.new ≡ total_of self.old + length piece.old }
        ensures holds { (f : Family) (key nonce ad m : List ℕ) → Holds S.family S.lanes f self.old key nonce ad m
            → Holds S.family S.lanes f self.new key nonce ad (m ++ piece.new) }
        ensures text { (f : Family) (key nonce ad m : List ℕ) → Holds S.family S.lanes f self.old key nonce ad m
            → piece.old ≡ drop (length m) (cipher_text f (keyed f key nonce ad) (m ++ piece.new)) }
    {
        let rate = self.lanes.rate();
        let mut at = 0;
        'parts: while at < piece.len() {
            let used = (self.total % rate as u64) as usize;
            let n = (piece.len() - at).min(rate - used);
            self.decrypt_part(&mut piece[at..at + n]);
            at += n;
        }
    }

    /// Takes in the next piece of a text whose MAC is wanted. The total stays at most 2^61 - 1 bytes.
    pub fn absorb(&mut self, piece: &[u8])
        requires { total_of self.old + length piece.now < 2 ^ 61 }
        ensures total { total_of self.new ≡ total_of self.old + length piece.now }
        ensures holds { (f : Family) (key nonce ad m : List ℕ) → Holds S.family S.lanes f self.old key nonce ad m
            → Holds S.family S.lanes f self.new key nonce ad (m ++ piece.now) }
    {
        let rate = self.lanes.rate();
        let mut at = 0;
        'parts: while at < piece.len() {
            let used = (self.total % rate as u64) as usize;
            let n = (piece.len() - at).min(rate - used);
            self.take_in(&piece[at..at + n]);
            at += n;
        }
    }

    // Overwrites the state with zeros.
    pub(crate) fn clear(&mut self)
        ensures family { S.family self.new.lanes ≡ S.family self.old.lanes }
        ensures block { self.new.block ≡ replicate 128 0 }
        ensures total { self.new.total ≡ 0 }
        ensures ad_len { self.new.ad_len ≡ 0 }
    {
        self.lanes.clear();
        self.block = [0; 128];
        self.total = 0;
        self.ad_len = 0;
    }

    // The lanes after the last, short block.
    fn ended(&self) -> S
        ensures rate { 0 < (S.family self.now.lanes).rate }
        ensures ended { (f : Family) (key nonce ad m : List ℕ) → Holds S.family S.lanes f self.now key nonce ad m
            → (S.family result ≡ f) × (S.lanes result ≡ absorbed f (keyed f key nonce ad) m) }
    {
        let mut lanes = self.lanes;
        let rate = lanes.rate();
        let used = (self.total % rate as u64) as usize;
        absorb_tail(&mut lanes, &self.block[..used]);
        lanes
    }

    /// The tag of the message, of 16 or 32 bytes (AEGIS specification, "The Finalize Function").
    pub fn tag(self, tag: &mut [u8])
        requires { (length tag.old ≡ 16) ⊎ (length tag.old ≡ 32) }
        ensures { (f : Family) (key nonce ad m : List ℕ) → Holds S.family S.lanes f self key nonce ad m
            → tag.new ≡ (sealed_by f (length tag.old) key nonce ad m).1 }
    {
        self.ended().finalise(8 * self.ad_len, 8 * self.total, tag);
    }

    /// The MAC of the text that was taken in, of 16 or 32 bytes, on lanes that began
    /// without associated data.
    pub fn mac_tag(self, tag: &mut [u8])
        requires { (length tag.old ≡ 16) ⊎ (length tag.old ≡ 32) }
        ensures { (f : Family) (key nonce m : List ℕ) → Holds S.family S.lanes f self key nonce [] m
            → tag.new ≡ mac_by f (length tag.old) key nonce m }
    {
        self.ended()
            .finalise(8 * self.total, 8 * tag.len() as u64, tag);
    }
}

/// A message in pieces for the AEGIS-128 family.
pub type Pieces128 = Pieces<Lanes128<Block>>;

/// A message in pieces for the AEGIS-256 family.
pub type Pieces256 = Pieces<Lanes256<Block>>;

impl Pieces<Lanes128<Block>> {
    ghost use Rattle.std.specs.Prelude.{◌≡◌, [], length};
    ghost use Rattle.aegis_core.specs.Family.{family_128};
    ghost use Rattle.aegis_core.specs.Lanes.{IsLaneCount};
    ghost use Rattle.aegis_core.specs.Pieces.{Holds, total_of};

    /// The empty message on `lanes` lanes, 1, 2 or 4, under key and nonce, after associated data of at
    /// most 2^61 - 1 bytes.
    pub fn new(lanes: usize, key: &[u8; 16], nonce: &[u8; 16], ad: &[u8]) -> Pieces128
        requires lanes { IsLaneCount lanes }
        requires ad_len { length ad.now < 2 ^ 61 }
        ensures total { total_of result ≡ 0 }
        ensures holds { Holds ⟦<Lanes128<Block> as LaneState>⟧.family ⟦<Lanes128<Block> as LaneState>⟧.lanes (family_128 lanes) result key.now nonce.now ad.now [] }
    {
        Pieces::start(Lanes128::new(lanes, key, nonce), ad)
    }
}

impl Pieces<Lanes256<Block>> {
    ghost use Rattle.std.specs.Prelude.{◌≡◌, [], length};
    ghost use Rattle.aegis_core.specs.Family.{family_256};
    ghost use Rattle.aegis_core.specs.Lanes.{IsLaneCount};
    ghost use Rattle.aegis_core.specs.Pieces.{Holds, total_of};

    /// The empty message on `lanes` lanes, 1, 2 or 4, under key and nonce, after associated data of at
    /// most 2^61 - 1 bytes.
    pub fn new(lanes: usize, key: &[u8; 32], nonce: &[u8; 32], ad: &[u8]) -> Pieces256
        requires lanes { IsLaneCount lanes }
        requires ad_len { length ad.now < 2 ^ 61 }
        ensures total { total_of result ≡ 0 }
        ensures holds { Holds ⟦<Lanes256<Block> as LaneState>⟧.family ⟦<Lanes256<Block> as LaneState>⟧.lanes (family_256 lanes) result key.now nonce.now ad.now [] }
    {
        Pieces::start(Lanes256::new(lanes, key, nonce), ad)
    }
}
