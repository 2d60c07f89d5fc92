//! The MAC of a text that comes in pieces.

ghost use Rattle.std.specs.Prelude.{◌≡◌, ◌⊎◌, ◌↔◌, ℕ, ◌+◌, ◌^◌, ◌<◌, ◌++◌, List, [], length, replicate, IsTrue, IsOk, IfErr};
ghost use Rattle.aegis_core.specs.Sealing.{mac};
ghost use Rattle.aegis_core.specs.Streams.{Authenticates, mac_total};

use crate::crypt::are_same;
use crate::error::Error;
use crate::kind::CipherKind;
use crate::lane_state::LaneState;
use crate::pieces::Pieces;
use std::fmt;
use std::marker::PhantomData;

/// The MAC of a text that comes in pieces. However it was cut, the tag is that of the whole: the text is
/// absorbed as associated data is, and the last updates take in its length and the tag's, in bits. With one
/// lane it is the AEGIS specification's MAC, with two and four lanes its values are this project's own.
#[derive(Drop)]
pub struct Mac<K, S, const KEY_BYTES: usize, const TAG_BYTES: usize> {
    pieces: Pieces<S>,
    initial: S,
    kind: PhantomData<K>,
}

impl<K: CipherKind<S, KEY_BYTES>, S: LaneState, const KEY_BYTES: usize, const TAG_BYTES: usize> Mac<
    K,
    S,
    KEY_BYTES,
    TAG_BYTES,
> {
    /// The empty text under the nonce of zeros.
    pub fn new(key: &[u8; KEY_BYTES]) -> Self
        ensures total { mac_total result ≡ 0 }
        ensures holds { Authenticates S.family S.lanes K.variant result key.now (replicate KEY_BYTES 0) [] }
    {
        Mac::new_with_nonce(key, &[0; KEY_BYTES])
    }

    /// The empty text under this nonce.
    pub fn new_with_nonce(key: &[u8; KEY_BYTES], npub: &[u8; KEY_BYTES]) -> Self
        ensures total { mac_total result ≡ 0 }
        ensures holds { Authenticates S.family S.lanes K.variant result key.now npub.now [] }
    {
        let initial = K::lanes(key, npub);
        Mac {
            pieces: Pieces::start(initial, &[]),
            initial,
            kind: PhantomData,
        }
    }

    /// Whether `len` more bytes keep the total at most 2^61 - 1 bytes.
    pub fn fits(&self, len: usize) -> bool
        ensures { IsTrue result ↔ (mac_total self.now + len < 2 ^ 61) }
    {
        self.pieces.fits(len)
    }

    /// Takes in the next piece. The total stays at most 2^61 - 1 bytes (`fits` tells).
    pub fn update(&mut self, m: &[u8])
        requires { mac_total self.old + length m.now < 2 ^ 61 }
        ensures total { mac_total self.new ≡ mac_total self.old + length m.now }
        ensures holds { (key nonce text : List ℕ) → Authenticates S.family S.lanes K.variant self.old key nonce text
            → Authenticates S.family S.lanes K.variant self.new key nonce (text ++ m.now) }
    {
        self.pieces.absorb(m);
    }

    /// The tag of the text, 16 or 32 bytes.
    pub fn finalize(self) -> [u8; TAG_BYTES]
        requires { (TAG_BYTES ≡ 16) ⊎ (TAG_BYTES ≡ 32) }
        ensures { (key nonce text : List ℕ) → Authenticates S.family S.lanes K.variant self key nonce text
            → result ≡ mac K.variant TAG_BYTES key nonce text }
    {
        let mut tag = [0; TAG_BYTES];
        self.pieces.mac_tag(&mut tag);
        tag
    }

    /// The tag of the text; the MAC is then as after its constructor.
    pub fn finalize_and_reset(&mut self) -> [u8; TAG_BYTES]
        requires { (TAG_BYTES ≡ 16) ⊎ (TAG_BYTES ≡ 32) }
        ensures tag { (key nonce text : List ℕ) → Authenticates S.family S.lanes K.variant self.old key nonce text
            → result ≡ mac K.variant TAG_BYTES key nonce text }
        ensures total { mac_total self.new ≡ 0 }
        ensures holds { (key nonce text : List ℕ) → Authenticates S.family S.lanes K.variant self.old key nonce text
            → Authenticates S.family S.lanes K.variant self.new key nonce [] }
    {
        let mut tag = [0; TAG_BYTES];
        self.pieces.mac_tag(&mut tag);
        self.reset();
        tag
    }

    /// Ok exactly where this is the tag of the text; else `InvalidTag`.
    pub fn verify(self, tag: &[u8; TAG_BYTES]) -> Result<(), Error>
        requires { (TAG_BYTES ≡ 16) ⊎ (TAG_BYTES ≡ 32) }
        ensures ok { (key nonce text : List ℕ) → Authenticates S.family S.lanes K.variant self key nonce text
            → IsOk result ↔ (tag.now ≡ mac K.variant TAG_BYTES key nonce text) }
        ensures refused { IfErr result (λ e. e ≡ Error.InvalidTag) }
    {
        let expected = self.finalize();
        if are_same(tag, &expected) {
            Ok(())
        } else {
            Err(Error::InvalidTag)
        }
    }

    /// The empty text again, under the same key and nonce.
    pub fn reset(&mut self)
        ensures total { mac_total self.new ≡ 0 }
        ensures holds { (key nonce text : List ℕ) → Authenticates S.family S.lanes K.variant self.old key nonce text
            → Authenticates S.family S.lanes K.variant self.new key nonce [] }
    {
        self.pieces = Pieces::start(self.initial, &[]);
    }

    /// Another MAC of the same text.
    pub fn clone(&self) -> Self
        ensures { result ≡ self.now }
    {
        Mac {
            pieces: self.pieces,
            initial: self.initial,
            kind: PhantomData,
        }
    }
}

impl<
    K: CipherKind<S, KEY_BYTES>,
    S: LaneState,
    const KEY_BYTES: usize,
    const TAG_BYTES: usize,
> fmt::Debug for Mac<K, S, KEY_BYTES, TAG_BYTES> {
    fn fmt<W: fmt::Write>(&self, f: &mut fmt::Formatter<W>) -> fmt::Result {
        f.debug_struct(K::names().mac).finish_non_exhaustive()
    }
}
