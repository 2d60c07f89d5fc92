//! A message that is encrypted piece by piece.

ghost use Rattle.std.specs.Prelude.{◌≡◌, ◌⊎◌, ◌↔◌, ℕ, ◌+◌, ◌^◌, ◌<◌, ◌++◌, List, [], length, drop, IsTrue};
ghost use Rattle.aegis_core.specs.Sealing.{seal};
ghost use Rattle.aegis_core.specs.Streams.{Encrypts, encrypted_total};

use crate::kind::CipherKind;
use crate::lane_state::LaneState;
use crate::pieces::Pieces;
use std::fmt;
use std::marker::PhantomData;

/// A message that is encrypted piece by piece. However it was cut, cipher text and tag are those of
/// the whole (AEGIS specification, "Authenticated Encryption"). The state is overwritten when it is let go.
pub struct Encryptor<K, S: LaneState, const KEY_BYTES: usize, const TAG_BYTES: usize> {
    pieces: Pieces<S>,
    kind: PhantomData<K>,
}

impl<
    K: CipherKind<S, KEY_BYTES>,
    S: LaneState,
    const KEY_BYTES: usize,
    const TAG_BYTES: usize,
> Encryptor<K, S, KEY_BYTES, TAG_BYTES> {
    // The empty message under key and nonce, after associated data.
    pub(crate) fn start(
        key: &[u8; KEY_BYTES],
        nonce: &[u8; KEY_BYTES],
        associated_data: &[u8],
    ) -> Self
        requires { length associated_data.now < 2 ^ 61 }
        ensures total { encrypted_total result ≡ 0 }
        ensures holds { Encrypts S.family S.lanes K.variant result key.now nonce.now associated_data.now [] }
    {
        Encryptor {
            pieces: Pieces::start(K::lanes(key, nonce), associated_data),
            kind: PhantomData,
        }
    }

    /// Whether `len` more bytes keep the total at most 2^61 - 1 bytes.
    pub fn fits(&self, len: usize) -> bool
        ensures { IsTrue result ↔ (encrypted_total self.now + len < 2 ^ 61) }
    {
        self.pieces.fits(len)
    }

    /// Encrypts the next piece in place. The total stays at most 2^61 - 1 bytes (`fits` tells).
    pub fn update_in_place(&mut self, buffer: &mut [u8])
        requires { encrypted_total self.old + length buffer.old < 2 ^ 61 }
        ensures total { encrypted_total self.new ≡ encrypted_total self.old + length buffer.old }
        ensures holds { (key nonce ad m : List ℕ) → Encrypts S.family S.lanes K.variant self.old key nonce ad m
            → Encrypts S.family S.lanes K.variant self.new key nonce ad (m ++ buffer.old) }
        ensures text { (key nonce ad m : List ℕ) → Encrypts S.family S.lanes K.variant self.old key nonce ad m
            → buffer.new ≡ drop (length m) (seal K.variant TAG_BYTES key nonce ad (m ++ buffer.old)).0 }
    {
        self.pieces.encrypt(buffer);
    }

    /// Encrypts the next piece into a destination of its length. The total stays at most 2^61 - 1 bytes
    /// (`fits` tells).
    pub fn update(&mut self, plaintext: &[u8], ciphertext: &mut [u8])
        requires same { length plaintext.now ≡ length ciphertext.old }
        requires fits { encrypted_total self.old + length plaintext.now < 2 ^ 61 }
        ensures total { encrypted_total self.new ≡ encrypted_total self.old + length plaintext.now }
        ensures holds { (key nonce ad m : List ℕ) → Encrypts S.family S.lanes K.variant self.old key nonce ad m
            → Encrypts S.family S.lanes K.variant self.new key nonce ad (m ++ plaintext.now) }
        ensures text { (key nonce ad m : List ℕ) → Encrypts S.family S.lanes K.variant self.old key nonce ad m
            → ciphertext.new ≡ drop (length m) (seal K.variant TAG_BYTES key nonce ad (m ++ plaintext.now)).0 }
    {
        ciphertext.copy_from_slice(plaintext);
        self.update_in_place(ciphertext);
    }

    /// The tag of the message, 16 or 32 bytes.
    pub fn finalize(self) -> [u8; TAG_BYTES]
        requires { (TAG_BYTES ≡ 16) ⊎ (TAG_BYTES ≡ 32) }
        ensures { (key nonce ad m : List ℕ) → Encrypts S.family S.lanes K.variant self key nonce ad m
            → result ≡ (seal K.variant TAG_BYTES key nonce ad m).1 }
    {
        let mut tag = [0; TAG_BYTES];
        self.pieces.tag(&mut tag);
        tag
    }
}

impl<K, S: LaneState, const KEY_BYTES: usize, const TAG_BYTES: usize> Drop
    for Encryptor<K, S, KEY_BYTES, TAG_BYTES> {
    fn drop(mut self) {
        self.pieces.clear();
        let Encryptor { pieces: _, kind: _ } = self;
    }
}

impl<
    K: CipherKind<S, KEY_BYTES>,
    S: LaneState,
    const KEY_BYTES: usize,
    const TAG_BYTES: usize,
> fmt::Debug for Encryptor<K, S, KEY_BYTES, TAG_BYTES> {
    fn fmt<W: fmt::Write>(&self, f: &mut fmt::Formatter<W>) -> fmt::Result {
        f.debug_struct(K::names().encryptor).finish_non_exhaustive()
    }
}
