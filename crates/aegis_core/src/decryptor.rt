//! A cipher text that is decrypted piece by piece into a lent destination.

ghost use Rattle.std.specs.Prelude.{◌≡◌, ◌⊎◌, ◌↔◌, ℕ, ◌+◌, ◌^◌, ◌<◌, ◌≤◌, ◌++◌, List, []};
ghost use Rattle.std.specs.Prelude.{length, take, drop, Some, None, IsOk, IfOk, IfErr, OnOk, OnErr};
ghost use Rattle.aegis_core.specs.Sealing.{Unseals};
ghost use Rattle.aegis_core.specs.Streams.{Decrypts, decrypted_total, decrypted_bytes, decrypted_rest, decrypted_room, RefusesPiece};

use crate::crypt::are_same;
use crate::error::Error;
use crate::kind::CipherKind;
use crate::lane_state::LaneState;
use crate::pieces::Pieces;
use crate::quarantine::Quarantine;
use std::fmt;
use std::marker::PhantomData;

/// A cipher text that is decrypted piece by piece into a lent destination, whose bytes come out only
/// where the tag fits (AEGIS specification, "Authenticated Decryption"). The written bytes are
/// overwritten with zeros under a wrong tag and where it is let go without `finalize`. The state is
/// overwritten in each case.
pub struct Decryptor<'a, K, S: LaneState, const KEY_BYTES: usize, const TAG_BYTES: usize> {
    pieces: Pieces<S>,
    out: Quarantine<'a>,
    kind: PhantomData<K>,
}

impl<
    'a,
    K: CipherKind<S, KEY_BYTES>,
    S: LaneState,
    const KEY_BYTES: usize,
    const TAG_BYTES: usize,
> Decryptor<'a, K, S, KEY_BYTES, TAG_BYTES> {
    // The empty cipher text under key and nonce, after associated data, into `plaintext`.
    pub(crate) fn start(
        key: &[u8; KEY_BYTES],
        nonce: &[u8; KEY_BYTES],
        associated_data: &[u8],
        plaintext: &'a mut [u8],
    ) -> Self
        requires { length associated_data.now < 2 ^ 61 }
        ensures total { decrypted_total result ≡ 0 }
        ensures prefix { decrypted_bytes result ≡ [] }
        ensures room { decrypted_room result ≡ length plaintext.old }
        ensures rest { decrypted_rest result ≡ plaintext.old }
        ensures holds { Decrypts S.family S.lanes K.variant result key.now nonce.now associated_data.now [] }
    {
        Decryptor {
            pieces: Pieces::start(K::lanes(key, nonce), associated_data),
            out: Quarantine::new(plaintext),
            kind: PhantomData,
        }
    }

    /// Decrypts the next piece. `OutputBufferTooSmall` exactly where it has no room in the destination,
    /// else `MessageTooLong` exactly where the total would pass 2^61 - 1 bytes; a refusal changes nothing.
    pub fn update(&mut self, ciphertext: &[u8]) -> Result<(), Error>
        ensures ok { IsOk result ↔ ((length (decrypted_bytes self.old) + length ciphertext.now ≤ decrypted_room self.old)
            × (decrypted_total self.old + length ciphertext.now < 2 ^ 61)) }
        ensures refused { IfErr result (RefusesPiece (decrypted_room self.old) (length (decrypted_bytes self.old)) (decrypted_total self.old) (length ciphertext.now)) }
        ensures stays { OnErr result (self.new ≡ self.old) }
        ensures total { OnOk result (decrypted_total self.new ≡ decrypted_total self.old + length ciphertext.now) }
        ensures room { OnOk result (decrypted_room self.new ≡ decrypted_room self.old) }
        ensures long { OnOk result (length (decrypted_bytes self.new) ≡ length (decrypted_bytes self.old) + length ciphertext.now) }
        ensures rest { OnOk result (decrypted_rest self.new ≡ drop (length ciphertext.now) (decrypted_rest self.old)) }
        ensures kept { OnOk result (take (length (decrypted_bytes self.old)) (decrypted_bytes self.new) ≡ decrypted_bytes self.old) }
        ensures holds { (key nonce ad c : List ℕ) → Decrypts S.family S.lanes K.variant self.old key nonce ad c
            → OnOk result (Decrypts S.family S.lanes K.variant self.new key nonce ad (c ++ ciphertext.now)) }
    {
        self.out.fits(ciphertext.len())?;
        if !self.pieces.fits(ciphertext.len()) {
            return Err(Error::MessageTooLong);
        }
        self.out.put_decrypted(&mut self.pieces, ciphertext);
        Ok(())
    }

    /// The written bytes, which are the message, exactly where the pieces and the tag have one; else
    /// `InvalidTag`.
    pub fn finalize(self, tag: &[u8; TAG_BYTES]) -> Result<&'a mut [u8], Error>
        requires { (TAG_BYTES ≡ 16) ⊎ (TAG_BYTES ≡ 32) }
        ensures prefix { IfOk result (λ r. r.now ≡ decrypted_bytes self.entry) }
        ensures message { (key nonce ad c : List ℕ) → Decrypts S.family S.lanes K.variant self.entry key nonce ad c
            → IfOk result (λ r. Unseals K.variant TAG_BYTES key nonce ad c tag.now (Some r.now)) }
        ensures none { (key nonce ad c : List ℕ) → Decrypts S.family S.lanes K.variant self.entry key nonce ad c
            → OnErr result (Unseals K.variant TAG_BYTES key nonce ad c tag.now None) }
        ensures refused { IfErr result (λ e. e ≡ Error.InvalidTag) }
    {
        let Decryptor {
            mut pieces,
            mut out,
            kind: _,
        } = self;
        let mut expected = [0; TAG_BYTES];
        pieces.tag(&mut expected);
        pieces.clear();
        if are_same(&expected, tag) {
            Ok(out.release())
        } else {
            out.zero();
            Err(Error::InvalidTag)
        }
    }
}

impl<K, S: LaneState, const KEY_BYTES: usize, const TAG_BYTES: usize> Drop
    for Decryptor<'_, K, S, KEY_BYTES, TAG_BYTES> {
    fn drop(mut self) {
        self.out.zero();
        self.pieces.clear();
        let Decryptor {
            pieces: _,
            out: _,
            kind: _,
        } = self;
    }
}

impl<
    K: CipherKind<S, KEY_BYTES>,
    S: LaneState,
    const KEY_BYTES: usize,
    const TAG_BYTES: usize,
> fmt::Debug for Decryptor<'_, K, S, KEY_BYTES, TAG_BYTES> {
    fn fmt<W: fmt::Write>(&self, f: &mut fmt::Formatter<W>) -> fmt::Result {
        f.debug_struct(K::names().decryptor).finish_non_exhaustive()
    }
}
