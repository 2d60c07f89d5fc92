//! The calls that the six ciphers share.

ghost use Rattle.std.specs.Prelude.{◌≡◌, ◌⊎◌, ◌^◌, ◌<◌, [], Some, None, IfOk, IfErr, OnOk, OnErr, length, replicate};
ghost use Rattle.aes_spec.specs.Bytes.{xor_bytes};
ghost use Rattle.aegis_core.specs.Sealing.{seal, stream, Unseals};
ghost use Rattle.aegis_core.specs.Ciphers.{key_of, nonce_of, RefusesText};
ghost use Rattle.aegis_core.specs.Streams.{Encrypts, Decrypts, encrypted_total, decrypted_total};
ghost use Rattle.aegis_core.specs.Streams.{decrypted_bytes, decrypted_rest, decrypted_room};

use crate::decryptor::Decryptor;
use crate::encryptor::Encryptor;
use crate::error::Error;
use crate::kind::CipherKind;
use crate::lane_state::LaneState;
use crate::sealing::{seal_in_place, unseal_in_place};
use crate::sealing_into::{seal_into, unseal_into};
use crate::streaming::{stream_in_place, stream_xor_in_place};
use std::alloc::Global;
use std::fmt;
use std::marker::PhantomData;

/// A cipher with its key and nonce, and with tags of `TAG_BYTES` bytes, 16 or 32. Associated data and
/// message have at most 2^61 - 1 bytes.
#[derive(Clone, Copy)]
pub struct Cipher<K, S, const KEY_BYTES: usize, const TAG_BYTES: usize> {
    key: [u8; KEY_BYTES],
    nonce: [u8; KEY_BYTES],
    kind: PhantomData<K>,
    lanes: PhantomData<S>,
}

impl<
    K: CipherKind<S, KEY_BYTES>,
    S: LaneState,
    const KEY_BYTES: usize,
    const TAG_BYTES: usize,
> Cipher<K, S, KEY_BYTES, TAG_BYTES> {
    /// The cipher under this key and nonce.
    pub fn new(key: &[u8; KEY_BYTES], nonce: &[u8; KEY_BYTES]) -> Self
        ensures key { key_of result ≡ key.now }
        ensures nonce { nonce_of result ≡ nonce.now }
    {
        Cipher {
            key: *key,
            nonce: *nonce,
            kind: PhantomData,
            lanes: PhantomData,
        }
    }

    /// Encrypts `mc` in place: afterwards it holds the cipher text of what it held, whose tag is the
    /// answer (AEGIS specification, "Authenticated Encryption").
    pub fn encrypt_in_place(self, mc: &mut [u8], ad: &[u8]) -> [u8; TAG_BYTES]
        requires tag_bytes { (TAG_BYTES ≡ 16) ⊎ (TAG_BYTES ≡ 32) }
        requires ad_len { length ad.now < 2 ^ 61 }
        requires mc_len { length mc.old < 2 ^ 61 }
        ensures { seal K.variant TAG_BYTES (key_of self) (nonce_of self) ad.now mc.old ≡ (mc.new, result) }
    {
        let mut tag = [0; TAG_BYTES];
        seal_in_place(K::variant(), &self.key, &self.nonce, ad, mc, &mut tag);
        tag
    }

    /// Encrypts `m` into `c`, which has as many bytes: afterwards it holds the cipher text of `m`, whose tag is
    /// the answer. It is `encrypt_in_place` without a copy of the message.
    pub fn encrypt_into(self, m: &[u8], c: &mut [u8], ad: &[u8]) -> [u8; TAG_BYTES]
        requires tag_bytes { (TAG_BYTES ≡ 16) ⊎ (TAG_BYTES ≡ 32) }
        requires ad_len { length ad.now < 2 ^ 61 }
        requires m_len { length m.now < 2 ^ 61 }
        requires room { length c.old ≡ length m.now }
        ensures { seal K.variant TAG_BYTES (key_of self) (nonce_of self) ad.now m.now ≡ (c.new, result) }
    {
        let mut tag = [0; TAG_BYTES];
        seal_into(K::variant(), &self.key, &self.nonce, ad, m, c, &mut tag);
        tag
    }

    /// The cipher text of `m`, and its tag. The only refusal is `OutOfMemory`.
    pub fn encrypt(
        self,
        alloc: Global,
        m: &[u8],
        ad: &[u8],
    ) -> Result<(Vec<u8>, [u8; TAG_BYTES]), Error>
        requires tag_bytes { (TAG_BYTES ≡ 16) ⊎ (TAG_BYTES ≡ 32) }
        requires ad_len { length ad.now < 2 ^ 61 }
        requires m_len { length m.now < 2 ^ 61 }
        ensures sealed { IfOk result (λ r. seal K.variant TAG_BYTES (key_of self) (nonce_of self) ad.now m.now ≡ (r.0.items, r.1)) }
        ensures text_len { IfOk result (λ r. length r.0.items ≡ length m.now) }
        ensures refused { IfErr result (λ e. e ≡ Error.OutOfMemory) }
    {
        let mut mc = m.to_vec(alloc).map_err(|_| Error::OutOfMemory)?;
        let tag = self.encrypt_in_place(&mut mc, ad);
        Ok((mc, tag))
    }

    /// Decrypts `mc` in place: the answer is Ok exactly where a message has this cipher text and tag,
    /// and `mc` then holds it. Else every byte of `mc` is 0xaa, and the refusal is `InvalidTag` (AEGIS
    /// specification, "Authenticated Decryption"; the byte is this project's own).
    pub fn decrypt_in_place(
        &self,
        mc: &mut [u8],
        tag: &[u8; TAG_BYTES],
        ad: &[u8],
    ) -> Result<(), Error>
        requires tag_bytes { (TAG_BYTES ≡ 16) ⊎ (TAG_BYTES ≡ 32) }
        requires ad_len { length ad.now < 2 ^ 61 }
        requires mc_len { length mc.old < 2 ^ 61 }
        ensures message { OnOk result (Unseals K.variant TAG_BYTES (key_of self.now) (nonce_of self.now) ad.now mc.old tag.now (Some mc.new)) }
        ensures none { OnErr result (Unseals K.variant TAG_BYTES (key_of self.now) (nonce_of self.now) ad.now mc.old tag.now None) }
        ensures erased { OnErr result (mc.new ≡ replicate (length mc.old) 0xaa) }
        ensures refused { IfErr result (λ e. e ≡ Error.InvalidTag) }
    {
        if unseal_in_place(K::variant(), &self.key, &self.nonce, ad, mc, tag) {
            Ok(())
        } else {
            Err(Error::InvalidTag)
        }
    }

    /// Decrypts `c` into `m`, which has as many bytes: the answer is Ok exactly where a message has this cipher
    /// text and tag, and `m` then holds it. Else every byte of `m` is 0xaa, and the refusal is `InvalidTag`.
    pub fn decrypt_into(
        &self,
        c: &[u8],
        m: &mut [u8],
        tag: &[u8; TAG_BYTES],
        ad: &[u8],
    ) -> Result<(), Error>
        requires tag_bytes { (TAG_BYTES ≡ 16) ⊎ (TAG_BYTES ≡ 32) }
        requires ad_len { length ad.now < 2 ^ 61 }
        requires c_len { length c.now < 2 ^ 61 }
        requires room { length m.old ≡ length c.now }
        ensures message { OnOk result (Unseals K.variant TAG_BYTES (key_of self.now) (nonce_of self.now) ad.now c.now tag.now (Some m.new)) }
        ensures none { OnErr result (Unseals K.variant TAG_BYTES (key_of self.now) (nonce_of self.now) ad.now c.now tag.now None) }
        ensures erased { OnErr result (m.new ≡ replicate (length m.old) 0xaa) }
        ensures refused { IfErr result (λ e. e ≡ Error.InvalidTag) }
    {
        if unseal_into(K::variant(), &self.key, &self.nonce, ad, c, tag, m) {
            Ok(())
        } else {
            Err(Error::InvalidTag)
        }
    }

    /// The message with this cipher text and tag. The refusal is `InvalidTag` exactly where there is
    /// none, unless it is `OutOfMemory`.
    pub fn decrypt(
        &self,
        alloc: Global,
        c: &[u8],
        tag: &[u8; TAG_BYTES],
        ad: &[u8],
    ) -> Result<Vec<u8>, Error>
        requires tag_bytes { (TAG_BYTES ≡ 16) ⊎ (TAG_BYTES ≡ 32) }
        requires ad_len { length ad.now < 2 ^ 61 }
        requires c_len { length c.now < 2 ^ 61 }
        ensures message { IfOk result (λ m. Unseals K.variant TAG_BYTES (key_of self.now) (nonce_of self.now) ad.now c.now tag.now (Some m.items)) }
        ensures message_len { IfOk result (λ m. length m.items ≡ length c.now) }
        ensures refused { IfErr result (RefusesText K.variant TAG_BYTES (key_of self.now) (nonce_of self.now) ad.now c.now tag.now) }
    {
        let mut mc = c.to_vec(alloc).map_err(|_| Error::OutOfMemory)?;
        self.decrypt_in_place(&mut mc, tag, ad)?;
        Ok(mc)
    }

    /// A message to be encrypted piece by piece, after this associated data of at most 2^61 - 1 bytes.
    pub fn encryptor(&self, associated_data: &[u8]) -> Encryptor<K, S, KEY_BYTES, TAG_BYTES>
        requires { length associated_data.now < 2 ^ 61 }
        ensures total { encrypted_total result ≡ 0 }
        ensures holds { Encrypts S.family S.lanes K.variant result (key_of self.now) (nonce_of self.now) associated_data.now [] }
    {
        Encryptor::start(&self.key, &self.nonce, associated_data)
    }

    /// A message to be decrypted piece by piece into `plaintext`, after this associated data of at most
    /// 2^61 - 1 bytes.
    pub fn decryptor<'a>(
        &self,
        associated_data: &[u8],
        plaintext: &'a mut [u8],
    ) -> Decryptor<'a, K, S, KEY_BYTES, TAG_BYTES>
        requires { length associated_data.now < 2 ^ 61 }
        ensures total { decrypted_total result ≡ 0 }
        ensures prefix { decrypted_bytes result ≡ [] }
        ensures room { decrypted_room result ≡ length plaintext.old }
        ensures rest { decrypted_rest result ≡ plaintext.old }
        ensures holds { Decrypts S.family S.lanes K.variant result (key_of self.now) (nonce_of self.now) associated_data.now [] }
    {
        Decryptor::start(&self.key, &self.nonce, associated_data, plaintext)
    }

    /// Fills `out` with the keystream: the cipher text of zeros (AEGIS specification, "AEGIS as a Stream
    /// Cipher").
    pub fn stream(self, out: &mut [u8])
        ensures { out.new ≡ stream K.variant (key_of self) (nonce_of self) (length out.old) }
    {
        stream_in_place(K::variant(), &self.key, &self.nonce, out);
    }

    /// Adds the keystream to `mc`; twice gives `mc` back.
    pub fn stream_xor_in_place(self, mc: &mut [u8])
        ensures { mc.new ≡ xor_bytes mc.old (stream K.variant (key_of self) (nonce_of self) (length mc.old)) }
    {
        stream_xor_in_place(K::variant(), &self.key, &self.nonce, mc);
    }

    /// `m` with the keystream added. The only refusal is `OutOfMemory`.
    pub fn stream_xor(self, alloc: Global, m: &[u8]) -> Result<Vec<u8>, Error>
        ensures added { IfOk result (λ c. c.items ≡ xor_bytes m.now (stream K.variant (key_of self) (nonce_of self) (length m.now))) }
        ensures text_len { IfOk result (λ c. length c.items ≡ length m.now) }
        ensures refused { IfErr result (λ e. e ≡ Error.OutOfMemory) }
    {
        let mut mc = m.to_vec(alloc).map_err(|_| Error::OutOfMemory)?;
        self.stream_xor_in_place(&mut mc);
        Ok(mc)
    }
}

impl<
    K: CipherKind<S, KEY_BYTES>,
    S: LaneState,
    const KEY_BYTES: usize,
    const TAG_BYTES: usize,
> fmt::Debug for Cipher<K, S, KEY_BYTES, TAG_BYTES> {
    fn fmt<W: fmt::Write>(&self, f: &mut fmt::Formatter<W>) -> fmt::Result {
        f.debug_struct(K::names().cipher).finish_non_exhaustive()
    }
}
