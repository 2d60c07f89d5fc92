//! The ciphers behind the traits.

ghost use Rattle.std.specs.Prelude.{◌≡◌, ◌⊎◌, ◌^◌, ◌<◌, length, replicate, Some, None, OnOk, OnErr};
ghost use Rattle.aegis_core.specs.Sealing.{seal, Unseals};
ghost use Rattle.aegis_aead.specs.Adapters.{held_key};

use crate::traits::{AeadCore, AeadError, AeadInOut, KeyInit, KeySizeUser, TagPosition};
use aegis_core::{Cipher, CipherKind, LaneState, SoftLanes128, SoftLanes256, Variant};
use std::marker::PhantomData;

/// A cipher under a key, with tags of `TAG_BYTES` bytes, as an AEAD.
#[derive(Clone, Copy)]
pub struct Adapter<K, S, const KEY_BYTES: usize, const TAG_BYTES: usize> {
    key: [u8; KEY_BYTES],
    kind: PhantomData<K>,
    lanes: PhantomData<S>,
}

/// AEGIS-128L with tags of `TAG_BYTES` bytes.
pub type Aegis128L<const TAG_BYTES: usize> = Adapter<
    aegis_128::aegis128l::Kind,
    SoftLanes128,
    16,
    TAG_BYTES,
>;

/// AEGIS-128X2 with tags of `TAG_BYTES` bytes.
pub type Aegis128X2<const TAG_BYTES: usize> = Adapter<
    aegis_128::aegis128x2::Kind,
    SoftLanes128,
    16,
    TAG_BYTES,
>;

/// AEGIS-128X4 with tags of `TAG_BYTES` bytes.
pub type Aegis128X4<const TAG_BYTES: usize> = Adapter<
    aegis_128::aegis128x4::Kind,
    SoftLanes128,
    16,
    TAG_BYTES,
>;

/// AEGIS-256 with tags of `TAG_BYTES` bytes.
pub type Aegis256<const TAG_BYTES: usize> = Adapter<
    aegis_256::aegis256::Kind,
    SoftLanes256,
    32,
    TAG_BYTES,
>;

/// AEGIS-256X2 with tags of `TAG_BYTES` bytes.
pub type Aegis256X2<const TAG_BYTES: usize> = Adapter<
    aegis_256::aegis256x2::Kind,
    SoftLanes256,
    32,
    TAG_BYTES,
>;

/// AEGIS-256X4 with tags of `TAG_BYTES` bytes.
pub type Aegis256X4<const TAG_BYTES: usize> = Adapter<
    aegis_256::aegis256x4::Kind,
    SoftLanes256,
    32,
    TAG_BYTES,
>;

/// Which cipher each adapter is, whatever its tags, for the proofs of callers. The call does nothing.
pub fn adapter_variants<const TAG_BYTES: usize>()
    ensures aegis128l { ⟦<Aegis128L<TAG_BYTES> as KeySizeUser>⟧.variant ≡ Variant.Aegis128L }
    ensures aegis128x2 { ⟦<Aegis128X2<TAG_BYTES> as KeySizeUser>⟧.variant ≡ Variant.Aegis128X2 }
    ensures aegis128x4 { ⟦<Aegis128X4<TAG_BYTES> as KeySizeUser>⟧.variant ≡ Variant.Aegis128X4 }
    ensures aegis256 { ⟦<Aegis256<TAG_BYTES> as KeySizeUser>⟧.variant ≡ Variant.Aegis256 }
    ensures aegis256x2 { ⟦<Aegis256X2<TAG_BYTES> as KeySizeUser>⟧.variant ≡ Variant.Aegis256X2 }
    ensures aegis256x4 { ⟦<Aegis256X4<TAG_BYTES> as KeySizeUser>⟧.variant ≡ Variant.Aegis256X4 }
{}

impl<
    K: CipherKind<S, KEY_BYTES>,
    S: LaneState,
    const KEY_BYTES: usize,
    const TAG_BYTES: usize,
> Adapter<K, S, KEY_BYTES, TAG_BYTES> {
    // Encrypts `input` into `output`.
    fn encrypt(
        &self,
        nonce: &[u8; KEY_BYTES],
        associated_data: &[u8],
        input: &[u8],
        output: &mut [u8],
    ) -> [u8; TAG_BYTES]
        requires tag_bytes { (TAG_BYTES ≡ 16) ⊎ (TAG_BYTES ≡ 32) }
        requires same { length input.now ≡ length output.old }
        requires ad_len { length associated_data.now < 2 ^ 61 }
        requires input_len { length input.now < 2 ^ 61 }
        ensures { seal K.variant TAG_BYTES (held_key self.now) nonce.now associated_data.now input.now ≡ (output.new, result) }
    {
        output.copy_from_slice(input);
        let cipher = Cipher::<K, S, KEY_BYTES, TAG_BYTES>::new(&self.key, nonce);
        cipher.encrypt_in_place(output, associated_data)
    }

    // Decrypts `input` into `output`, where it has this tag.
    fn decrypt(
        &self,
        nonce: &[u8; KEY_BYTES],
        associated_data: &[u8],
        input: &[u8],
        output: &mut [u8],
        tag: &[u8; TAG_BYTES],
    ) -> Result<(), AeadError>
        requires tag_bytes { (TAG_BYTES ≡ 16) ⊎ (TAG_BYTES ≡ 32) }
        requires same { length input.now ≡ length output.old }
        requires ad_len { length associated_data.now < 2 ^ 61 }
        requires input_len { length input.now < 2 ^ 61 }
        ensures message { OnOk result (Unseals K.variant TAG_BYTES (held_key self.now) nonce.now associated_data.now input.now tag.now (Some output.new)) }
        ensures none { OnErr result (Unseals K.variant TAG_BYTES (held_key self.now) nonce.now associated_data.now input.now tag.now None) }
        ensures erased { OnErr result (output.new ≡ replicate (length input.now) 0xaa) }
    {
        output.copy_from_slice(input);
        let answer = Cipher::<K, S, KEY_BYTES, TAG_BYTES>::new(&self.key, nonce).decrypt_in_place(
            output,
            tag,
            associated_data,
        );
        answer.map_err(|_| AeadError)
    }
}

impl<
    K: CipherKind<S, KEY_BYTES>,
    S: LaneState,
    const KEY_BYTES: usize,
    const TAG_BYTES: usize,
> KeySizeUser for Adapter<K, S, KEY_BYTES, TAG_BYTES> {
    type Key = [u8; KEY_BYTES];

    const KEY_SIZE: usize = KEY_BYTES;

    ghost KEY_SIZE = { KEY_BYTES };

    ghost variant = { K.variant };

    ghost key_bytes = { λ key. key };

    ghost held = { held_key };
}

impl<
    K: CipherKind<S, KEY_BYTES>,
    S: LaneState,
    const KEY_BYTES: usize,
    const TAG_BYTES: usize,
> KeyInit for Adapter<K, S, KEY_BYTES, TAG_BYTES> {
    ghost use Rattle.std.proofs.Common.{sym};

    ghost key_size = { sym K.key };

    fn new(key: &[u8; KEY_BYTES]) -> Self {
        Adapter {
            key: *key,
            kind: PhantomData,
            lanes: PhantomData,
        }
    }
}

impl<K: CipherKind<S, KEY_BYTES>, S: LaneState, const KEY_BYTES: usize> AeadCore
    for Adapter<K, S, KEY_BYTES, 16> {
    ghost use Rattle.std.proofs.Common.{refl, inl, sym};
    ghost use Rattle.aegis_aead.specs.declared.traits.TagPosition.TheVariants.{Postfix};

    type Nonce = [u8; KEY_BYTES];

    type Tag = [u8; 16];

    const NONCE_SIZE: usize = KEY_BYTES;

    const TAG_SIZE: usize = 16;

    const TAG_POSITION: TagPosition = TagPosition::Postfix;

    ghost NONCE_SIZE = { KEY_BYTES };

    ghost TAG_SIZE = { 16 };

    ghost TAG_POSITION = { Postfix };

    ghost nonce_bytes = { λ nonce. nonce };

    ghost tag_bytes = { λ tag. tag };

    ghost nonce_size = { sym K.nonce };

    ghost tag_size = { inl refl };
}

impl<K: CipherKind<S, KEY_BYTES>, S: LaneState, const KEY_BYTES: usize> AeadInOut
    for Adapter<K, S, KEY_BYTES, 16> {
    fn encrypt_inout_detached(
        &self,
        nonce: &[u8; KEY_BYTES],
        associated_data: &[u8],
        input: &[u8],
        output: &mut [u8],
    ) -> Result<[u8; 16], AeadError> {
        Ok(self.encrypt(nonce, associated_data, input, output))
    }

    fn decrypt_inout_detached(
        &self,
        nonce: &[u8; KEY_BYTES],
        associated_data: &[u8],
        input: &[u8],
        output: &mut [u8],
        tag: &[u8; 16],
    ) -> Result<(), AeadError> {
        self.decrypt(nonce, associated_data, input, output, tag)
    }
}

impl<K: CipherKind<S, KEY_BYTES>, S: LaneState, const KEY_BYTES: usize> AeadCore
    for Adapter<K, S, KEY_BYTES, 32> {
    ghost use Rattle.std.proofs.Common.{refl, inr, sym};
    ghost use Rattle.aegis_aead.specs.declared.traits.TagPosition.TheVariants.{Postfix};

    type Nonce = [u8; KEY_BYTES];

    type Tag = [u8; 32];

    const NONCE_SIZE: usize = KEY_BYTES;

    const TAG_SIZE: usize = 32;

    const TAG_POSITION: TagPosition = TagPosition::Postfix;

    ghost NONCE_SIZE = { KEY_BYTES };

    ghost TAG_SIZE = { 32 };

    ghost TAG_POSITION = { Postfix };

    ghost nonce_bytes = { λ nonce. nonce };

    ghost tag_bytes = { λ tag. tag };

    ghost nonce_size = { sym K.nonce };

    ghost tag_size = { inr refl };
}

impl<K: CipherKind<S, KEY_BYTES>, S: LaneState, const KEY_BYTES: usize> AeadInOut
    for Adapter<K, S, KEY_BYTES, 32> {
    fn encrypt_inout_detached(
        &self,
        nonce: &[u8; KEY_BYTES],
        associated_data: &[u8],
        input: &[u8],
        output: &mut [u8],
    ) -> Result<[u8; 32], AeadError> {
        Ok(self.encrypt(nonce, associated_data, input, output))
    }

    fn decrypt_inout_detached(
        &self,
        nonce: &[u8; KEY_BYTES],
        associated_data: &[u8],
        input: &[u8],
        output: &mut [u8],
        tag: &[u8; 32],
    ) -> Result<(), AeadError> {
        self.decrypt(nonce, associated_data, input, output, tag)
    }
}
