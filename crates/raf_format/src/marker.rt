//! The algorithms of files as types.
ghost use Rattle.std.specs.Prelude.{◌≡◌, ℕ};
ghost use Rattle.aegis_core.specs.declared.variant.Variant.{Variant};
ghost use Rattle.raf_format.specs.Cipher.{id_of};

use crate::algorithm::Algorithm;
use crate::unprotected;
use aegis_128::{aegis128l, aegis128x2, aegis128x4};
use aegis_256::{aegis256, aegis256x2, aegis256x4};
use aegis_core::{
    CipherKind, LaneState, SoftLanes128, SoftLanes256, seal_in_place_with, seal_into_with,
    unseal_in_place_with, unseal_swapping_with,
};
use softaes::{Block, RoundBlock};
use std::marker::PhantomData;

/// A cipher with a number in a header.
pub trait Numbered<S: LaneState, const KEY_BYTES: usize>: CipherKind<S, KEY_BYTES> {
    /// The cipher's number.
    const ALG_ID: u8;

    ghost ALG_ID: { ℕ };

    ghost number: { ALG_ID ≡ id_of Self.variant };
}

/// The cipher `K` as the algorithm of a file, whose records are sealed over blocks `B`.
pub struct Marker<K, S, B, const KEY_BYTES: usize> {
    cipher: PhantomData<K>,
    lanes: PhantomData<S>,
    block: PhantomData<B>,
}

/// AEGIS-128L: number 1, keys and nonces of 16 bytes.
pub type Aegis128L = Marker<aegis128l::Kind, SoftLanes128, Block, 16>;

/// AEGIS-128X2: number 2, keys and nonces of 16 bytes.
pub type Aegis128X2 = Marker<aegis128x2::Kind, SoftLanes128, Block, 16>;

/// AEGIS-128X4: number 3, keys and nonces of 16 bytes.
pub type Aegis128X4 = Marker<aegis128x4::Kind, SoftLanes128, Block, 16>;

/// AEGIS-256: number 4, keys and nonces of 32 bytes.
pub type Aegis256 = Marker<aegis256::Kind, SoftLanes256, Block, 32>;

/// AEGIS-256X2: number 5, keys and nonces of 32 bytes.
pub type Aegis256X2 = Marker<aegis256x2::Kind, SoftLanes256, Block, 32>;

/// AEGIS-256X4: number 6, keys and nonces of 32 bytes.
pub type Aegis256X4 = Marker<aegis256x4::Kind, SoftLanes256, Block, 32>;

impl Numbered<SoftLanes128, 16> for aegis128l::Kind {
    ghost use Rattle.std.proofs.Common.{refl};

    const ALG_ID: u8 = 1;

    ghost ALG_ID = { 1 };

    ghost number = { refl };
}

impl Numbered<SoftLanes128, 16> for aegis128x2::Kind {
    ghost use Rattle.std.proofs.Common.{refl};

    const ALG_ID: u8 = 2;

    ghost ALG_ID = { 2 };

    ghost number = { refl };
}

impl Numbered<SoftLanes128, 16> for aegis128x4::Kind {
    ghost use Rattle.std.proofs.Common.{refl};

    const ALG_ID: u8 = 3;

    ghost ALG_ID = { 3 };

    ghost number = { refl };
}

impl Numbered<SoftLanes256, 32> for aegis256::Kind {
    ghost use Rattle.std.proofs.Common.{refl};

    const ALG_ID: u8 = 4;

    ghost ALG_ID = { 4 };

    ghost number = { refl };
}

impl Numbered<SoftLanes256, 32> for aegis256x2::Kind {
    ghost use Rattle.std.proofs.Common.{refl};

    const ALG_ID: u8 = 5;

    ghost ALG_ID = { 5 };

    ghost number = { refl };
}

impl Numbered<SoftLanes256, 32> for aegis256x4::Kind {
    ghost use Rattle.std.proofs.Common.{refl};

    const ALG_ID: u8 = 6;

    ghost ALG_ID = { 6 };

    ghost number = { refl };
}

impl<K: Numbered<S, KEY_BYTES>, S: LaneState, B: RoundBlock, const KEY_BYTES: usize> Algorithm
    for Marker<K, S, B, KEY_BYTES> {
    ghost use Rattle.std.proofs.Common.{sym};

    type Key = [u8; KEY_BYTES];

    const KEY_LEN: usize = KEY_BYTES;

    const ALG_ID: u8 = K::ALG_ID;

    const NONCE_LEN: usize = KEY_BYTES;

    ghost KEY_LEN = { KEY_BYTES };

    ghost ALG_ID = { K.ALG_ID };

    ghost NONCE_LEN = { KEY_BYTES };

    ghost variant = { K.variant };

    ghost key_list = { λ key. key };

    ghost numbers = { (K.number, sym K.nonce, sym K.key) };

    fn key_bytes(key: &[u8; KEY_BYTES]) -> &[u8] {
        key
    }

    fn key_from(bytes: &[u8]) -> [u8; KEY_BYTES] {
        let mut key = [0; KEY_BYTES];
        key.copy_from_slice(bytes);
        key
    }

    fn seal(key: &[u8; KEY_BYTES], nonce: &[u8], ad: &[u8], mc: &mut [u8], tag: &mut [u8]) {
        seal_in_place_with::<B>(K::variant(), key, nonce, ad, mc, tag)
    }

    fn unseal(key: &[u8; KEY_BYTES], nonce: &[u8], ad: &[u8], mc: &mut [u8], tag: &[u8]) -> bool {
        unseal_in_place_with::<B>(K::variant(), key, nonce, ad, mc, tag)
    }

    fn seal_into(
        key: &[u8; KEY_BYTES],
        nonce: &[u8],
        ad: &[u8],
        m: &[u8],
        c: &mut [u8],
        tag: &mut [u8],
    ) {
        seal_into_with::<B>(K::variant(), key, nonce, ad, m, c, tag)
    }

    fn unseal_swapping(
        key: &[u8; KEY_BYTES],
        nonce: &[u8],
        ad: &[u8],
        c: &mut [u8],
        tag: &[u8],
        m: &mut [u8],
    ) -> bool {
        unseal_swapping_with::<B>(K::variant(), key, nonce, ad, c, tag, m)
    }
}

/// Which cipher each marker is, for the proofs of callers. The call does nothing.
pub fn marker_variants()
    ensures aegis128l { ⟦<Aegis128L as Algorithm>⟧.variant ≡ Variant.Aegis128L }
    ensures aegis128x2 { ⟦<Aegis128X2 as Algorithm>⟧.variant ≡ Variant.Aegis128X2 }
    ensures aegis128x4 { ⟦<Aegis128X4 as Algorithm>⟧.variant ≡ Variant.Aegis128X4 }
    ensures aegis256 { ⟦<Aegis256 as Algorithm>⟧.variant ≡ Variant.Aegis256 }
    ensures aegis256x2 { ⟦<Aegis256X2 as Algorithm>⟧.variant ≡ Variant.Aegis256X2 }
    ensures aegis256x4 { ⟦<Aegis256X4 as Algorithm>⟧.variant ≡ Variant.Aegis256X4 }
    ensures tables_aegis128l { ⟦<unprotected::Aegis128L as Algorithm>⟧.variant ≡ Variant.Aegis128L }
    ensures tables_aegis128x2 { ⟦<unprotected::Aegis128X2 as Algorithm>⟧.variant ≡ Variant.Aegis128X2 }
    ensures tables_aegis128x4 { ⟦<unprotected::Aegis128X4 as Algorithm>⟧.variant ≡ Variant.Aegis128X4 }
    ensures tables_aegis256 { ⟦<unprotected::Aegis256 as Algorithm>⟧.variant ≡ Variant.Aegis256 }
    ensures tables_aegis256x2 { ⟦<unprotected::Aegis256X2 as Algorithm>⟧.variant ≡ Variant.Aegis256X2 }
    ensures tables_aegis256x4 { ⟦<unprotected::Aegis256X4 as Algorithm>⟧.variant ≡ Variant.Aegis256X4 }
{}
