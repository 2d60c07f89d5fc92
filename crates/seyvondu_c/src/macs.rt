//! The MAC of a text in one call.

ghost use Rattle.std.specs.Prelude.{◌≡◌, ◌⊎◌, ◌^◌, ◌<◌, length, Decides};
ghost use Rattle.aegis_core.specs.Sealing.{key_len, nonce_len, mac};
ghost use Rattle.seyvondu_c.specs.Answers.{Tagged, Compared};

use crate::calls::{DONE, WRONG_LENGTH, WRONG_TAG};
use crate::lengths::fit_mac;
use aegis_128::{aegis128l, aegis128x2, aegis128x4};
use aegis_256::{aegis256, aegis256x2, aegis256x4};
use aegis_core::{CipherKind, Mac, SoftLanes128, SoftLanes256, Variant};

// The tag of a text by a cipher of the AEGIS-128 family.
fn short_key_tag<K: CipherKind<SoftLanes128, 16>, const TAG_BYTES: usize>(
    key: &[u8],
    nonce: &[u8],
    text: &[u8],
) -> [u8; TAG_BYTES]
    requires tag { (TAG_BYTES ≡ 16) ⊎ (TAG_BYTES ≡ 32) }
    requires key { length key.now ≡ 16 }
    requires nonce { length nonce.now ≡ 16 }
    requires short { length text.now < 2 ^ 61 }
    ensures { result ≡ mac K.variant TAG_BYTES key.now nonce.now text.now }
{
    let (mut key_bytes, mut nonce_bytes) = ([0; 16], [0; 16]);
    key_bytes.copy_from_slice(key);
    nonce_bytes.copy_from_slice(nonce);
    let mut taken = Mac::<K, SoftLanes128, 16, TAG_BYTES>::new_with_nonce(&key_bytes, &nonce_bytes);
    taken.update(text);
    taken.finalize()
}

// The tag of a text by a cipher of the AEGIS-256 family.
fn long_key_tag<K: CipherKind<SoftLanes256, 32>, const TAG_BYTES: usize>(
    key: &[u8],
    nonce: &[u8],
    text: &[u8],
) -> [u8; TAG_BYTES]
    requires tag { (TAG_BYTES ≡ 16) ⊎ (TAG_BYTES ≡ 32) }
    requires key { length key.now ≡ 32 }
    requires nonce { length nonce.now ≡ 32 }
    requires short { length text.now < 2 ^ 61 }
    ensures { result ≡ mac K.variant TAG_BYTES key.now nonce.now text.now }
{
    let (mut key_bytes, mut nonce_bytes) = ([0; 32], [0; 32]);
    key_bytes.copy_from_slice(key);
    nonce_bytes.copy_from_slice(nonce);
    let mut taken = Mac::<K, SoftLanes256, 32, TAG_BYTES>::new_with_nonce(&key_bytes, &nonce_bytes);
    taken.update(text);
    taken.finalize()
}

// Whether these bytes are the tag of a text by a cipher of the AEGIS-128 family. All of them are compared, wherever they differ.
fn is_short_key_tag<K: CipherKind<SoftLanes128, 16>, const TAG_BYTES: usize>(
    key: &[u8],
    nonce: &[u8],
    text: &[u8],
    tag: &[u8],
) -> bool
    requires tag { (TAG_BYTES ≡ 16) ⊎ (TAG_BYTES ≡ 32) }
    requires tag_len { length tag.now ≡ TAG_BYTES }
    requires key { length key.now ≡ 16 }
    requires nonce { length nonce.now ≡ 16 }
    requires short { length text.now < 2 ^ 61 }
    ensures { Decides result (tag.now ≡ mac K.variant TAG_BYTES key.now nonce.now text.now) }
{
    let (mut key_bytes, mut nonce_bytes) = ([0; 16], [0; 16]);
    key_bytes.copy_from_slice(key);
    nonce_bytes.copy_from_slice(nonce);
    let mut given = [0; TAG_BYTES];
    given.copy_from_slice(tag);
    let mut taken = Mac::<K, SoftLanes128, 16, TAG_BYTES>::new_with_nonce(&key_bytes, &nonce_bytes);
    taken.update(text);
    taken.verify(&given).is_ok()
}

// Whether these bytes are the tag of a text by a cipher of the AEGIS-256 family. All of them are compared, wherever they differ.
fn is_long_key_tag<K: CipherKind<SoftLanes256, 32>, const TAG_BYTES: usize>(
    key: &[u8],
    nonce: &[u8],
    text: &[u8],
    tag: &[u8],
) -> bool
    requires tag { (TAG_BYTES ≡ 16) ⊎ (TAG_BYTES ≡ 32) }
    requires tag_len { length tag.now ≡ TAG_BYTES }
    requires key { length key.now ≡ 32 }
    requires nonce { length nonce.now ≡ 32 }
    requires short { length text.now < 2 ^ 61 }
    ensures { Decides result (tag.now ≡ mac K.variant TAG_BYTES key.now nonce.now text.now) }
{
    let (mut key_bytes, mut nonce_bytes) = ([0; 32], [0; 32]);
    key_bytes.copy_from_slice(key);
    nonce_bytes.copy_from_slice(nonce);
    let mut given = [0; TAG_BYTES];
    given.copy_from_slice(tag);
    let mut taken = Mac::<K, SoftLanes256, 32, TAG_BYTES>::new_with_nonce(&key_bytes, &nonce_bytes);
    taken.update(text);
    taken.verify(&given).is_ok()
}

// The tag of a text.
fn tag_of<const TAG_BYTES: usize>(
    variant: Variant,
    key: &[u8],
    nonce: &[u8],
    text: &[u8],
) -> [u8; TAG_BYTES]
    requires tag { (TAG_BYTES ≡ 16) ⊎ (TAG_BYTES ≡ 32) }
    requires key { length key.now ≡ key_len variant }
    requires nonce { length nonce.now ≡ nonce_len variant }
    requires short { length text.now < 2 ^ 61 }
    ensures { result ≡ mac variant TAG_BYTES key.now nonce.now text.now }
{
    match variant {
        Variant::Aegis128L => short_key_tag::<aegis128l::Kind, TAG_BYTES>(key, nonce, text),
        Variant::Aegis128X2 => short_key_tag::<aegis128x2::Kind, TAG_BYTES>(key, nonce, text),
        Variant::Aegis128X4 => short_key_tag::<aegis128x4::Kind, TAG_BYTES>(key, nonce, text),
        Variant::Aegis256 => long_key_tag::<aegis256::Kind, TAG_BYTES>(key, nonce, text),
        Variant::Aegis256X2 => long_key_tag::<aegis256x2::Kind, TAG_BYTES>(key, nonce, text),
        Variant::Aegis256X4 => long_key_tag::<aegis256x4::Kind, TAG_BYTES>(key, nonce, text),
    }
}

// Whether these bytes are the tag of a text.
fn is_tag<const TAG_BYTES: usize>(
    variant: Variant,
    key: &[u8],
    nonce: &[u8],
    text: &[u8],
    tag: &[u8],
) -> bool
    requires tag { (TAG_BYTES ≡ 16) ⊎ (TAG_BYTES ≡ 32) }
    requires tag_len { length tag.now ≡ TAG_BYTES }
    requires key { length key.now ≡ key_len variant }
    requires nonce { length nonce.now ≡ nonce_len variant }
    requires short { length text.now < 2 ^ 61 }
    ensures { Decides result (tag.now ≡ mac variant TAG_BYTES key.now nonce.now text.now) }
{
    match variant {
        Variant::Aegis128L => is_short_key_tag::<aegis128l::Kind, TAG_BYTES>(key, nonce, text, tag),
        Variant::Aegis128X2 => is_short_key_tag::<aegis128x2::Kind, TAG_BYTES>(
            key, nonce, text, tag,
        ),
        Variant::Aegis128X4 => is_short_key_tag::<aegis128x4::Kind, TAG_BYTES>(
            key, nonce, text, tag,
        ),
        Variant::Aegis256 => is_long_key_tag::<aegis256::Kind, TAG_BYTES>(key, nonce, text, tag),
        Variant::Aegis256X2 => is_long_key_tag::<aegis256x2::Kind, TAG_BYTES>(
            key, nonce, text, tag,
        ),
        Variant::Aegis256X4 => is_long_key_tag::<aegis256x4::Kind, TAG_BYTES>(
            key, nonce, text, tag,
        ),
    }
}

/// Writes the tag of `text` into `mac`.
pub(crate) fn tag(variant: Variant, mac: &mut [u8], text: &[u8], npub: &[u8], k: &[u8]) -> i32
    ensures { Tagged variant k.now npub.now text.now mac.old mac.new result }
{
    if !fit_mac(variant, k, npub, text, mac) {
        return WRONG_LENGTH;
    }
    if mac.len() == 16 {
        mac.copy_from_slice(&tag_of::<16>(variant, k, npub, text));
    } else {
        mac.copy_from_slice(&tag_of::<32>(variant, k, npub, text));
    }
    DONE
}

/// Compares `mac` with the tag of `text`.
pub(crate) fn verify(variant: Variant, mac: &[u8], text: &[u8], npub: &[u8], k: &[u8]) -> i32
    ensures { Compared variant k.now npub.now text.now mac.now result }
{
    if !fit_mac(variant, k, npub, text, mac) {
        return WRONG_LENGTH;
    }
    let same = if mac.len() == 16 {
        is_tag::<16>(variant, k, npub, text, mac)
    } else {
        is_tag::<32>(variant, k, npub, text, mac)
    };
    if same { DONE } else { WRONG_TAG }
}
