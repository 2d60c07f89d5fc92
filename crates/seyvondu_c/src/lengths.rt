//! Whether what a caller hands in has the lengths that a cipher takes.

ghost use Rattle.std.specs.Prelude.{◌≡◌, Decides};
ghost use Rattle.aegis_core.specs.Sealing.{key_len, nonce_len};
ghost use Rattle.seyvondu_c.specs.Lengths.{FitKeys, FitsTag, FitMac, FitSeal};

use aegis_core::Variant;

// How many bytes a key and a nonce have.
fn key_bytes(variant: Variant) -> usize
    ensures key { result ≡ key_len variant }
    ensures nonce { result ≡ nonce_len variant }
{
    match variant {
        Variant::Aegis128L | Variant::Aegis128X2 | Variant::Aegis128X4 => 16,
        Variant::Aegis256 | Variant::Aegis256X2 | Variant::Aegis256X4 => 32,
    }
}

/// Whether a key and a nonce have the cipher's lengths.
pub(crate) fn fit_keys(variant: Variant, key: &[u8], nonce: &[u8]) -> bool
    ensures { Decides result (FitKeys variant key.now nonce.now) }
{
    let len = key_bytes(variant);
    key.len() == len && nonce.len() == len
}

// Whether a tag has 16 or 32 bytes.
fn fits_tag(tag: &[u8]) -> bool
    ensures { Decides result (FitsTag tag.now) }
{
    tag.len() == 16 || tag.len() == 32
}

/// Whether a MAC takes these, with a tag of 16 or 32 bytes.
pub(crate) fn fit_mac(variant: Variant, key: &[u8], nonce: &[u8], text: &[u8], tag: &[u8]) -> bool
    ensures { Decides result (FitMac variant key.now nonce.now text.now tag.now) }
{
    fit_keys(variant, key, nonce) && fits_tag(tag) && text.len() < 1 << 61
}

/// Whether sealing and unsealing take these: a text, and room for as long an answer.
pub(crate) fn fit_seal(
    variant: Variant,
    key: &[u8],
    nonce: &[u8],
    ad: &[u8],
    text: &[u8],
    room: &[u8],
    tag: &[u8],
) -> bool
    ensures { Decides result (FitSeal variant key.now nonce.now ad.now text.now room.now tag.now) }
{
    fit_keys(variant, key, nonce)
        && fits_tag(tag)
        && ad.len() < 1 << 61
        && text.len() < 1 << 61
        && room.len() == text.len()
}
