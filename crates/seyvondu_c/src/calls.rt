//! What a call from C does, for each cipher. The order of the arguments is libaegis's.

ghost use Rattle.seyvondu_c.specs.Answers.{Sealed, Unsealed, Streamed};

use crate::lengths::{fit_keys, fit_seal};
use aegis_core::{
    Variant, seal_in_place, seal_into, stream_xor_in_place, unseal_in_place, unseal_into,
};

/// The call did what it is for.
pub(crate) const DONE: i32 = 1;

/// The tag is none of the text.
pub(crate) const WRONG_TAG: i32 = 0;

/// A length doesn't fit, and nothing was written.
pub(crate) const WRONG_LENGTH: i32 = -1;

/// Seals `m` into `c` and `mac`.
pub(crate) fn encrypt(
    variant: Variant,
    c: &mut [u8],
    mac: &mut [u8],
    m: &[u8],
    ad: &[u8],
    npub: &[u8],
    k: &[u8],
) -> i32
    ensures { Sealed variant k.now npub.now ad.now m.now c.old mac.old c.new mac.new result }
{
    if !fit_seal(variant, k, npub, ad, m, c, mac) {
        return WRONG_LENGTH;
    }
    seal_into(variant, k, npub, ad, m, c, mac);
    DONE
}

/// Seals `mc` in place, and its tag into `mac`.
pub(crate) fn encrypt_in_place(
    variant: Variant,
    mc: &mut [u8],
    mac: &mut [u8],
    ad: &[u8],
    npub: &[u8],
    k: &[u8],
) -> i32
    ensures { Sealed variant k.now npub.now ad.now mc.old mc.old mac.old mc.new mac.new result }
{
    if !fit_seal(variant, k, npub, ad, mc, mc, mac) {
        return WRONG_LENGTH;
    }
    seal_in_place(variant, k, npub, ad, mc, mac);
    DONE
}

/// Unseals `c` into `m`.
pub(crate) fn decrypt(
    variant: Variant,
    m: &mut [u8],
    c: &[u8],
    mac: &[u8],
    ad: &[u8],
    npub: &[u8],
    k: &[u8],
) -> i32
    ensures { Unsealed variant k.now npub.now ad.now c.now mac.now m.old m.new result }
{
    if !fit_seal(variant, k, npub, ad, c, m, mac) {
        return WRONG_LENGTH;
    }
    if unseal_into(variant, k, npub, ad, c, mac, m) {
        DONE
    } else {
        WRONG_TAG
    }
}

/// Unseals `mc` in place.
pub(crate) fn decrypt_in_place(
    variant: Variant,
    mc: &mut [u8],
    mac: &[u8],
    ad: &[u8],
    npub: &[u8],
    k: &[u8],
) -> i32
    ensures { Unsealed variant k.now npub.now ad.now mc.old mac.now mc.old mc.new result }
{
    if !fit_seal(variant, k, npub, ad, mc, mc, mac) {
        return WRONG_LENGTH;
    }
    if unseal_in_place(variant, k, npub, ad, mc, mac) {
        DONE
    } else {
        WRONG_TAG
    }
}

/// Adds the keystream to `mc`.
pub(crate) fn stream_xor(variant: Variant, mc: &mut [u8], npub: &[u8], k: &[u8]) -> i32
    ensures { Streamed variant k.now npub.now mc.old mc.new result }
{
    if !fit_keys(variant, k, npub) {
        return WRONG_LENGTH;
    }
    stream_xor_in_place(variant, k, npub, mc);
    DONE
}
