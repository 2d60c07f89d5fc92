//! AEGIS-256X2 for C (AEGIS specification, "Parallel Modes").

ghost use Rattle.aegis_core.specs.declared.variant.Variant.TheVariants.{Aegis256X2};
ghost use Rattle.seyvondu_c.specs.Answers.{Sealed, Unsealed, Tagged, Compared, Streamed};

use crate::{calls, macs};
use aegis_core::Variant;

/// Seals `m` into `c` and `mac`: 1, or -1 where a length doesn't fit.
#[unsafe(no_mangle)]
pub extern "C" fn aegis256x2_encrypt_detached(
    c: &mut [u8],
    mac: &mut [u8],
    m: &[u8],
    ad: &[u8],
    npub: &[u8],
    k: &[u8],
) -> i32
    ensures { Sealed Aegis256X2 k.now npub.now ad.now m.now c.old mac.old c.new mac.new result }
{
    calls::encrypt(Variant::Aegis256X2, c, mac, m, ad, npub, k)
}

/// Seals `mc` in place and its tag into `mac`: 1, or -1 where a length doesn't fit.
#[unsafe(no_mangle)]
pub extern "C" fn aegis256x2_encrypt_detached_in_place(
    mc: &mut [u8],
    mac: &mut [u8],
    ad: &[u8],
    npub: &[u8],
    k: &[u8],
) -> i32
    ensures { Sealed Aegis256X2 k.now npub.now ad.now mc.old mc.old mac.old mc.new mac.new result }
{
    calls::encrypt_in_place(Variant::Aegis256X2, mc, mac, ad, npub, k)
}

/// Unseals `c` into `m`: 1, 0 where no message has this cipher text and tag, or -1 where a length doesn't fit.
#[unsafe(no_mangle)]
pub extern "C" fn aegis256x2_decrypt_detached(
    m: &mut [u8],
    c: &[u8],
    mac: &[u8],
    ad: &[u8],
    npub: &[u8],
    k: &[u8],
) -> i32
    ensures { Unsealed Aegis256X2 k.now npub.now ad.now c.now mac.now m.old m.new result }
{
    calls::decrypt(Variant::Aegis256X2, m, c, mac, ad, npub, k)
}

/// Unseals `mc` in place: 1, 0 where no message has this cipher text and tag, or -1 where a length doesn't fit.
#[unsafe(no_mangle)]
pub extern "C" fn aegis256x2_decrypt_detached_in_place(
    mc: &mut [u8],
    mac: &[u8],
    ad: &[u8],
    npub: &[u8],
    k: &[u8],
) -> i32
    ensures { Unsealed Aegis256X2 k.now npub.now ad.now mc.old mac.now mc.old mc.new result }
{
    calls::decrypt_in_place(Variant::Aegis256X2, mc, mac, ad, npub, k)
}

/// Writes the tag of `text` into `mac`: 1, or -1 where a length doesn't fit. Its
/// values are this project's own.
#[unsafe(no_mangle)]
pub extern "C" fn aegis256x2_mac(mac: &mut [u8], text: &[u8], npub: &[u8], k: &[u8]) -> i32
    ensures { Tagged Aegis256X2 k.now npub.now text.now mac.old mac.new result }
{
    macs::tag(Variant::Aegis256X2, mac, text, npub, k)
}

/// Compares `mac` with the tag of `text`: 1, 0 where it is another, or -1 where a length doesn't fit.
#[unsafe(no_mangle)]
pub extern "C" fn aegis256x2_mac_verify(mac: &[u8], text: &[u8], npub: &[u8], k: &[u8]) -> i32
    ensures { Compared Aegis256X2 k.now npub.now text.now mac.now result }
{
    macs::verify(Variant::Aegis256X2, mac, text, npub, k)
}

/// Adds the keystream to `mc`: 1, or -1 where a length doesn't fit.
#[unsafe(no_mangle)]
pub extern "C" fn aegis256x2_stream_xor_in_place(mc: &mut [u8], npub: &[u8], k: &[u8]) -> i32
    ensures { Streamed Aegis256X2 k.now npub.now mc.old mc.new result }
{
    calls::stream_xor(Variant::Aegis256X2, mc, npub, k)
}
