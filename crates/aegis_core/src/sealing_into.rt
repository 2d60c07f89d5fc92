//! Sealing and unsealing into another place, for each cipher.

ghost use Rattle.std.specs.Bool.{OnTrue, OnFalse};
ghost use Rattle.std.specs.Prelude.{◌≡◌, ◌⊎◌, ◌^◌, ◌<◌, Some, None, length, replicate};
ghost use Rattle.aegis_core.specs.Sealing.{key_len, nonce_len, seal, Unseals};

use crate::crypt_into::{seal_lanes_into, unseal_lanes_into, unseal_lanes_swapping};
use crate::lane_count::LaneCount;
use crate::lanes128::Lanes128;
use crate::lanes256::Lanes256;
use crate::variant::Variant;
use softaes::{Block, RoundBlock};

/// Seals `m` into `c`, which has as many bytes, and its tag of 16 or 32 bytes into `tag`. Key and nonce have
/// the cipher's length; associated data and message have at most 2^61 - 1 bytes.
pub fn seal_into(
    variant: Variant,
    key: &[u8],
    nonce: &[u8],
    ad: &[u8],
    m: &[u8],
    c: &mut [u8],
    tag: &mut [u8],
)
    requires key { length key.now ≡ key_len variant }
    requires nonce { length nonce.now ≡ nonce_len variant }
    requires tag_len { (length tag.old ≡ 16) ⊎ (length tag.old ≡ 32) }
    requires ad_len { length ad.now < 2 ^ 61 }
    requires m_len { length m.now < 2 ^ 61 }
    requires room { length c.old ≡ length m.now }
    ensures { seal variant (length tag.old) key.now nonce.now ad.now m.now ≡ (c.new, tag.new) }
{
    seal_into_with::<Block>(variant, key, nonce, ad, m, c, tag)
}

/// `seal_into` over blocks of the type `B`, under the same conditions and with the same answer.
pub fn seal_into_with<B: RoundBlock>(
    variant: Variant,
    key: &[u8],
    nonce: &[u8],
    ad: &[u8],
    m: &[u8],
    c: &mut [u8],
    tag: &mut [u8],
)
    requires key { length key.now ≡ key_len variant }
    requires nonce { length nonce.now ≡ nonce_len variant }
    requires tag_len { (length tag.old ≡ 16) ⊎ (length tag.old ≡ 32) }
    requires ad_len { length ad.now < 2 ^ 61 }
    requires m_len { length m.now < 2 ^ 61 }
    requires room { length c.old ≡ length m.now }
    ensures { seal variant (length tag.old) key.now nonce.now ad.now m.now ≡ (c.new, tag.new) }
{
    match variant {
        Variant::Aegis128L => seal_lanes_into(
            &mut Lanes128::<B>::blank(LaneCount::One),
            key,
            nonce,
            ad,
            m,
            c,
            tag,
        ),
        Variant::Aegis128X2 => seal_lanes_into(
            &mut Lanes128::<B>::blank(LaneCount::Two),
            key,
            nonce,
            ad,
            m,
            c,
            tag,
        ),
        Variant::Aegis128X4 => seal_lanes_into(
            &mut Lanes128::<B>::blank(LaneCount::Four),
            key,
            nonce,
            ad,
            m,
            c,
            tag,
        ),
        Variant::Aegis256 => seal_lanes_into(
            &mut Lanes256::<B>::blank(LaneCount::One),
            key,
            nonce,
            ad,
            m,
            c,
            tag,
        ),
        Variant::Aegis256X2 => seal_lanes_into(
            &mut Lanes256::<B>::blank(LaneCount::Two),
            key,
            nonce,
            ad,
            m,
            c,
            tag,
        ),
        Variant::Aegis256X4 => seal_lanes_into(
            &mut Lanes256::<B>::blank(LaneCount::Four),
            key,
            nonce,
            ad,
            m,
            c,
            tag,
        ),
    }
}

/// Unseals `c` into `m`, which has as many bytes, under the same conditions as `seal_into`: whether there is a
/// message with this cipher text and tag, which then stands in `m`. Else every byte of `m` is 0xaa (this
/// project's own).
pub fn unseal_into(
    variant: Variant,
    key: &[u8],
    nonce: &[u8],
    ad: &[u8],
    c: &[u8],
    tag: &[u8],
    m: &mut [u8],
) -> bool
    requires key { length key.now ≡ key_len variant }
    requires nonce { length nonce.now ≡ nonce_len variant }
    requires tag_len { (length tag.now ≡ 16) ⊎ (length tag.now ≡ 32) }
    requires ad_len { length ad.now < 2 ^ 61 }
    requires c_len { length c.now < 2 ^ 61 }
    requires room { length m.old ≡ length c.now }
    ensures message { OnTrue result (Unseals variant (length tag.now) key.now nonce.now ad.now c.now tag.now (Some m.new)) }
    ensures none { OnFalse result (Unseals variant (length tag.now) key.now nonce.now ad.now c.now tag.now None) }
    ensures erased { OnFalse result (m.new ≡ replicate (length m.old) 0xaa) }
{
    unseal_into_with::<Block>(variant, key, nonce, ad, c, tag, m)
}

/// `unseal_into` over blocks of the type `B`, under the same conditions and with the same answer.
pub fn unseal_into_with<B: RoundBlock>(
    variant: Variant,
    key: &[u8],
    nonce: &[u8],
    ad: &[u8],
    c: &[u8],
    tag: &[u8],
    m: &mut [u8],
) -> bool
    requires key { length key.now ≡ key_len variant }
    requires nonce { length nonce.now ≡ nonce_len variant }
    requires tag_len { (length tag.now ≡ 16) ⊎ (length tag.now ≡ 32) }
    requires ad_len { length ad.now < 2 ^ 61 }
    requires c_len { length c.now < 2 ^ 61 }
    requires room { length m.old ≡ length c.now }
    ensures message { OnTrue result (Unseals variant (length tag.now) key.now nonce.now ad.now c.now tag.now (Some m.new)) }
    ensures none { OnFalse result (Unseals variant (length tag.now) key.now nonce.now ad.now c.now tag.now None) }
    ensures erased { OnFalse result (m.new ≡ replicate (length m.old) 0xaa) }
{
    match variant {
        Variant::Aegis128L => unseal_lanes_into(
            &mut Lanes128::<B>::blank(LaneCount::One),
            key,
            nonce,
            ad,
            c,
            tag,
            m,
        ),
        Variant::Aegis128X2 => unseal_lanes_into(
            &mut Lanes128::<B>::blank(LaneCount::Two),
            key,
            nonce,
            ad,
            c,
            tag,
            m,
        ),
        Variant::Aegis128X4 => unseal_lanes_into(
            &mut Lanes128::<B>::blank(LaneCount::Four),
            key,
            nonce,
            ad,
            c,
            tag,
            m,
        ),
        Variant::Aegis256 => unseal_lanes_into(
            &mut Lanes256::<B>::blank(LaneCount::One),
            key,
            nonce,
            ad,
            c,
            tag,
            m,
        ),
        Variant::Aegis256X2 => unseal_lanes_into(
            &mut Lanes256::<B>::blank(LaneCount::Two),
            key,
            nonce,
            ad,
            c,
            tag,
            m,
        ),
        Variant::Aegis256X4 => unseal_lanes_into(
            &mut Lanes256::<B>::blank(LaneCount::Four),
            key,
            nonce,
            ad,
            c,
            tag,
            m,
        ),
    }
}

/// Unseals `c` into `m`, which has as many bytes, over blocks of the type `B` and under the same conditions as `seal_into`: whether
/// there is a message with this cipher text and tag, which then stands in `m`. Else `m` is as it was. In both cases `c` has the bytes
/// that `m` had: a message is opened where it is wanted, and a wrong tag costs nothing there (this project's own).
pub fn unseal_swapping_with<B: RoundBlock>(
    variant: Variant,
    key: &[u8],
    nonce: &[u8],
    ad: &[u8],
    c: &mut [u8],
    tag: &[u8],
    m: &mut [u8],
) -> bool
    requires key { length key.now ≡ key_len variant }
    requires nonce { length nonce.now ≡ nonce_len variant }
    requires tag_len { (length tag.now ≡ 16) ⊎ (length tag.now ≡ 32) }
    requires ad_len { length ad.now < 2 ^ 61 }
    requires c_len { length c.old < 2 ^ 61 }
    requires room { length m.old ≡ length c.old }
    ensures message { OnTrue result (Unseals variant (length tag.now) key.now nonce.now ad.now c.old tag.now (Some m.new)) }
    ensures none { OnFalse result (Unseals variant (length tag.now) key.now nonce.now ad.now c.old tag.now None) }
    ensures stays { OnFalse result (m.new ≡ m.old) }
    ensures swapped { c.new ≡ m.old }
{
    match variant {
        Variant::Aegis128L => unseal_lanes_swapping(
            &mut Lanes128::<B>::blank(LaneCount::One),
            key,
            nonce,
            ad,
            c,
            tag,
            m,
        ),
        Variant::Aegis128X2 => unseal_lanes_swapping(
            &mut Lanes128::<B>::blank(LaneCount::Two),
            key,
            nonce,
            ad,
            c,
            tag,
            m,
        ),
        Variant::Aegis128X4 => unseal_lanes_swapping(
            &mut Lanes128::<B>::blank(LaneCount::Four),
            key,
            nonce,
            ad,
            c,
            tag,
            m,
        ),
        Variant::Aegis256 => unseal_lanes_swapping(
            &mut Lanes256::<B>::blank(LaneCount::One),
            key,
            nonce,
            ad,
            c,
            tag,
            m,
        ),
        Variant::Aegis256X2 => unseal_lanes_swapping(
            &mut Lanes256::<B>::blank(LaneCount::Two),
            key,
            nonce,
            ad,
            c,
            tag,
            m,
        ),
        Variant::Aegis256X4 => unseal_lanes_swapping(
            &mut Lanes256::<B>::blank(LaneCount::Four),
            key,
            nonce,
            ad,
            c,
            tag,
            m,
        ),
    }
}
