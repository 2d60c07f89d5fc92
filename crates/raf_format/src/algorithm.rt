//! A cipher as the algorithm of a file.
ghost use Rattle.std.specs.Bool.{OnTrue, OnFalse};
ghost use Rattle.std.specs.Prelude.{◌≡◌, ◌^◌, ◌<◌, ◌≤◌, ◌⊎◌, List, ℕ, length, Some, None, replicate};
ghost use Rattle.aegis_core.specs.Sealing.{seal, Unseals, key_len, nonce_len};
ghost use Rattle.aegis_core.specs.declared.variant.Variant.{Variant};
ghost use Rattle.raf_format.specs.Cipher.{cipher_of, id_of};

/// An AEGIS cipher as the algorithm of a file. Other implementations than this crate's markers are excluded by convention. Keys and
/// nonces have `KEY_LEN` and `NONCE_LEN` bytes, tags 16 or 32; associated data and messages have at most 2^61 - 1.
pub trait Algorithm {
    /// A key.
    type Key: Copy;

    /// How many bytes a key has.
    const KEY_LEN: usize;

    /// The algorithm's number in a header.
    const ALG_ID: u8;

    /// How many bytes a nonce has.
    const NONCE_LEN: usize;

    ghost KEY_LEN: { ℕ };

    ghost ALG_ID: { ℕ };

    ghost NONCE_LEN: { ℕ };

    /// The AEGIS cipher that it is.
    ghost variant: { Variant };

    /// A key's bytes.
    ghost key_list: { Self.Key → List ℕ };

    /// A key's bytes.
    fn key_bytes(key: &Self::Key) -> &[u8]
        ensures is { result.now ≡ key_list key.now }
        ensures len { length result.now ≡ key_len variant };

    /// The key of these `KEY_LEN` bytes.
    fn key_from(bytes: &[u8]) -> Self::Key
        requires { length bytes.now ≡ key_len variant }
        ensures { key_list result ≡ bytes.now };

    /// Seals `mc` in place, and puts the tag into `tag`.
    fn seal(key: &Self::Key, nonce: &[u8], ad: &[u8], mc: &mut [u8], tag: &mut [u8])
        requires nonce { length nonce.now ≡ nonce_len variant }
        requires tag_len { (length tag.old ≡ 16) ⊎ (length tag.old ≡ 32) }
        requires ad_len { length ad.now < 2 ^ 61 }
        requires mc_len { length mc.old < 2 ^ 61 }
        ensures { seal variant (length tag.old) (key_list key.now) nonce.now ad.now mc.old ≡ (mc.new, tag.new) };

    /// Unseals `mc` in place: whether there is a message with this cipher text and tag, which then stands in `mc`. Else every byte of
    /// `mc` is 0xaa.
    fn unseal(key: &Self::Key, nonce: &[u8], ad: &[u8], mc: &mut [u8], tag: &[u8]) -> bool
        requires nonce { length nonce.now ≡ nonce_len variant }
        requires tag_len { (length tag.now ≡ 16) ⊎ (length tag.now ≡ 32) }
        requires ad_len { length ad.now < 2 ^ 61 }
        requires mc_len { length mc.old < 2 ^ 61 }
        ensures message { OnTrue result (Unseals variant (length tag.now) (key_list key.now) nonce.now ad.now mc.old tag.now (Some mc.new)) }
        ensures none { OnFalse result (Unseals variant (length tag.now) (key_list key.now) nonce.now ad.now mc.old tag.now None) }
        ensures erased { OnFalse result (mc.new ≡ replicate (length mc.old) 0xaa) };

    /// Seals `m` into `c`, which has as many bytes, and puts the tag into `tag`.
    fn seal_into(key: &Self::Key, nonce: &[u8], ad: &[u8], m: &[u8], c: &mut [u8], tag: &mut [u8])
        requires nonce { length nonce.now ≡ nonce_len variant }
        requires tag_len { (length tag.old ≡ 16) ⊎ (length tag.old ≡ 32) }
        requires ad_len { length ad.now < 2 ^ 61 }
        requires m_len { length m.now < 2 ^ 61 }
        requires room { length c.old ≡ length m.now }
        ensures { seal variant (length tag.old) (key_list key.now) nonce.now ad.now m.now ≡ (c.new, tag.new) };

    /// Unseals `c` into `m`, which has as many bytes: whether there is a message with this cipher text and tag, which then stands in `m`.
    /// Else `m` is as it was. In both cases `c` has the bytes that `m` had.
    fn unseal_swapping(
        key: &Self::Key,
        nonce: &[u8],
        ad: &[u8],
        c: &mut [u8],
        tag: &[u8],
        m: &mut [u8],
    ) -> bool
        requires nonce { length nonce.now ≡ nonce_len variant }
        requires tag_len { (length tag.now ≡ 16) ⊎ (length tag.now ≡ 32) }
        requires ad_len { length ad.now < 2 ^ 61 }
        requires c_len { length c.old < 2 ^ 61 }
        requires room { length m.old ≡ length c.old }
        ensures message { OnTrue result (Unseals variant (length tag.now) (key_list key.now) nonce.now ad.now c.old tag.now (Some m.new)) }
        ensures none { OnFalse result (Unseals variant (length tag.now) (key_list key.now) nonce.now ad.now c.old tag.now None) }
        ensures stays { OnFalse result (m.new ≡ m.old) }
        ensures swapped { c.new ≡ m.old };

    ghost numbers: { (ALG_ID ≡ id_of variant) × (NONCE_LEN ≡ nonce_len variant) × (KEY_LEN ≡ key_len variant) };
}

/// The algorithm's number, with what is known of it.
pub fn algorithm_number<A: Algorithm>() -> u8
    ensures { result ≡ (cipher_of A.variant).id }
{
    A::ALG_ID
}

/// The length of a nonce, with what is known of it.
pub fn nonce_length<A: Algorithm>() -> usize
    ensures is { result ≡ (cipher_of A.variant).nonce_len }
    ensures sealing { result ≡ nonce_len A.variant }
    ensures least { 1 ≤ result }
    ensures most { result ≤ 32 }
{
    A::NONCE_LEN
}
