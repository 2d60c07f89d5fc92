//! Encrypting and decrypting whole inputs into another place: one pass over both, and no copy before it.

ghost use Rattle.std.specs.Bool.{OnTrue, OnFalse};
ghost use Rattle.std.specs.Prelude.{◌≡◌, ◌⊎◌, ℕ, ◌^◌, ◌<◌, List, length, replicate};
ghost use Rattle.aegis_core.specs.Family.{absorbed, cipher_text, sealed_by};

use crate::crypt::{absorb_all, are_same, decrypt_tail, encrypt_tail};
use crate::lane_state::LaneState;

// Encrypts `m` into `c`, which has as many bytes.
fn encrypt_all_into<S: LaneState>(state: &mut S, m: &[u8], c: &mut [u8])
    requires { length c.old ≡ length m.now }
    ensures same { S.family state.new ≡ S.family state.old }
    ensures text { c.new ≡ cipher_text (S.family state.old) (S.lanes state.old) m.now }
    ensures updated { S.lanes state.new ≡ absorbed (S.family state.old) (S.lanes state.old) m.now }
{
    let rate = state.rate();
    let whole = m.len() / rate;
    'each: for i in 0..whole {
        state.encrypt_into(
            &m[i * rate..i * rate + rate],
            &mut c[i * rate..i * rate + rate],
        );
    }
    let rest = &mut c[whole * rate..];
    rest.copy_from_slice(&m[whole * rate..]);
    encrypt_tail(state, rest);
}

// Decrypts `c` into `m`, which has as many bytes: `c` is the cipher text of what `m` holds afterwards.
fn decrypt_all_into<S: LaneState>(state: &mut S, c: &[u8], m: &mut [u8])
    requires { length m.old ≡ length c.now }
    ensures same { S.family state.new ≡ S.family state.old }
    ensures rate { 0 < (S.family state.old).rate }
    ensures text { c.now ≡ cipher_text (S.family state.old) (S.lanes state.old) m.new }
    ensures updated { S.lanes state.new ≡ absorbed (S.family state.old) (S.lanes state.old) m.new }
{
    let rate = state.rate();
    let whole = c.len() / rate;
    'each: for i in 0..whole {
        state.decrypt_into(
            &c[i * rate..i * rate + rate],
            &mut m[i * rate..i * rate + rate],
        );
    }
    let rest = &mut m[whole * rate..];
    rest.copy_from_slice(&c[whole * rate..]);
    decrypt_tail(state, rest);
}

// Decrypts `c` into `m`, which has as many bytes, and whose old bytes go to `c`.
fn decrypt_all_swapping<S: LaneState>(state: &mut S, c: &mut [u8], m: &mut [u8])
    requires { length m.old ≡ length c.old }
    ensures same { S.family state.new ≡ S.family state.old }
    ensures rate { 0 < (S.family state.old).rate }
    ensures text { c.old ≡ cipher_text (S.family state.old) (S.lanes state.old) m.new }
    ensures updated { S.lanes state.new ≡ absorbed (S.family state.old) (S.lanes state.old) m.new }
    ensures swapped { c.new ≡ m.old }
{
    let rate = state.rate();
    let whole = c.len() / rate;
    'each: for i in 0..whole {
        state.decrypt_swapping(
            &mut c[i * rate..i * rate + rate],
            &mut m[i * rate..i * rate + rate],
        );
    }
    let from = &mut c[whole * rate..];
    let to = &mut m[whole * rate..];
    from.swap_with_slice(to);
    decrypt_tail(state, to);
}

/// Seals `m` into `c` and `tag` under a key and a nonce, on lanes that are not started.
pub(crate) fn seal_lanes_into<S: LaneState>(
    state: &mut S,
    key: &[u8],
    nonce: &[u8],
    ad: &[u8],
    m: &[u8],
    c: &mut [u8],
    tag: &mut [u8],
)
    requires key { length key.now ≡ S.key_bytes }
    requires nonce { length nonce.now ≡ S.key_bytes }
    requires tag_len { (length tag.old ≡ 16) ⊎ (length tag.old ≡ 32) }
    requires ad_len { length ad.now < 2 ^ 61 }
    requires m_len { length m.now < 2 ^ 61 }
    requires room { length c.old ≡ length m.now }
    ensures { sealed_by (S.family state.old) (length tag.old) key.now nonce.now ad.now m.now ≡ (c.new, tag.new) }
{
    state.start(key, nonce);
    absorb_all(state, ad);
    encrypt_all_into(state, m, c);
    state.finalise(8 * ad.len() as u64, 8 * m.len() as u64, tag);
}

/// Unseals `c` into `m` under a key and a nonce, on lanes that are not started: whether there is a
/// message, which then stands in `m`. Else every byte of `m` is 0xaa.
pub(crate) fn unseal_lanes_into<S: LaneState>(
    state: &mut S,
    key: &[u8],
    nonce: &[u8],
    ad: &[u8],
    c: &[u8],
    tag: &[u8],
    m: &mut [u8],
) -> bool
    requires key { length key.now ≡ S.key_bytes }
    requires nonce { length nonce.now ≡ S.key_bytes }
    requires tag_len { (length tag.now ≡ 16) ⊎ (length tag.now ≡ 32) }
    requires ad_len { length ad.now < 2 ^ 61 }
    requires c_len { length c.now < 2 ^ 61 }
    requires room { length m.old ≡ length c.now }
    ensures message { OnTrue result (sealed_by (S.family state.old) (length tag.now) key.now nonce.now ad.now m.new ≡ (c.now, tag.now)) }
    ensures none { OnFalse result ((q : List ℕ)
        → (sealed_by (S.family state.old) (length tag.now) key.now nonce.now ad.now q ≡ (c.now, tag.now)) → ⊥) }
    ensures erased { OnFalse result (m.new ≡ replicate (length m.old) 0xaa) }
{
    state.start(key, nonce);
    absorb_all(state, ad);
    decrypt_all_into(state, c, m);
    let mut buffer = [0u8; 32];
    let expected = &mut buffer[..tag.len()];
    state.finalise(8 * ad.len() as u64, 8 * c.len() as u64, expected);
    if are_same(expected, tag) {
        return true;
    }
    m.fill(0xaa);
    false
}

/// Unseals `c` into `m` under a key and a nonce, on lanes that are not started: whether there is a
/// message, which then stands in `m`. Else `m` is as it was. `c` has the bytes that `m` had.
pub(crate) fn unseal_lanes_swapping<S: LaneState>(
    state: &mut S,
    key: &[u8],
    nonce: &[u8],
    ad: &[u8],
    c: &mut [u8],
    tag: &[u8],
    m: &mut [u8],
) -> bool
    requires key { length key.now ≡ S.key_bytes }
    requires nonce { length nonce.now ≡ S.key_bytes }
    requires tag_len { (length tag.now ≡ 16) ⊎ (length tag.now ≡ 32) }
    requires ad_len { length ad.now < 2 ^ 61 }
    requires c_len { length c.old < 2 ^ 61 }
    requires room { length m.old ≡ length c.old }
    ensures message { OnTrue result (sealed_by (S.family state.old) (length tag.now) key.now nonce.now ad.now m.new ≡ (c.old, tag.now)) }
    ensures none { OnFalse result ((q : List ℕ)
        → (sealed_by (S.family state.old) (length tag.now) key.now nonce.now ad.now q ≡ (c.old, tag.now)) → ⊥) }
    ensures stays { OnFalse result (m.new ≡ m.old) }
    ensures swapped { c.new ≡ m.old }
{
    state.start(key, nonce);
    absorb_all(state, ad);
    decrypt_all_swapping(state, c, m);
    let mut buffer = [0u8; 32];
    let computed = &mut buffer[..tag.len()];
    state.finalise(8 * ad.len() as u64, 8 * c.len() as u64, computed);
    if are_same(computed, tag) {
        return true;
    }
    m.copy_from_slice(c);
    false
}
