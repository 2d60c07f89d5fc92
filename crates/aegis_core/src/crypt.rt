//! Absorbing, encrypting and decrypting whole inputs, block by block.

ghost use Rattle.std.specs.Bool.{OnTrue, OnFalse};
ghost use Rattle.std.specs.Prelude.{◌≡◌, ◌≢◌, ◌⊎◌, ℕ, ◌*◌, ◌^◌, ◌<◌, List, length, replicate};
ghost use Rattle.aes_spec.specs.Bytes.{xor_bytes};
ghost use Rattle.aegis_core.specs.Family.{absorbed, cipher_text, sealed_by, stream_by};
ghost use Rattle.aegis_core.specs.Tail.{absorbed_tail};

use crate::bytes::{padded_block, xor_into};
use crate::lane_state::LaneState;

// Absorbs less than a block.
pub(crate) fn absorb_tail<S: LaneState>(state: &mut S, tail: &[u8])
    requires { length tail.now < (S.family state.old).rate }
    ensures same { S.family state.new ≡ S.family state.old }
    ensures updated { S.lanes state.new ≡ absorbed_tail (S.family state.old) (S.lanes state.old) tail.now }
{
    if tail.len() == 0 {
        return;
    }
    let rate = state.rate();
    let last = padded_block(tail);
    state.absorb(&last[..rate]);
}

// Encrypts less than a block in place.
pub(crate) fn encrypt_tail<S: LaneState>(state: &mut S, tail: &mut [u8])
    requires { length tail.old < (S.family state.old).rate }
    ensures same { S.family state.new ≡ S.family state.old }
    ensures text { tail.new ≡ xor_bytes tail.old ((S.family state.old).keystream (S.lanes state.old)) }
    ensures updated { S.lanes state.new ≡ absorbed_tail (S.family state.old) (S.lanes state.old) tail.old }
{
    let mut keystream = [0u8; 128];
    let rate = state.rate();
    state.keystream(&mut keystream[..rate]);
    absorb_tail(state, tail);
    xor_into(tail, &keystream[..rate]);
}

// Decrypts less than a block in place.
pub(crate) fn decrypt_tail<S: LaneState>(state: &mut S, text: &mut [u8])
    requires { length text.old < (S.family state.old).rate }
    ensures same { S.family state.new ≡ S.family state.old }
    ensures text { text.new ≡ xor_bytes text.old ((S.family state.old).keystream (S.lanes state.old)) }
    ensures updated { S.lanes state.new ≡ absorbed_tail (S.family state.old) (S.lanes state.old) text.new }
{
    let mut keystream = [0u8; 128];
    let rate = state.rate();
    state.keystream(&mut keystream[..rate]);
    xor_into(text, &keystream[..rate]);
    absorb_tail(state, text);
}

/// Absorbs `input`, padded with zeros to whole blocks.
pub(crate) fn absorb_all<S: LaneState>(state: &mut S, input: &[u8])
    ensures same { S.family state.new ≡ S.family state.old }
    ensures rate { 0 < (S.family state.old).rate }
    ensures updated { S.lanes state.new ≡ absorbed (S.family state.old) (S.lanes state.old) input.now }
{
    let rate = state.rate();
    let whole = input.len() / rate;
    'each: for i in 0..whole {
        state.absorb(&input[i * rate..i * rate + rate]);
    }
    absorb_tail(state, &input[whole * rate..]);
}

/// Encrypts `mc` in place, padded with zeros to whole blocks and cut to its length.
pub(crate) fn encrypt_all<S: LaneState>(state: &mut S, mc: &mut [u8])
    ensures same { S.family state.new ≡ S.family state.old }
    ensures text { mc.new ≡ cipher_text (S.family state.old) (S.lanes state.old) mc.old }
    ensures updated { S.lanes state.new ≡ absorbed (S.family state.old) (S.lanes state.old) mc.old }
{
    let rate = state.rate();
    let whole = mc.len() / rate;
    'each: for i in 0..whole {
        state.encrypt(&mut mc[i * rate..i * rate + rate]);
    }
    encrypt_tail(state, &mut mc[whole * rate..]);
}

/// Decrypts `mc` in place: what it held is the cipher text of what it holds afterwards.
pub(crate) fn decrypt_all<S: LaneState>(state: &mut S, mc: &mut [u8])
    ensures same { S.family state.new ≡ S.family state.old }
    ensures rate { 0 < (S.family state.old).rate }
    ensures text { mc.old ≡ cipher_text (S.family state.old) (S.lanes state.old) mc.new }
    ensures updated { S.lanes state.new ≡ absorbed (S.family state.old) (S.lanes state.old) mc.new }
{
    let rate = state.rate();
    let whole = mc.len() / rate;
    'each: for i in 0..whole {
        state.decrypt(&mut mc[i * rate..i * rate + rate]);
    }
    decrypt_tail(state, &mut mc[whole * rate..]);
}

// Writes zeros.
fn clear(out: &mut [u8])
    ensures { out.new ≡ replicate (length out.old) 0 }
{
    out.fill(0);
}

// Whether two tags are one.
pub(crate) fn are_same(a: &[u8], b: &[u8]) -> bool
    ensures yes { OnTrue result (a.now ≡ b.now) }
    ensures no { OnFalse result (a.now ≢ b.now) }
{
    *a == *b
}

/// Seals `mc` in place under a key and a nonce, on lanes that are not started.
pub(crate) fn seal_lanes<S: LaneState>(
    state: &mut S,
    key: &[u8],
    nonce: &[u8],
    ad: &[u8],
    mc: &mut [u8],
    tag: &mut [u8],
)
    requires key { length key.now ≡ S.key_bytes }
    requires nonce { length nonce.now ≡ S.key_bytes }
    requires tag_len { (length tag.old ≡ 16) ⊎ (length tag.old ≡ 32) }
    requires ad_len { length ad.now < 2 ^ 61 }
    requires mc_len { length mc.old < 2 ^ 61 }
    ensures { sealed_by (S.family state.old) (length tag.old) key.now nonce.now ad.now mc.old ≡ (mc.new, tag.new) }
{
    state.start(key, nonce);
    absorb_all(state, ad);
    encrypt_all(state, mc);
    state.finalise(8 * ad.len() as u64, 8 * mc.len() as u64, tag);
}

/// Unseals `mc` in place under a key and a nonce, on lanes that are not started: whether there is a
/// message, which then stands in `mc`. Else every byte of `mc` is 0xaa.
pub(crate) fn unseal_lanes<S: LaneState>(
    state: &mut S,
    key: &[u8],
    nonce: &[u8],
    ad: &[u8],
    mc: &mut [u8],
    tag: &[u8],
) -> bool
    requires key { length key.now ≡ S.key_bytes }
    requires nonce { length nonce.now ≡ S.key_bytes }
    requires tag_len { (length tag.now ≡ 16) ⊎ (length tag.now ≡ 32) }
    requires ad_len { length ad.now < 2 ^ 61 }
    requires mc_len { length mc.old < 2 ^ 61 }
    ensures message { OnTrue result (sealed_by (S.family state.old) (length tag.now) key.now nonce.now ad.now mc.new ≡ (mc.old, tag.now)) }
    ensures none { OnFalse result ((m : List ℕ)
        → (sealed_by (S.family state.old) (length tag.now) key.now nonce.now ad.now m ≡ (mc.old, tag.now)) → ⊥) }
    ensures erased { OnFalse result (mc.new ≡ replicate (length mc.old) 0xaa) }
{
    state.start(key, nonce);
    absorb_all(state, ad);
    decrypt_all(state, mc);
    let mut buffer = [0u8; 32];
    let expected = &mut buffer[..tag.len()];
    state.finalise(8 * ad.len() as u64, 8 * mc.len() as u64, expected);
    if are_same(expected, tag) {
        return true;
    }
    mc.fill(0xaa);
    false
}

/// Fills `out` with the keystream under a key and a nonce, on lanes that are not started.
pub(crate) fn stream_lanes<S: LaneState>(state: &mut S, key: &[u8], nonce: &[u8], out: &mut [u8])
    requires key { length key.now ≡ S.key_bytes }
    requires nonce { length nonce.now ≡ S.key_bytes }
    ensures { out.new ≡ stream_by (S.family state.old) key.now nonce.now (length out.old) }
{
    state.start(key, nonce);
    absorb_all(state, &[]);
    clear(out);
    encrypt_all(state, out);
}

/// Adds to `mc` the cipher text of as many zeros.
fn xor_stream_all<S: LaneState>(state: &mut S, mc: &mut [u8])
    ensures { mc.new ≡ xor_bytes mc.old (cipher_text (S.family state.old) (S.lanes state.old) (replicate (length mc.old) 0)) }
{
    let rate = state.rate();
    let whole = mc.len() / rate;
    'each: for i in 0..whole {
        let mut keystream = [0u8; 128];
        state.encrypt(&mut keystream[..rate]);
        xor_into(&mut mc[i * rate..i * rate + rate], &keystream[..rate]);
    }
    let mut keystream = [0u8; 128];
    let left = mc.len() - whole * rate;
    encrypt_tail(state, &mut keystream[..left]);
    xor_into(&mut mc[whole * rate..], &keystream[..left]);
}

/// Adds the keystream to `mc` under a key and a nonce, on lanes that are not started.
pub(crate) fn xor_stream_lanes<S: LaneState>(state: &mut S, key: &[u8], nonce: &[u8], mc: &mut [u8])
    requires key { length key.now ≡ S.key_bytes }
    requires nonce { length nonce.now ≡ S.key_bytes }
    ensures { mc.new ≡ xor_bytes mc.old (stream_by (S.family state.old) key.now nonce.now (length mc.old)) }
{
    state.start(key, nonce);
    absorb_all(state, &[]);
    xor_stream_all(state, mc);
}
