//! A message sealed by every way.

ghost use Rattle.std.specs.Prelude.{◌≡◌, ◌⊎◌, ◌^◌, ◌<◌, length};

use crate::ways::Ways;
use crate::words::Fault;
use aegis_core::{Cipher, CipherKind, Encryptor, LaneState, seal_in_place_with, seal_into_with};
use softaes::{GateBlock, RoundBlock, unprotected};
use std::alloc::Global;

// In place, into another place and in new memory.
fn by_cipher<
    K: CipherKind<S, KEY_BYTES>,
    S: LaneState,
    const KEY_BYTES: usize,
    const TAG_BYTES: usize,
>(
    alloc: Global,
    cipher: &Cipher<K, S, KEY_BYTES, TAG_BYTES>,
    ad: &[u8],
    message: &[u8],
    ways: &mut Ways,
) -> Result<(), Fault>
    requires tag_bytes { (TAG_BYTES ≡ 16) ⊎ (TAG_BYTES ≡ 32) }
    requires ad { length ad.now < 2 ^ 61 }
    requires message { length message.now < 2 ^ 61 }
{
    let mut text = message.to_vec(alloc)?;
    let tag = cipher.encrypt_in_place(&mut text, ad);
    ways.tell_sealed("in place", &text, &tag)?;
    let mut text = Vec::from_elem(alloc, 0xeeu8, message.len())?;
    let tag = cipher.encrypt_into(message, &mut text, ad);
    ways.tell_sealed("into", &text, &tag)?;
    let (text, tag) = cipher.encrypt(alloc, message, ad)?;
    ways.tell_sealed("in new memory", &text, &tag)
}

// In place and into another place, over this block.
fn over_block<
    B: RoundBlock,
    K: CipherKind<S, KEY_BYTES>,
    S: LaneState,
    const KEY_BYTES: usize,
    const TAG_BYTES: usize,
>(
    alloc: Global,
    key: &[u8; KEY_BYTES],
    nonce: &[u8; KEY_BYTES],
    ad: &[u8],
    message: &[u8],
    ways: &mut Ways,
) -> Result<(), Fault>
    requires tag_bytes { (TAG_BYTES ≡ 16) ⊎ (TAG_BYTES ≡ 32) }
    requires ad { length ad.now < 2 ^ 61 }
    requires message { length message.now < 2 ^ 61 }
{
    let mut tag = [0xee; TAG_BYTES];
    let mut text = message.to_vec(alloc)?;
    seal_in_place_with::<B>(K::variant(), key, nonce, ad, &mut text, &mut tag);
    ways.tell_sealed("in place over another block", &text, &tag)?;
    let mut text = Vec::from_elem(alloc, 0xeeu8, message.len())?;
    seal_into_with::<B>(K::variant(), key, nonce, ad, message, &mut text, &mut tag);
    ways.tell_sealed("into over another block", &text, &tag)
}

// In pieces of this length, in place.
fn in_pieces<
    K: CipherKind<S, KEY_BYTES>,
    S: LaneState,
    const KEY_BYTES: usize,
    const TAG_BYTES: usize,
>(
    alloc: Global,
    mut encryptor: Encryptor<K, S, KEY_BYTES, TAG_BYTES>,
    message: &[u8],
    len: usize,
    ways: &mut Ways,
) -> Result<(), Fault>
    requires { (TAG_BYTES ≡ 16) ⊎ (TAG_BYTES ≡ 32) }
{
    let mut text = message.to_vec(alloc)?;
    if len == 0 {
        return Err(Fault::Line);
    }
    for piece in text.chunks_mut(len) {
        if !encryptor.fits(piece.len()) {
            return Err(Fault::Line);
        }
        encryptor.update_in_place(piece);
    }
    ways.tell_sealed("in pieces", &text, &encryptor.finalize())
}

// In pieces of this length, each into another place.
fn into_pieces<
    K: CipherKind<S, KEY_BYTES>,
    S: LaneState,
    const KEY_BYTES: usize,
    const TAG_BYTES: usize,
>(
    alloc: Global,
    mut encryptor: Encryptor<K, S, KEY_BYTES, TAG_BYTES>,
    message: &[u8],
    len: usize,
    ways: &mut Ways,
) -> Result<(), Fault>
    requires { (TAG_BYTES ≡ 16) ⊎ (TAG_BYTES ≡ 32) }
{
    let mut text = Vec::new(alloc);
    if len == 0 {
        return Err(Fault::Line);
    }
    for piece in message.chunks(len) {
        if !encryptor.fits(piece.len()) {
            return Err(Fault::Line);
        }
        let mut place = Vec::from_elem(alloc, 0xeeu8, piece.len())?;
        encryptor.update(piece, &mut place);
        text.extend_from_slice(&place)?;
    }
    ways.tell_sealed("into pieces", &text, &encryptor.finalize())
}

/// The message's cipher text and tag: in one call of each kind, over each block, and in pieces of each length. With the
/// encryptor's type in its signature, of which none is handed in, the function knows that it fits in memory, and makes it.
pub fn seal<
    K: CipherKind<S, KEY_BYTES>,
    S: LaneState,
    const KEY_BYTES: usize,
    const TAG_BYTES: usize,
>(
    alloc: Global,
    key: &[u8; KEY_BYTES],
    nonce: &[u8; KEY_BYTES],
    ad: &[u8],
    message: &[u8],
    lengths: &[usize],
    ways: &mut Ways,
    _encryptor: Option<Encryptor<K, S, KEY_BYTES, TAG_BYTES>>,
) -> Result<(), Fault>
    requires { (TAG_BYTES ≡ 16) ⊎ (TAG_BYTES ≡ 32) }
{
    if ad.len() > 0xff_ffff || message.len() > 0xff_ffff {
        return Err(Fault::Line);
    }
    let cipher = Cipher::<K, S, KEY_BYTES, TAG_BYTES>::new(key, nonce);
    by_cipher(alloc, &cipher, ad, message, ways)?;
    over_block::<GateBlock, K, S, KEY_BYTES, TAG_BYTES>(alloc, key, nonce, ad, message, ways)?;
    over_block::<unprotected::Block, K, S, KEY_BYTES, TAG_BYTES>(
        alloc, key, nonce, ad, message, ways,
    )?;
    for len in lengths {
        in_pieces(alloc, cipher.encryptor(ad), message, *len, ways)?;
        into_pieces(alloc, cipher.encryptor(ad), message, *len, ways)?;
    }
    Ok(())
}

/// The message with the keystream added: in place, by the keystream alone, and in new memory.
pub fn add<
    K: CipherKind<S, KEY_BYTES>,
    S: LaneState,
    const KEY_BYTES: usize,
    const TAG_BYTES: usize,
>(
    alloc: Global,
    key: &[u8; KEY_BYTES],
    nonce: &[u8; KEY_BYTES],
    message: &[u8],
    ways: &mut Ways,
    _encryptor: Option<Encryptor<K, S, KEY_BYTES, TAG_BYTES>>,
) -> Result<(), Fault> {
    let cipher = Cipher::<K, S, KEY_BYTES, TAG_BYTES>::new(key, nonce);
    let mut text = message.to_vec(alloc)?;
    cipher.stream_xor_in_place(&mut text);
    ways.tell_bytes("in place", &text)?;
    let mut stream = Vec::from_elem(alloc, 0xeeu8, message.len())?;
    cipher.stream(&mut stream);
    for (place, byte) in stream.iter_mut().zip(message) {
        *place ^= byte;
    }
    ways.tell_bytes("by the keystream", &stream)?;
    ways.tell_bytes("in new memory", &cipher.stream_xor(alloc, message)?)
}
