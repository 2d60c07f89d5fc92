//! A cipher text opened by every way.

ghost use Rattle.std.specs.Prelude.{◌≡◌, ◌⊎◌, ◌^◌, ◌<◌, length};

use crate::ways::{Ways, shown};
use crate::words::Fault;
use aegis_core::{
    Cipher, CipherKind, Decryptor, Error, LaneState, unseal_in_place_with, unseal_into_with,
    unseal_swapping_with,
};
use softaes::{Block, GateBlock, RoundBlock, unprotected};
use std::alloc::Global;

/// What came out, and what the places hold where nothing did: those that are erased, those that were swapped, and those
/// that were lent to a decryptor.
#[derive(Drop)]
pub struct Opened {
    /// The message, or `refused`.
    pub message: Ways,
    /// The places of the calls in place and into another place.
    pub erased: Ways,
    /// The places of the calls that swap.
    pub swapped: Ways,
    /// The places of decryptors.
    pub lent: Ways,
}

impl Opened {
    /// No way yet.
    pub fn new(alloc: Global) -> Opened {
        Opened {
            message: Ways::new(alloc),
            erased: Ways::new(alloc),
            swapped: Ways::new(alloc),
            lent: Ways::new(alloc),
        }
    }

    // A call that writes to a place, which it erases where it refuses.
    fn tell(&mut self, way: &str, opens: bool, place: &[u8]) -> Result<(), Fault> {
        if opens {
            return self.message.tell_bytes(way, place);
        }
        self.message.tell(way, "refused")?;
        self.erased.tell_filling(way, place)
    }

    // A call that swaps two places.
    fn tell_swapped(&mut self, opens: bool, place: &[u8], old: &[u8]) -> Result<(), Fault> {
        if opens {
            self.message.tell_bytes("swapping", place)?;
        } else {
            self.message.tell("swapping", "refused")?;
            self.swapped.tell_filling("swapping", place)?;
        }
        if old.iter().all(|byte| *byte == 0xee) {
            return Ok(());
        }
        self.message
            .tell("swapping", "the other place isn't as it was")
    }

    /// Adds to a line what came out, and where nothing did the three places.
    pub fn write(&self, line: &mut String) -> Result<(), Fault> {
        self.message.write(line)?;
        self.erased.write(line)?;
        self.swapped.write(line)?;
        self.lent.write(line)
    }
}

// In place, into another place and in new memory.
fn by_cipher<
    K: CipherKind<S, KEY_BYTES>,
    S: LaneState,
    const KEY_BYTES: usize,
    const TAG_BYTES: usize,
>(
    alloc: Global,
    cipher: &Cipher<K, S, KEY_BYTES, TAG_BYTES>,
    ad: &[u8],
    text: &[u8],
    tag: &[u8; TAG_BYTES],
    opened: &mut Opened,
) -> Result<(), Fault>
    requires tag_bytes { (TAG_BYTES ≡ 16) ⊎ (TAG_BYTES ≡ 32) }
    requires ad { length ad.now < 2 ^ 61 }
    requires text { length text.now < 2 ^ 61 }
{
    let mut place = text.to_vec(alloc)?;
    let opens = cipher.decrypt_in_place(&mut place, tag, ad).is_ok();
    opened.tell("in place", opens, &place)?;
    let mut place = Vec::from_elem(alloc, 0xeeu8, text.len())?;
    let opens = cipher.decrypt_into(text, &mut place, tag, ad).is_ok();
    opened.tell("into", opens, &place)?;
    match cipher.decrypt(alloc, text, tag, ad) {
        Ok(message) => opened.message.tell_bytes("in new memory", &message),
        Err(Error::InvalidTag) => opened.message.tell("in new memory", "refused"),
        Err(_) => Err(Fault::OutOfMemory),
    }
}

// In place and into another place, over this block.
fn over_block<
    B: RoundBlock,
    K: CipherKind<S, KEY_BYTES>,
    S: LaneState,
    const KEY_BYTES: usize,
    const TAG_BYTES: usize,
>(
    alloc: Global,
    key: &[u8; KEY_BYTES],
    nonce: &[u8; KEY_BYTES],
    ad: &[u8],
    text: &[u8],
    tag: &[u8; TAG_BYTES],
    opened: &mut Opened,
) -> Result<(), Fault>
    requires tag_bytes { (TAG_BYTES ≡ 16) ⊎ (TAG_BYTES ≡ 32) }
    requires ad { length ad.now < 2 ^ 61 }
    requires text { length text.now < 2 ^ 61 }
{
    let mut place = text.to_vec(alloc)?;
    let opens = unseal_in_place_with::<B>(K::variant(), key, nonce, ad, &mut place, tag);
    opened.tell("in place over another block", opens, &place)?;
    let mut place = Vec::from_elem(alloc, 0xeeu8, text.len())?;
    let opens = unseal_into_with::<B>(K::variant(), key, nonce, ad, text, tag, &mut place);
    opened.tell("into over another block", opens, &place)
}

// Swapping, over this block.
fn swapping<
    B: RoundBlock,
    K: CipherKind<S, KEY_BYTES>,
    S: LaneState,
    const KEY_BYTES: usize,
    const TAG_BYTES: usize,
>(
    alloc: Global,
    key: &[u8; KEY_BYTES],
    nonce: &[u8; KEY_BYTES],
    ad: &[u8],
    text: &[u8],
    tag: &[u8; TAG_BYTES],
    opened: &mut Opened,
) -> Result<(), Fault>
    requires tag_bytes { (TAG_BYTES ≡ 16) ⊎ (TAG_BYTES ≡ 32) }
    requires ad { length ad.now < 2 ^ 61 }
    requires text { length text.now < 2 ^ 61 }
{
    let mut place = Vec::from_elem(alloc, 0xeeu8, text.len())?;
    let mut other = text.to_vec(alloc)?;
    let opens = unseal_swapping_with::<B>(
        K::variant(),
        key,
        nonce,
        ad,
        &mut other,
        tag,
        &mut place,
    );
    opened.tell_swapped(opens, &place, &other)
}

// In pieces of this length, by a decryptor: the message, or none.
fn in_pieces<
    K: CipherKind<S, KEY_BYTES>,
    S: LaneState,
    const KEY_BYTES: usize,
    const TAG_BYTES: usize,
>(
    alloc: Global,
    mut decryptor: Decryptor<'_, K, S, KEY_BYTES, TAG_BYTES>,
    text: &[u8],
    tag: &[u8; TAG_BYTES],
    len: usize,
    ways: &mut Ways,
) -> Result<bool, Fault>
    requires { (TAG_BYTES ≡ 16) ⊎ (TAG_BYTES ≡ 32) }
{
    if len == 0 {
        return Err(Fault::Line);
    }
    for piece in text.chunks(len) {
        if decryptor.update(piece).is_err() {
            return Err(Fault::Line);
        }
    }
    match decryptor.finalize(tag) {
        Ok(message) => {
            ways.tell_bytes("in pieces", message)?;
            Ok(true)
        }
        Err(_) => {
            ways.tell("in pieces", "refused")?;
            Ok(false)
        }
    }
}

/// What this cipher text and tag open to: in one call of each kind, over each block, and in pieces of each length. With
/// the decryptor's type in its signature, of which none is handed in, the function knows that it fits in memory.
pub fn open<
    K: CipherKind<S, KEY_BYTES>,
    S: LaneState,
    const KEY_BYTES: usize,
    const TAG_BYTES: usize,
>(
    alloc: Global,
    key: &[u8; KEY_BYTES],
    nonce: &[u8; KEY_BYTES],
    ad: &[u8],
    text: &[u8],
    tag: &[u8; TAG_BYTES],
    lengths: &[usize],
    opened: &mut Opened,
    _decryptor: Option<Decryptor<'_, K, S, KEY_BYTES, TAG_BYTES>>,
) -> Result<(), Fault>
    requires { (TAG_BYTES ≡ 16) ⊎ (TAG_BYTES ≡ 32) }
{
    if ad.len() > 0xff_ffff || text.len() > 0xff_ffff {
        return Err(Fault::Line);
    }
    let cipher = Cipher::<K, S, KEY_BYTES, TAG_BYTES>::new(key, nonce);
    by_cipher(alloc, &cipher, ad, text, tag, opened)?;
    over_block::<GateBlock, K, S, KEY_BYTES, TAG_BYTES>(alloc, key, nonce, ad, text, tag, opened)?;
    over_block::<unprotected::Block, K, S, KEY_BYTES, TAG_BYTES>(
        alloc, key, nonce, ad, text, tag, opened,
    )?;
    swapping::<Block, K, S, KEY_BYTES, TAG_BYTES>(alloc, key, nonce, ad, text, tag, opened)?;
    swapping::<GateBlock, K, S, KEY_BYTES, TAG_BYTES>(alloc, key, nonce, ad, text, tag, opened)?;
    swapping::<unprotected::Block, K, S, KEY_BYTES, TAG_BYTES>(
        alloc, key, nonce, ad, text, tag, opened,
    )?;
    for len in lengths {
        let mut place = Vec::from_elem(alloc, 0xeeu8, text.len())?;
        let decryptor = cipher.decryptor(ad, &mut place);
        if !in_pieces(alloc, decryptor, text, tag, *len, &mut opened.message)? {
            opened.lent.tell_filling("in pieces", &place)?;
        }
    }
    Ok(())
}

// A decryptor takes pieces of this length, and is let go: which pieces it took.
fn let_go<
    K: CipherKind<S, KEY_BYTES>,
    S: LaneState,
    const KEY_BYTES: usize,
    const TAG_BYTES: usize,
>(
    mut decryptor: Decryptor<'_, K, S, KEY_BYTES, TAG_BYTES>,
    text: &[u8],
    len: usize,
    line: &mut String,
) -> Result<(), Fault> {
    if len == 0 {
        return Err(Fault::Line);
    }
    for piece in text.chunks(len) {
        match decryptor.update(piece) {
            Ok(()) => line.push_str("taken ")?,
            Err(Error::OutputBufferTooSmall) => line.push_str("no-room ")?,
            Err(_) => line.push_str("refused ")?,
        }
    }
    Ok(())
}

/// A decryptor with so much room takes pieces of this length and is let go before its end: which pieces it took, and what
/// the room holds then. It had 0xee everywhere.
pub fn lend<
    K: CipherKind<S, KEY_BYTES>,
    S: LaneState,
    const KEY_BYTES: usize,
    const TAG_BYTES: usize,
>(
    alloc: Global,
    key: &[u8; KEY_BYTES],
    nonce: &[u8; KEY_BYTES],
    ad: &[u8],
    text: &[u8],
    room: usize,
    len: usize,
    line: &mut String,
    _decryptor: Option<Decryptor<'_, K, S, KEY_BYTES, TAG_BYTES>>,
) -> Result<(), Fault> {
    if ad.len() > 0xff_ffff || room > 0xff_ffff {
        return Err(Fault::Line);
    }
    let cipher = Cipher::<K, S, KEY_BYTES, TAG_BYTES>::new(key, nonce);
    let mut place = Vec::from_elem(alloc, 0xeeu8, room)?;
    let_go(cipher.decryptor(ad, &mut place), text, len, line)?;
    line.push_str(shown(alloc, &place)?.as_str())?;
    Ok(())
}
