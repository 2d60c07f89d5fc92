//! A text tagged by every way.

ghost use Rattle.std.specs.Prelude.{◌≡◌, ◌⊎◌};

use crate::ways::Ways;
use crate::words::Fault;
use aegis_core::{CipherKind, LaneState, Mac};
use std::alloc::Global;

// The MAC takes a text in pieces of this length.
fn take<K: CipherKind<S, KEY_BYTES>, S: LaneState, const KEY_BYTES: usize, const TAG_BYTES: usize>(
    mac: &mut Mac<K, S, KEY_BYTES, TAG_BYTES>,
    text: &[u8],
    len: usize,
) -> Result<(), Fault> {
    if len == 0 {
        return Err(Fault::Line);
    }
    for piece in text.chunks(len) {
        if !mac.fits(piece.len()) {
            return Err(Fault::Line);
        }
        mac.update(piece);
    }
    Ok(())
}

// In one piece; once more after its end; and after another text that was taken back.
fn anew<K: CipherKind<S, KEY_BYTES>, S: LaneState, const KEY_BYTES: usize, const TAG_BYTES: usize>(
    mut mac: Mac<K, S, KEY_BYTES, TAG_BYTES>,
    text: &[u8],
    ways: &mut Ways,
) -> Result<(), Fault>
    requires { (TAG_BYTES ≡ 16) ⊎ (TAG_BYTES ≡ 32) }
{
    let len = text.len().max(1);
    take(&mut mac, text, len)?;
    ways.tell_bytes("in one piece", &mac.finalize_and_reset())?;
    take(&mut mac, text, len)?;
    ways.tell_bytes("after its end", &mac.finalize_and_reset())?;
    take(&mut mac, b"another text", 5)?;
    mac.reset();
    take(&mut mac, text, len)?;
    ways.tell_bytes("after another text", &mac.finalize())
}

/// The text's tag: in one piece, again, and in pieces of each length, by the MAC and by a copy of it.
pub fn tag<
    K: CipherKind<S, KEY_BYTES>,
    S: LaneState,
    const KEY_BYTES: usize,
    const TAG_BYTES: usize,
>(
    mac: Mac<K, S, KEY_BYTES, TAG_BYTES>,
    text: &[u8],
    lengths: &[usize],
    ways: &mut Ways,
) -> Result<(), Fault>
    requires { (TAG_BYTES ≡ 16) ⊎ (TAG_BYTES ≡ 32) }
{
    anew(mac.clone(), text, ways)?;
    for len in lengths {
        let mut first = mac.clone();
        let (front, back) = text.split_at(text.len() / 2);
        take(&mut first, front, *len)?;
        let mut copy = first.clone();
        take(&mut first, back, *len)?;
        take(&mut copy, back, *len)?;
        ways.tell_bytes("in pieces", &first.finalize())?;
        ways.tell_bytes("by a copy", &copy.finalize())?;
    }
    Ok(())
}

/// Whether the text has this tag: in one piece, and in pieces of each length.
pub fn verify<
    K: CipherKind<S, KEY_BYTES>,
    S: LaneState,
    const KEY_BYTES: usize,
    const TAG_BYTES: usize,
>(
    mac: Mac<K, S, KEY_BYTES, TAG_BYTES>,
    text: &[u8],
    tag: &[u8; TAG_BYTES],
    lengths: &[usize],
    ways: &mut Ways,
) -> Result<(), Fault>
    requires { (TAG_BYTES ≡ 16) ⊎ (TAG_BYTES ≡ 32) }
{
    for len in lengths {
        let mut parts = mac.clone();
        take(&mut parts, text, *len)?;
        match parts.verify(tag) {
            Ok(()) => ways.tell("in pieces", "verified")?,
            Err(_) => ways.tell("in pieces", "refused")?,
        }
    }
    Ok(())
}
