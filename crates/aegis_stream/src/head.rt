//! The mark and the length that a frame begins with.

ghost use Rattle.std.specs.Prelude.{◌≡◌, ◌<◌, ◌≤◌, true, false, length, slice_index, nat_eq, IfSome, IfOk, IfErr, OnErr, MatchOption};
ghost use Rattle.aegis_stream.specs.Unspell.{is_malformed, length_in};
ghost use Rattle.aegis_stream.specs.Heads.{Reads};

use crate::error::StreamError;
use crate::frame::{HEAD_BYTES, fits};

// What a frame's first bytes say.
#[derive(Clone, Copy)]
pub struct Head {
    pub last: bool,
    pub len: usize,
}

// The head of a frame that begins with these bytes, or None where it isn't there whole. It is refused
// exactly where the mark or the length is there and none of a stream.
pub fn read_head(bytes: &[u8]) -> Result<Option<Head>, StreamError>
    ensures ok { IfOk result (Reads bytes.now) }
    ensures malformed { OnErr result (is_malformed bytes.now ≡ true) }
    ensures refused { IfErr result (λ e. e ≡ StreamError.Frame) }
{
    if bytes.is_empty() {
        return Ok(None);
    }
    let mark = bytes[0];
    if mark > 1 {
        return Err(StreamError::Frame);
    }
    if bytes.len() < HEAD_BYTES {
        return Ok(None);
    }
    let last = mark == 1;
    let mut len = [0u8; 4];
    len.copy_from_slice(&bytes[1..HEAD_BYTES]);
    let len = u32::from_le_bytes(len) as usize;
    if !fits(last, len) {
        return Err(StreamError::Frame);
    }
    Ok(Some(Head { last, len }))
}
