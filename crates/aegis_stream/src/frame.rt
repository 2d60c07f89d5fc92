//! The frames of a stream.

ghost use Rattle.std.specs.Prelude.{◌≡◌, ◌+◌, ◌^◌, ◌<◌, ◌≤◌, length};
ghost use Rattle.aegis_stream.specs.Grammar.{is_message_len, frame_head, frame_nonce, frame};

use aegis_128::aegis128l::Aegis128L;

/// The bytes of a stream's prefix.
pub const PREFIX_BYTES: usize = 8;

/// The most bytes that a frame's message has.
pub const MESSAGE_BYTES: usize = 65536;

// The bytes of a frame before its cipher text: a mark and a length.
pub const HEAD_BYTES: usize = 5;

// The bytes of a frame beside its cipher text: the head and a tag of 16 bytes.
pub const FRAME_BYTES: usize = 21;

// The nonce of a frame: the stream's prefix and the frame's number.
pub fn nonce(prefix: &[u8; 8], number: u64) -> [u8; 16]
    ensures { result ≡ frame_nonce prefix.now number }
{
    let mut nonce = [0u8; 16];
    let (front, back) = nonce.split_at_mut(PREFIX_BYTES);
    front.copy_from_slice(prefix);
    back.copy_from_slice(&number.to_le_bytes());
    nonce
}

// A frame's first bytes: the mark, and the length of its message.
pub fn head(last: bool, len: u32) -> [u8; 5]
    ensures { result ≡ frame_head last len }
{
    let [b0, b1, b2, b3] = len.to_le_bytes();
    [u8::from(last), b0, b1, b2, b3]
}

// Whether a message may have this length.
pub fn fits(last: bool, len: usize) -> bool
    ensures { result ≡ is_message_len last len }
{
    len <= MESSAGE_BYTES && (last || len > 0)
}

// Writes a frame.
pub fn write(
    key: &[u8; 16],
    prefix: &[u8; 8],
    number: u64,
    last: bool,
    piece: &[u8],
    out: &mut [u8],
)
    requires piece { length piece.now ≤ 65536 }
    requires room { length out.old ≡ 21 + length piece.now }
    ensures { out.new ≡ frame key.now prefix.now number last piece.now }
{
    let head = head(last, piece.len() as u32);
    let (head_out, rest) = out.split_at_mut(HEAD_BYTES);
    let (text, tag_out) = rest.split_at_mut(piece.len());
    head_out.copy_from_slice(&head);
    let tag = Aegis128L::<16>::new(key, &nonce(prefix, number)).encrypt_into(piece, text, &head);
    tag_out.copy_from_slice(&tag);
}
