//! The header of an encrypted file: its first 96 bytes.
ghost use Rattle.std.specs.Prelude.{◌≡◌, ◌+◌, ◌^◌, ◌<◌, ◌≤◌, length, take, drop, slice_index, IfOk, IfErr, ◌↔◌, IsTrue, IsFalse};
ghost use Rattle.std.specs.Int.{w32, w64, from_le_bytes};
ghost use Rattle.raf_format.specs.Cipher.{cipher_of, IsTagLen};
ghost use Rattle.raf_format.specs.Version.{IsVersion, tag_len_of};
ghost use Rattle.raf_format.specs.Header.{Says, InRange, Tagged, head_of, sealed_header};
ghost use Rattle.raf_format.specs.declared.header.Header.{Header};

use crate::algorithm::Algorithm;
use crate::error::FormatError;
use crate::keys::header_tag_of;

/// What a header says. Sizes are in bytes; the chunk size is 16 to 1048576.
#[derive(Clone, Copy, Drop)]
pub struct Header {
    /// The layout's version, 1 or 2.
    pub version: u8,
    /// The number of the algorithm.
    pub algorithm: u8,
    /// How many bytes a chunk has.
    pub chunk_size: u32,
    /// How many bytes the file has, unencrypted.
    pub file_size: u64,
    /// The file's id, on which its derived keys depend.
    pub id: [u8; 32],
}

impl Header {
    /// How many bytes the tags of the file's records have: 32 in version 2, and else 16.
    pub fn tag_len(&self) -> usize
        ensures is { result ≡ tag_len_of self.now.version }
        ensures tag { IsTagLen result }
    {
        if self.version == 2 { 32 } else { 16 }
    }
}

// The first 64 bytes of a header.
fn head_bytes(header: &Header) -> [u8; 64]
    ensures { result ≡ head_of header.now }
{
    let mut out = [0u8; 64];
    let (fixed, rest) = out.split_at_mut(12);
    let (chunk_size, rest) = rest.split_at_mut(4);
    let (size, rest) = rest.split_at_mut(8);
    let (zeros, id) = rest.split_at_mut(8);
    fixed.copy_from_slice(&[
        83,
        69,
        65,
        76,
        82,
        65,
        70,
        49,
        header.version,
        header.algorithm,
        0,
        0,
    ]);
    chunk_size.copy_from_slice(&header.chunk_size.to_le_bytes());
    size.copy_from_slice(&header.file_size.to_le_bytes());
    zeros.copy_from_slice(&[0u8; 8]);
    id.copy_from_slice(&header.id);
    out
}

// What the fields of a header would be.
fn candidate(bytes: &[u8; 96]) -> Header
    ensures version { result.version ≡ slice_index bytes.now 8 }
    ensures algorithm { result.algorithm ≡ slice_index bytes.now 9 }
    ensures chunk_size { result.chunk_size ≡ from_le_bytes w32 (take 4 (drop 12 bytes.now)) }
    ensures size { result.file_size ≡ from_le_bytes w64 (take 8 (drop 16 bytes.now)) }
    ensures id { result.id ≡ take 32 (drop 32 bytes.now) }
{
    let mut chunk_size = [0u8; 4];
    chunk_size.copy_from_slice(&bytes[12..16]);
    let mut size = [0u8; 8];
    size.copy_from_slice(&bytes[16..24]);
    let mut id = [0u8; 32];
    id.copy_from_slice(&bytes[32..64]);
    Header {
        version: bytes[8],
        algorithm: bytes[9],
        chunk_size: u32::from_le_bytes(chunk_size),
        file_size: u64::from_le_bytes(size),
        id,
    }
}

// The version and the chunk size are those of a file.
fn is_possible(header: &Header) -> bool
    ensures possible { IsTrue result → IsVersion header.now.version × (16 ≤ header.now.chunk_size) × (header.now.chunk_size ≤ 1048576) }
    ensures impossible { IsFalse result → InRange header.now → ⊥ }
{
    let known = header.version == 1 || header.version == 2;
    known && header.chunk_size >= 16 && header.chunk_size <= 1048576
}

/// The fields of a header. Refused by `Header` exactly where the bytes are no header: where the magic, the version, one of the zero
/// bytes or the chunk size isn't as it has to be. Any algorithm number will do, and the tag isn't looked at.
pub fn parse_header(bytes: &[u8; 96]) -> Result<Header, FormatError>
    ensures found { IfOk result (λ h. Says bytes.now h) }
    ensures refused { IfErr result (λ e. (e ≡ FormatError.Header) × ((h : Header) → Says bytes.now h → ⊥)) }
{
    let header = candidate(bytes);
    let head = head_bytes(&header);
    if bytes[..64] != head[..] {
        return Err(FormatError::Header);
    }
    if !is_possible(&header) {
        return Err(FormatError::Header);
    }
    Ok(header)
}

/// Whether the last 32 bytes are the tag of the 64 before, under the header key that the file's key gives for the id in them.
pub fn header_tag_fits<A: Algorithm>(bytes: &[u8; 96], key: &A::Key) -> bool
    ensures { IsTrue result ↔ Tagged (cipher_of A.variant) (A.key_list key.now) bytes.now }
{
    let mut id = [0u8; 32];
    id.copy_from_slice(&bytes[32..64]);
    let mut head = [0u8; 64];
    head.copy_from_slice(&bytes[..64]);
    let tag = header_tag_of::<A>(key, &id, &head);
    tag[..] == bytes[64..96]
}

/// Writes a header with its tag under the file's key: 64 bytes of fields and 32 bytes of tag. Where the fields are those of a header of
/// this layout (version 1 or 2, a chunk size of 16 to 1048576), they are what is read back.
pub fn write_header<A: Algorithm>(header: &Header, key: &A::Key, out: &mut [u8; 96])
    ensures header { out.new ≡ sealed_header (cipher_of A.variant) (A.key_list key.now) header.now }
    ensures says { InRange header.now → Says out.new header.now }
    ensures tagged { Tagged (cipher_of A.variant) (A.key_list key.now) out.new }
{
    let head = head_bytes(header);
    let (front, tag) = out.split_at_mut(64);
    front.copy_from_slice(&head);
    tag.copy_from_slice(&header_tag_of::<A>(key, &header.id, &head));
}
