//! A record: a nonce, the cipher text of a chunk and its tag of 16 or 32 bytes.
ghost use Rattle.std.specs.Prelude.{◌≡◌, ◌+◌, ◌^◌, ◌<◌, ◌≤◌, length, take};
ghost use Rattle.raf_format.specs.Cipher.{cipher_of, IsTagLen};
ghost use Rattle.raf_format.specs.File.{beside, sealed};
ghost use Rattle.raf_format.specs.Record.{Released, Unsealed, middle};

use crate::algorithm::{Algorithm, nonce_length};

// What is sealed beside a chunk: the file's id and the chunk's index.
fn beside_bytes(id: &[u8; 32], index: u64) -> [u8; 40]
    ensures { result ≡ beside id.now index }
{
    let mut ad = [0u8; 40];
    let (front, back) = ad.split_at_mut(32);
    front.copy_from_slice(id);
    back.copy_from_slice(&index.to_le_bytes());
    ad
}

/// Seals a record in place: it holds the nonce, the chunk and room for the tag before, and the nonce, the cipher text and the tag after.
/// The file's id and the chunk's index are sealed beside the chunk. The tag has `tag_len` bytes, 16 or 32, a chunk at most 2^61 - 1.
pub fn seal_record<A: Algorithm>(
    chunk_key: &A::Key,
    id: &[u8; 32],
    index: u64,
    tag_len: usize,
    rec: &mut [u8],
)
    requires tag { IsTagLen tag_len }
    requires long { (cipher_of A.variant).nonce_len + tag_len ≤ length rec.old }
    requires short { length rec.old < 2 ^ 61 + ((cipher_of A.variant).nonce_len + tag_len) }
    ensures { rec.new ≡ sealed (cipher_of A.variant) tag_len (A.key_list chunk_key.now) id.now index
        (take (cipher_of A.variant).nonce_len rec.old) (middle (cipher_of A.variant) tag_len rec.old) }
{
    let ad = beside_bytes(id, index);
    let (nonce, rest) = rec.split_at_mut(nonce_length::<A>());
    let (mc, tag) = rest.split_at_mut(rest.len() - tag_len);
    A::seal(chunk_key, nonce, &ad, mc, tag)
}

/// Opens a record in place, under the same conditions as `seal_record`: whether it is the sealed form of a chunk under this key, id and
/// index, which then stands between nonce and tag. Else every byte there is 0xaa. Nonce and tag stay.
pub fn open_record<A: Algorithm>(
    chunk_key: &A::Key,
    id: &[u8; 32],
    index: u64,
    tag_len: usize,
    rec: &mut [u8],
) -> bool
    requires tag { IsTagLen tag_len }
    requires long { (cipher_of A.variant).nonce_len + tag_len ≤ length rec.old }
    requires short { length rec.old < 2 ^ 61 + ((cipher_of A.variant).nonce_len + tag_len) }
    ensures { Unsealed (cipher_of A.variant) tag_len (A.key_list chunk_key.now) id.now index rec.old rec.new result }
{
    let ad = beside_bytes(id, index);
    let (nonce, rest) = rec.split_at_mut(nonce_length::<A>());
    let (mc, tag) = rest.split_at_mut(rest.len() - tag_len);
    A::unseal(chunk_key, nonce, &ad, mc, tag)
}

/// Seals a chunk into its record, which holds the nonce in front before, and the nonce, the cipher text and the tag after; else like
/// `seal_record`.
pub fn seal_record_into<A: Algorithm>(
    chunk_key: &A::Key,
    id: &[u8; 32],
    index: u64,
    tag_len: usize,
    chunk: &[u8],
    rec: &mut [u8],
)
    requires tag { IsTagLen tag_len }
    requires room { length rec.old ≡ (cipher_of A.variant).nonce_len + length chunk.now + tag_len }
    requires short { length chunk.now < 2 ^ 61 }
    ensures { rec.new ≡ sealed (cipher_of A.variant) tag_len (A.key_list chunk_key.now) id.now index
        (take (cipher_of A.variant).nonce_len rec.old) chunk.now }
{
    let ad = beside_bytes(id, index);
    let (nonce, rest) = rec.split_at_mut(nonce_length::<A>());
    let (text, tag) = rest.split_at_mut(chunk.len());
    A::seal_into(chunk_key, nonce, &ad, chunk, text, tag)
}

/// Opens a record into another place, which has as many bytes as the chunk: whether it is the sealed form of a chunk under this key, id
/// and index, which then stands there. Else the place is as it was. The record is used up: where its cipher text stood, the place's old
/// bytes stand.
pub fn open_record_into<A: Algorithm>(
    chunk_key: &A::Key,
    id: &[u8; 32],
    index: u64,
    tag_len: usize,
    rec: &mut [u8],
    chunk: &mut [u8],
) -> bool
    requires tag { IsTagLen tag_len }
    requires room { length rec.old ≡ (cipher_of A.variant).nonce_len + length chunk.old + tag_len }
    requires short { length chunk.old < 2 ^ 61 }
    ensures { Released (cipher_of A.variant) tag_len (A.key_list chunk_key.now) id.now index rec.old chunk.old chunk.new result }
{
    let ad = beside_bytes(id, index);
    let (nonce, rest) = rec.split_at_mut(nonce_length::<A>());
    let (text, tag) = rest.split_at_mut(chunk.len());
    A::unseal_swapping(chunk_key, nonce, &ad, text, tag, chunk)
}
