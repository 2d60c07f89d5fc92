//! The record of a chunk is read and opened.
ghost use Rattle.std.specs.Prelude.{◌≡◌, ◌+◌, ◌-◌, ◌^◌, ◌<◌, ◌≤◌, List, ℕ, length, take, drop, Some, None, IfErr, OnOk, OnErr};
ghost use Rattle.raf_format.specs.Cipher.{cipher_of};
ghost use Rattle.raf_format.specs.File.{shape_of, chunk_count, chunk_len, record_start, record_len};
ghost use Rattle.raf_format.specs.Version.{tag_len_of};
ghost use Rattle.raf.specs.Loaded.{Sound, Loads};
ghost use Rattle.raf_io.specs.Kinds.{kind_of};

use crate::outside::Parts;
use raf_format::{Algorithm, Header, nonce_length, open_record, open_record_into};
use raf_io::{Error, RafIo, RafRng};
use raf_tree::MerkleHasher;

/// Where the record of a chunk stands.
pub fn start_of<A: Algorithm>(header: &Header, index: u64) -> u64
    requires sound { Sound (cipher_of A.variant) header.now }
    requires there { index < chunk_count header.now.chunk_size header.now.file_size }
    ensures { result ≡ record_start (shape_of (cipher_of A.variant) header.now) index }
{
    let over = (nonce_length::<A>() + header.tag_len()) as u64;
    96 + index * (over + u64::from(header.chunk_size))
}

/// How many bytes a chunk has.
pub fn chunk_len_of(header: &Header, index: u64) -> usize
    requires some { 1 ≤ header.now.chunk_size }
    requires there { index < chunk_count header.now.chunk_size header.now.file_size }
    ensures { result ≡ chunk_len header.now.chunk_size header.now.file_size index }
{
    let chunk_size = u64::from(header.chunk_size);
    let rest = header.file_size - index * chunk_size;
    rest.min(chunk_size) as usize
}

/// How long the record of a chunk is.
pub fn len_of<A: Algorithm>(header: &Header, index: u64) -> usize
    requires sound { Sound (cipher_of A.variant) header.now }
    requires there { index < chunk_count header.now.chunk_size header.now.file_size }
    ensures { result ≡ record_len (shape_of (cipher_of A.variant) header.now) header.now.file_size index }
{
    nonce_length::<A>() + chunk_len_of(header, index) + header.tag_len()
}

// Reads the record of a chunk into a place of its length, and opens it.
fn load_record<A: Algorithm, I: RafIo, R: RafRng, H: MerkleHasher>(
    parts: &mut Parts<I, R, H>,
    chunk_key: &A::Key,
    header: &Header,
    index: u64,
    bytes: &mut [u8],
) -> Result<(), Error>
    requires sound { Sound (cipher_of A.variant) header.now }
    requires there { index < chunk_count header.now.chunk_size header.now.file_size }
    requires room { length bytes.old ≡ record_len (shape_of (cipher_of A.variant) header.now) header.now.file_size index }
    ensures { Loads (cipher_of A.variant) (A.key_list chunk_key.now) header.now index parts.old parts.new
        (take (chunk_len header.now.chunk_size header.now.file_size index) (drop (cipher_of A.variant).nonce_len bytes.new)) result }
{
    let start = start_of::<A>(header, index);
    parts.read(bytes, start)?;
    if open_record::<A>(chunk_key, &header.id, index, header.tag_len(), bytes) {
        Ok(())
    } else {
        Err(Error::AuthenticationFailed)
    }
}

/// Opens a chunk: it stands in the buffer behind the nonce.
pub fn load<A: Algorithm, I: RafIo, R: RafRng, H: MerkleHasher>(
    parts: &mut Parts<I, R, H>,
    chunk_key: &A::Key,
    header: &Header,
    index: u64,
    buf: &mut [u8],
) -> Result<(), Error>
    requires sound { Sound (cipher_of A.variant) header.now }
    requires there { index < chunk_count header.now.chunk_size header.now.file_size }
    requires room { length buf.old ≡ (cipher_of A.variant).nonce_len + header.now.chunk_size + tag_len_of header.now.version }
    ensures { Loads (cipher_of A.variant) (A.key_list chunk_key.now) header.now index parts.old parts.new
        (take (chunk_len header.now.chunk_size header.now.file_size index) (drop (cipher_of A.variant).nonce_len buf.new)) result }
{
    let len = len_of::<A>(header, index);
    let (front, _) = buf.split_at_mut(len);
    load_record::<A, I, R, H>(parts, chunk_key, header, index, front)
}

/// Opens a chunk into another place, which has its length. A refusal leaves the place as it was. The buffer is used up.
pub fn load_into<A: Algorithm, I: RafIo, R: RafRng, H: MerkleHasher>(
    parts: &mut Parts<I, R, H>,
    chunk_key: &A::Key,
    header: &Header,
    index: u64,
    buf: &mut [u8],
    chunk: &mut [u8],
) -> Result<(), Error>
    requires sound { Sound (cipher_of A.variant) header.now }
    requires there { index < chunk_count header.now.chunk_size header.now.file_size }
    requires room { length buf.old ≡ (cipher_of A.variant).nonce_len + header.now.chunk_size + tag_len_of header.now.version }
    requires place { length chunk.old ≡ chunk_len header.now.chunk_size header.now.file_size index }
    ensures loads { Loads (cipher_of A.variant) (A.key_list chunk_key.now) header.now index parts.old parts.new chunk.new result }
    ensures kept { OnErr result (chunk.new ≡ chunk.old) }
{
    let len = len_of::<A>(header, index);
    let start = start_of::<A>(header, index);
    let (front, _) = buf.split_at_mut(len);
    parts.read(front, start)?;
    if open_record_into::<A>(chunk_key, &header.id, index, header.tag_len(), front, chunk) {
        Ok(())
    } else {
        Err(Error::AuthenticationFailed)
    }
}

/// The chunk that stands in a record's place behind the nonce.
pub fn chunk_of<'a, A: Algorithm>(header: &Header, index: u64, record: &'a [u8]) -> &'a [u8]
    requires sound { Sound (cipher_of A.variant) header.now }
    requires there { index < chunk_count header.now.chunk_size header.now.file_size }
    requires room { length record.now ≡ (cipher_of A.variant).nonce_len + header.now.chunk_size + tag_len_of header.now.version }
    ensures chunk { result.now ≡ take (chunk_len header.now.chunk_size header.now.file_size index)
        (drop (cipher_of A.variant).nonce_len record.now) }
    ensures short { length result.now ≤ 2 ^ 60 }
{
    let behind = nonce_length::<A>();
    &record[behind..behind + chunk_len_of(header, index)]
}
