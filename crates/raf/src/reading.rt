//! A range of a file is read, chunk by chunk.
ghost use Rattle.std.specs.Prelude.{◌≡◌, ◌+◌, ◌-◌, ◌*◌, ◌/◌, ◌^◌, ◌<◌, ◌≤◌, List, ℕ, length, take, drop, Some, None};
ghost use Rattle.std.specs.Prelude.{false, IfOk, IfErr, OnOk, OnErr};
ghost use Rattle.raf_format.specs.Cipher.{cipher_of};
ghost use Rattle.raf_format.specs.File.{chunk_count, chunk_len};
ghost use Rattle.raf_format.specs.Version.{tag_len_of};
ghost use Rattle.raf.specs.Loaded.{Sound, Loads};
ghost use Rattle.raf.specs.Read.{with_chunk, ReadSoFar, Unread, OldOrOpened};
ghost use Rattle.raf_format.specs.File.{File};
ghost use Rattle.raf.specs.Handle.{Holds, handle_of};
ghost use Rattle.raf.specs.Stepped.{Went, read_reply};

use crate::command::Command;
use crate::loading::{chunk_len_of, load, load_into};
use crate::opening::OpenFile;
use crate::outside::Parts;
use crate::overwriting::overwrite;
use raf_format::{Algorithm, Header, nonce_length};
use raf_io::{Error, RafIo, RafRng};
use raf_tree::MerkleHasher;

// Puts the part of a chunk that lies in the range into the buffer. The chunk stands in a record's place behind the nonce.
fn copy_chunk<A: Algorithm>(header: &Header, index: u64, record: &[u8], buf: &mut [u8], offset: u64)
    requires sound { Sound (cipher_of A.variant) header.now }
    requires there { index < chunk_count header.now.chunk_size header.now.file_size }
    requires room { length record.now ≡ (cipher_of A.variant).nonce_len + header.now.chunk_size + tag_len_of header.now.version }
    requires inside { offset + length buf.old ≤ header.now.file_size }
    requires begins { index * header.now.chunk_size < offset + length buf.old }
    requires ends { offset < (index + 1) * header.now.chunk_size }
    ensures { buf.new ≡ with_chunk header.now.chunk_size offset index
        (take (chunk_len header.now.chunk_size header.now.file_size index) (drop (cipher_of A.variant).nonce_len record.now)) buf.old }
{
    let start = index * u64::from(header.chunk_size);
    let from = offset.saturating_sub(start) as usize;
    let at = start.saturating_sub(offset) as usize;
    let n = (chunk_len_of(header, index) - from).min(buf.len() - at);
    let behind = nonce_length::<A>() + from;
    overwrite(buf, at, &record[behind..behind + n]);
}

// Reads the part of a chunk that lies in the range. A chunk that lies there whole is opened where it is wanted, and copied nowhere.
fn read_chunk<A: Algorithm, I: RafIo, R: RafRng, H: MerkleHasher>(
    parts: &mut Parts<I, R, H>,
    chunk_key: &A::Key,
    header: &Header,
    index: u64,
    record: &mut [u8],
    buf: &mut [u8],
    offset: u64,
) -> Result<(), Error>
    requires sound { Sound (cipher_of A.variant) header.now }
    requires there { index < chunk_count header.now.chunk_size header.now.file_size }
    requires room { length record.old ≡ (cipher_of A.variant).nonce_len + header.now.chunk_size + tag_len_of header.now.version }
    requires inside { offset + length buf.old ≤ header.now.file_size }
    requires begins { index * header.now.chunk_size < offset + length buf.old }
    requires ends { offset < (index + 1) * header.now.chunk_size }
    ensures loads { (m : List ℕ) × (Loads (cipher_of A.variant) (A.key_list chunk_key.now) header.now index parts.old parts.new m result)
        × (OnOk result (buf.new ≡ with_chunk header.now.chunk_size offset index m buf.old)) }
    ensures kept { OnErr result (buf.new ≡ buf.old) }
{
    let start = index * u64::from(header.chunk_size);
    let len = chunk_len_of(header, index);
    if offset <= start && len <= buf.len() - (start - offset) as usize {
        let at = (start - offset) as usize;
        let place = &mut buf[at..at + len];
        return load_into::<A, I, R, H>(parts, chunk_key, header, index, record, place);
    }
    load::<A, I, R, H>(parts, chunk_key, header, index, record)?;
    copy_chunk::<A>(header, index, record, buf, offset);
    Ok(())
}

/// Fills a buffer with the bytes of a range that lies below the size.
pub fn read_range<A: Algorithm, I: RafIo, R: RafRng, H: MerkleHasher>(
    parts: &mut Parts<I, R, H>,
    chunk_key: &A::Key,
    header: &Header,
    record: &mut [u8],
    buf: &mut [u8],
    offset: u64,
) -> Result<(), Error>
    requires sound { Sound (cipher_of A.variant) header.now }
    requires room { length record.old ≡ (cipher_of A.variant).nonce_len + header.now.chunk_size + tag_len_of header.now.version }
    requires some { 0 < length buf.old }
    requires inside { offset + length buf.old ≤ header.now.file_size }
    ensures read { OnOk result (ReadSoFar (cipher_of A.variant) (A.key_list chunk_key.now) header.now offset
        (offset / header.now.chunk_size) ((offset + length buf.old - 1) / header.now.chunk_size + 1) parts.old parts.new buf.old buf.new) }
    ensures refused { IfErr result (λ e. Unread (cipher_of A.variant) (A.key_list chunk_key.now) header.now offset
        (offset / header.now.chunk_size) ((offset + length buf.old - 1) / header.now.chunk_size + 1) parts.old parts.new buf.old buf.new
        e) }
{
    let chunk_size = u64::from(header.chunk_size);
    let first = offset / chunk_size;
    let stop = (offset + buf.len() as u64 - 1) / chunk_size + 1;
    for index in first..stop {
        read_chunk::<A, I, R, H>(parts, chunk_key, header, index, record, buf, offset)?;
    }
    Ok(())
}

// The same in front of a longer buffer.
fn read_front<A: Algorithm, I: RafIo, R: RafRng, H: MerkleHasher>(
    parts: &mut Parts<I, R, H>,
    chunk_key: &A::Key,
    header: &Header,
    record: &mut Vec<u8>,
    buf: &mut [u8],
    n: usize,
    offset: u64,
) -> Result<(), Error>
    requires sound { Sound (cipher_of A.variant) header.now }
    requires room { length record.old.items ≡ (cipher_of A.variant).nonce_len + header.now.chunk_size + tag_len_of header.now.version }
    requires some { 0 < n }
    requires fits { n ≤ length buf.old }
    requires inside { offset + n ≤ header.now.file_size }
    ensures read { OnOk result (ReadSoFar (cipher_of A.variant) (A.key_list chunk_key.now) header.now offset
        (offset / header.now.chunk_size) ((offset + n - 1) / header.now.chunk_size + 1) parts.old parts.new (take n buf.old)
        (take n buf.new)) }
    ensures refused { IfErr result (λ e. Unread (cipher_of A.variant) (A.key_list chunk_key.now) header.now offset
        (offset / header.now.chunk_size) ((offset + n - 1) / header.now.chunk_size + 1) parts.old parts.new (take n buf.old)
        (take n buf.new) e) }
    ensures rest { drop n buf.new ≡ drop n buf.old }
    ensures room { length record.new.items ≡ length record.old.items }
{
    let (front, _) = buf.split_at_mut(n);
    read_range::<A, I, R, H>(parts, chunk_key, header, record, front, offset)
}

/// Reads the bytes from an offset on, as many as the buffer has, that lie below the size.
pub fn read_bytes<A: Algorithm, I: RafIo, R: RafRng, H: MerkleHasher>(
    parts: &mut Parts<I, R, H>,
    file: &mut OpenFile<A>,
    buf: &mut [u8],
    offset: u64,
) -> Result<usize, Error>
    requires { file.old.broken ≡ false }
    ensures went { Went (cipher_of A.variant) H.hashing
        (handle_of parts.old (A.key_list file.old.key) file.old.header file.old.tree file.old.broken)
        (handle_of parts.new (A.key_list file.new.key) file.new.header file.new.tree file.new.broken)
        (Command.Read offset (length buf.old)) (read_reply buf.new result) }
    ensures count { IfOk result (λ n. n ≤ length buf.old) }
    ensures end { IfOk result (λ n. offset + n < 2 ^ 64) }
    ensures rest { IfOk result (λ n. drop n buf.new ≡ drop n buf.old) }
    ensures refused { (F : File) → Holds (cipher_of A.variant)
        (handle_of parts.old (A.key_list file.old.key) file.old.header file.old.tree file.old.broken) F
        → OnErr result (OldOrOpened F offset buf.old buf.new) }
    ensures paired { parts.new.setting ≡ parts.old.setting }
{
    let size = file.header.file_size;
    let asked = buf.len();
    if offset >= size || asked == 0 {
        return Ok(0);
    }
    let n = (size - offset).min(asked as u64) as usize;
    match read_front::<A, I, R, H>(
        parts,
        &file.chunk_key,
        &file.header,
        &mut file.first,
        buf,
        n,
        offset,
    ) {
        Ok(()) => Ok(n),
        Err(e) => Err(e),
    }
}
