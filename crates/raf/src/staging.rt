//! The new bytes of a chunk are put together in its record's place.
ghost use Rattle.std.specs.Prelude.{◌≡◌, ◌+◌, ◌-◌, ◌*◌, ◌^◌, ◌<◌, ◌≤◌, List, ℕ, ◌++◌, length, take, drop, replicate, IfSome};
ghost use Rattle.raf_io.specs.Storage.{resized};
ghost use Rattle.raf_format.specs.Cipher.{cipher_of};
ghost use Rattle.raf_format.specs.File.{shape_of, chunk_len, record_start, record_len};
ghost use Rattle.raf.specs.Apply.{overlaid};
ghost use Rattle.raf.specs.Plan.{Planned, kept_len};
ghost use Rattle.raf.specs.Put.{put_chunk};

use crate::overwriting::overwrite;
use crate::planning::Plan;
use raf_format::{Algorithm, Header, nonce_length};

/// Where the record of a chunk stands, whatever the file's size is.
pub fn place_of<A: Algorithm>(header: &Header, index: u64) -> u64
    requires most { header.now.chunk_size ≤ 1048576 }
    requires below { record_start (shape_of (cipher_of A.variant) header.now) index < 2 ^ 64 }
    ensures { result ≡ record_start (shape_of (cipher_of A.variant) header.now) index }
{
    let over = (nonce_length::<A>() + header.tag_len()) as u64;
    96 + index * (over + u64::from(header.chunk_size))
}

/// How many bytes a chunk of a file of this size has.
pub fn chunk_len_at(header: &Header, size: u64, index: u64) -> usize
    requires { index * header.now.chunk_size ≤ size }
    ensures { result ≡ chunk_len header.now.chunk_size size index }
{
    let chunk_size = u64::from(header.chunk_size);
    chunk_size.min(size - index * chunk_size) as usize
}

/// How long the record of a chunk of a file of this size is.
pub fn record_len_at<A: Algorithm>(header: &Header, size: u64, index: u64) -> usize
    requires most { header.now.chunk_size ≤ 1048576 }
    requires begins { index * header.now.chunk_size ≤ size }
    ensures { result ≡ record_len (shape_of (cipher_of A.variant) header.now) size index }
{
    nonce_length::<A>() + chunk_len_at(header, size, index) + header.tag_len()
}

/// How many bytes of an old chunk are kept.
pub fn kept_of(header: &Header, plan: &Plan, len: usize, index: u64) -> usize
    requires { index * header.now.chunk_size ≤ plan.now.size }
    ensures { result ≡ kept_len header.now.chunk_size plan.now len index }
{
    let chunk_size = u64::from(header.chunk_size);
    let start = index * chunk_size;
    let shorter = plan.before.min(plan.size);
    if shorter <= start {
        return 0;
    }
    let kept = chunk_size.min(shorter - start);
    if plan.offset <= start && start + kept - plan.offset <= len as u64 {
        return 0;
    }
    kept as usize
}

// Zeros from an index on.
fn clear_from(chunk: &mut [u8], from: usize)
    requires { from ≤ length chunk.old }
    ensures { chunk.new ≡ take from chunk.old ++ replicate (length chunk.old - from) 0 }
{
    chunk[from..].fill(0);
}

/// The part of the data that is a whole chunk of this length from this position on, if it covers it.
pub fn covering(len: usize, start: u64, offset: u64, bytes: &[u8]) -> Option<&[u8]>
    ensures len { IfSome result (λ m. length m.now ≡ len) }
    ensures covers { IfSome result (λ m. (old : List ℕ) → length old ≡ len → m.now ≡ overlaid start offset bytes.now old) }
{
    if start < offset || bytes.len() < len || ((bytes.len() - len) as u64) < start - offset {
        return None;
    }
    let from = (start - offset) as usize;
    Some(&bytes[from..from + len])
}

// Puts the part of the data that stands in a chunk into it. Of the old chunk the first bytes are kept.
fn stage_chunk(chunk: &mut [u8], kept: usize, start: u64, offset: u64, bytes: &[u8])
    requires { kept ≤ length chunk.old }
    ensures { chunk.new ≡ overlaid start offset bytes.now (resized (length chunk.old) (take kept chunk.old)) }
{
    let skip = offset.saturating_sub(start).min(chunk.len() as u64) as usize;
    let from = start.saturating_sub(offset).min(bytes.len() as u64) as usize;
    let n = (chunk.len() - skip).min(bytes.len() - from);
    clear_from(chunk, kept);
    overwrite(chunk, skip, &bytes[from..from + n]);
}

/// Puts a touched chunk's new bytes together in its record's place. What is kept of the old ones stands behind the nonce.
pub fn stage<A: Algorithm>(header: &Header, plan: &Plan, bytes: &[u8], index: u64, place: &mut [u8])
    requires planned { Planned (shape_of (cipher_of A.variant) header.now) plan.now (length bytes.now) }
    requires touched { index < plan.now.end }
    requires room { length place.old ≡ record_len (shape_of (cipher_of A.variant) header.now) plan.now.size index }
    ensures nonce { take (cipher_of A.variant).nonce_len place.new ≡ take (cipher_of A.variant).nonce_len place.old }
    ensures staged { take (chunk_len header.now.chunk_size plan.now.size index) (drop (cipher_of A.variant).nonce_len place.new)
        ≡ put_chunk (shape_of (cipher_of A.variant) header.now) plan.now bytes.now index
        (take (kept_len header.now.chunk_size plan.now (length bytes.now) index) (drop (cipher_of A.variant).nonce_len place.old)) }
{
    let kept = kept_of(header, plan, bytes.len(), index);
    let len = chunk_len_at(header, plan.size, index);
    let start = index * u64::from(header.chunk_size);
    let (_, rest) = place.split_at_mut(nonce_length::<A>());
    let (chunk, _) = rest.split_at_mut(len);
    stage_chunk(chunk, kept, start, plan.offset, bytes);
}
