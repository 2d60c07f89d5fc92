//! The plan of a change: which chunks it touches, and how long the file is afterwards.
ghost use Rattle.std.specs.Prelude.{◌≡◌, ◌+◌, ◌^◌, ◌<◌, ◌≤◌, max, length, false, true, IfSome, IsNone};
ghost use Rattle.raf_format.specs.Cipher.{cipher_of};
ghost use Rattle.raf_format.specs.File.{Shape, shape_of, layout_len as layout_of, chunk_count};
ghost use Rattle.raf.specs.Change.{Change, write_change, truncate_change};
ghost use Rattle.raf.specs.Concern.{can_have};
ghost use Rattle.raf.specs.Handle.{outline};
ghost use Rattle.raf.specs.Plan.{plan_of};

use raf_format::{Algorithm, Header, layout_len, nonce_length};

/// A change in numbers. Sizes and offsets are in bytes; the chunks from `first` to `end - 1` are touched, and those behind them up to
/// `until - 1` are removed.
#[derive(Clone, Copy, Drop)]
pub struct Plan {
    /// How many bytes the file has before.
    pub before: u64,
    /// How many it has afterwards.
    pub size: u64,
    /// The first chunk that is touched or removed.
    pub first: u64,
    /// One past the last chunk that is touched.
    pub end: u64,
    /// One past the last chunk that is touched or removed.
    pub until: u64,
    /// How many chunks there are afterwards.
    pub count: u64,
    /// Where the data stands.
    pub offset: u64,
    /// How many bytes the storage has afterwards.
    pub layout: u64,
}

// How many chunks have so many bytes.
fn count_of(chunk_size: u32, size: u64) -> u64
    requires { 16 ≤ chunk_size }
    ensures { result ≡ chunk_count chunk_size size }
{
    size.div_ceil(u64::from(chunk_size))
}

/// How long the storage of a file with this header is at a size, or None exactly where it can't have that size.
pub fn admit<A: Algorithm>(header: &Header, size: u64, limit: Option<u64>) -> Option<u64>
    requires least { 16 ≤ header.now.chunk_size }
    requires most { header.now.chunk_size ≤ 1048576 }
    ensures found { IfSome result (λ n. n ≡ layout_of (shape_of (cipher_of A.variant) header.now) size) }
    ensures fits { IfSome result (λ n. can_have limit (outline (cipher_of A.variant) header.now) size ≡ true) }
    ensures none { IsNone result → can_have limit (outline (cipher_of A.variant) header.now) size ≡ false }
{
    let chunk_size = header.chunk_size;
    let layout = match layout_len(nonce_length::<A>(), header.tag_len(), chunk_size, size) {
        Some(layout) => layout,
        None => return None,
    };
    match limit {
        Some(most) if most < count_of(chunk_size, size) => None,
        _ => Some(layout),
    }
}

// The plan of a change of these numbers: its range of positions, the offset of its data, and the length of the storage afterwards.
fn plan_by(
    chunk_size: u32,
    before: u64,
    size: u64,
    from: u64,
    end: u64,
    offset: u64,
    layout: u64,
) -> Plan
    requires { 16 ≤ chunk_size }
    ensures { (s : Shape) (K : Change) → s.chunk_size ≡ chunk_size → K.size ≡ size → K.from ≡ from → K.end ≡ end → K.offset ≡ offset
        → layout ≡ layout_of s size → result ≡ plan_of s before K }
{
    let chunks = count_of(chunk_size, end);
    let until = if size < before {
        count_of(chunk_size, before)
    } else {
        chunks
    };
    Plan {
        before,
        size,
        first: from / u64::from(chunk_size),
        end: chunks,
        until,
        count: count_of(chunk_size, size),
        offset,
        layout,
    }
}

/// The plan of a write of some bytes, or None exactly where its numbers don't fit.
pub fn plan_write<A: Algorithm>(
    header: &Header,
    offset: u64,
    buf: &[u8],
    limit: Option<u64>,
) -> Option<Plan>
    requires least { 16 ≤ header.now.chunk_size }
    requires most { header.now.chunk_size ≤ 1048576 }
    ensures found { IfSome result (λ p. p ≡ plan_of (shape_of (cipher_of A.variant) header.now) header.now.file_size
        (write_change header.now.file_size offset buf.now)) }
    ensures end { IfSome result (λ _. offset + length buf.now < 2 ^ 64) }
    ensures fits { IfSome result (λ p. can_have limit (outline (cipher_of A.variant) header.now)
        (max header.now.file_size (offset + length buf.now)) ≡ true) }
    ensures none { IsNone result → can_have limit (outline (cipher_of A.variant) header.now)
        (max header.now.file_size (offset + length buf.now)) ≡ false }
{
    let before = header.file_size;
    let end = offset.checked_add(buf.len() as u64)?;
    let size = before.max(end);
    let layout = admit::<A>(header, size, limit)?;
    Some(plan_by(
        header.chunk_size,
        before,
        size,
        offset.min(before),
        end,
        offset,
        layout,
    ))
}

/// The plan of a truncation, or None exactly where its numbers don't fit. A cut changes what is left of the chunk that it cuts.
pub fn plan_truncate<A: Algorithm>(header: &Header, size: u64, limit: Option<u64>) -> Option<Plan>
    requires least { 16 ≤ header.now.chunk_size }
    requires most { header.now.chunk_size ≤ 1048576 }
    ensures found { IfSome result (λ p. p ≡ plan_of (shape_of (cipher_of A.variant) header.now) header.now.file_size
        (truncate_change header.now.chunk_size header.now.file_size size)) }
    ensures fits { IfSome result (λ p. can_have limit (outline (cipher_of A.variant) header.now) size ≡ true) }
    ensures none { IsNone result → can_have limit (outline (cipher_of A.variant) header.now) size ≡ false }
{
    let before = header.file_size;
    let chunk_size = u64::from(header.chunk_size);
    let from = if size < before {
        size / chunk_size * chunk_size
    } else {
        before
    };
    let layout = admit::<A>(header, size, limit)?;
    Some(plan_by(header.chunk_size, before, size, from, size, 0, layout))
}
