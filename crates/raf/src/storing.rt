//! The touched chunks are hashed, sealed and written, one after the other.
ghost use Rattle.std.specs.Prelude.{◌≡◌, ◌+◌, ◌-◌, ◌*◌, ◌^◌, ◌<◌, ◌≤◌, List, ℕ, length, take, drop, Some, None, true, IfErr, OnOk, OnErr};
ghost use Rattle.counts.specs.Counts.{Rose};
ghost use Rattle.raf_io.specs.Kinds.{kind_of};
ghost use Rattle.raf_io.specs.Source.{Takes, TakesAtMost, IsShort};
ghost use Rattle.raf_format.specs.Cipher.{cipher_of};
ghost use Rattle.raf_format.specs.File.{shape_of, chunk_count, chunk_len, record_start, record_len};
ghost use Rattle.raf_format.specs.Version.{tag_len_of};
ghost use Rattle.raf.specs.Handle.{Paired, HasRoom};
ghost use Rattle.raf.specs.Outside.{Quiet, Caused, Moved, Kept};
ghost use Rattle.raf.specs.Plan.{Planned, kept_len};
ghost use Rattle.raf.specs.Put.{put_chunk, record_for};
ghost use Rattle.raf.specs.Carry.{SameTree, OfTrees, Leafed, HasTree, Draws, Puts, Stores, buffer_of, kept_in};

use crate::outside::Parts;
use crate::planning::Plan;
use crate::staging::{chunk_len_at, covering, place_of, record_len_at, stage};
use raf_format::{Algorithm, Header, nonce_length, seal_record, seal_record_into};
use raf_io::{Error, ErrorKind, RafIo, RafRng};
use raf_tree::{MerkleHasher, Tree};

// A fresh nonce in front of a buffer.
fn fill_front<A: Algorithm, I: RafIo, R: RafRng, H: MerkleHasher>(
    parts: &mut Parts<I, R, H>,
    buf: &mut [u8],
) -> Result<(), Error>
    requires { (cipher_of A.variant).nonce_len ≤ length buf.old }
    ensures rest { drop (cipher_of A.variant).nonce_len buf.new ≡ drop (cipher_of A.variant).nonce_len buf.old }
    ensures taken { OnOk result (Takes parts.old.left (take (cipher_of A.variant).nonce_len buf.new) parts.new.left) }
    ensures left { OnErr result (TakesAtMost parts.old.left (cipher_of A.variant).nonce_len parts.new.left) }
    ensures bytes { parts.new.bytes ≡ parts.old.bytes }
    ensures durable { parts.new.durable ≡ parts.old.durable }
    ensures failed { IfErr result (λ e. (kind_of e ≡ ErrorKind.Rng) × Caused ErrorKind.Rng parts.old parts.new) }
    ensures short { OnErr result (parts.old.exact ≡ true → IsShort parts.old.left (cipher_of A.variant).nonce_len) }
    ensures quiet { OnOk result (Quiet parts.old parts.new) }
    ensures moved { Moved parts.old parts.new 0 0 (cipher_of A.variant).nonce_len 0 0 }
    ensures strays { parts.new.strays ≡ parts.old.strays }
{
    let (nonce, _) = buf.split_at_mut(nonce_length::<A>());
    parts.fill(nonce)
}

/// A fresh nonce for a touched chunk, in front of its buffer: the last one has its own.
pub fn draw<A: Algorithm, I: RafIo, R: RafRng, H: MerkleHasher>(
    parts: &mut Parts<I, R, H>,
    plan: &Plan,
    index: u64,
    first: &mut [u8],
    second: &mut [u8],
) -> Result<(), Error>
    requires touched { index < plan.now.end }
    requires first_room { (cipher_of A.variant).nonce_len ≤ length first.old }
    requires second_room { (cipher_of A.variant).nonce_len ≤ length second.old }
    ensures { Draws (cipher_of A.variant).nonce_len plan.now index first.old second.old parts.old parts.new first.new second.new result }
{
    let end = plan.end;
    if index + 1 < end {
        fill_front::<A, I, R, H>(parts, first)
    } else {
        fill_front::<A, I, R, H>(parts, second)
    }
}

// Makes a touched chunk's record in its place, which has its length, and puts its leaf. The nonce stands in front, and behind it what is
// kept of the old chunk. Data that covers the chunk is sealed straight into the record.
fn make_record<A: Algorithm, I: RafIo, R: RafRng, H: MerkleHasher>(
    parts: &mut Parts<I, R, H>,
    tree: &mut Option<Tree>,
    chunk_key: &A::Key,
    header: &Header,
    plan: &Plan,
    bytes: &[u8],
    index: u64,
    place: &mut [u8],
) -> Result<(), Error>
    requires planned { Planned (shape_of (cipher_of A.variant) header.now) plan.now (length bytes.now) }
    requires touched { index < plan.now.end }
    requires room { length place.old ≡ record_len (shape_of (cipher_of A.variant) header.now) plan.now.size index }
    requires paired { Paired H.hashing parts.old.setting tree.old }
    requires tree_room { HasRoom plan.now.count tree.old }
    ensures made { OnOk result (place.new ≡ record_for (cipher_of A.variant) (A.key_list chunk_key.now) header.now plan.now bytes.now
        index (take (cipher_of A.variant).nonce_len place.old)
        (take (kept_len header.now.chunk_size plan.now (length bytes.now) index) (drop (cipher_of A.variant).nonce_len place.old))) }
    ensures leaf { OnOk result (OfTrees H.hashing parts.old.setting tree.old tree.new
        (Leafed index (put_chunk (shape_of (cipher_of A.variant) header.now) plan.now bytes.now index
        (take (kept_len header.now.chunk_size plan.now (length bytes.now) index) (drop (cipher_of A.variant).nonce_len place.old))))) }
    ensures same { SameTree tree.old tree.new }
    ensures there { OnErr result (HasTree tree.new) }
    ensures kept { Kept parts.old parts.new }
    ensures failed { IfErr result (λ e. (kind_of e ≡ ErrorKind.Hash) × Caused ErrorKind.Hash parts.old parts.new) }
    ensures quiet { OnOk result (Quiet parts.old parts.new) }
    ensures moved { Moved parts.old parts.new 0 0 0 0 1 }
    ensures began { OnErr result (Rose parts.old.calls parts.new.calls) }
    ensures none { tree.old ≡ None → parts.new.calls ≡ parts.old.calls }
    ensures strays { parts.new.strays ≡ parts.old.strays }
{
    let len = chunk_len_at(header, plan.size, index);
    let start = index * u64::from(header.chunk_size);
    if let Some(chunk) = covering(len, start, plan.offset, bytes) {
        parts.put_leaf(tree, index, chunk)?;
        seal_record_into::<A>(chunk_key, &header.id, index, header.tag_len(), chunk, place);
        return Ok(());
    }
    stage::<A>(header, plan, bytes, index, place);
    let from = nonce_length::<A>();
    parts.put_leaf(tree, index, &place[from..from + len])?;
    seal_record::<A>(chunk_key, &header.id, index, header.tag_len(), place);
    Ok(())
}

// Hashes, seals and writes a touched chunk. The nonce stands in front of its buffer, and behind it what is kept of the old chunk.
fn store_from<A: Algorithm, I: RafIo, R: RafRng, H: MerkleHasher>(
    parts: &mut Parts<I, R, H>,
    tree: &mut Option<Tree>,
    chunk_key: &A::Key,
    header: &Header,
    plan: &Plan,
    bytes: &[u8],
    index: u64,
    buf: &mut [u8],
) -> Result<(), Error>
    requires planned { Planned (shape_of (cipher_of A.variant) header.now) plan.now (length bytes.now) }
    requires touched { index < plan.now.end }
    requires room { length buf.old ≡ (cipher_of A.variant).nonce_len + header.now.chunk_size + tag_len_of header.now.version }
    requires paired { Paired H.hashing parts.old.setting tree.old }
    requires tree_room { HasRoom plan.now.count tree.old }
    ensures { Puts (cipher_of A.variant) H.hashing (A.key_list chunk_key.now) header.now plan.now bytes.now index
        (take (cipher_of A.variant).nonce_len buf.old)
        (take (kept_len header.now.chunk_size plan.now (length bytes.now) index) (drop (cipher_of A.variant).nonce_len buf.old)) parts.old
        parts.new tree.old tree.new result }
{
    let len = record_len_at::<A>(header, plan.size, index);
    let at = place_of::<A>(header, index);
    let (place, _) = buf.split_at_mut(len);
    make_record::<A, I, R, H>(parts, tree, chunk_key, header, plan, bytes, index, place)?;
    parts.write(place, at)
}

// The same from the buffer of the index.
fn store<A: Algorithm, I: RafIo, R: RafRng, H: MerkleHasher>(
    parts: &mut Parts<I, R, H>,
    tree: &mut Option<Tree>,
    chunk_key: &A::Key,
    header: &Header,
    plan: &Plan,
    bytes: &[u8],
    index: u64,
    first: &mut [u8],
    second: &mut [u8],
) -> Result<(), Error>
    requires planned { Planned (shape_of (cipher_of A.variant) header.now) plan.now (length bytes.now) }
    requires touched { index < plan.now.end }
    requires first_room { length first.old ≡ (cipher_of A.variant).nonce_len + header.now.chunk_size + tag_len_of header.now.version }
    requires second_room { length second.old ≡ (cipher_of A.variant).nonce_len + header.now.chunk_size + tag_len_of header.now.version }
    requires paired { Paired H.hashing parts.old.setting tree.old }
    requires tree_room { HasRoom plan.now.count tree.old }
    ensures puts { Puts (cipher_of A.variant) H.hashing (A.key_list chunk_key.now) header.now plan.now bytes.now index
        (take (cipher_of A.variant).nonce_len (buffer_of plan.now index first.old second.old))
        (kept_in (cipher_of A.variant) header.now plan.now (length bytes.now) first.old second.old index) parts.old parts.new tree.old
        tree.new result }
    ensures second { index + 1 < plan.now.end → second.new ≡ second.old }
{
    if index + 1 < plan.end {
        store_from::<A, I, R, H>(parts, tree, chunk_key, header, plan, bytes, index, first)
    } else {
        store_from::<A, I, R, H>(parts, tree, chunk_key, header, plan, bytes, index, second)
    }
}

// Stores all touched chunks, of which there is one at least.
fn store_some<A: Algorithm, I: RafIo, R: RafRng, H: MerkleHasher>(
    parts: &mut Parts<I, R, H>,
    tree: &mut Option<Tree>,
    chunk_key: &A::Key,
    header: &Header,
    plan: &Plan,
    bytes: &[u8],
    first: &mut [u8],
    second: &mut [u8],
) -> Result<(), Error>
    requires planned { Planned (shape_of (cipher_of A.variant) header.now) plan.now (length bytes.now) }
    requires some { plan.now.first < plan.now.end }
    requires first_room { length first.old ≡ (cipher_of A.variant).nonce_len + header.now.chunk_size + tag_len_of header.now.version }
    requires second_room { length second.old ≡ (cipher_of A.variant).nonce_len + header.now.chunk_size + tag_len_of header.now.version }
    requires paired { Paired H.hashing parts.old.setting tree.old }
    requires tree_room { HasRoom plan.now.count tree.old }
    ensures { Stores (cipher_of A.variant) H.hashing (A.key_list chunk_key.now) header.now plan.now bytes.now
        (kept_in (cipher_of A.variant) header.now plan.now (length bytes.now) first.old second.old)
        (take (cipher_of A.variant).nonce_len (buffer_of plan.now plan.now.first first.old second.old)) parts.old parts.new tree.old
        tree.new result }
{
    store::<A, I, R, H>(
        parts, tree, chunk_key, header, plan, bytes, plan.first, first, second,
    )?;
    for index in plan.first + 1..plan.end {
        draw::<A, I, R, H>(parts, plan, index, first, second)?;
        store::<A, I, R, H>(
            parts, tree, chunk_key, header, plan, bytes, index, first, second,
        )?;
    }
    Ok(())
}

/// Hashes, seals and writes the touched chunks in rising order, where there are any. The first nonce is drawn and stands in front of the
/// buffer of its chunk; what is kept of the old chunks stands behind the nonces.
pub fn store_touched<A: Algorithm, I: RafIo, R: RafRng, H: MerkleHasher>(
    parts: &mut Parts<I, R, H>,
    tree: &mut Option<Tree>,
    chunk_key: &A::Key,
    header: &Header,
    plan: &Plan,
    bytes: &[u8],
    first: &mut [u8],
    second: &mut [u8],
) -> Result<(), Error>
    requires planned { Planned (shape_of (cipher_of A.variant) header.now) plan.now (length bytes.now) }
    requires first_room { length first.old ≡ (cipher_of A.variant).nonce_len + header.now.chunk_size + tag_len_of header.now.version }
    requires second_room { length second.old ≡ (cipher_of A.variant).nonce_len + header.now.chunk_size + tag_len_of header.now.version }
    requires paired { Paired H.hashing parts.old.setting tree.old }
    requires tree_room { HasRoom plan.now.count tree.old }
    ensures { Stores (cipher_of A.variant) H.hashing (A.key_list chunk_key.now) header.now plan.now bytes.now
        (kept_in (cipher_of A.variant) header.now plan.now (length bytes.now) first.old second.old)
        (take (cipher_of A.variant).nonce_len (buffer_of plan.now plan.now.first first.old second.old)) parts.old parts.new tree.old
        tree.new result }
{
    if plan.first == plan.end {
        return Ok(());
    }
    store_some::<A, I, R, H>(parts, tree, chunk_key, header, plan, bytes, first, second)
}
