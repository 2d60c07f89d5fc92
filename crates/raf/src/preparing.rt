//! A change is made ready: what it needs of the old chunks is opened, and its first nonce is drawn. Nothing is written.
ghost use Rattle.std.specs.Prelude.{◌≡◌, ◌+◌, ◌-◌, ◌<◌, ◌≤◌, if◌then◌else◌, nat_lt, length};
ghost use Rattle.raf_format.specs.Cipher.{cipher_of};
ghost use Rattle.raf_format.specs.File.{shape_of};
ghost use Rattle.raf_format.specs.Version.{tag_len_of};
ghost use Rattle.raf.specs.Loaded.{Sound};
ghost use Rattle.raf.specs.Plan.{Planned, kept_len};
ghost use Rattle.raf.specs.Put.{needed_record};
ghost use Rattle.raf.specs.Carry.{Readies, Prepares};

use crate::loading::load;
use crate::outside::Parts;
use crate::planning::Plan;
use crate::staging::kept_of;
use crate::storing::draw;
use raf_format::{Algorithm, Header};
use raf_io::{Error, RafIo, RafRng};
use raf_tree::MerkleHasher;

// Opens a touched chunk into a buffer, where bytes of it are kept.
fn load_needed<A: Algorithm, I: RafIo, R: RafRng, H: MerkleHasher>(
    parts: &mut Parts<I, R, H>,
    chunk_key: &A::Key,
    header: &Header,
    plan: &Plan,
    len: usize,
    index: u64,
    buf: &mut [u8],
) -> Result<(), Error>
    requires planned { Planned (shape_of (cipher_of A.variant) header.now) plan.now len }
    requires sound { Sound (cipher_of A.variant) header.now }
    requires size { plan.now.before ≡ header.now.file_size }
    requires touched { index < plan.now.end }
    requires room { length buf.old ≡ (cipher_of A.variant).nonce_len + header.now.chunk_size + tag_len_of header.now.version }
    ensures { Readies (cipher_of A.variant) (A.key_list chunk_key.now) header.now plan.now index
        (kept_len header.now.chunk_size plan.now len index) (needed_record (shape_of (cipher_of A.variant) header.now) plan.now len index)
        parts.old parts.new buf.new result }
{
    if kept_of(header, plan, len, index) == 0 {
        return Ok(());
    }
    load::<A, I, R, H>(parts, chunk_key, header, index, buf)
}

// The same of the first touched chunk, where it isn't the last one.
fn load_first<A: Algorithm, I: RafIo, R: RafRng, H: MerkleHasher>(
    parts: &mut Parts<I, R, H>,
    chunk_key: &A::Key,
    header: &Header,
    plan: &Plan,
    len: usize,
    buf: &mut [u8],
) -> Result<(), Error>
    requires planned { Planned (shape_of (cipher_of A.variant) header.now) plan.now len }
    requires sound { Sound (cipher_of A.variant) header.now }
    requires size { plan.now.before ≡ header.now.file_size }
    requires some { plan.now.first < plan.now.end }
    requires room { length buf.old ≡ (cipher_of A.variant).nonce_len + header.now.chunk_size + tag_len_of header.now.version }
    ensures { Readies (cipher_of A.variant) (A.key_list chunk_key.now) header.now plan.now plan.now.first
        (if nat_lt (plan.now.first + 1) plan.now.end then kept_len header.now.chunk_size plan.now len plan.now.first else 0)
        (if nat_lt (plan.now.first + 1) plan.now.end then needed_record (shape_of (cipher_of A.variant) header.now) plan.now len
        plan.now.first else 0) parts.old parts.new buf.new result }
{
    if plan.first + 1 == plan.end {
        return Ok(());
    }
    load_needed::<A, I, R, H>(parts, chunk_key, header, plan, len, plan.first, buf)
}

// Makes a change ready that touches a chunk.
fn prepare_some<A: Algorithm, I: RafIo, R: RafRng, H: MerkleHasher>(
    parts: &mut Parts<I, R, H>,
    chunk_key: &A::Key,
    header: &Header,
    plan: &Plan,
    len: usize,
    first: &mut [u8],
    second: &mut [u8],
) -> Result<(), Error>
    requires planned { Planned (shape_of (cipher_of A.variant) header.now) plan.now len }
    requires sound { Sound (cipher_of A.variant) header.now }
    requires size { plan.now.before ≡ header.now.file_size }
    requires some { plan.now.first < plan.now.end }
    requires first_room { length first.old ≡ (cipher_of A.variant).nonce_len + header.now.chunk_size + tag_len_of header.now.version }
    requires second_room { length second.old ≡ (cipher_of A.variant).nonce_len + header.now.chunk_size + tag_len_of header.now.version }
    ensures { Prepares (cipher_of A.variant) (A.key_list chunk_key.now) header.now plan.now len parts.old parts.new first.new second.new
        result }
{
    load_first::<A, I, R, H>(parts, chunk_key, header, plan, len, first)?;
    load_needed::<A, I, R, H>(parts, chunk_key, header, plan, len, plan.end - 1, second)?;
    draw::<A, I, R, H>(parts, plan, plan.first, first, second)
}

/// Makes a change ready: what is kept of the first and the last touched chunk stands behind the nonce in their buffers, and the first
/// nonce stands in front of its chunk's.
pub fn prepare<A: Algorithm, I: RafIo, R: RafRng, H: MerkleHasher>(
    parts: &mut Parts<I, R, H>,
    chunk_key: &A::Key,
    header: &Header,
    plan: &Plan,
    len: usize,
    first: &mut [u8],
    second: &mut [u8],
) -> Result<(), Error>
    requires planned { Planned (shape_of (cipher_of A.variant) header.now) plan.now len }
    requires sound { Sound (cipher_of A.variant) header.now }
    requires size { plan.now.before ≡ header.now.file_size }
    requires first_room { length first.old ≡ (cipher_of A.variant).nonce_len + header.now.chunk_size + tag_len_of header.now.version }
    requires second_room { length second.old ≡ (cipher_of A.variant).nonce_len + header.now.chunk_size + tag_len_of header.now.version }
    ensures { Prepares (cipher_of A.variant) (A.key_list chunk_key.now) header.now plan.now len parts.old parts.new first.new second.new
        result }
{
    if plan.first == plan.end {
        return Ok(());
    }
    prepare_some::<A, I, R, H>(parts, chunk_key, header, plan, len, first, second)
}
