//! A new file is made.
ghost use Rattle.std.specs.Prelude.{◌≡◌, ◌+◌, ◌^◌, ◌<◌, ◌≤◌, List, ℕ, IfOk, IfErr, OnOk, false};
ghost use Rattle.std.specs.Option.{option_map};
ghost use Rattle.raf_format.specs.Cipher.{cipher_of};
ghost use Rattle.raf_format.specs.Version.{version_number};
ghost use Rattle.raf_io.specs.Kinds.{kind_of};
ghost use Rattle.raf.specs.Handle.{handle_of, Paired};
ghost use Rattle.raf.specs.Opening.{Settings, Made, NotMade, FreshOf, Freed, PutNew};
ghost use Rattle.raf_format.specs.Header.{InRange, sealed_header};
ghost use Rattle.raf.specs.Outside.{Outside};

use crate::growing::tree_for;
use crate::opening::{OpenFile, rooms};
use crate::outside::Parts;
use raf_format::{Algorithm, Header, Version, algorithm_number, write_header};
use raf_io::{Error, RafIo, RafRng, Reason};
use raf_tree::{MerkleHasher, tree_laws};
use std::alloc::Global;

/// What a new file is like.
#[derive(Clone, Copy, Drop)]
pub struct Fresh {
    /// The layout's version.
    pub version: Version,
    /// How many bytes a chunk has.
    pub chunk_size: u32,
    /// Whether the file may take the place of what the storage holds.
    pub truncate: bool,
}

// How many bytes the storage holds, where a new file may be made in it.
fn freed<I: RafIo, R: RafRng, H: MerkleHasher>(
    parts: &mut Parts<I, R, H>,
    truncate: bool,
) -> Result<u64, Error>
    ensures { Freed truncate parts.old parts.new result }
{
    let size = parts.size()?;
    if truncate || size == 0 {
        Ok(size)
    } else {
        Err(Error::AlreadyExists)
    }
}

// Puts the header of a new file into the storage, in place of what it holds.
fn put_new<A: Algorithm, I: RafIo, R: RafRng, H: MerkleHasher>(
    parts: &mut Parts<I, R, H>,
    key: &A::Key,
    header: &Header,
    size: u64,
) -> Result<(), Error>
    ensures { PutNew (sealed_header (cipher_of A.variant) (A.key_list key.now) header.now) size parts.old parts.new result }
{
    let mut bytes = [0u8; 96];
    write_header::<A>(header, key, &mut bytes);
    parts.write(&bytes, 0)?;
    if size > 96 {
        parts.resize(96)?;
    }
    Ok(())
}

/// Makes an empty file. All the memory that it needs later is taken here.
pub fn make_file<A: Algorithm, I: RafIo, R: RafRng, H: MerkleHasher>(
    alloc: Global,
    parts: &mut Parts<I, R, H>,
    key: &A::Key,
    max_chunks: u64,
    fresh: &Fresh,
) -> Result<OpenFile<A>, Error>
    ensures made { (s : Settings) → FreshOf fresh.now max_chunks parts.old s
        → IfOk result (λ f. Made (cipher_of A.variant) H.hashing (A.key_list key.now) s parts.old
        (handle_of parts.new (A.key_list f.key) f.header f.tree f.broken)) }
    ensures paired { IfOk result (λ f. Paired H.hashing parts.new.setting f.tree) }
    ensures refused { (s : Settings) → FreshOf fresh.now max_chunks parts.old s
        → IfErr result (λ e. NotMade H.hashing s parts.old parts.new (kind_of e)) }
{
    if fresh.chunk_size < 16 || fresh.chunk_size > 1048576 {
        return Err(Error::InvalidArgument(Reason::ChunkSize));
    }
    tree_laws();
    let mut tree = tree_for::<H>(alloc, &parts.hasher, max_chunks, 0)?;
    let mut header = Header {
        version: fresh.version.number(),
        algorithm: algorithm_number::<A>(),
        chunk_size: fresh.chunk_size,
        file_size: 0,
        id: [0u8; 32],
    };
    let rooms = rooms::<A>(alloc, &header)?;
    let size = freed::<I, R, H>(parts, fresh.truncate)?;
    parts.fill(&mut header.id)?;
    parts.build(&mut tree, 0)?;
    put_new::<A, I, R, H>(parts, key, &header, size)?;
    Ok(OpenFile::<A>::of(key, &header, rooms, tree))
}
