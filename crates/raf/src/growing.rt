//! The tree of a file: how it is made for a hasher, and made anew from the file's chunks.
ghost use Rattle.std.specs.Prelude.{◌≡◌, ◌+◌, ◌-◌, ◌*◌, ◌^◌, ◌<◌, ◌≤◌, List, ℕ, length, Some, is_some, false, IfOk, IfErr, OnOk, OnErr};
ghost use Rattle.std.specs.Prelude.{true};
ghost use Rattle.std.specs.Option.{option_map};
ghost use Rattle.counts.specs.Counts.{Rose};
ghost use Rattle.raf_tree.specs.Kept.{Kept, kept, tree_height};
ghost use Rattle.raf_format.specs.Cipher.{cipher_of};
ghost use Rattle.raf_format.specs.File.{chunk_count, chunk_len};
ghost use Rattle.raf_format.specs.Version.{tag_len_of};
ghost use Rattle.raf_io.specs.Kinds.{kind_of};
ghost use Rattle.raf.specs.Handle.{Paired, HasRoom};
ghost use Rattle.raf.specs.Carry.{SameTree, OfTrees};
ghost use Rattle.raf.specs.Outside.{Quiet, Caused, Moved, Kept as Kept_};
ghost use Rattle.raf.specs.Loaded.{Sound};
ghost use Rattle.raf.specs.Opening.{TreeMade, WhyNoTree};
ghost use Rattle.raf.specs.Growing.{Grew, LeavesSoFar, LeavesStopped};

use crate::loading::{chunk_of, load};
use crate::opening::count_of;
use crate::outside::Parts;
use raf_format::{Algorithm, Header};
use raf_io::{Error, ErrorKind, RafIo, RafRng, Reason};
use raf_tree::{MerkleHasher, Tree, TreeError, tree_laws};
use std::alloc::Global;

/// The tree that goes with a hasher, where there is one, with room for `count` chunks at least and `max_chunks` at most.
pub fn tree_for<H: MerkleHasher>(
    alloc: Global,
    hasher: &Option<H>,
    max_chunks: u64,
    count: u64,
) -> Result<Option<Tree>, Error>
    ensures made { IfOk result (TreeMade H.hashing (option_map H.setting hasher.now)
        (option_map (λ _. max_chunks) (option_map H.setting hasher.now)) count) }
    ensures refused { IfErr result (λ e. WhyNoTree H.hashing (option_map H.setting hasher.now)
        (option_map (λ _. max_chunks) (option_map H.setting hasher.now)) count (kind_of e)) }
{
    let Some(hasher) = hasher else {
        return Ok(None);
    };
    match Tree::new(alloc, hasher.hash_len(), max_chunks) {
        Ok(tree) if count <= max_chunks => Ok(Some(tree)),
        Ok(_) => Err(Error::Overflow),
        Err(TreeError::HashLen) => Err(Error::InvalidArgument(Reason::HashLen)),
        Err(TreeError::MaxChunks) => Err(Error::InvalidArgument(Reason::MaxChunks)),
        Err(TreeError::Overflow) => Err(Error::Overflow),
        Err(TreeError::OutOfMemory) => Err(Error::OutOfMemory),
    }
}

// Puts the leaf of each chunk in turn. `begun` becomes true before the first hash is asked.
fn put_leaves<A: Algorithm, I: RafIo, R: RafRng, H: MerkleHasher>(
    parts: &mut Parts<I, R, H>,
    chunk_key: &A::Key,
    header: &Header,
    buf: &mut [u8],
    tree: &mut Option<Tree>,
    begun: &mut bool,
) -> Result<(), Error>
    requires sound { Sound (cipher_of A.variant) header.now }
    requires buf { length buf.old ≡ (cipher_of A.variant).nonce_len + header.now.chunk_size + tag_len_of header.now.version }
    requires some { is_some tree.old ≡ true }
    requires paired { Paired H.hashing parts.old.setting tree.old }
    requires room { HasRoom (chunk_count header.now.chunk_size header.now.file_size) tree.old }
    requires unbegun { begun.old ≡ false }
    ensures put { OnOk result (LeavesSoFar (cipher_of A.variant) H.hashing (A.key_list chunk_key.now) header.now
        (chunk_count header.now.chunk_size header.now.file_size)
        parts.old parts.new tree.old tree.new begun.new) }
    ensures stopped { IfErr result (λ e. LeavesStopped (cipher_of A.variant) (A.key_list chunk_key.now) header.now parts.old parts.new
        tree.old tree.new begun.new e) }
{
    tree_laws();
    for index in 0..count_of(header) {
        load::<A, I, R, H>(parts, chunk_key, header, index, buf)?;
        *begun = true;
        let chunk = chunk_of::<A>(header, index, buf);
        parts.put_leaf(tree, index, chunk)?;
    }
    Ok(())
}

/// Makes the tree anew from the file's chunks, each of which is opened in `buf`. `begun` becomes true before the first hash is asked.
pub fn grow<A: Algorithm, I: RafIo, R: RafRng, H: MerkleHasher>(
    parts: &mut Parts<I, R, H>,
    chunk_key: &A::Key,
    header: &Header,
    buf: &mut Vec<u8>,
    tree: &mut Option<Tree>,
    begun: &mut bool,
) -> Result<(), Error>
    requires sound { Sound (cipher_of A.variant) header.now }
    requires buf { length buf.old.items ≡ (cipher_of A.variant).nonce_len + header.now.chunk_size + tag_len_of header.now.version }
    requires some { is_some tree.old ≡ true }
    requires paired { Paired H.hashing parts.old.setting tree.old }
    requires room { HasRoom (chunk_count header.now.chunk_size header.now.file_size) tree.old }
    requires unbegun { begun.old ≡ false }
    ensures grew { Grew (cipher_of A.variant) H.hashing (A.key_list chunk_key.now) header.now parts.old parts.new tree.old tree.new
        begun.new result }
    ensures room { length buf.new.items ≡ length buf.old.items }
{
    tree_laws();
    put_leaves::<A, I, R, H>(parts, chunk_key, header, buf, tree, begun)?;
    *begun = true;
    parts.build(tree, count_of(header))
}
