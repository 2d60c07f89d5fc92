//! The chunks of a file are compared with its tree, and the tree is committed to and made anew.
ghost use Rattle.std.specs.Prelude.{◌≡◌, ◌+◌, ◌^◌, ◌<◌, ◌≤◌, List, ℕ, length, take, drop, is_some, Option, Some, None, IsErrAnd, IfOk};
ghost use Rattle.std.specs.Prelude.{IfErr, OnOk, OnErr, true, false};
ghost use Rattle.raf_tree.specs.Kept.{Kept, Kept as Tree_};
ghost use Rattle.raf_format.specs.Cipher.{cipher_of};
ghost use Rattle.raf_format.specs.File.{chunk_count, chunk_len};
ghost use Rattle.raf_format.specs.Version.{tag_len_of};
ghost use Rattle.raf_io.specs.Kinds.{kind_of};
ghost use Rattle.raf.specs.Handle.{Paired, HasRoom, handle_of};
ghost use Rattle.raf.specs.Loaded.{Sound};
ghost use Rattle.raf.specs.Handle.{hash_len_of};
ghost use Rattle.raf.specs.Stepped.{Went, verify_reply, commitment_reply, done_reply};
ghost use Rattle.raf.specs.Given.{Given, IsPlace};
ghost use Rattle.raf.specs.Verifying.{Compares, Verifies, AllThere};

use crate::command::Command;
use crate::loading::{chunk_of, load};
use crate::opening::{OpenFile, count_of, grow_file};
use crate::outside::Parts;
use raf_format::{Algorithm, Header};
use raf_io::{Error, ErrorKind, RafIo, RafRng, Reason};
use raf_tree::{MerkleHasher, Tree, tree_laws};

// Whether a chunk opens and its leaf is the kept one.
fn compare<A: Algorithm, I: RafIo, R: RafRng, H: MerkleHasher>(
    parts: &mut Parts<I, R, H>,
    chunk_key: &A::Key,
    header: &Header,
    tree: &Tree,
    index: u64,
    buf: &mut [u8],
) -> Result<bool, Error>
    requires sound { Sound (cipher_of A.variant) header.now }
    requires there { index < chunk_count header.now.chunk_size header.now.file_size }
    requires buf { length buf.old ≡ (cipher_of A.variant).nonce_len + header.now.chunk_size + tag_len_of header.now.version }
    requires paired { Paired H.hashing parts.old.setting (Some tree.now) }
    requires room { chunk_count header.now.chunk_size header.now.file_size ≤ tree.now.max_chunks }
    ensures { Compares (cipher_of A.variant) H.hashing (A.key_list chunk_key.now) header.now tree.now index parts.old parts.new result }
{
    match load::<A, I, R, H>(parts, chunk_key, header, index, buf) {
        Ok(()) => {
            let chunk = chunk_of::<A>(header, index, buf);
            parts.is_leaf(tree, index, chunk)
        }
        Err(Error::AuthenticationFailed) => Ok(false),
        Err(e) => Err(e),
    }
}

/// The first chunk that doesn't open, or whose leaf isn't the kept one.
pub fn first_bad<A: Algorithm, I: RafIo, R: RafRng, H: MerkleHasher>(
    parts: &mut Parts<I, R, H>,
    chunk_key: &A::Key,
    header: &Header,
    tree: &Tree,
    buf: &mut [u8],
) -> Result<Option<u64>, Error>
    requires sound { Sound (cipher_of A.variant) header.now }
    requires buf { length buf.old ≡ (cipher_of A.variant).nonce_len + header.now.chunk_size + tag_len_of header.now.version }
    requires paired { Paired H.hashing parts.old.setting (Some tree.now) }
    requires room { chunk_count header.now.chunk_size header.now.file_size ≤ tree.now.max_chunks }
    ensures { Verifies (cipher_of A.variant) H.hashing (A.key_list chunk_key.now) header.now tree.now parts.old parts.new result }
{
    for index in 0..count_of(header) {
        if !compare::<A, I, R, H>(parts, chunk_key, header, tree, index, buf)? {
            return Ok(Some(index));
        }
    }
    Ok(None)
}

/// Opens every chunk.
pub fn open_all<A: Algorithm, I: RafIo, R: RafRng, H: MerkleHasher>(
    parts: &mut Parts<I, R, H>,
    chunk_key: &A::Key,
    header: &Header,
    buf: &mut [u8],
) -> Result<(), Error>
    requires sound { Sound (cipher_of A.variant) header.now }
    requires buf { length buf.old ≡ (cipher_of A.variant).nonce_len + header.now.chunk_size + tag_len_of header.now.version }
    ensures { AllThere (cipher_of A.variant) (A.key_list chunk_key.now) header.now parts.old parts.new result }
{
    for index in 0..count_of(header) {
        load::<A, I, R, H>(parts, chunk_key, header, index, buf)?;
    }
    Ok(())
}

/// The first chunk of a file that doesn't open, or whose leaf isn't the kept one. The file isn't marked.
pub fn verify_file<A: Algorithm, I: RafIo, R: RafRng, H: MerkleHasher>(
    parts: &mut Parts<I, R, H>,
    file: &mut OpenFile<A>,
) -> Result<Option<u64>, Error>
    requires unmarked { file.old.broken ≡ false }
    requires paired { Paired H.hashing parts.old.setting file.old.tree }
    ensures went { Went (cipher_of A.variant) H.hashing
        (handle_of parts.old (A.key_list file.old.key) file.old.header file.old.tree file.old.broken)
        (handle_of parts.new (A.key_list file.new.key) file.new.header file.new.tree file.new.broken) Command.Verify (verify_reply result) }
    ensures paired { Paired H.hashing parts.new.setting file.new.tree }
{
    match &file.tree {
        None => Err(Error::MerkleNotEnabled),
        Some(tree) => first_bad::<A, I, R, H>(
            parts,
            &file.chunk_key,
            &file.header,
            tree,
            &mut file.first,
        ),
    }
}

/// The commitment of a file's tree, in front of the buffer. The file isn't marked.
pub fn commit_file<A: Algorithm, I: RafIo, R: RafRng, H: MerkleHasher>(
    parts: &mut Parts<I, R, H>,
    file: &OpenFile<A>,
    out: &mut [u8],
) -> Result<(), Error>
    requires unmarked { file.now.broken ≡ false }
    requires paired { Paired H.hashing parts.old.setting file.now.tree }
    ensures went { hash_len_of H.hashing parts.old.setting ≤ length out.old →
        Went (cipher_of A.variant) H.hashing (handle_of parts.old (A.key_list file.now.key) file.now.header file.now.tree file.now.broken)
        (handle_of parts.new (A.key_list file.now.key) file.now.header file.now.tree file.now.broken) Command.Commitment
        (commitment_reply (take (hash_len_of H.hashing parts.old.setting) out.new) result) }
    ensures short { length out.old < hash_len_of H.hashing parts.old.setting
        → IsErrAnd result (λ e. kind_of e ≡ ErrorKind.InvalidArgument Reason.CommitmentBuffer) × (parts.new ≡ parts.old) }
    ensures rest { drop (hash_len_of H.hashing parts.old.setting) out.new ≡ drop (hash_len_of H.hashing parts.old.setting) out.old }
    ensures paired { Paired H.hashing parts.new.setting file.now.tree }
{
    let Some(tree) = &file.tree else {
        return Err(Error::MerkleNotEnabled);
    };
    let len = tree.root().len();
    if out.len() < len {
        return Err(Error::InvalidArgument(Reason::CommitmentBuffer));
    }
    let (front, _) = out.split_at_mut(len);
    parts.commit(tree, front, &file.header.id, file.header.file_size)
}

/// The tree of a file made anew, once each chunk was seen to open. Where a hash was asked and then something failed, the file is marked.
pub fn rebuild_file<A: Algorithm, I: RafIo, R: RafRng, H: MerkleHasher>(
    parts: &mut Parts<I, R, H>,
    file: &mut OpenFile<A>,
) -> Result<(), Error>
    requires unmarked { file.old.broken ≡ false }
    requires paired { Paired H.hashing parts.old.setting file.old.tree }
    ensures went { Went (cipher_of A.variant) H.hashing
        (handle_of parts.old (A.key_list file.old.key) file.old.header file.old.tree file.old.broken)
        (handle_of parts.new (A.key_list file.new.key) file.new.header file.new.tree file.new.broken) Command.Rebuild (done_reply result) }
    ensures paired { Paired H.hashing parts.new.setting file.new.tree }
{
    if file.tree.is_none() {
        return Err(Error::MerkleNotEnabled);
    }
    open_all::<A, I, R, H>(parts, &file.chunk_key, &file.header, &mut file.first)?;
    grow_file::<A, I, R, H>(parts, file)
}

/// The node of a place in a file's tree, in front of the buffer: it is asked for where no chunk is below the place, and else the kept one.
/// The file isn't marked.
pub fn give_node<A: Algorithm, I: RafIo, R: RafRng, H: MerkleHasher>(
    parts: &mut Parts<I, R, H>,
    file: &OpenFile<A>,
    level: u32,
    index: u64,
    out: &mut [u8],
) -> Result<(), Error>
    requires unmarked { file.now.broken ≡ false }
    requires paired { Paired H.hashing parts.old.setting file.now.tree }
    requires place { (t : Tree_) → file.now.tree ≡ Some t → IsPlace t level index }
    ensures given { Given H.hashing level index (handle_of parts.old (A.key_list file.now.key) file.now.header file.now.tree file.now.broken)
        (handle_of parts.new (A.key_list file.now.key) file.now.header file.now.tree file.now.broken) out.old out.new result }
    ensures paired { Paired H.hashing parts.new.setting file.now.tree }
{
    tree_laws();
    let Some(tree) = &file.tree else {
        return Err(Error::MerkleNotEnabled);
    };
    let len = tree.root().len();
    if out.len() < len {
        return Err(Error::InvalidArgument(Reason::CommitmentBuffer));
    }
    let (front, _) = out.split_at_mut(len);
    match tree.node(level, index) {
        Some(node) => {
            front.copy_from_slice(node);
            Ok(())
        }
        None => parts.empty(front, level, index),
    }
}
