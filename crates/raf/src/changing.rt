//! Changes of a file: a write and a truncation, each by its plan.
ghost use Rattle.std.specs.Prelude.{◌≡◌, ◌+◌, ◌^◌, ◌<◌, List, ℕ, length, false, IfOk, IfErr, OnErr};
ghost use Rattle.std.specs.Option.{option_map};
ghost use Rattle.raf_format.specs.Cipher.{cipher_of};
ghost use Rattle.raf.specs.Handle.{handle_of, Paired};
ghost use Rattle.raf.specs.Stepped.{Went, write_reply, done_reply};

use crate::carrying::change;
use crate::command::Command;
use crate::opening::OpenFile;
use crate::outside::Parts;
use crate::planning::{plan_truncate, plan_write};
use raf_format::Algorithm;
use raf_io::{Error, RafIo, RafRng};
use raf_tree::{MerkleHasher, Tree, tree_laws};

/// The most chunks that a file with this tree may have.
pub fn chunk_limit(tree: &Option<Tree>) -> Option<u64>
    ensures { result ≡ option_map (λ t. t.max_chunks) tree.now }
{
    match tree {
        Some(tree) => Some(tree.max_chunks()),
        None => None,
    }
}

/// Puts bytes at an offset.
pub fn write_bytes<A: Algorithm, I: RafIo, R: RafRng, H: MerkleHasher>(
    parts: &mut Parts<I, R, H>,
    file: &mut OpenFile<A>,
    buf: &[u8],
    offset: u64,
) -> Result<usize, Error>
    requires unmarked { file.old.broken ≡ false }
    requires paired { Paired H.hashing parts.old.setting file.old.tree }
    ensures went { Went (cipher_of A.variant) H.hashing
        (handle_of parts.old (A.key_list file.old.key) file.old.header file.old.tree file.old.broken)
        (handle_of parts.new (A.key_list file.new.key) file.new.header file.new.tree file.new.broken) (Command.Write offset buf.now)
        (write_reply result) }
    ensures count { IfOk result (λ n. n ≡ length buf.now) }
    ensures end { IfOk result (λ n. offset + n < 2 ^ 64) }
    ensures paired { Paired H.hashing parts.new.setting file.new.tree }
{
    if buf.is_empty() {
        return Ok(0);
    }
    tree_laws();
    let limit = chunk_limit(&file.tree);
    match plan_write::<A>(&file.header, offset, buf, limit) {
        Some(plan) => match change::<A, I, R, H>(parts, file, &plan, buf) {
            Ok(()) => Ok(buf.len()),
            Err(e) => Err(e),
        },
        None => Err(Error::Overflow),
    }
}

/// Makes the file this long.
pub fn truncate_to<A: Algorithm, I: RafIo, R: RafRng, H: MerkleHasher>(
    parts: &mut Parts<I, R, H>,
    file: &mut OpenFile<A>,
    size: u64,
) -> Result<(), Error>
    requires unmarked { file.old.broken ≡ false }
    requires paired { Paired H.hashing parts.old.setting file.old.tree }
    ensures went { Went (cipher_of A.variant) H.hashing
        (handle_of parts.old (A.key_list file.old.key) file.old.header file.old.tree file.old.broken)
        (handle_of parts.new (A.key_list file.new.key) file.new.header file.new.tree file.new.broken) (Command.Truncate size)
        (done_reply result) }
    ensures paired { Paired H.hashing parts.new.setting file.new.tree }
{
    if size == file.header.file_size {
        return Ok(());
    }
    tree_laws();
    let limit = chunk_limit(&file.tree);
    match plan_truncate::<A>(&file.header, size, limit) {
        Some(plan) => change::<A, I, R, H>(parts, file, &plan, b""),
        None => Err(Error::Overflow),
    }
}
