//! A proof is made from an open file.
ghost use Rattle.std.specs.Prelude.{◌≡◌, ◌^◌, ◌<◌, false, IfOk, IfErr};
ghost use Rattle.raf_format.specs.Cipher.{cipher_of};
ghost use Rattle.raf_io.specs.Kinds.{kind_of};
ghost use Rattle.raf.specs.Handle.{OfTree};
ghost use Rattle.raf.specs.Given.{OnlyAsked};
ghost use Rattle.raf_check.specs.Siblings.{sibling};
ghost use Rattle.raf_proof.specs.Proving.{Proves, Ready, Gathered, Ungathered};

use crate::proof::Proof;
use raf::{Algorithm, Data, Error, MerkleHasher, Raf, RafIo, RafRng};
use raf_check::honest_proofs;
use raf_format::file_laws;
use raf_tree::tree_laws;
use std::alloc::Global;

// The index of a place's sibling.
fn sibling_of(place: u64) -> u64
    requires { place < 2 ^ 63 }
    ensures { result ≡ sibling place }
{
    if place % 2 == 0 { place + 1 } else { place - 1 }
}

// The siblings on the path of a chunk, from level 0 up.
fn gather<A: Algorithm, I: RafIo, R: RafRng, H: MerkleHasher>(
    alloc: Global,
    raf: &mut Raf<A, I, R, H>,
    height: u32,
    len: usize,
    index: u64,
) -> Result<Vec<u8>, Error>
    requires unmarked { raf.old.broken ≡ false }
    requires ready { OfTree H.hashing raf.old (Ready height len index) }
    ensures gathered { IfOk result (λ v. Gathered H.hashing index len height raf.old raf.new v.items) }
    ensures refused { IfErr result (λ e. Ungathered raf.old raf.new (kind_of e)) }
    ensures asked { OnlyAsked height raf.old raf.new }
{
    tree_laws();
    let mut siblings = Vec::new(alloc);
    let mut node = [0u8; 64];
    for level in 0..height {
        raf.merkle_node(level, sibling_of(index >> level), &mut node)?;
        if siblings.extend_from_slice(&node[..len]).is_err() {
            return Err(Error::OutOfMemory);
        }
    }
    Ok(siblings)
}

/// A proof that the chunk at an index is in the file, or None where there is no such chunk. It asks at most one hash for each level of the
/// file's tree, and makes no call of the storage. Refused by `Broken` where a change was cut short, by `MerkleNotEnabled` without a
/// hasher, by `Hash`, and by `OutOfMemory`.
pub fn prove<A: Algorithm, I: RafIo, R: RafRng, H: MerkleHasher>(
    alloc: Global,
    raf: &mut Raf<A, I, R, H>,
    index: u64,
) -> Result<Option<Proof>, Error>
    ensures { Proves (cipher_of A.variant) H.hashing index raf.old raf.new result }
{
    honest_proofs();
    file_laws::<A>();
    let height = raf.merkle_height().unwrap_or(0);
    let len = raf.hash_len().unwrap_or(0);
    let mut root = [0u8; 64];
    raf.merkle_node(height, 0, &mut root)?;
    if index >= raf.chunk_count() {
        return Ok(None);
    }
    let siblings = gather(alloc, raf, height, len, index)?;
    let siblings = Data::from_vec(siblings);
    Ok(Some(Proof::new(index, raf.size(), raf.id(), height, siblings)))
}
