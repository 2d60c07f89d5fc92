//! A proof is checked against a commitment.
ghost use Rattle.std.specs.Prelude.{◌≡◌, ◌+◌, ◌*◌, ◌^◌, ◌<◌, ◌≤◌, length, Decides, IfOk, OnOk};
ghost use Rattle.counts.specs.Counts.{raised, HasCause};
ghost use Rattle.raf_tree.specs.Made.{IsHashLen};
ghost use Rattle.raf_tree.specs.Calls.{answer};
ghost use Rattle.raf_check.specs.Claim.{claim_of, parent_call};
ghost use Rattle.raf_check.specs.Binding.{CanBeChecked, Checks, CheckCalls};

use raf_tree::{HashFault, MerkleHasher, call_laws};

/// Whether a proof of this index and height with these siblings can be checked by a hasher whose answers have `hash_len` bytes:
/// `check_parts` asks for it. A proof that came from outside is tested by it first.
pub fn can_be_checked(index: u64, height: u32, siblings: &[u8], hash_len: usize) -> bool
    requires { hash_len ≤ 64 }
    ensures { Decides result (CanBeChecked hash_len index height siblings.now) }
{
    if height > 63 {
        return false;
    }
    if index >> height != 0 {
        return false;
    }
    siblings.len() == height as usize * hash_len
}

// Puts the node of a place's parent where that of the place stands.
fn climb<H: MerkleHasher>(
    hasher: &mut H,
    node: &mut [u8],
    sibling: &[u8],
    level: u32,
    place: u64,
) -> Result<(), HashFault>
    requires node { length node.old ≡ (H.hashing (H.setting hasher.old)).len }
    requires sibling { length sibling.now ≡ (H.hashing (H.setting hasher.old)).len }
    requires short { length node.old ≤ 64 }
    requires level { level < 63 }
    ensures made { OnOk result (node.new ≡ answer (H.hashing (H.setting hasher.old)) (parent_call node.old sibling.now level place)) }
    ensures setting { H.setting hasher.new ≡ H.setting hasher.old }
    ensures cause { HasCause (H.faults hasher.old) (H.faults hasher.new) result }
    ensures calls { H.calls hasher.new ≡ raised (H.calls hasher.old) 1 }
{
    let mut room = [0u8; 64];
    let own = &mut room[..node.len()];
    own.copy_from_slice(node);
    if place % 2 == 0 {
        hasher.hash_parent(node, own, sibling, level + 1, place / 2)
    } else {
        hasher.hash_parent(node, sibling, own, level + 1, place / 2)
    }
}

/// Whether a proof of these parts shows that a chunk is in the file with this commitment: the commitment is computed from the chunk and
/// the siblings, one hash for each level from level 0 up, and compared. It asks one hash for each level of the proof's tree and two more,
/// and takes no memory. A `HashFault` comes where the hasher failed, and only there.
pub fn check_parts<H: MerkleHasher>(
    hasher: &mut H,
    commitment: &[u8],
    chunk: &[u8],
    index: u64,
    size: u64,
    id: &[u8; 32],
    height: u32,
    siblings: &[u8],
) -> Result<bool, HashFault>
    requires len { IsHashLen (H.hashing (H.setting hasher.old)).len }
    requires commitment { length commitment.now ≡ (H.hashing (H.setting hasher.old)).len }
    requires chunk { length chunk.now ≤ 2 ^ 60 }
    requires proof { CanBeChecked (H.hashing (H.setting hasher.old)).len index height siblings.now }
    ensures checks { IfOk result (Checks (H.hashing (H.setting hasher.old)) commitment.now chunk.now (claim_of index size id.now height siblings.now)) }
    ensures setting { H.setting hasher.new ≡ H.setting hasher.old }
    ensures cause { HasCause (H.faults hasher.old) (H.faults hasher.new) result }
    ensures calls { CheckCalls height (H.calls hasher.old) (H.calls hasher.new) result }
{
    call_laws();
    let len = commitment.len();
    let mut room = [0u8; 64];
    let node = &mut room[..len];
    hasher.hash_leaf(node, chunk, index)?;
    for level in 0..height {
        let from = len * level as usize;
        let sibling = &siblings[from..from + len];
        climb(hasher, node, sibling, level, index >> level)?;
    }
    let mut room = [0u8; 64];
    let answer = &mut room[..len];
    hasher.hash_commitment(answer, node, id, size)?;
    Ok(&*answer == commitment)
}
