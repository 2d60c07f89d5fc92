//! A proof is checked against a commitment.
ghost use Rattle.std.specs.Prelude.{◌≡◌, ◌^◌, ◌≤◌, length, IfOk};
ghost use Rattle.counts.specs.Counts.{HasCause};
ghost use Rattle.raf_tree.specs.Made.{IsHashLen};
ghost use Rattle.raf_check.specs.Binding.{CanBeChecked, Checks, CheckCalls};

use crate::proof::Proof;
use raf_check::check_parts;
use raf_tree::{HashFault, MerkleHasher};

/// Whether a proof shows that a chunk is in the file with this commitment: the commitment is computed from the chunk and the siblings,
/// and compared. It asks one hash for each level of the proof's tree and two more, and takes no memory. A `HashFault` comes where the
/// hasher failed, and only there.
pub fn check<H: MerkleHasher>(
    hasher: &mut H,
    commitment: &[u8],
    chunk: &[u8],
    proof: &Proof,
) -> Result<bool, HashFault>
    requires len { IsHashLen (H.hashing (H.setting hasher.old)).len }
    requires commitment { length commitment.now ≡ (H.hashing (H.setting hasher.old)).len }
    requires chunk { length chunk.now ≤ 2 ^ 60 }
    requires proof { CanBeChecked (H.hashing (H.setting hasher.old)).len proof.now.index proof.now.height proof.now.siblings }
    ensures checks { IfOk result (Checks (H.hashing (H.setting hasher.old)) commitment.now chunk.now proof.now) }
    ensures setting { H.setting hasher.new ≡ H.setting hasher.old }
    ensures cause { HasCause (H.faults hasher.old) (H.faults hasher.new) result }
    ensures calls { CheckCalls proof.now.height (H.calls hasher.old) (H.calls hasher.new) result }
{
    check_parts(
        hasher,
        commitment,
        chunk,
        proof.index(),
        proof.size(),
        proof.id(),
        proof.height(),
        proof.siblings(),
    )
}
