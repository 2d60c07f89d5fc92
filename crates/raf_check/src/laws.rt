//! What holds of proofs, for the proofs of callers.
ghost use Rattle.raf_tree.specs.Hashing.{Hashing};
ghost use Rattle.raf_check.specs.Siblings.{HonestProofs};
ghost use Rattle.raf_check.specs.Written.{OneProof};

use raf_tree::call_laws;

/// Bytes are one proof at most, for the proofs of callers: no two proofs whose numbers have room in their fields are written as the same
/// bytes. The call does nothing.
pub fn one_proof()
    ensures { OneProof }
{}

/// A proof that tells what is committed to, with the siblings that are in its tree, is accepted, for the proofs of callers that make
/// proofs. The call does nothing.
pub fn honest_proofs()
    ensures { (H : Hashing) → HonestProofs H }
{
    call_laws();
}
