//! Proofs that a chunk is in a committed file.

ghost use Rattle.std.specs.Prelude.{◌≡◌, ◌↔◌, pos, negsuc};
ghost use Rattle.raf_tree.specs.Sha.{sha_hashing};
ghost use Rattle.raf_check.specs.Claim.{Claim};
ghost use Rattle.raf_check.specs.Binding.{Binds};
ghost use Rattle.raf_check.specs.Written.{Says, AcceptedBytes, IsNoProof, FitLengths, IsStatus};

use raf_check::check_number;

/// Whether the bytes of a proof show that a chunk is in the file with a commitment by SHA-256: 1 where they do, 0 where they are a proof
/// that doesn't, -1 where they are no proof, and before all -2 where the commitment hasn't 32 bytes or the chunk has more than 2^60.
#[unsafe(no_mangle)]
pub extern "C" fn raf_proof_check(commitment: &[u8], chunk: &[u8], proof: &[u8]) -> i32
    ensures lengths { (result ≡ negsuc 1) ↔ (FitLengths commitment.now chunk.now → ⊥) }
    ensures none { FitLengths commitment.now chunk.now → (result ≡ negsuc 0) ↔ IsNoProof 32 proof.now }
    ensures accepted { FitLengths commitment.now chunk.now → (result ≡ pos 1) ↔ AcceptedBytes sha_hashing commitment.now chunk.now proof.now }
    ensures binds { result ≡ pos 1 → (p : Claim) × Says 32 proof.now p × Binds sha_hashing commitment.now chunk.now p }
    ensures all { IsStatus result }
{
    check_number(commitment, chunk, proof)
}
