//! Proofs by SHA-256, for callers that have no hasher of their own.
ghost use Rattle.std.specs.Prelude.{◌≡◌, ◌↔◌, ◌^◌, ◌≤◌, pos, negsuc, Some, true, length};
ghost use Rattle.raf_tree.specs.Sha.{sha_hashing};
ghost use Rattle.raf_check.specs.Claim.{Claim};
ghost use Rattle.raf_check.specs.Binding.{Binds};
ghost use Rattle.raf_check.specs.Written.{Says, ChecksBytes, AcceptedBytes, IsNoProof, FitLengths, IsStatus};

use crate::bytes::check_bytes;
use raf_tree::Sha256Hasher;

/// `check_bytes` by SHA-256, which never fails.
pub fn check_sha256(commitment: &[u8; 32], chunk: &[u8], bytes: &[u8]) -> Option<bool>
    requires { length chunk.now ≤ 2 ^ 60 }
    ensures checks { ChecksBytes sha_hashing commitment.now chunk.now bytes.now result }
    ensures exact { (result ≡ Some true) ↔ AcceptedBytes sha_hashing commitment.now chunk.now bytes.now }
{
    let mut hasher = Sha256Hasher::new();
    check_bytes(&mut hasher, commitment, chunk, bytes).unwrap_or(None)
}

/// The answer of `check_sha256` as a number, for callers that are not Rattle and may hand in anything: 1 where the proof is accepted, 0
/// where it isn't, -1 where the bytes are no proof, and before all -2 where the commitment hasn't 32 bytes or the chunk has more than 2^60.
pub fn check_number(commitment: &[u8], chunk: &[u8], bytes: &[u8]) -> i32
    ensures lengths { (result ≡ negsuc 1) ↔ (FitLengths commitment.now chunk.now → ⊥) }
    ensures none { FitLengths commitment.now chunk.now → (result ≡ negsuc 0) ↔ IsNoProof 32 bytes.now }
    ensures accepted { FitLengths commitment.now chunk.now → (result ≡ pos 1) ↔ AcceptedBytes sha_hashing commitment.now chunk.now bytes.now }
    ensures binds { result ≡ pos 1 → (p : Claim) × Says 32 bytes.now p × Binds sha_hashing commitment.now chunk.now p }
    ensures all { IsStatus result }
{
    if commitment.len() != 32 || chunk.len() > 1 << 60 {
        return -2;
    }
    let mut value = [0u8; 32];
    value.copy_from_slice(commitment);
    match check_sha256(&value, chunk, bytes) {
        Some(true) => 1,
        Some(false) => 0,
        None => -1,
    }
}
