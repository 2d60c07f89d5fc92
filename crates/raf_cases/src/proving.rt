//! Proofs that a chunk is in a file: they are made of an open file, and checked.
use crate::bench::{Bench, Hashing};
use crate::playing::{Counted, File};
use crate::report::Report;
use crate::words::Fault;
use raf::{Algorithm, FakeHasher, MemIo, MerkleHasher, Sha256Hasher, VecRng};
use raf_check::{check_bytes, check_number};
use raf_proof::prove;
use std::alloc::Global;

/// Proves that the chunk at an index is in the file, and tells the proof's bytes.
pub fn prove_one<A: Algorithm, H: MerkleHasher>(
    alloc: Global,
    file: &mut File<A, H>,
    index: u64,
    report: &mut Report,
) -> Result<(), Fault> {
    let answer = prove::<A, MemIo, VecRng, H>(alloc, file, index);
    match answer {
        Ok(Some(proof)) => report.bytes("proof", &proof.to_bytes(alloc)?),
        Ok(None) => report.line("no chunk"),
        Err(error) => report.kind("refused", error.kind()),
    }
}

/// Proves each chunk, and checks each proof by SHA-256. Tells the bytes of all proofs, and how many are accepted.
pub fn prove_all<A: Algorithm, H: MerkleHasher>(
    alloc: Global,
    file: &mut File<A, H>,
    chunk_size: usize,
    report: &mut Report,
) -> Result<(), Fault> {
    let mut commitment = [0u8; 64];
    let committed = file.merkle_commitment(&mut commitment);
    if let Err(error) = committed {
        return report.kind("refused", error.kind());
    }
    let value = commitment.get(..32).unwrap_or(&[]);
    let mut proofs = Vec::new(alloc);
    let mut accepted = 0u64;
    for index in 0..file.chunk_count() {
        let answer = prove::<A, MemIo, VecRng, H>(alloc, file, index);
        let Ok(Some(proof)) = answer else {
            return report.number("no proof of", index);
        };
        let proof = proof.to_bytes(alloc)?;
        let mut chunk = vec![in alloc; 0u8; chunk_size]?;
        let Ok(count) = file.read(&mut chunk, index.saturating_mul(chunk_size as u64)) else {
            return report.number("no chunk", index);
        };
        chunk.truncate(count);
        if check_number(value, &chunk, &proof) == 1 {
            accepted = accepted.saturating_add(1);
        }
        proofs.extend_from_slice(&proof)?;
    }
    report.bytes("proofs", &proofs)?;
    report.number("accepted", accepted)
}

// Checks a proof's bytes by a hasher, and tells the answer and how many hashes were asked.
fn check_by<H: Counted>(
    mut hasher: H,
    commitment: &[u8],
    chunk: &[u8],
    proof: &[u8],
    report: &mut Report,
) -> Result<(), Fault> {
    let len = hasher.hash_len();
    if len < 8 || len > 64 || commitment.len() != len || chunk.len() > 1 << 60 {
        return Err(Fault::Line);
    }
    let word = match check_bytes::<H>(&mut hasher, commitment, chunk, proof) {
        Ok(Some(true)) => "accepted",
        Ok(Some(false)) => "not accepted",
        Ok(None) => "no proof",
        Err(_) => "refused Hash",
    };
    report.line(word)?;
    report.number("hashes", hasher.count())
}

/// Checks a proof's bytes by the bench's hasher.
pub fn ask_check(
    alloc: Global,
    bench: &mut Bench,
    commitment: &[u8],
    chunk: &[u8],
    proof: &[u8],
    report: &mut Report,
) -> Result<(), Fault> {
    match bench.hashing {
        Hashing::Without => Err(Fault::Line),
        Hashing::Sha256 => {
            check_by::<Sha256Hasher>(Sha256Hasher::new(), commitment, chunk, proof, report)
        }
        Hashing::Fake(len) => {
            let hasher = FakeHasher::new(len, bench.take_fail_hash(alloc));
            check_by::<FakeHasher>(hasher, commitment, chunk, proof, report)
        }
    }
}

/// Checks a proof's bytes by SHA-256 with the lowest bit of each byte changed in turn, and tells each answer by a letter: a where it is
/// accepted, r where it isn't, n where the bytes are no proof, and l where commitment or chunk are too long or too short.
pub fn ask_changed(
    alloc: Global,
    commitment: &[u8],
    chunk: &[u8],
    proof: &[u8],
    report: &mut Report,
) -> Result<(), Fault> {
    let mut letters = String::new(alloc);
    for i in 0..proof.len() {
        let mut changed = Vec::new(alloc);
        changed.extend_from_slice(proof)?;
        if let Some(byte) = changed.get_mut(i) {
            *byte ^= 1;
        }
        letters.push_str(match check_number(commitment, chunk, &changed) {
            1 => "a",
            0 => "r",
            -1 => "n",
            _ => "l",
        })?;
    }
    report.name("changed", letters.as_str())
}
