//! A proof as bytes: it is written, and checked as it is lent.
ghost use Rattle.std.specs.Prelude.{◌≡◌, ◌↔◌, ◌+◌, ◌^◌, ◌<◌, ◌≤◌, Some, None, true, length, drop, IsNone, IfOk, IfSome};
ghost use Rattle.counts.specs.Counts.{HasCause};
ghost use Rattle.raf_tree.specs.Made.{IsHashLen};
ghost use Rattle.raf_check.specs.Claim.{Claim, claim_of};
ghost use Rattle.raf_check.specs.Written.{front, written, InRange, ChecksBytes, AcceptedBytes, BytesCalls};

use crate::checking::{can_be_checked, check_parts};
use raf_tree::{HashFault, MerkleHasher};

/// How many bytes of a written proof stand before the siblings.
pub const FRONT_LEN: usize = 53;

/// The number of this layout.
const VERSION: u8 = 1;

/// What stands before the siblings.
#[derive(Drop)]
struct Front {
    index: u64,
    size: u64,
    id: [u8; 32],
    height: u32,
}

// The bytes before the siblings.
fn front_bytes(index: u64, size: u64, id: &[u8; 32], height: u32) -> [u8; 53]
    ensures { result ≡ front index size id.now height }
{
    let mut out = [VERSION; FRONT_LEN];
    let (_, fields) = out.split_at_mut(1);
    let (index_bytes, fields) = fields.split_at_mut(8);
    let (size_bytes, fields) = fields.split_at_mut(8);
    let (id_bytes, height_bytes) = fields.split_at_mut(32);
    index_bytes.copy_from_slice(&index.to_le_bytes());
    size_bytes.copy_from_slice(&size.to_le_bytes());
    id_bytes.copy_from_slice(id);
    height_bytes.copy_from_slice(&height.to_le_bytes());
    out
}

// What stands before the siblings, or None where the bytes are too few or of another layout.
fn front_of(bytes: &[u8]) -> Option<Front>
    ensures found { IfSome result (λ f. bytes.now ≡ written (claim_of f.index f.size f.id f.height (drop 53 bytes.now))) }
    ensures fields { IfSome result (λ f. InRange (claim_of f.index f.size f.id f.height (drop 53 bytes.now))) }
    ensures long { IfSome result (λ _. 53 ≤ length bytes.now) }
    ensures none { IsNone result → (p : Claim) → InRange p → bytes.now ≡ written p → ⊥ }
{
    if bytes.len() < FRONT_LEN || bytes[0] != VERSION {
        return None;
    }
    let mut index = [0u8; 8];
    index.copy_from_slice(&bytes[1..9]);
    let mut size = [0u8; 8];
    size.copy_from_slice(&bytes[9..17]);
    let mut id = [0u8; 32];
    id.copy_from_slice(&bytes[17..49]);
    let mut height = [0u8; 4];
    height.copy_from_slice(&bytes[49..53]);
    Some(Front {
        index: u64::from_le_bytes(index),
        size: u64::from_le_bytes(size),
        id,
        height: u32::from_le_bytes(height),
    })
}

/// Writes a proof of these parts: the version 1, the index and the size as 8 bytes each, the id, the height as 4 bytes, and the siblings.
/// Of each number the least byte is the first. There has to be room for exactly these bytes, 53 and those of the siblings.
pub fn write_parts(
    index: u64,
    size: u64,
    id: &[u8; 32],
    height: u32,
    siblings: &[u8],
    out: &mut [u8],
)
    requires { length out.old ≡ 53 + length siblings.now }
    ensures { out.new ≡ written (claim_of index size id.now height siblings.now) }
{
    let (front, rest) = out.split_at_mut(FRONT_LEN);
    front.copy_from_slice(&front_bytes(index, size, id, height));
    rest.copy_from_slice(siblings);
}

/// Whether bytes are a proof that a chunk is in the file with this commitment, or None where they are no proof that can be checked: so
/// `Some(true)` comes exactly where they are one that is accepted. The bytes may come from anywhere. It asks the hashes that
/// `check_parts` asks, none for an answer of None, and takes no memory.
pub fn check_bytes<H: MerkleHasher>(
    hasher: &mut H,
    commitment: &[u8],
    chunk: &[u8],
    bytes: &[u8],
) -> Result<Option<bool>, HashFault>
    requires len { IsHashLen (H.hashing (H.setting hasher.old)).len }
    requires commitment { length commitment.now ≡ (H.hashing (H.setting hasher.old)).len }
    requires chunk { length chunk.now ≤ 2 ^ 60 }
    ensures checks { IfOk result (ChecksBytes (H.hashing (H.setting hasher.old)) commitment.now chunk.now bytes.now) }
    ensures exact { IfOk result (λ found. (found ≡ Some true) ↔ AcceptedBytes (H.hashing (H.setting hasher.old)) commitment.now chunk.now bytes.now) }
    ensures setting { H.setting hasher.new ≡ H.setting hasher.old }
    ensures cause { HasCause (H.faults hasher.old) (H.faults hasher.new) result }
    ensures calls { BytesCalls (H.hashing (H.setting hasher.old)).len bytes.now (H.calls hasher.old) (H.calls hasher.new) result }
{
    let Some(front) = front_of(bytes) else {
        return Ok(None);
    };
    let siblings = &bytes[FRONT_LEN..];
    if !can_be_checked(front.index, front.height, siblings, commitment.len()) {
        return Ok(None);
    }
    match check_parts(
        hasher,
        commitment,
        chunk,
        front.index,
        front.size,
        &front.id,
        front.height,
        siblings,
    ) {
        Ok(yes) => Ok(Some(yes)),
        Err(fault) => Err(fault),
    }
}
