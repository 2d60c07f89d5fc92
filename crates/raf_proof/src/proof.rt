//! What a proof holds.
ghost use Rattle.std.specs.Prelude.{◌≡◌, ◌≤◌, Decides, IfOk};
ghost use Rattle.raf_check.specs.Binding.{CanBeChecked};
ghost use Rattle.raf_check.specs.Written.{written};

use raf::Data;
use raf_check::{FRONT_LEN, can_be_checked, write_parts};
use std::alloc::{AllocError, Global};
use std::marker::Model;

/// A proof that a chunk is in a committed file: the chunk's index, the file's size in bytes and its id, the height of its tree, and the
/// siblings on the chunk's path.
#[derive(Drop)]
pub struct Proof {
    index: u64,
    size: u64,
    id: [u8; 32],
    height: u32,
    siblings: Data,
}

impl Model for Proof {
    ghost use Rattle.raf_check.specs.Claim.{Claim};

    ghost Value = { Claim };

    ghost view = { λ p. record { index = p.index; size = p.size; id = p.id; height = p.height; siblings = p.siblings } };
}

impl Proof {
    /// A proof of these parts. Nothing is tested.
    pub fn new(index: u64, size: u64, id: [u8; 32], height: u32, siblings: Data) -> Proof
        ensures { result ≡ record { index = index; size = size; id = id; height = height; siblings = siblings } }
    {
        Proof {
            index,
            size,
            id,
            height,
            siblings,
        }
    }

    /// The index of the chunk.
    pub fn index(&self) -> u64
        ensures { result ≡ self.now.index }
    {
        self.index
    }

    /// How long the file is, in bytes.
    pub fn size(&self) -> u64
        ensures { result ≡ self.now.size }
    {
        self.size
    }

    /// The file's id.
    pub fn id(&self) -> &[u8; 32]
        ensures { result.now ≡ self.now.id }
    {
        &self.id
    }

    /// The height of the file's tree.
    pub fn height(&self) -> u32
        ensures { result ≡ self.now.height }
    {
        self.height
    }

    /// The siblings: the bytes of one hash for each level, from level 0 up.
    pub fn siblings(&self) -> &[u8]
        ensures { result.now ≡ self.now.siblings }
    {
        self.siblings.as_slice()
    }

    /// Whether the proof can be checked by a hasher whose answers have this many bytes: `check` asks for it. A proof that came from outside
    /// is tested by it first.
    pub fn can_be_checked(&self, hash_len: usize) -> bool
        requires { hash_len ≤ 64 }
        ensures { Decides result (CanBeChecked hash_len self.now.index self.now.height self.now.siblings) }
    {
        can_be_checked(self.index, self.height, self.siblings.as_slice(), hash_len)
    }

    /// The proof as bytes, which `raf_check` checks as they are: the version 1, the index and the size as 8 bytes each, the id, the height as
    /// 4 bytes, and the siblings. Of each number the least byte is the first.
    pub fn to_bytes(&self, alloc: Global) -> Result<Vec<u8>, AllocError>
        ensures { IfOk result (λ bytes. bytes.items ≡ written self.now) }
    {
        let siblings = self.siblings.as_slice();
        let mut bytes = vec![in alloc; 0u8; FRONT_LEN]?;
        bytes.extend_from_slice(siblings)?;
        write_parts(
            self.index,
            self.size,
            &self.id,
            self.height,
            siblings,
            &mut bytes,
        );
        Ok(bytes)
    }
}
