//! An open file, and its calls.
ghost use Rattle.std.specs.Prelude.{◌≡◌, ◌+◌, ◌^◌, ◌<◌, ◌≤◌, List, ℕ, length, take, drop, Some, Option, IfOk, IfErr, OnOk, OnErr, IsErrAnd};
ghost use Rattle.std.specs.Prelude.{true, false};
ghost use Rattle.std.specs.Option.{option_map};
ghost use Rattle.raf_format.specs.Cipher.{cipher_of};
ghost use Rattle.raf_format.specs.File.{File, chunk_count};
ghost use Rattle.raf_tree.specs.Kept.{Kept, tree_height};
ghost use Rattle.raf_tree.specs.Made.{IsSized};
ghost use Rattle.raf.specs.Concern.{can_have};
ghost use Rattle.raf.specs.Handle.{Holds, Paired, HasRoom, handle_of, hash_len_of, limit_of, outline};
ghost use Rattle.raf.specs.Given.{Given, IsPlace};
ghost use Rattle.raf.specs.Read.{OldOrOpened};
ghost use Rattle.raf.specs.Stepped.{Stepped, read_reply, write_reply, done_reply, verify_reply, commitment_reply};
ghost use Rattle.raf_io.specs.Kinds.{kind_of};
ghost use Rattle.std.specs.Borrow.{sem};
ghost use Rattle.aegis_core.specs.Sealing.{key_len};
ghost use Rattle.aegis_core.specs.Keys.{derived_key};
ghost use Rattle.raf_format.specs.Derived.{CanDerive};
ghost use Rattle.raf_format.specs.Version.{version_number};
ghost use Rattle.raf.specs.Probe.{WhyNoKey};
ghost use Rattle.raf.specs.Lending.{lends_storage, with_storage};
ghost use Rattle.raf.specs.Clash.{Compared};

use crate::changing::{chunk_limit, truncate_to, write_bytes};
use crate::clashing::{Verdict, clash_files};
use crate::command::Command;
use crate::opening::{OpenFile, count_of};
use crate::outside::Parts;
use crate::planning::admit;
use crate::probing::refusal_of;
use crate::reading::read_bytes;
use crate::verifying::{commit_file, give_node, rebuild_file, verify_file};
use raf_format::{Algorithm, Version};
use raf_io::{Error, ErrorKind, RafIo, RafRng, Reason};
use raf_tree::MerkleHasher;
use std::marker::Model;

/// An encrypted file that is open: it stands on a storage, a source of random bytes and, where it has one, a hasher.
pub struct Raf<A: Algorithm, I: RafIo, R: RafRng, H: MerkleHasher> {
    parts: Parts<I, R, H>,
    file: OpenFile<A>,
}

impl<A: Algorithm, I: RafIo, R: RafRng, H: MerkleHasher> Model for Raf<A, I, R, H> {
    ghost use Rattle.raf.specs.Handle.{Handle, Paired};

    ghost Value = { Handle };

    ghost view = { λ r. record {
      outside = r.parts;
      key = A.key_list r.file.key;
      header = r.file.header;
      tree = r.file.tree;
      broken = r.file.broken;
    } };

    ghost invariant = { λ r. Paired H.hashing r.parts.setting r.file.tree };
}

impl<A: Algorithm, I: RafIo, R: RafRng, H: MerkleHasher> Drop for Raf<A, I, R, H> {
    fn drop(self) {
        let Raf { parts: _, file: _ } = self;
    }
}

impl<A: Algorithm, I: RafIo, R: RafRng, H: MerkleHasher> Raf<A, I, R, H> {
    /// An open file of these parts.
    pub(crate) fn of(parts: Parts<I, R, H>, file: OpenFile<A>) -> Self
        requires { Paired H.hashing parts.setting file.tree }
        ensures { result ≡ handle_of parts (A.key_list file.key) file.header file.tree file.broken }
    {
        Raf { parts, file }
    }

    /// A key for a context, from a master key. Refused by `InvalidArgument` of the reason `ContextTooLong` exactly where the context has
    /// more than 120 bytes (keys of 16 bytes) or 72 (keys of 32).
    pub fn derive_master_key(master_key: &A::Key, context: &[u8]) -> Result<A::Key, Error>
        ensures key { IfOk result (λ key. A.key_list key ≡ derived_key A.variant (A.key_list master_key.now) context.now) }
        ensures can { IfOk result (λ _. CanDerive (key_len A.variant) (length context.now)) }
        ensures refused { IfErr result (λ e. WhyNoKey (key_len A.variant) (length context.now) (kind_of e)) }
    {
        match raf_format::derive_master_key::<A>(master_key, context) {
            Ok(key) => Ok(key),
            Err(error) => Err(refusal_of(error)),
        }
    }

    /// The bytes from an offset on, as many as the buffer has, that lie below the size: how many they are. After a refusal each place of
    /// the buffer has its old byte, or one of a chunk that opened.
    pub fn read(&mut self, buf: &mut [u8], offset: u64) -> Result<usize, Error>
        ensures stepped { Stepped (cipher_of A.variant) H.hashing self.old self.new (Command.Read offset (length buf.old))
            (read_reply buf.new result) }
        ensures count { IfOk result (λ n. n ≤ length buf.old) }
        ensures end { IfOk result (λ n. offset + n < 2 ^ 64) }
        ensures rest { IfOk result (λ n. drop n buf.new ≡ drop n buf.old) }
        ensures refused { (F : File) → Holds (cipher_of A.variant) self.old F → OnErr result (OldOrOpened F offset buf.old buf.new) }
    {
        if self.file.broken {
            return Err(Error::Broken);
        }
        read_bytes::<A, I, R, H>(&mut self.parts, &mut self.file, buf, offset)
    }

    /// Puts these bytes at an offset, all of them. A gap between the size and the offset becomes zeros.
    pub fn write(&mut self, buf: &[u8], offset: u64) -> Result<usize, Error>
        ensures stepped { Stepped (cipher_of A.variant) H.hashing self.old self.new (Command.Write offset buf.now) (write_reply result) }
        ensures count { IfOk result (λ n. n ≡ length buf.now) }
        ensures end { IfOk result (λ n. offset + n < 2 ^ 64) }
    {
        if self.file.broken {
            return Err(Error::Broken);
        }
        write_bytes::<A, I, R, H>(&mut self.parts, &mut self.file, buf, offset)
    }

    /// Makes the file this long. Bytes that are added are zeros.
    pub fn truncate(&mut self, size: u64) -> Result<(), Error>
        ensures stepped { Stepped (cipher_of A.variant) H.hashing self.old self.new (Command.Truncate size) (done_reply result) }
    {
        if self.file.broken {
            return Err(Error::Broken);
        }
        truncate_to::<A, I, R, H>(&mut self.parts, &mut self.file, size)
    }

    /// How long the file is. Where a change was cut short, it is the size as that change began.
    pub fn size(&self) -> u64
        ensures { result ≡ self.now.header.file_size }
    {
        self.file.header.file_size
    }

    /// The layout's version.
    pub fn version(&self) -> Version
        ensures { version_number result ≡ self.now.header.version }
    {
        if self.file.header.version == 2 {
            Version::V2
        } else {
            Version::V1
        }
    }

    /// Whether the file can be this long: its storage has then fewer than 2^64 bytes, and its chunks have room in the hasher's tree,
    /// where there is one. It also answers where a change was cut short.
    pub fn admits(&self, size: u64) -> bool
        ensures { result ≡ can_have (limit_of self.now) (outline (cipher_of A.variant) self.now.header) size }
    {
        admit::<A>(&self.file.header, size, chunk_limit(&self.file.tree)).is_some()
    }

    // A change was cut short.
    pub(crate) fn is_broken(&self) -> bool
        ensures { result ≡ self.now.broken }
    {
        self.file.broken
    }

    /// Makes the storage durable.
    pub fn sync(&mut self) -> Result<(), Error>
        ensures stepped { Stepped (cipher_of A.variant) H.hashing self.old self.new Command.Sync (done_reply result) }
    {
        if self.file.broken {
            return Err(Error::Broken);
        }
        self.parts.sync()
    }

    /// Makes the tree anew from the chunks, once each was seen to open. Refused by `MerkleNotEnabled` without a hasher, by
    /// `AuthenticationFailed` where a chunk doesn't open, by `Io`, and by `Hash`; once a hash was asked, a refusal marks the file.
    pub fn merkle_rebuild(&mut self) -> Result<(), Error>
        ensures stepped { Stepped (cipher_of A.variant) H.hashing self.old self.new Command.Rebuild (done_reply result) }
    {
        if self.file.broken {
            return Err(Error::Broken);
        }
        rebuild_file::<A, I, R, H>(&mut self.parts, &mut self.file)
    }

    /// The first chunk that doesn't open or whose leaf differs from the tree's, or None where there is none. Refused by
    /// `MerkleNotEnabled` without a hasher, by `Io` and by `Hash`.
    pub fn merkle_verify(&mut self) -> Result<Option<u64>, Error>
        ensures stepped { Stepped (cipher_of A.variant) H.hashing self.old self.new Command.Verify (verify_reply result) }
    {
        if self.file.broken {
            return Err(Error::Broken);
        }
        verify_file::<A, I, R, H>(&mut self.parts, &mut self.file)
    }

    /// The tree's commitment, of `hash_len` bytes, in front of the buffer; what stands behind it stays. Refused by `MerkleNotEnabled`
    /// without a hasher, by `InvalidArgument` where the buffer is shorter, and by `Hash`.
    pub fn merkle_commitment(&mut self, out: &mut [u8]) -> Result<(), Error>
        ensures stepped { hash_len_of H.hashing self.old.outside.setting ≤ length out.old →
            Stepped (cipher_of A.variant) H.hashing self.old self.new Command.Commitment (commitment_reply (take (hash_len_of H.hashing self.old.outside.setting) out.new) result) }
        ensures broken { self.old.broken ≡ true → IsErrAnd result (λ e. kind_of e ≡ ErrorKind.Broken) × (self.new ≡ self.old) }
        ensures short { self.old.broken ≡ false → length out.old < hash_len_of H.hashing self.old.outside.setting →
            IsErrAnd result (λ e. kind_of e ≡ ErrorKind.InvalidArgument Reason.CommitmentBuffer) × (self.new ≡ self.old) }
        ensures rest { drop (hash_len_of H.hashing self.old.outside.setting) out.new
            ≡ drop (hash_len_of H.hashing self.old.outside.setting) out.old }
    {
        if self.file.broken {
            return Err(Error::Broken);
        }
        commit_file::<A, I, R, H>(&mut self.parts, &self.file, out)
    }

    /// The file's id.
    pub fn id(&self) -> [u8; 32]
        ensures { result ≡ self.now.header.id }
    {
        self.file.header.id
    }

    /// How many chunks the file has; a file with a hasher has no more than its tree has room for.
    pub fn chunk_count(&self) -> u64
        ensures count { result ≡ chunk_count self.now.header.chunk_size self.now.header.file_size }
        ensures room { HasRoom result self.now.tree }
    {
        count_of(&self.file.header)
    }

    /// The height of the file's tree, or None exactly where there is no hasher: the least number whose power of two is at least the
    /// number of chunks that there may be.
    pub fn merkle_height(&self) -> Option<u32>
        ensures height { result ≡ option_map tree_height self.now.tree }
        ensures paired { Paired H.hashing self.now.outside.setting self.now.tree }
        ensures sized { (t : Kept) → self.now.tree ≡ Some t → IsSized t }
    {
        match &self.file.tree {
            Some(tree) => Some(tree.height()),
            None => None,
        }
    }

    /// The node of a place in the file's tree, of `hash_len` bytes, in front of the buffer; what stands behind it stays. Level 0 has the
    /// leaves, and the place is in the tree. One hash is asked where no chunk is below the place, and else none. Refused by
    /// `MerkleNotEnabled` without a hasher, by `InvalidArgument` where the buffer is shorter, and by `Hash`.
    pub fn merkle_node(&mut self, level: u32, index: u64, out: &mut [u8]) -> Result<(), Error>
        requires { (t : Kept) → self.old.tree ≡ Some t → IsPlace t level index }
        ensures { Given H.hashing level index self.old self.new out.old out.new result }
    {
        if self.file.broken {
            return Err(Error::Broken);
        }
        give_node::<A, I, R, H>(&mut self.parts, &self.file, level, index, out)
    }

    /// How long a hash is, or None exactly where there is no hasher.
    pub fn hash_len(&self) -> Option<usize>
        ensures { result ≡ option_map (λ s. (H.hashing s).len) self.now.outside.setting }
    {
        match &self.parts.hasher {
            Some(hasher) => Some(hasher.hash_len()),
            None => None,
        }
    }

    /// The storage. What it holds afterwards is the caller's affair: the file's calls state what they do over a storage whose first 96
    /// bytes and whose length are as before.
    pub fn storage_mut(&mut self) -> &mut I
        ensures* writes_back { sem 𝓛 (lends_storage A.row I.row R.row H.row A.Key.row A.Algorithm I.RafIo R.RafRng H.MerkleHasher
            self.entry result) }
        ensures value { with_storage I.RafIo self.old result.now ≡ self.old }
    {
        &mut self.parts.io
    }

    /// Storage, random source and hasher come back.
    pub fn close(self) -> Parts<I, R, H>
        ensures { result ≡ self.outside }
    {
        let Raf { parts, file: _ } = self;
        parts
    }

    /// The storage comes back.
    pub fn into_io(self) -> I
        ensures bytes { I.bytes result ≡ self.outside.bytes }
        ensures durable { I.durable result ≡ self.outside.durable }
        ensures counts { (I.faults result ≡ self.outside.io_faults) × (I.reach result ≡ self.outside.reach)
            × (I.traffic result ≡ self.outside.traffic)
            × (I.changes result ≡ self.outside.changes) × (I.strays result ≡ self.outside.strays) }
    {
        let Parts {
            io,
            rng: _,
            hasher: _,
        } = self.close();
        io
    }
}

/// Whether two files with hashers of one type have one commitment, and then whether they are the same. `Unequal` where the commitments
/// differ; `Same` where they are equal, and ids, sizes and chunks are equal; else `Clash`, the first two places, in the order of the
/// commitment and then the nodes from the root down, left before right, whose hasher calls are different and have one answer. The
/// answer is right where each file's tree is that of its chunks and both hashers have one setting.
///
/// Refused by `Broken` exactly where either file is marked, then by `MerkleNotEnabled` exactly where either has no hasher, and then by
/// `Io`, `AuthenticationFailed` (a chunk doesn't open) and `Hash` as they come. Neither file changes, and neither becomes marked.
pub fn clash<
    A1: Algorithm,
    I1: RafIo,
    R1: RafRng,
    A2: Algorithm,
    I2: RafIo,
    R2: RafRng,
    H: MerkleHasher,
>(a: &mut Raf<A1, I1, R1, H>, b: &mut Raf<A2, I2, R2, H>) -> Result<Verdict, Error>
    ensures { Compared (cipher_of A1.variant) (cipher_of A2.variant) H.hashing a.old b.old a.new b.new result }
{
    if a.file.broken || b.file.broken {
        return Err(Error::Broken);
    }
    clash_files::<A1, I1, R1, A2, I2, R2, H>(&mut a.parts, &mut a.file, &mut b.parts, &mut b.file)
}
