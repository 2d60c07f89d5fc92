//! What a file is made and opened with.
ghost use Rattle.std.specs.Prelude.{◌≡◌, ◌+◌, List, ℕ, Some, None, Option, IfOk, IfErr, true, false};
ghost use Rattle.std.specs.Option.{option_map};
ghost use Rattle.raf_format.specs.Cipher.{cipher_of};
ghost use Rattle.raf.specs.Handle.{hash_len_of};
ghost use Rattle.raf.specs.Outside.{over_storage};
ghost use Rattle.raf.specs.Opening.{Opened, NotOpened, Made, NotMade, IsNewBuilder};
ghost use Rattle.raf_format.specs.Version.{version_number};
ghost use Rattle.raf_io.specs.Kinds.{kind_of};

use crate::creating::{Fresh, make_file};
use crate::file::Raf;
use crate::opening::open_file;
use crate::outside::Parts;
use raf_format::{Algorithm, Version};
use raf_io::{Error, RafIo, RafRng};
use raf_tree::{MerkleHasher, NoMerkle};
use std::alloc::Global;
use std::marker::{Model, PhantomData};

/// What a file is made or opened with: a source of random bytes, a hasher where it has one, and settings of a new file.
#[derive(Drop)]
pub struct RafBuilder<A: Algorithm, R: RafRng, H: MerkleHasher> {
    rng: R,
    hasher: Option<H>,
    most: u64,
    fresh: Fresh,
    algorithm: PhantomData<A>,
}

impl<A: Algorithm, R: RafRng, H: MerkleHasher> Model for RafBuilder<A, R, H> {
    ghost use Rattle.std.specs.Prelude.{None};
    ghost use Rattle.std.specs.Option.{option_map};
    ghost use Rattle.raf.specs.Outside.{counted};
    ghost use Rattle.raf.specs.Opening.{Settings};
    ghost use Rattle.raf_format.specs.Version.{version_number};

    ghost Value = { Settings };

    ghost view = { λ b. record {
      version = version_number b.fresh.version;
      chunk_size = b.fresh.chunk_size;
      truncate = b.fresh.truncate;
      most = option_map (λ _. b.most) b.hasher;
      outside = record {
        bytes = None;
        durable = None;
        io_faults = 0;
        reach = 0;
        traffic = 0;
        changes = 0;
        strays = 0;
        left = R.left b.rng;
        rng_faults = R.faults b.rng;
        asked = R.asked b.rng;
        exact = R.exact;
        setting = option_map H.setting b.hasher;
        hash_faults = counted H.faults b.hasher;
        calls = counted H.calls b.hasher;
      };
    } };
}

/// Why a file wasn't opened or made, and what was handed in.
#[derive(Drop)]
pub struct OpenError<I: RafIo, R: RafRng, H: MerkleHasher> {
    /// Why.
    pub error: Error,
    /// The storage.
    pub io: I,
    /// The random source.
    pub rng: R,
    /// The hasher, where there was one.
    pub hasher: Option<H>,
}

impl<I: RafIo, R: RafRng, H: MerkleHasher> Model for OpenError<I, R, H> {
    ghost use Rattle.std.specs.Option.{option_map};
    ghost use Rattle.raf_io.specs.Kinds.{kind_of};
    ghost use Rattle.raf.specs.Outside.{counted};
    ghost use Rattle.raf.specs.Opening.{Refusal};

    ghost Value = { Refusal };

    ghost view = { λ e. record {
      kind = kind_of e.error;
      outside = record {
        bytes = I.bytes e.io;
        durable = I.durable e.io;
        io_faults = I.faults e.io;
        reach = I.reach e.io;
        traffic = I.traffic e.io;
        changes = I.changes e.io;
        strays = I.strays e.io;
        left = R.left e.rng;
        rng_faults = R.faults e.rng;
        asked = R.asked e.rng;
        exact = R.exact;
        setting = option_map H.setting e.hasher;
        hash_faults = counted H.faults e.hasher;
        calls = counted H.calls e.hasher;
      };
    } };
}

impl<I: RafIo, R: RafRng, H: MerkleHasher> OpenError<I, R, H> {
    // An error, with what was handed in.
    fn of(error: Error, parts: Parts<I, R, H>) -> OpenError<I, R, H>
        ensures { result ≡ record { kind = kind_of error; outside = parts } }
    {
        let Parts { io, rng, hasher } = parts;
        OpenError {
            error,
            io,
            rng,
            hasher,
        }
    }
}

impl<A: Algorithm, R: RafRng> RafBuilder<A, R, NoMerkle> {
    /// This source and no hasher. A new file is of version 1 and has chunks of 65536 bytes, and takes the place of none.
    pub fn new(rng: R) -> RafBuilder<A, R, NoMerkle>
        ensures { IsNewBuilder (R.left rng) (R.faults rng) (R.asked rng) R.exact result }
    {
        RafBuilder {
            rng,
            hasher: None,
            most: 0,
            fresh: Fresh {
                version: Version::V1,
                chunk_size: 65536,
                truncate: false,
            },
            algorithm: PhantomData,
        }
    }

    /// The same as [`RafBuilder::new`].
    pub fn with_rng(rng: R) -> RafBuilder<A, R, NoMerkle>
        ensures { IsNewBuilder (R.left rng) (R.faults rng) (R.asked rng) R.exact result }
    {
        RafBuilder::<A, R, NoMerkle>::new(rng)
    }
}

impl<A: Algorithm, R: RafRng, H: MerkleHasher> RafBuilder<A, R, H> {
    /// A new file has chunks of this size, in bytes: 16 to 1048576.
    pub fn chunk_size(mut self, size: u32) -> RafBuilder<A, R, H>
        ensures { result ≡ record self { chunk_size = size } }
    {
        self.fresh.chunk_size = size;
        self
    }

    /// A new file is of this version of the layout.
    pub fn version(mut self, version: Version) -> RafBuilder<A, R, H>
        ensures { result ≡ record self { version = version_number version } }
    {
        self.fresh.version = version;
        self
    }

    /// Whether a new file may take the place of what the storage holds.
    pub fn truncate(mut self, yes: bool) -> RafBuilder<A, R, H>
        ensures { result ≡ record self { truncate = yes } }
    {
        self.fresh.truncate = yes;
        self
    }

    /// This source of random bytes.
    pub fn rng<R2: RafRng>(self, rng: R2) -> RafBuilder<A, R2, H>
        ensures { result ≡ record self {
          outside = record self.outside { left = R2.left rng; rng_faults = R2.faults rng; asked = R2.asked rng; exact = R2.exact };
        } }
    {
        let RafBuilder {
            rng: _,
            hasher,
            most,
            fresh,
            algorithm: _,
        } = self;
        RafBuilder {
            rng,
            hasher,
            most,
            fresh,
            algorithm: PhantomData,
        }
    }

    /// This hasher, and the most chunks that the file may have.
    pub fn merkle<H2: MerkleHasher>(self, hasher: H2, max_chunks: u64) -> RafBuilder<A, R, H2>
        ensures { result ≡ record self {
          most = Some max_chunks;
          outside = record self.outside { setting = Some (H2.setting hasher); hash_faults = H2.faults hasher; calls = H2.calls hasher };
        } }
    {
        let RafBuilder {
            rng,
            hasher: _,
            most: _,
            fresh,
            algorithm: _,
        } = self;
        RafBuilder {
            rng,
            hasher: Some(hasher),
            most: max_chunks,
            fresh,
            algorithm: PhantomData,
        }
    }

    /// How long a hash of the hasher is, or None exactly where there is no hasher.
    pub fn hash_len(&self) -> Option<usize>
        ensures { result ≡ option_map (λ s. (H.hashing s).len) self.now.outside.setting }
    {
        match &self.hasher {
            Some(hasher) => Some(hasher.hash_len()),
            None => None,
        }
    }

    /// How long a hash of the hasher is, and 0 without a hasher.
    pub(crate) fn hash_len_or_zero(&self) -> usize
        ensures { result ≡ hash_len_of H.hashing self.now.outside.setting }
    {
        match &self.hasher {
            Some(hasher) => hasher.hash_len(),
            None => 0,
        }
    }

    /// What the builder holds, and a storage.
    pub fn into_parts<I: RafIo>(self, io: I) -> Parts<I, R, H>
        ensures { result ≡ over_storage (I.bytes io) (I.durable io) (I.faults io) (I.reach io) (I.traffic io) (I.changes io) (I.strays io)
            self.outside }
    {
        let RafBuilder {
            rng,
            hasher,
            most: _,
            fresh: _,
            algorithm: _,
        } = self;
        Parts { io, rng, hasher }
    }

    /// Makes an empty file in `io`, under `key`, of the version and the chunk size that were set. A storage that isn't empty is written
    /// over only where `truncate` was set. What was handed in comes back with a refusal, and no byte changed before the header was
    /// written. The refusals, in their order: `InvalidArgument` where the chunk size isn't 16 to 1048576 bytes; with a hasher those of
    /// [`raf_tree::Tree::new`]; `OutOfMemory`; `Io` of the storage's size; `AlreadyExists`; `Rng` of the 32 bytes of the id; `Hash` of
    /// the tree's root; `Io` of the header and of the cut.
    pub fn create<I: RafIo>(
        self,
        alloc: Global,
        io: I,
        key: &A::Key,
    ) -> Result<Raf<A, I, R, H>, OpenError<I, R, H>>
        ensures made { IfOk result (λ raf. Made (cipher_of A.variant) H.hashing (A.key_list key.now) self
            (over_storage (I.bytes io) (I.durable io) (I.faults io) (I.reach io) (I.traffic io) (I.changes io) (I.strays io) self.outside)
            raf) }
        ensures refused { IfErr result (λ e. NotMade H.hashing self
            (over_storage (I.bytes io) (I.durable io) (I.faults io) (I.reach io) (I.traffic io) (I.changes io) (I.strays io) self.outside)
            e.outside e.kind) }
    {
        let RafBuilder {
            rng,
            hasher,
            most,
            fresh,
            algorithm: _,
        } = self;
        let mut parts = Parts { io, rng, hasher };
        match make_file::<A, I, R, H>(alloc, &mut parts, key, most, &fresh) {
            Ok(file) => Ok(Raf::of(parts, file)),
            Err(error) => Err(OpenError::of(error, parts)),
        }
    }

    /// Opens the file in `io`, under `key`. It ignores the settings of a new file, and never writes. What was handed in comes back with a
    /// refusal. The refusals, in their order: `Io` of the storage's size and of its header, and `InvalidArgument` where there is no
    /// header, where it is of another algorithm or where the storage's length doesn't fit it; with a hasher those of
    /// [`raf_tree::Tree::new`], and `Overflow` where there are more chunks than it may have; `AuthenticationFailed` where the header's
    /// tag is wrong; with a hasher, chunk by chunk, `Io`, `AuthenticationFailed` where it doesn't open, and `Hash`. `OutOfMemory` may
    /// stand anywhere behind the header.
    pub fn open<I: RafIo>(
        self,
        alloc: Global,
        io: I,
        key: &A::Key,
    ) -> Result<Raf<A, I, R, H>, OpenError<I, R, H>>
        ensures opened { IfOk result (λ raf. Opened (cipher_of A.variant) H.hashing (A.key_list key.now) self.most
            (over_storage (I.bytes io) (I.durable io) (I.faults io) (I.reach io) (I.traffic io) (I.changes io) (I.strays io) self.outside)
            raf) }
        ensures refused { IfErr result (λ e. NotOpened (cipher_of A.variant) H.hashing (A.key_list key.now) self.most
            (over_storage (I.bytes io) (I.durable io) (I.faults io) (I.reach io) (I.traffic io) (I.changes io) (I.strays io) self.outside)
            e.outside e.kind) }
    {
        let RafBuilder {
            rng,
            hasher,
            most,
            fresh: _,
            algorithm: _,
        } = self;
        let mut parts = Parts { io, rng, hasher };
        match open_file::<A, I, R, H>(alloc, &mut parts, key, most) {
            Ok(file) => Ok(Raf::of(parts, file)),
            Err(error) => Err(OpenError::of(error, parts)),
        }
    }
}
