//! The storage, the random source and the hasher of a file, seen together.
ghost use Rattle.std.specs.Prelude.{◌≡◌, ◌+◌, ◌-◌, ◌*◌, ◌^◌, ◌<◌, ◌≤◌, max, ⊤, List, ℕ, length, Some, None, is_some, true, false, IfOk, IfErr, OnOk, OnErr};
ghost use Rattle.std.specs.Option.{option_map};
ghost use Rattle.counts.specs.Counts.{raised, Rose};
ghost use Rattle.raf_io.specs.Storage.{spliced, resized, Told, ReadsFrom, Torn, Cut, IsLengthOf, Strays, SyncedTo};
ghost use Rattle.raf_io.specs.Source.{Takes, TakesAtMost, IsShort};
ghost use Rattle.raf_tree.specs.Kept.{Kept, kept, tree_height};
ghost use Rattle.raf_tree.specs.Steps.{Built, Updated, UpdateCalls};
ghost use Rattle.raf.specs.Given.{Asked};
ghost use Rattle.raf.specs.Handle.{Paired, HasRoom};
ghost use Rattle.raf.specs.Outside.{Quiet, Caused, Moved, counted, Kept as Kept_};
ghost use Rattle.raf.specs.Carry.{SameTree, OfTrees, Leafed, HasTree};
ghost use Rattle.raf_io.specs.Kinds.{kind_of};

use raf_io::{Error, ErrorKind, RafIo, RafRng};
use raf_tree::{MerkleHasher, Tree};
use std::marker::Model;

/// What a file stands on: a storage, a source of random bytes, and a hasher where there is one.
#[derive(Drop)]
pub struct Parts<I: RafIo, R: RafRng, H: MerkleHasher> {
    /// The storage.
    pub io: I,
    /// The random source.
    pub rng: R,
    /// The hasher.
    pub hasher: Option<H>,
}

impl<I: RafIo, R: RafRng, H: MerkleHasher> Model for Parts<I, R, H> {
    ghost use Rattle.raf.specs.Outside.{Outside, counted};
    ghost use Rattle.std.specs.Option.{option_map};

    ghost Value = { Outside };

    ghost view = { λ p. record {
      bytes = I.bytes p.io;
      durable = I.durable p.io;
      io_faults = I.faults p.io;
      reach = I.reach p.io;
      traffic = I.traffic p.io;
      changes = I.changes p.io;
      strays = I.strays p.io;
      left = R.left p.rng;
      rng_faults = R.faults p.rng;
      asked = R.asked p.rng;
      exact = R.exact;
      setting = option_map H.setting p.hasher;
      hash_faults = counted H.faults p.hasher;
      calls = counted H.calls p.hasher;
    } };
}

impl<I: RafIo, R: RafRng, H: MerkleHasher> Parts<I, R, H> {
    /// How long the storage is.
    pub(crate) fn size(&mut self) -> Result<u64, Error>
        ensures size { IfOk result (IsLengthOf self.old.bytes) }
        ensures kept { Kept_ self.old self.new }
        ensures failed { IfErr result (λ e. (kind_of e ≡ ErrorKind.Io) × Caused ErrorKind.Io self.old self.new) }
        ensures quiet { OnOk result (Quiet self.old self.new) }
        ensures moved { Moved self.old self.new 0 0 0 0 0 }
        ensures strays { self.new.strays ≡ self.old.strays }
    {
        match self.io.get_size() {
            Ok(size) => Ok(size),
            Err(fault) => Err(Error::Io(fault)),
        }
    }

    /// Reads at an offset.
    pub(crate) fn read(&mut self, buf: &mut [u8], offset: u64) -> Result<(), Error>
        requires { offset + length buf.old < 2 ^ 64 }
        ensures read { OnOk result (ReadsFrom self.old.bytes offset buf.new) }
        ensures kept { Kept_ self.old self.new }
        ensures failed { IfErr result (λ e. (kind_of e ≡ ErrorKind.Io) × Caused ErrorKind.Io self.old self.new) }
        ensures quiet { OnOk result (Quiet self.old self.new) }
        ensures moved { Moved self.old self.new (offset + length buf.old) (length buf.old) 0 0 0 }
        ensures strays { Strays self.old.bytes offset (length buf.old) self.old.strays self.new.strays }
    {
        match self.io.read_at(buf, offset) {
            Ok(()) => Ok(()),
            Err(fault) => Err(Error::Io(fault)),
        }
    }

    /// Writes at an offset.
    pub(crate) fn write(&mut self, bytes: &[u8], offset: u64) -> Result<(), Error>
        requires { offset + length bytes.now < 2 ^ 64 }
        ensures written { OnOk result (self.new.bytes ≡ option_map (spliced offset bytes.now) self.old.bytes) }
        ensures torn { OnErr result (Told (Torn offset (length bytes.now)) self.old.bytes self.new.bytes) }
        ensures left { self.new.left ≡ self.old.left }
        ensures failed { IfErr result (λ e. (kind_of e ≡ ErrorKind.Io) × Caused ErrorKind.Io self.old self.new) }
        ensures quiet { OnOk result (Quiet self.old self.new) }
        ensures moved { Moved self.old self.new (offset + length bytes.now) (length bytes.now) 0 1 0 }
        ensures began { Rose self.old.changes self.new.changes }
        ensures strays { self.new.strays ≡ self.old.strays }
    {
        match self.io.write_at(bytes, offset) {
            Ok(()) => Ok(()),
            Err(fault) => Err(Error::Io(fault)),
        }
    }

    /// Cuts the storage, or adds zeros to it.
    pub(crate) fn resize(&mut self, size: u64) -> Result<(), Error>
        ensures resized { OnOk result (self.new.bytes ≡ option_map (resized size) self.old.bytes) }
        ensures cut { OnErr result (Told (Cut size) self.old.bytes self.new.bytes) }
        ensures left { self.new.left ≡ self.old.left }
        ensures failed { IfErr result (λ e. (kind_of e ≡ ErrorKind.Io) × Caused ErrorKind.Io self.old self.new) }
        ensures quiet { OnOk result (Quiet self.old self.new) }
        ensures moved { Moved self.old self.new size 0 0 1 0 }
        ensures began { Rose self.old.changes self.new.changes }
        ensures strays { self.new.strays ≡ self.old.strays }
    {
        match self.io.set_size(size) {
            Ok(()) => Ok(()),
            Err(fault) => Err(Error::Io(fault)),
        }
    }

    /// Fills with random bytes.
    pub(crate) fn fill(&mut self, buf: &mut [u8]) -> Result<(), Error>
        ensures taken { OnOk result (Takes self.old.left buf.new self.new.left) }
        ensures kept_left { OnErr result (TakesAtMost self.old.left (length buf.old) self.new.left) }
        ensures bytes { self.new.bytes ≡ self.old.bytes }
        ensures durable { self.new.durable ≡ self.old.durable }
        ensures short { OnErr result (self.old.exact ≡ true → IsShort self.old.left (length buf.old)) }
        ensures failed { IfErr result (λ e. (kind_of e ≡ ErrorKind.Rng) × Caused ErrorKind.Rng self.old self.new) }
        ensures quiet { OnOk result (Quiet self.old self.new) }
        ensures moved { Moved self.old self.new 0 0 (length buf.old) 0 0 }
        ensures strays { self.new.strays ≡ self.old.strays }
    {
        self.rng.fill(buf)
    }

    /// Makes the storage durable.
    pub(crate) fn sync(&mut self) -> Result<(), Error>
        ensures synced { OnOk result (Told (SyncedTo self.old.bytes) self.old.durable self.new.durable) }
        ensures bytes { self.new.bytes ≡ self.old.bytes }
        ensures left { self.new.left ≡ self.old.left }
        ensures failed { IfErr result (λ e. (kind_of e ≡ ErrorKind.Io) × Caused ErrorKind.Io self.old self.new) }
        ensures quiet { OnOk result (Quiet self.old self.new) }
        ensures moved { Moved self.old self.new 0 0 0 0 0 }
        ensures strays { self.new.strays ≡ self.old.strays }
    {
        match self.io.sync() {
            Ok(()) => Ok(()),
            Err(fault) => Err(Error::Io(fault)),
        }
    }

    /// Puts the leaf of a chunk into the tree, where there is one.
    pub(crate) fn put_leaf(
        &mut self,
        tree: &mut Option<Tree>,
        index: u64,
        chunk: &[u8],
    ) -> Result<(), Error>
        requires paired { Paired H.hashing self.old.setting tree.old }
        requires index { (t : Kept) → tree.old ≡ Some t → index < t.max_chunks }
        requires chunk { length chunk.now ≤ 2 ^ 60 }
        ensures leaf { OnOk result (OfTrees H.hashing self.old.setting tree.old tree.new (Leafed index chunk.now)) }
        ensures same { SameTree tree.old tree.new }
        ensures there { OnErr result (HasTree tree.new) }
        ensures paired { Paired H.hashing self.new.setting tree.new }
        ensures kept { Kept_ self.old self.new }
        ensures failed { IfErr result (λ e. (kind_of e ≡ ErrorKind.Hash) × Caused ErrorKind.Hash self.old self.new) }
        ensures quiet { OnOk result (Quiet self.old self.new) }
        ensures moved { Moved self.old self.new 0 0 0 0 1 }
        ensures began { OnErr result (Rose self.old.calls self.new.calls) }
        ensures none { tree.old ≡ None → self.new.calls ≡ self.old.calls }
        ensures asked { (t : Kept) → tree.old ≡ Some t → self.new.calls ≡ raised self.old.calls 1 }
        ensures strays { self.new.strays ≡ self.old.strays }
    {
        if let Some(hasher) = &mut self.hasher {
            if let Some(tree) = tree {
                return match tree.put_leaf::<H>(hasher, index, chunk) {
                    Ok(()) => Ok(()),
                    Err(_) => Err(Error::Hash),
                };
            }
        }
        Ok(())
    }

    /// Makes the nodes of the tree above a range of leaves anew, where there is one.
    pub(crate) fn update_tree(
        &mut self,
        tree: &mut Option<Tree>,
        count: u64,
        first: u64,
        end: u64,
    ) -> Result<(), Error>
        requires paired { Paired H.hashing self.old.setting tree.old }
        requires range { first ≤ end }
        requires room { (t : Kept) → tree.old ≡ Some t → (count ≤ t.max_chunks) × (end ≤ t.max_chunks) }
        ensures updated { OnOk result (OfTrees H.hashing self.old.setting tree.old tree.new (λ M. Updated M count first end)) }
        ensures same { SameTree tree.old tree.new }
        ensures there { OnErr result (HasTree tree.new) }
        ensures kept { Kept_ self.old self.new }
        ensures failed { IfErr result (λ e. (kind_of e ≡ ErrorKind.Hash) × Caused ErrorKind.Hash self.old self.new) }
        ensures quiet { OnOk result (Quiet self.old self.new) }
        ensures moved { Moved self.old self.new 0 0 0 0 (self.new.calls - self.old.calls) }
        ensures began { OnErr result (Rose self.old.calls self.new.calls) }
        ensures calls { (t : Kept) → tree.old ≡ Some t → UpdateCalls count first end (tree_height t) self.old.calls self.new.calls result }
        ensures none { tree.old ≡ None → (self.new.calls ≡ self.old.calls) }
        ensures strays { self.new.strays ≡ self.old.strays }
    {
        if let Some(hasher) = &mut self.hasher {
            if let Some(tree) = tree {
                return match tree.update::<H>(hasher, count, first, end) {
                    Ok(()) => Ok(()),
                    Err(_) => Err(Error::Hash),
                };
            }
        }
        Ok(())
    }

    /// Makes every node anew from the leaves below `count`, which are put, where there is a tree.
    pub(crate) fn build(&mut self, tree: &mut Option<Tree>, count: u64) -> Result<(), Error>
        requires paired { Paired H.hashing self.old.setting tree.old }
        requires room { HasRoom count tree.old }
        ensures built { OnOk result (OfTrees H.hashing self.old.setting tree.old tree.new (λ K t u. Built K count t u)) }
        ensures shapes { SameTree tree.old tree.new }
        ensures kept { Kept_ self.old self.new }
        ensures failed { IfErr result (λ e. (kind_of e ≡ ErrorKind.Hash) × Caused ErrorKind.Hash self.old self.new
            × Rose self.old.calls self.new.calls) }
        ensures quiet { OnOk result (Quiet self.old self.new) }
        ensures moved { Moved self.old self.new 0 0 0 0 (self.new.calls - self.old.calls) }
        ensures there { OnErr result (is_some self.old.setting ≡ true) }
        ensures one { count ≡ 0 → self.new.calls ≤ self.old.calls + 1 }
        ensures calls { (t : Kept) → tree.old ≡ Some t → self.new.calls ≤ self.old.calls + count + 2 * tree_height t + 1 }
        ensures strays { self.new.strays ≡ self.old.strays }
    {
        if let Some(hasher) = &mut self.hasher {
            if let Some(tree) = tree {
                return match tree.build::<H>(hasher, count) {
                    Ok(()) => Ok(()),
                    Err(_) => Err(Error::Hash),
                };
            }
        }
        Ok(())
    }

    /// Whether a chunk's leaf is the one that is kept at its index. There is a hasher.
    pub(crate) fn is_leaf(&mut self, tree: &Tree, index: u64, chunk: &[u8]) -> Result<bool, Error>
        requires paired { Paired H.hashing self.old.setting (Some tree.now) }
        requires index { index < tree.now.max_chunks }
        requires chunk { length chunk.now ≤ 2 ^ 60 }
        ensures same { IfOk result (λ r. (x : List ℕ) → self.old.setting ≡ Some x
            → (r ≡ true → (H.hashing x).leaf chunk.now index ≡ kept tree.now 0 index)
            × (r ≡ false → (H.hashing x).leaf chunk.now index ≡ kept tree.now 0 index → ⊥)) }
        ensures kept { Kept_ self.old self.new }
        ensures failed { IfErr result (λ e. (kind_of e ≡ ErrorKind.Hash) × Caused ErrorKind.Hash self.old self.new) }
        ensures quiet { OnOk result (Quiet self.old self.new) }
        ensures moved { Moved self.old self.new 0 0 0 0 1 }
        ensures strays { self.new.strays ≡ self.old.strays }
    {
        let Some(hasher) = &mut self.hasher else {
            return Ok(false);
        };
        let kept = tree.leaf(index);
        let mut room = [0u8; 64];
        let (leaf, _) = room.split_at_mut(kept.len());
        match hasher.hash_leaf(leaf, chunk, index) {
            Ok(()) => Ok(leaf[..] == kept[..]),
            Err(_) => Err(Error::Hash),
        }
    }

    /// Puts the commitment to a tree's root, a file's id and its size into `out`, which has a hash's length. There is a hasher.
    pub(crate) fn commit(
        &mut self,
        tree: &Tree,
        out: &mut [u8],
        id: &[u8],
        size: u64,
    ) -> Result<(), Error>
        requires paired { Paired H.hashing self.old.setting (Some tree.now) }
        requires out { length out.old ≡ tree.now.hash_len }
        requires id { length id.now ≤ 2 ^ 60 }
        ensures commitment { OnOk result ((x : List ℕ) → self.old.setting ≡ Some x
            → out.new ≡ (H.hashing x).commitment (kept tree.now (tree_height tree.now) 0) id.now size) }
        ensures kept { Kept_ self.old self.new }
        ensures failed { IfErr result (λ e. (kind_of e ≡ ErrorKind.Hash) × Caused ErrorKind.Hash self.old self.new) }
        ensures quiet { OnOk result (Quiet self.old self.new) }
        ensures moved { Moved self.old self.new 0 0 0 0 1 }
        ensures strays { self.new.strays ≡ self.old.strays }
    {
        let Some(hasher) = &mut self.hasher else {
            return Ok(());
        };
        match hasher.hash_commitment(out, tree.root(), id, size) {
            Ok(()) => Ok(()),
            Err(_) => Err(Error::Hash),
        }
    }

    /// Puts the hash of a place with no chunk below it into `out`, which has a hash's length. There is a hasher.
    pub(crate) fn empty(&mut self, out: &mut [u8], level: u32, index: u64) -> Result<(), Error>
        requires out { (x : List ℕ) → self.old.setting ≡ Some x → length out.old ≡ (H.hashing x).len }
        ensures empty { OnOk result ((x : List ℕ) → self.old.setting ≡ Some x → out.new ≡ (H.hashing x).empty level index) }
        ensures failed { IfErr result (λ e. (kind_of e ≡ ErrorKind.Hash) × Rose self.old.hash_faults self.new.hash_faults) }
        ensures quiet { OnOk result (self.new.hash_faults ≡ self.old.hash_faults) }
        ensures asked { Asked 1 self.old self.new }
    {
        let Some(hasher) = &mut self.hasher else {
            return Ok(());
        };
        match hasher.hash_empty(out, level, index) {
            Ok(()) => Ok(()),
            Err(_) => Err(Error::Hash),
        }
    }
}
