//! Two open files under one hasher are compared by their commitments.
ghost use Rattle.std.specs.Prelude.{◌≡◌, ◌+◌, ◌-◌, ◌*◌, ◌^◌, ◌<◌, ◌≤◌, List, ℕ, length, get_or};
ghost use Rattle.std.specs.Prelude.{Some, None, IfOk, IfErr, OnOk, OnErr, true, false};
ghost use Rattle.std.specs.Bool.{Decides};
ghost use Rattle.raf_tree.specs.Kept.{Kept, IsKept, kept, tree_height};
ghost use Rattle.raf_tree.specs.Tree.{node};
ghost use Rattle.raf_tree.specs.Calls.{content_height, commitment_call};
ghost use Rattle.raf_tree.specs.Walk.{SameNode, SameCall, Finds};
ghost use Rattle.raf_format.specs.Cipher.{cipher_of};
ghost use Rattle.raf_io.specs.Kinds.{kind_of};
ghost use Rattle.raf.specs.Handle.{Paired, handle_of};
ghost use Rattle.raf.specs.Outside.{Quiet, Caused, Moved, Kept as Keeping};
ghost use Rattle.raf.specs.Clash.{height_in, long, committed, Compared};
ghost use Rattle.raf.specs.Clashing.{Asks, AsksBoth, OfKept, Steps, OfContents, SameChunk, FoundBelow};
ghost use Rattle.raf.specs.Clashing.{asked_at, asked_below, reads_at, count_in, records_between};

use crate::loading::{chunk_of, load};
use crate::opening::{OpenFile, count_of};
use crate::outside::Parts;
use raf_format::Algorithm;
use raf_io::{Error, ErrorKind, RafIo, RafRng};
use raf_tree::{MerkleHasher, Place, Tree, binding_laws, tree_laws, walk_laws};

/// What two files are to each other, by their commitments.
#[derive(Clone, Copy, Debug, PartialEq, Eq)]
pub enum Verdict {
    /// The commitments differ.
    Unequal,
    /// The commitments are equal, and so are ids, sizes and chunks.
    Same,
    /// The commitments are equal and the contents aren't: these are the first two places whose hasher calls are different. The calls have
    /// one answer.
    Clash {
        /// The place in the first file.
        a: Place,
        /// The place in the second.
        b: Place,
    },
}

impl<I: RafIo, R: RafRng, H: MerkleHasher> Parts<I, R, H> {
    /// Whether a node is that of an empty place. There is a hasher.
    pub fn is_empty_node(
        &mut self,
        tree: &Tree,
        node: &[u8],
        level: u32,
        index: u64,
    ) -> Result<bool, Error>
        requires paired { Paired H.hashing self.old.setting (Some tree.now) }
        ensures same { IfOk result (λ r. (x : List ℕ) → self.old.setting ≡ Some x
            → (r ≡ true → (H.hashing x).empty level index ≡ node.now) × (r ≡ false → (H.hashing x).empty level index ≡ node.now → ⊥)) }
        ensures kept { Keeping self.old self.new }
        ensures failed { IfErr result (λ e. (kind_of e ≡ ErrorKind.Hash) × Caused ErrorKind.Hash self.old self.new) }
        ensures quiet { OnOk result (Quiet self.old self.new) }
        ensures moved { Moved self.old self.new 0 0 0 0 1 }
        ensures strays { self.new.strays ≡ self.old.strays }
    {
        let Some(hasher) = &mut self.hasher else {
            return Ok(false);
        };
        let mut room = [0u8; 64];
        let (empty, _) = room.split_at_mut(tree.root().len());
        match hasher.hash_empty(empty, level, index) {
            Ok(()) => Ok(empty[..] == node[..]),
            Err(_) => Err(Error::Hash),
        }
    }
}

// Whether two trees have the same node at a place below their roots.
fn same_node<I1: RafIo, R1: RafRng, I2: RafIo, R2: RafRng, H: MerkleHasher>(
    a_parts: &mut Parts<I1, R1, H>,
    a_tree: &Tree,
    b_parts: &mut Parts<I2, R2, H>,
    b_tree: &Tree,
    level: u32,
    index: u64,
) -> Result<bool, Error>
    requires a_paired { Paired H.hashing a_parts.old.setting (Some a_tree.now) }
    requires b_paired { Paired H.hashing b_parts.old.setting (Some b_tree.now) }
    ensures asks { Asks 1 1 a_parts.old b_parts.old a_parts.new b_parts.new result }
    ensures a_idle { IsKept a_tree.now level index → a_parts.new ≡ a_parts.old }
    ensures b_idle { IsKept b_tree.now level index → b_parts.new ≡ b_parts.old }
    ensures same { level ≤ tree_height a_tree.now → level ≤ tree_height b_tree.now →
        OfKept H.hashing a_parts.old b_parts.old a_tree.now b_tree.now result
        (λ M xs ys r. Decides r (node M xs level index ≡ node M ys level index)) }
{
    tree_laws();
    match (a_tree.node(level, index), b_tree.node(level, index)) {
        (Some(x), Some(y)) => Ok(x[..] == y[..]),
        (Some(x), None) => b_parts.is_empty_node(b_tree, x, level, index),
        (None, Some(y)) => a_parts.is_empty_node(a_tree, y, level, index),
        (None, None) => Ok(true),
    }
}

// Whether two trees have the same nodes at both places of a level below the place above them, which has chunks below it in both.
fn same_below<I1: RafIo, R1: RafRng, I2: RafIo, R2: RafRng, H: MerkleHasher>(
    a_parts: &mut Parts<I1, R1, H>,
    a_tree: &Option<Tree>,
    b_parts: &mut Parts<I2, R2, H>,
    b_tree: &Option<Tree>,
    level: u32,
    index: u64,
) -> Result<bool, Error>
    requires place { (index + 1) * 2 ^ (level + 1) ≤ 2 ^ 27 }
    requires a_filled { index * 2 ^ (level + 1) < count_in a_tree.now }
    requires b_filled { index * 2 ^ (level + 1) < count_in b_tree.now }
    requires a_paired { Paired H.hashing a_parts.old.setting a_tree.now }
    requires b_paired { Paired H.hashing b_parts.old.setting b_tree.now }
    ensures asks { level < height_in a_tree.now → level < height_in b_tree.now →
        Asks (asked_at (count_in a_tree.now) (level + 1) index) (asked_at (count_in b_tree.now) (level + 1) index)
        a_parts.old b_parts.old a_parts.new b_parts.new result }
    ensures same { (t u : Kept) → a_tree.now ≡ Some t → b_tree.now ≡ Some u → level < tree_height t → level < tree_height u →
        OfKept H.hashing a_parts.old b_parts.old t u result (λ M xs ys r.
        Decides r ((node M xs level (2 * index) ≡ node M ys level (2 * index))
        × (node M xs level (2 * index + 1) ≡ node M ys level (2 * index + 1)))) }
{
    let (Some(a_tree), Some(b_tree)) = (a_tree, b_tree) else {
        return Ok(false);
    };
    if !same_node(a_parts, a_tree, b_parts, b_tree, level, 2 * index)? {
        return Ok(false);
    }
    same_node(a_parts, a_tree, b_parts, b_tree, level, 2 * index + 1)
}

// Whether a chunk is below a place.
fn is_filled(tree: &Option<Tree>, level: u32, index: u64) -> bool
    requires place { (index + 1) * 2 ^ level ≤ 2 ^ 27 }
    requires level { level ≤ 27 }
    ensures { Decides result (index * 2 ^ level < count_in tree.now) }
{
    match tree {
        Some(tree) => index << level < tree.count(),
        None => false,
    }
}

// Whether both files have a chunk of this index, and it is the same.
fn same_chunk<
    A1: Algorithm,
    I1: RafIo,
    R1: RafRng,
    A2: Algorithm,
    I2: RafIo,
    R2: RafRng,
    H: MerkleHasher,
>(
    a_parts: &mut Parts<I1, R1, H>,
    a: &mut OpenFile<A1>,
    b_parts: &mut Parts<I2, R2, H>,
    b: &mut OpenFile<A2>,
    index: u64,
) -> Result<bool, Error>
    ensures steps { Steps (cipher_of A1.variant) (cipher_of A2.variant)
        (records_between (cipher_of A1.variant)
        (handle_of a_parts.old (A1.key_list a.old.key) a.old.header a.old.tree a.old.broken) index (index + 1)) 0
        (records_between (cipher_of A2.variant)
        (handle_of b_parts.old (A2.key_list b.old.key) b.old.header b.old.tree b.old.broken) index (index + 1)) 0
        (handle_of a_parts.old (A1.key_list a.old.key) a.old.header a.old.tree a.old.broken)
        (handle_of b_parts.old (A2.key_list b.old.key) b.old.header b.old.tree b.old.broken)
        (handle_of a_parts.new (A1.key_list a.new.key) a.new.header a.new.tree a.new.broken)
        (handle_of b_parts.new (A2.key_list b.new.key) b.new.header b.new.tree b.new.broken) result }
    ensures found { OfContents (cipher_of A1.variant) (cipher_of A2.variant) H.hashing
        (handle_of a_parts.old (A1.key_list a.old.key) a.old.header a.old.tree a.old.broken)
        (handle_of b_parts.old (A2.key_list b.old.key) b.old.header b.old.tree b.old.broken) result
        (λ M x y r. Decides r (SameChunk index x y)) }
{
    if index >= count_of(&a.header) || index >= count_of(&b.header) {
        return Ok(false);
    }
    load::<A1, I1, R1, H>(a_parts, &a.chunk_key, &a.header, index, &mut a.first)?;
    load::<A2, I2, R2, H>(b_parts, &b.chunk_key, &b.header, index, &mut b.first)?;
    let chunk = chunk_of::<A1>(&a.header, index, &a.first);
    let other = chunk_of::<A2>(&b.header, index, &b.first);
    Ok(chunk[..] == other[..])
}

// Whether the calls of a place are the same in both trees.
fn same_call<
    A1: Algorithm,
    I1: RafIo,
    R1: RafRng,
    A2: Algorithm,
    I2: RafIo,
    R2: RafRng,
    H: MerkleHasher,
>(
    a_parts: &mut Parts<I1, R1, H>,
    a: &mut OpenFile<A1>,
    b_parts: &mut Parts<I2, R2, H>,
    b: &mut OpenFile<A2>,
    level: u32,
    index: u64,
) -> Result<bool, Error>
    requires place { (index + 1) * 2 ^ level ≤ 2 ^ 27 }
    requires low { (level ≤ height_in a.old.tree) × (level ≤ height_in b.old.tree) }
    requires a_paired { Paired H.hashing a_parts.old.setting a.old.tree }
    requires b_paired { Paired H.hashing b_parts.old.setting b.old.tree }
    ensures steps { Steps (cipher_of A1.variant) (cipher_of A2.variant)
        (reads_at (cipher_of A1.variant)
        (handle_of a_parts.old (A1.key_list a.old.key) a.old.header a.old.tree a.old.broken) level index)
        (asked_at (count_in a.old.tree) level index)
        (reads_at (cipher_of A2.variant)
        (handle_of b_parts.old (A2.key_list b.old.key) b.old.header b.old.tree b.old.broken) level index)
        (asked_at (count_in b.old.tree) level index)
        (handle_of a_parts.old (A1.key_list a.old.key) a.old.header a.old.tree a.old.broken)
        (handle_of b_parts.old (A2.key_list b.old.key) b.old.header b.old.tree b.old.broken)
        (handle_of a_parts.new (A1.key_list a.new.key) a.new.header a.new.tree a.new.broken)
        (handle_of b_parts.new (A2.key_list b.new.key) b.new.header b.new.tree b.new.broken) result }
    ensures found { OfContents (cipher_of A1.variant) (cipher_of A2.variant) H.hashing
        (handle_of a_parts.old (A1.key_list a.old.key) a.old.header a.old.tree a.old.broken)
        (handle_of b_parts.old (A2.key_list b.old.key) b.old.header b.old.tree b.old.broken) result
        (λ M x y r. Decides r (SameCall M x y level index)) }
    ensures a_paired { Paired H.hashing a_parts.new.setting a.new.tree }
    ensures b_paired { Paired H.hashing b_parts.new.setting b.new.tree }
{
    tree_laws();
    walk_laws();
    let filled = is_filled(&a.tree, level, index);
    if filled != is_filled(&b.tree, level, index) {
        return Ok(false);
    }
    if !filled {
        return Ok(true);
    }
    if level == 0 {
        return same_chunk::<A1, I1, R1, A2, I2, R2, H>(a_parts, a, b_parts, b, index);
    }
    same_below(a_parts, &a.tree, b_parts, &b.tree, level - 1, index)
}

// The first place, from one down, left before right, whose calls are different. The nodes of the place are the same, and so the first
// different calls have one answer.
fn walk<
    A1: Algorithm,
    I1: RafIo,
    R1: RafRng,
    A2: Algorithm,
    I2: RafIo,
    R2: RafRng,
    H: MerkleHasher,
>(
    a_parts: &mut Parts<I1, R1, H>,
    a: &mut OpenFile<A1>,
    b_parts: &mut Parts<I2, R2, H>,
    b: &mut OpenFile<A2>,
    level: u32,
    index: u64,
) -> Result<Option<Place>, Error>
    requires place { (index + 1) * 2 ^ level ≤ 2 ^ 27 }
    requires low { (level ≤ height_in a.old.tree) × (level ≤ height_in b.old.tree) }
    requires a_paired { Paired H.hashing a_parts.old.setting a.old.tree }
    requires b_paired { Paired H.hashing b_parts.old.setting b.old.tree }
    ensures steps { Steps (cipher_of A1.variant) (cipher_of A2.variant)
        (records_between (cipher_of A1.variant)
        (handle_of a_parts.old (A1.key_list a.old.key) a.old.header a.old.tree a.old.broken) (index * 2 ^ level) ((index + 1) * 2 ^ level))
        (asked_below (count_in a.old.tree) level index)
        (records_between (cipher_of A2.variant)
        (handle_of b_parts.old (A2.key_list b.old.key) b.old.header b.old.tree b.old.broken) (index * 2 ^ level) ((index + 1) * 2 ^ level))
        (asked_below (count_in b.old.tree) level index)
        (handle_of a_parts.old (A1.key_list a.old.key) a.old.header a.old.tree a.old.broken)
        (handle_of b_parts.old (A2.key_list b.old.key) b.old.header b.old.tree b.old.broken)
        (handle_of a_parts.new (A1.key_list a.new.key) a.new.header a.new.tree a.new.broken)
        (handle_of b_parts.new (A2.key_list b.new.key) b.new.header b.new.tree b.new.broken) result }
    ensures found { OfContents (cipher_of A1.variant) (cipher_of A2.variant) H.hashing
        (handle_of a_parts.old (A1.key_list a.old.key) a.old.header a.old.tree a.old.broken)
        (handle_of b_parts.old (A2.key_list b.old.key) b.old.header b.old.tree b.old.broken) result
        (λ M x y place. SameNode M x y level index → Finds M x y level index place) }
    ensures a_paired { Paired H.hashing a_parts.new.setting a.new.tree }
    ensures b_paired { Paired H.hashing b_parts.new.setting b.new.tree }
{
    tree_laws();
    walk_laws();
    if !same_call::<A1, I1, R1, A2, I2, R2, H>(a_parts, a, b_parts, b, level, index)? {
        return Ok(Some(Place::Node { level, index }));
    }
    if level == 0 || !is_filled(&a.tree, level, index) {
        return Ok(None);
    }
    let left = walk::<A1, I1, R1, A2, I2, R2, H>(a_parts, a, b_parts, b, level - 1, 2 * index)?;
    if left.is_some() {
        return Ok(left);
    }
    walk::<A1, I1, R1, A2, I2, R2, H>(a_parts, a, b_parts, b, level - 1, 2 * index + 1)
}

// Whether the chunks of both files are the same.
fn same_chunks<
    A1: Algorithm,
    I1: RafIo,
    R1: RafRng,
    A2: Algorithm,
    I2: RafIo,
    R2: RafRng,
    H: MerkleHasher,
>(
    a_parts: &mut Parts<I1, R1, H>,
    a: &mut OpenFile<A1>,
    b_parts: &mut Parts<I2, R2, H>,
    b: &mut OpenFile<A2>,
) -> Result<bool, Error>
    ensures steps { Steps (cipher_of A1.variant) (cipher_of A2.variant)
        (long (cipher_of A1.variant) (handle_of a_parts.old (A1.key_list a.old.key) a.old.header a.old.tree a.old.broken) - 96) 0
        (long (cipher_of A2.variant) (handle_of b_parts.old (A2.key_list b.old.key) b.old.header b.old.tree b.old.broken) - 96) 0
        (handle_of a_parts.old (A1.key_list a.old.key) a.old.header a.old.tree a.old.broken)
        (handle_of b_parts.old (A2.key_list b.old.key) b.old.header b.old.tree b.old.broken)
        (handle_of a_parts.new (A1.key_list a.new.key) a.new.header a.new.tree a.new.broken)
        (handle_of b_parts.new (A2.key_list b.new.key) b.new.header b.new.tree b.new.broken) result }
    ensures found { OfContents (cipher_of A1.variant) (cipher_of A2.variant) H.hashing
        (handle_of a_parts.old (A1.key_list a.old.key) a.old.header a.old.tree a.old.broken)
        (handle_of b_parts.old (A2.key_list b.old.key) b.old.header b.old.tree b.old.broken) result
        (λ M x y r. Decides r (x.chunks ≡ y.chunks)) }
{
    let count = count_of(&a.header).max(count_of(&b.header));
    for index in 0..count {
        if !same_chunk::<A1, I1, R1, A2, I2, R2, H>(a_parts, a, b_parts, b, index)? {
            return Ok(false);
        }
    }
    Ok(true)
}

// Whether both files have one commitment. Refused by `MerkleNotEnabled` where one has no tree, before anything is asked.
fn same_commitments<
    A1: Algorithm,
    I1: RafIo,
    R1: RafRng,
    A2: Algorithm,
    I2: RafIo,
    R2: RafRng,
    H: MerkleHasher,
>(
    a_parts: &mut Parts<I1, R1, H>,
    a: &OpenFile<A1>,
    b_parts: &mut Parts<I2, R2, H>,
    b: &OpenFile<A2>,
) -> Result<bool, Error>
    requires a_paired { Paired H.hashing a_parts.old.setting a.now.tree }
    requires b_paired { Paired H.hashing b_parts.old.setting b.now.tree }
    ensures asks { AsksBoth a.now.tree b.now.tree a_parts.old b_parts.old a_parts.new b_parts.new result }
    ensures same { (t u : Kept) → a.now.tree ≡ Some t → b.now.tree ≡ Some u → (setting : List ℕ) → a_parts.old.setting ≡ Some setting
        → b_parts.old.setting ≡ Some setting → IfOk result (λ r.
        Decides r ((H.hashing setting).commitment (kept t (tree_height t) 0) a.now.header.id a.now.header.file_size
        ≡ (H.hashing setting).commitment (kept u (tree_height u) 0) b.now.header.id b.now.header.file_size)) }
{
    let (Some(a_tree), Some(b_tree)) = (&a.tree, &b.tree) else {
        return Err(Error::MerkleNotEnabled);
    };
    let mut room = [0u8; 64];
    let (first, _) = room.split_at_mut(a_tree.root().len());
    a_parts.commit(a_tree, first, &a.header.id, a.header.file_size)?;
    let mut room = [0u8; 64];
    let (second, _) = room.split_at_mut(b_tree.root().len());
    b_parts.commit(b_tree, second, &b.header.id, b.header.file_size)?;
    Ok(first[..] == second[..])
}

// The height of a tree, where there is one.
fn height_of(tree: &Option<Tree>) -> u32
    ensures height { result ≡ height_in tree.now }
    ensures low { result ≤ 27 }
{
    match tree {
        Some(tree) => tree.height(),
        None => 0,
    }
}

// Whether two trees have one root.
fn same_roots(a_tree: &Option<Tree>, b_tree: &Option<Tree>) -> bool
    ensures { (t u : Kept) → a_tree.now ≡ Some t → b_tree.now ≡ Some u → Decides result (kept t (tree_height t) 0 ≡ kept u (tree_height u) 0) }
{
    match (a_tree, b_tree) {
        (Some(a_tree), Some(b_tree)) => a_tree.root()[..] == b_tree.root()[..],
        _ => false,
    }
}

// Two files with one commitment, id and size: their contents are the same, or calls are different from the roots down.
fn clash_below<
    A1: Algorithm,
    I1: RafIo,
    R1: RafRng,
    A2: Algorithm,
    I2: RafIo,
    R2: RafRng,
    H: MerkleHasher,
>(
    a_parts: &mut Parts<I1, R1, H>,
    a: &mut OpenFile<A1>,
    b_parts: &mut Parts<I2, R2, H>,
    b: &mut OpenFile<A2>,
    height: u32,
) -> Result<Verdict, Error>
    requires place { height ≤ 27 }
    requires low { (height ≤ height_in a.old.tree) × (height ≤ height_in b.old.tree) }
    requires a_paired { Paired H.hashing a_parts.old.setting a.old.tree }
    requires b_paired { Paired H.hashing b_parts.old.setting b.old.tree }
    ensures steps { Steps (cipher_of A1.variant) (cipher_of A2.variant)
        (long (cipher_of A1.variant)
        (handle_of a_parts.old (A1.key_list a.old.key) a.old.header a.old.tree a.old.broken) - 96) height
        (long (cipher_of A2.variant)
        (handle_of b_parts.old (A2.key_list b.old.key) b.old.header b.old.tree b.old.broken) - 96) height
        (handle_of a_parts.old (A1.key_list a.old.key) a.old.header a.old.tree a.old.broken)
        (handle_of b_parts.old (A2.key_list b.old.key) b.old.header b.old.tree b.old.broken)
        (handle_of a_parts.new (A1.key_list a.new.key) a.new.header a.new.tree a.new.broken)
        (handle_of b_parts.new (A2.key_list b.new.key) b.new.header b.new.tree b.new.broken) result }
    ensures found { OfContents (cipher_of A1.variant) (cipher_of A2.variant) H.hashing
        (handle_of a_parts.old (A1.key_list a.old.key) a.old.header a.old.tree a.old.broken)
        (handle_of b_parts.old (A2.key_list b.old.key) b.old.header b.old.tree b.old.broken) result
        (λ M x y verdict. SameNode M x y height 0 → FoundBelow M x y height verdict) }
    ensures a_paired { Paired H.hashing a_parts.new.setting a.new.tree }
    ensures b_paired { Paired H.hashing b_parts.new.setting b.new.tree }
{
    match walk::<A1, I1, R1, A2, I2, R2, H>(a_parts, a, b_parts, b, height, 0)? {
        Some(place) => Ok(Verdict::Clash { a: place, b: place }),
        None => Ok(Verdict::Same),
    }
}

/// The verdict on two files, neither of which is marked. Refused by `MerkleNotEnabled` where one has no hasher, and then by `Io`,
/// `AuthenticationFailed` and `Hash` as they come.
pub fn clash_files<
    A1: Algorithm,
    I1: RafIo,
    R1: RafRng,
    A2: Algorithm,
    I2: RafIo,
    R2: RafRng,
    H: MerkleHasher,
>(
    a_parts: &mut Parts<I1, R1, H>,
    a: &mut OpenFile<A1>,
    b_parts: &mut Parts<I2, R2, H>,
    b: &mut OpenFile<A2>,
) -> Result<Verdict, Error>
    requires unmarked { (a.old.broken ≡ false) × (b.old.broken ≡ false) }
    requires a_paired { Paired H.hashing a_parts.old.setting a.old.tree }
    requires b_paired { Paired H.hashing b_parts.old.setting b.old.tree }
    ensures compared { Compared (cipher_of A1.variant) (cipher_of A2.variant) H.hashing
        (handle_of a_parts.old (A1.key_list a.old.key) a.old.header a.old.tree a.old.broken)
        (handle_of b_parts.old (A2.key_list b.old.key) b.old.header b.old.tree b.old.broken)
        (handle_of a_parts.new (A1.key_list a.new.key) a.new.header a.new.tree a.new.broken)
        (handle_of b_parts.new (A2.key_list b.new.key) b.new.header b.new.tree b.new.broken) result }
    ensures a_paired { Paired H.hashing a_parts.new.setting a.new.tree }
    ensures b_paired { Paired H.hashing b_parts.new.setting b.new.tree }
{
    binding_laws();
    if !same_commitments::<A1, I1, R1, A2, I2, R2, H>(a_parts, a, b_parts, b)? {
        return Ok(Verdict::Unequal);
    }
    let committed = Verdict::Clash {
        a: Place::Commitment,
        b: Place::Commitment,
    };
    if a.header.id != b.header.id || a.header.file_size != b.header.file_size {
        return Ok(committed);
    }
    let (a_height, b_height) = (height_of(&a.tree), height_of(&b.tree));
    if a_height != b_height {
        // (limits are no part of the content)
        if same_chunks::<A1, I1, R1, A2, I2, R2, H>(a_parts, a, b_parts, b)? {
            return Ok(Verdict::Same);
        }
        if !same_roots(&a.tree, &b.tree) {
            return Ok(committed);
        }
        return Ok(Verdict::Clash {
            a: Place::Node {
                level: a_height,
                index: 0,
            },
            b: Place::Node {
                level: b_height,
                index: 0,
            },
        });
    }
    if !same_roots(&a.tree, &b.tree) {
        return Ok(committed);
    }
    clash_below::<A1, I1, R1, A2, I2, R2, H>(a_parts, a, b_parts, b, a_height)
}
