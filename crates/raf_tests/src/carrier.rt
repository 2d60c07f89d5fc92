//! What a change of a file does with its tree, for any hasher: the leaf of each touched chunk is put, and one update ends it.
ghost use Rattle.std.specs.Prelude.{◌≡◌, ◌+◌, ◌-◌, ◌*◌, ◌^◌, ◌<◌, ◌≤◌, length, OnOk};
ghost use Rattle.counts.specs.Counts.{HasCause};
ghost use Rattle.raf_tree.specs.Kept.{tree_height};
ghost use Rattle.raf_tree.specs.Steps.{SameShape};
ghost use Rattle.raf_tests.specs.Change.{Carried, ChangeCalls};

use raf_tree::{HashFault, MerkleHasher, Tree, tree_laws};

/// Puts the leaf of each chunk from `first` to `mid - 1`, and makes the nodes above those from `first` to `end - 1` at the end; those from
/// `mid` on are removed. The chunks lie in `text`, each of `chunk_size` bytes.
pub fn change<H: MerkleHasher>(
    tree: &mut Tree,
    hasher: &mut H,
    text: &[u8],
    chunk_size: usize,
    count: u64,
    first: u64,
    mid: u64,
    end: u64,
) -> Result<(), HashFault>
    requires len { (H.hashing (H.setting hasher.old)).len ≡ tree.old.hash_len }
    requires text { mid * chunk_size ≤ length text.now }
    requires small { length text.now ≤ 2 ^ 60 }
    requires count { count ≤ tree.old.max_chunks }
    requires range { first ≤ mid }
    requires mid { mid ≤ end }
    requires end { end ≤ tree.old.max_chunks }
    ensures keeps { OnOk result (Carried (H.hashing (H.setting hasher.old)) text.now chunk_size count first mid end tree.old tree.new) }
    ensures shape { SameShape tree.old tree.new }
    ensures setting { H.setting hasher.new ≡ H.setting hasher.old }
    ensures cause { HasCause (H.faults hasher.old) (H.faults hasher.new) result }
    ensures calls { ChangeCalls count first mid end (tree_height tree.old) (H.calls hasher.old) (H.calls hasher.new) }
{
    tree_laws();
    for index in first..mid {
        let from = index as usize * chunk_size;
        tree.put_leaf(hasher, index, &text[from..from + chunk_size])?;
    }
    tree.update(hasher, count, first, end)
}
