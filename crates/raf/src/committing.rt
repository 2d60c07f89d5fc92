//! A change that is ready is carried out: the touched chunks, the header, the cut, and the tree's nodes.
ghost use Rattle.std.specs.Prelude.{◌≡◌, ◌+◌, length, take};
ghost use Rattle.raf_format.specs.Cipher.{cipher_of};
ghost use Rattle.raf_format.specs.File.{shape_of, chunk_count, layout_len};
ghost use Rattle.raf_format.specs.Version.{tag_len_of};
ghost use Rattle.raf.specs.Handle.{Paired, HasRoom};
ghost use Rattle.raf.specs.Plan.{Planned};
ghost use Rattle.raf.specs.Carry.{Finishes, Commits, buffer_of, kept_in};

use crate::outside::Parts;
use crate::planning::Plan;
use crate::storing::store_touched;
use raf_format::{Algorithm, Header, write_header};
use raf_io::{Error, RafIo, RafRng};
use raf_tree::{MerkleHasher, Tree};

/// Writes the header where the size is another, and cuts the storage where the file shrinks.
fn finish<A: Algorithm, I: RafIo, R: RafRng, H: MerkleHasher>(
    parts: &mut Parts<I, R, H>,
    key: &A::Key,
    header: &Header,
    plan: &Plan,
) -> Result<(), Error>
    ensures { Finishes (cipher_of A.variant) (A.key_list key.now) header.now plan.now parts.old parts.new result }
{
    if plan.size == plan.before {
        return Ok(());
    }
    let resized = Header {
        version: header.version,
        algorithm: header.algorithm,
        chunk_size: header.chunk_size,
        file_size: plan.size,
        id: header.id,
    };
    let mut bytes = [0u8; 96];
    write_header::<A>(&resized, key, &mut bytes);
    parts.write(&bytes, 0)?;
    if plan.size > plan.before {
        return Ok(());
    }
    parts.resize(plan.layout)
}

/// Carries out a change that was made ready. Where it is refused, storage or tree was asked to change.
pub fn commit<A: Algorithm, I: RafIo, R: RafRng, H: MerkleHasher>(
    parts: &mut Parts<I, R, H>,
    tree: &mut Option<Tree>,
    key: &A::Key,
    chunk_key: &A::Key,
    header: &Header,
    plan: &Plan,
    bytes: &[u8],
    first: &mut [u8],
    second: &mut [u8],
) -> Result<(), Error>
    requires planned { Planned (shape_of (cipher_of A.variant) header.now) plan.now (length bytes.now) }
    requires first_room { length first.old ≡ (cipher_of A.variant).nonce_len + header.now.chunk_size + tag_len_of header.now.version }
    requires second_room { length second.old ≡ (cipher_of A.variant).nonce_len + header.now.chunk_size + tag_len_of header.now.version }
    requires paired { Paired H.hashing parts.old.setting tree.old }
    requires tree_room { HasRoom plan.now.count tree.old }
    requires old_room { HasRoom (chunk_count header.now.chunk_size plan.now.before) tree.old }
    ensures { Commits (cipher_of A.variant) H.hashing (A.key_list key.now) (A.key_list chunk_key.now) header.now plan.now bytes.now
        (kept_in (cipher_of A.variant) header.now plan.now (length bytes.now) first.old second.old)
        (take (cipher_of A.variant).nonce_len (buffer_of plan.now plan.now.first first.old second.old)) parts.old parts.new tree.old
        tree.new result }
{
    store_touched::<A, I, R, H>(parts, tree, chunk_key, header, plan, bytes, first, second)?;
    finish::<A, I, R, H>(parts, key, header, plan)?;
    parts.update_tree(tree, plan.count, plan.first, plan.until)
}
