//! A change is carried out by its plan: first what it needs is made ready, and then it is committed.
ghost use Rattle.std.specs.Prelude.{◌≡◌, ◌+◌, if◌then◌else◌, length, false, is_ok};
ghost use Rattle.raf_format.specs.Cipher.{cipher_of};
ghost use Rattle.raf_format.specs.File.{shape_of, chunk_count};
ghost use Rattle.raf_format.specs.Version.{tag_len_of};
ghost use Rattle.raf.specs.Handle.{handle_of, Paired, HasRoom};
ghost use Rattle.raf.specs.Loaded.{Sound};
ghost use Rattle.raf.specs.Plan.{Planned};
ghost use Rattle.raf.specs.Put.{Changing};
ghost use Rattle.raf.specs.Stepped.{with_size};
ghost use Rattle.raf.specs.Carry.{SameTree};

use crate::committing::commit;
use crate::opening::OpenFile;
use crate::outside::Parts;
use crate::planning::Plan;
use crate::preparing::prepare;
use raf_format::{Algorithm, Header};
use raf_io::{Error, RafIo, RafRng};
use raf_tree::{MerkleHasher, Tree};

// The same on the parts of an open file, whose header stays. Where it is refused after storage or tree was asked to change, the mark is
// set.
fn carry<A: Algorithm, I: RafIo, R: RafRng, H: MerkleHasher>(
    parts: &mut Parts<I, R, H>,
    tree: &mut Option<Tree>,
    key: &A::Key,
    chunk_key: &A::Key,
    header: &Header,
    plan: &Plan,
    bytes: &[u8],
    first: &mut [u8],
    second: &mut [u8],
    broken: &mut bool,
) -> Result<(), Error>
    requires unmarked { broken.old ≡ false }
    requires planned { Planned (shape_of (cipher_of A.variant) header.now) plan.now (length bytes.now) }
    requires sound { Sound (cipher_of A.variant) header.now }
    requires size { plan.now.before ≡ header.now.file_size }
    requires first_room { length first.old ≡ (cipher_of A.variant).nonce_len + header.now.chunk_size + tag_len_of header.now.version }
    requires second_room { length second.old ≡ (cipher_of A.variant).nonce_len + header.now.chunk_size + tag_len_of header.now.version }
    requires paired { Paired H.hashing parts.old.setting tree.old }
    requires tree_room { HasRoom plan.now.count tree.old }
    requires old_room { HasRoom (chunk_count header.now.chunk_size plan.now.before) tree.old }
    ensures changing { Changing (cipher_of A.variant) H.hashing (A.key_list chunk_key.now) plan.now bytes.now
        (handle_of parts.old (A.key_list key.now) header.now tree.old broken.old)
        (handle_of parts.new (A.key_list key.now) (if is_ok result then with_size header.now plan.now.size else header.now) tree.new
        broken.new) result }
    ensures same { SameTree tree.old tree.new }
{
    prepare::<A, I, R, H>(parts, chunk_key, header, plan, bytes.len(), first, second)?;
    match commit::<A, I, R, H>(
        parts, tree, key, chunk_key, header, plan, bytes, first, second,
    ) {
        Ok(()) => Ok(()),
        Err(e) => {
            *broken = true;
            Err(e)
        }
    }
}

/// Carries out a change by its plan, with this data: the chunks that are needed are opened, the touched ones sealed in rising order, each
/// with its nonce, its leaf and its record; then come the header, the cut and the tree's nodes.
pub fn change<A: Algorithm, I: RafIo, R: RafRng, H: MerkleHasher>(
    parts: &mut Parts<I, R, H>,
    file: &mut OpenFile<A>,
    plan: &Plan,
    bytes: &[u8],
) -> Result<(), Error>
    requires unmarked { file.old.broken ≡ false }
    requires planned { Planned (shape_of (cipher_of A.variant) file.old.header) plan.now (length bytes.now) }
    requires size { plan.now.before ≡ file.old.header.file_size }
    requires paired { Paired H.hashing parts.old.setting file.old.tree }
    requires room { HasRoom plan.now.count file.old.tree }
    ensures changing { Changing (cipher_of A.variant) H.hashing (A.key_list file.old.chunk_key) plan.now bytes.now
        (handle_of parts.old (A.key_list file.old.key) file.old.header file.old.tree file.old.broken)
        (handle_of parts.new (A.key_list file.new.key) file.new.header file.new.tree file.new.broken) result }
    ensures paired { Paired H.hashing parts.new.setting file.new.tree }
{
    let result = carry::<A, I, R, H>(
        parts,
        &mut file.tree,
        &file.key,
        &file.chunk_key,
        &file.header,
        plan,
        bytes,
        &mut file.first,
        &mut file.second,
        &mut file.broken,
    );
    if result.is_ok() {
        file.header.file_size = plan.size;
    }
    result
}
