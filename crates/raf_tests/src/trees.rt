//! A tree without a file: a caller that carries it through changes.
use crate::carrier::change;
use raf_tree::{Sha256Hasher, Tree};
use std::test::Fail;

#[test]
fn a_change_of_a_file_carries_its_tree(rt: HostRuntime) -> Result<(), Fail> {
    let alloc = rt.alloc();
    let mut hasher = Sha256Hasher::new();
    let mut tree = Tree::new(alloc, 32, 8).expect(&rt, "a tree");
    // Three chunks of 16 bytes, byte i of all 7 i + 2.
    let mut text = [0u8; 64];
    for i in 0..48usize {
        text[i] = ((7 * i + 2) % 256) as u8;
    }
    assert!(rt; change(&mut tree, &mut hasher, &text, 16, 3, 0, 3, 3).is_ok());
    assert_eq!(rt;
        hex::encode(alloc, tree.root())?.as_str(),
        "ad65ef0877954812c8bb8c9ec6ad071e2fcd51ce4be1e59eee6faa57cee6b185"
    );
    // Chunks 1 to 3 written anew, byte i of all 5 i + 1; then all but two cut off.
    for i in 0..64usize {
        text[i] = ((5 * i + 1) % 256) as u8;
    }
    assert!(rt; change(&mut tree, &mut hasher, &text, 16, 4, 1, 4, 4).is_ok());
    assert_eq!(rt;
        hex::encode(alloc, tree.root())?.as_str(),
        "f68fe9de6bdcf473ce8fe31a16a4314d801f78386784f533d6866bb64eea51f4"
    );
    assert!(rt; change(&mut tree, &mut hasher, &text, 16, 2, 2, 2, 4).is_ok());
    assert_eq!(rt;
        hex::encode(alloc, tree.root())?.as_str(),
        "315dd4f9f3d9c9a97d3e9862a57f33523be8143702164a4a9cdb29ea0155546a"
    );
    Ok(())
}
