//! The names of the rounds on gates, and the printed texts of blocks.

use softaes::{Block, SoftAesFast, SoftAesModerate, SoftAesSlow, unprotected};
use std::test::Fail;

// The bytes 00 to 0f and 10 to 1f, and their round in the AEGIS specification's vector for AESRound.
const BLOCK: [u8; 16] = [0, 1, 2, 3, 4, 5, 6, 7, 8, 9, 10, 11, 12, 13, 14, 15];

const KEY: [u8; 16] = [
    16, 17, 18, 19, 20, 21, 22, 23, 24, 25, 26, 27, 28, 29, 30, 31,
];

const ROUND: [u8; 16] = [
    0x7a, 0x7b, 0x4e, 0x56, 0x38, 0x78, 0x25, 0x46, 0xa8, 0xc0, 0x47, 0x7a, 0x3b, 0x81, 0x3f, 0x43,
];

#[test]
fn every_name_of_the_gates_has_the_round(rt: HostRuntime) {
    let (block, key) = (Block::from_bytes(&BLOCK), Block::from_bytes(&KEY));
    assert_eq!(rt; SoftAesSlow::block_encrypt(&block, &key).to_bytes(), ROUND);
    assert_eq!(rt;
        SoftAesModerate::block_encrypt(&block, &key).to_bytes(),
        ROUND
    );
    assert_eq!(rt; SoftAesFast::block_encrypt(&block, &key).to_bytes(), ROUND);
}

#[test]
fn blocks_are_compared_and_printed(rt: HostRuntime) -> Result<(), Fail> {
    let block = Block::from64x2(1, 2);
    let by_tables = unprotected::Block::from64x2(1, 2);
    assert!(rt; block == block && block != Block::default());
    assert!(rt; by_tables == by_tables && by_tables != unprotected::Block::default());
    assert_eq!(rt;
        format!(in rt.alloc(); "{block:?}")?.as_str(),
        "Block { lo: 2, hi: 1 }"
    );
    assert_eq!(rt;
        format!(in rt.alloc(); "{by_tables:?}")?.as_str(),
        "Block { c0: 2, c1: 0, c2: 1, c3: 0 }"
    );
    Ok(())
}
