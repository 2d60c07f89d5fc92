//! The blocks that both families share: constants, contexts and lengths.

ghost use Rattle.std.specs.Prelude.{◌≡◌, ◌<◌, ◌≤◌};
ghost use Rattle.aegis_core.specs.Lanes.{context, lengths};

use softaes::RoundBlock;

/// The first constant of the AEGIS specification.
pub(crate) const C0: [u8; 16] = [
    0x00, 0x01, 0x01, 0x02, 0x03, 0x05, 0x08, 0x0d, 0x15, 0x22, 0x37, 0x59, 0x90, 0xe9, 0x79, 0x62,
];

/// The second constant of the AEGIS specification.
pub(crate) const C1: [u8; 16] = [
    0xdb, 0x3d, 0x18, 0x55, 0x6d, 0xc2, 0x2f, 0xf1, 0x20, 0x11, 0x31, 0x42, 0x73, 0xb5, 0x28, 0xdd,
];

// The context of lane `i` of `lanes`.
pub(crate) fn context_block<B: RoundBlock>(lanes: usize, i: usize) -> B
    requires below { i < lanes }
    requires few { lanes ≤ 4 }
    ensures { B.bytes result ≡ context lanes i }
{
    let mut bytes = [0u8; 16];
    bytes[0] = i as u8;
    bytes[1] = (lanes - 1) as u8;
    B::from_bytes(&bytes)
}

// The block of two lengths.
pub(crate) fn length_block<B: RoundBlock>(first: u64, second: u64) -> B
    ensures { B.bytes result ≡ lengths first second }
{
    let mut bytes = [0u8; 16];
    bytes[..8].copy_from_slice(&first.to_le_bytes());
    bytes[8..].copy_from_slice(&second.to_le_bytes());
    B::from_bytes(&bytes)
}
