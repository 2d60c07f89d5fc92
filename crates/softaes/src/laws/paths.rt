//! Both paths, by gates and by tables, give equal bytes for every round and schedule: each function here
//! gives what the two make of the same bytes.

ghost use Rattle.std.specs.Prelude.{◌≡◌};
ghost use Rattle.aes_spec.specs.KeySchedule.{expand, inverse_keys};
ghost use Rattle.aes_spec.specs.Rounds.{R, RL, IR, IRL, inv_mix_columns};

use crate::unprotected::{Block as TableBlock, SoftAes as TableAes, key_schedule as by_tables};
use crate::{Block, SoftAes, key_schedule};

/// The forward round.
pub fn block_encrypt(block: &[u8; 16], rk: &[u8; 16]) -> (Block, TableBlock)
    ensures value { result.0 ≡ R block.now rk.now }
    ensures same { result.0 ≡ result.1 }
{
    (
        SoftAes::block_encrypt(&Block::from_bytes(block), &Block::from_bytes(rk)),
        TableAes::block_encrypt(&TableBlock::from_bytes(block), &TableBlock::from_bytes(rk)),
    )
}

/// The last forward round.
pub fn block_encrypt_last(block: &[u8; 16], rk: &[u8; 16]) -> (Block, TableBlock)
    ensures value { result.0 ≡ RL block.now rk.now }
    ensures same { result.0 ≡ result.1 }
{
    (
        SoftAes::block_encrypt_last(&Block::from_bytes(block), &Block::from_bytes(rk)),
        TableAes::block_encrypt_last(&TableBlock::from_bytes(block), &TableBlock::from_bytes(rk)),
    )
}

/// The inverse round.
pub fn block_decrypt(block: &[u8; 16], rk: &[u8; 16]) -> (Block, TableBlock)
    ensures value { result.0 ≡ IR block.now rk.now }
    ensures same { result.0 ≡ result.1 }
{
    (
        SoftAes::block_decrypt(&Block::from_bytes(block), &Block::from_bytes(rk)),
        TableAes::block_decrypt(&TableBlock::from_bytes(block), &TableBlock::from_bytes(rk)),
    )
}

/// The last inverse round.
pub fn block_decrypt_last(block: &[u8; 16], rk: &[u8; 16]) -> (Block, TableBlock)
    ensures value { result.0 ≡ IRL block.now rk.now }
    ensures same { result.0 ≡ result.1 }
{
    (
        SoftAes::block_decrypt_last(&Block::from_bytes(block), &Block::from_bytes(rk)),
        TableAes::block_decrypt_last(&TableBlock::from_bytes(block), &TableBlock::from_bytes(rk)),
    )
}

/// InvMixColumns.
pub fn inv_mix_block(block: &[u8; 16]) -> (Block, TableBlock)
    ensures value { result.0 ≡ inv_mix_columns block.now }
    ensures same { result.0 ≡ result.1 }
{
    (
        key_schedule::inv_mix_block(Block::from_bytes(block)),
        by_tables::inv_mix_block(TableBlock::from_bytes(block)),
    )
}

/// The round keys of a key of 16 bytes.
pub fn key_expansion_128(key: &[u8; 16]) -> ([Block; 11], [TableBlock; 11])
    ensures value { result.0 ≡ expand key.now }
    ensures same { result.0 ≡ result.1 }
{
    (
        key_schedule::key_expansion_128(key),
        by_tables::key_expansion_128(key),
    )
}

/// The round keys of a key of 24 bytes.
pub fn key_expansion_192(key: &[u8; 24]) -> ([Block; 13], [TableBlock; 13])
    ensures value { result.0 ≡ expand key.now }
    ensures same { result.0 ≡ result.1 }
{
    (
        key_schedule::key_expansion_192(key),
        by_tables::key_expansion_192(key),
    )
}

/// The round keys of a key of 32 bytes.
pub fn key_expansion_256(key: &[u8; 32]) -> ([Block; 15], [TableBlock; 15])
    ensures value { result.0 ≡ expand key.now }
    ensures same { result.0 ≡ result.1 }
{
    (
        key_schedule::key_expansion_256(key),
        by_tables::key_expansion_256(key),
    )
}

/// The 11 round keys of the equivalent inverse cipher (FIPS 197, section 5.3.5) of any 11 round keys, given
/// as blocks of either path.
pub fn inverse_key_schedule_128(
    enc: &[Block; 11],
    table_enc: &[TableBlock; 11],
) -> ([Block; 11], [TableBlock; 11])
    requires same { enc.now ≡ table_enc.now }
    ensures value { result.0 ≡ inverse_keys enc.now }
    ensures same { result.0 ≡ result.1 }
{
    (
        key_schedule::inverse_key_schedule_128(enc),
        by_tables::inverse_key_schedule_128(table_enc),
    )
}

/// The 13 round keys of the equivalent inverse cipher (FIPS 197, section 5.3.5) of any 13 round keys, given
/// as blocks of either path.
pub fn inverse_key_schedule_192(
    enc: &[Block; 13],
    table_enc: &[TableBlock; 13],
) -> ([Block; 13], [TableBlock; 13])
    requires same { enc.now ≡ table_enc.now }
    ensures value { result.0 ≡ inverse_keys enc.now }
    ensures same { result.0 ≡ result.1 }
{
    (
        key_schedule::inverse_key_schedule_192(enc),
        by_tables::inverse_key_schedule_192(table_enc),
    )
}

/// The 15 round keys of the equivalent inverse cipher (FIPS 197, section 5.3.5) of any 15 round keys, given
/// as blocks of either path.
pub fn inverse_key_schedule_256(
    enc: &[Block; 15],
    table_enc: &[TableBlock; 15],
) -> ([Block; 15], [TableBlock; 15])
    requires same { enc.now ≡ table_enc.now }
    ensures value { result.0 ≡ inverse_keys enc.now }
    ensures same { result.0 ≡ result.1 }
{
    (
        key_schedule::inverse_key_schedule_256(enc),
        by_tables::inverse_key_schedule_256(table_enc),
    )
}
