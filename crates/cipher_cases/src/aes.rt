//! Rounds, round keys and whole ciphers of AES, on gates and by tables.
use crate::ways::Ways;
use crate::words::{Fault, array_of, data, number};
use aes_spec::{gf_mul, sbox};
use aes_vector::{round, sub_bytes};
use softaes::laws::{cipher, paths, tables};
use softaes::{Block, GateBlock, RoundBlock, unprotected};
use std::alloc::Global;
use std::simd::prelude::*;

// The round over this block, alone and as one of two.
fn tell_round<B: RoundBlock>(
    block: &[u8; 16],
    key: &[u8; 16],
    ways: &mut Ways,
) -> Result<(), Fault> {
    let (block, key) = (B::from_bytes(block), B::from_bytes(key));
    ways.tell_bytes("over a block", &block.round(&key).to_bytes())?;
    let (first, second) = B::rounds(&block, &key, &block, &key);
    ways.tell_bytes("first of two", &first.to_bytes())?;
    ways.tell_bytes("second of two", &second.to_bytes())
}

// The same from both paths.
fn tell_both(both: &(Block, unprotected::Block), ways: &mut Ways) -> Result<(), Fault> {
    ways.tell_bytes("on gates", &both.0.to_bytes())?;
    ways.tell_bytes("by tables", &both.1.to_bytes())
}

// The bytes of blocks, end to end.
fn bytes_of<B: RoundBlock>(alloc: Global, blocks: &[B]) -> Result<Vec<u8>, Fault> {
    let mut bytes = Vec::new(alloc);
    for block in blocks {
        bytes.extend_from_slice(&block.to_bytes())?;
    }
    Ok(bytes)
}

// A block through all rounds by tables, forward or back.
fn through(keys: &[unprotected::Block], block: &[u8; 16], back: bool) -> [u8; 16] {
    let mut state = unprotected::Block::from_bytes(block);
    let last = keys.len().saturating_sub(1);
    for (j, key) in keys.iter().enumerate() {
        state = if j == 0 {
            state.xor(key)
        } else if j == last && back {
            unprotected::SoftAes::block_decrypt_last(&state, key)
        } else if j == last {
            unprotected::SoftAes::block_encrypt_last(&state, key)
        } else if back {
            unprotected::SoftAes::block_decrypt(&state, key)
        } else {
            unprotected::SoftAes::block_encrypt(&state, key)
        };
    }
    state.to_bytes()
}

// The round keys of a key, by both paths.
#[derive(Drop)]
struct Keys {
    gates: Vec<Block>,
    tables: Vec<unprotected::Block>,
}

// Those of both paths, or of the inverse cipher. All three functions have keys of their length alone.
fn keys_128(alloc: Global, key: &[u8; 16], back: bool) -> Result<Keys, Fault> {
    let (mut gates, mut tables) = paths::key_expansion_128(key);
    if back {
        (gates, tables) = paths::inverse_key_schedule_128(&gates, &tables);
    }
    Ok(Keys {
        gates: gates.to_vec(alloc)?,
        tables: tables.to_vec(alloc)?,
    })
}

fn keys_192(alloc: Global, key: &[u8; 24], back: bool) -> Result<Keys, Fault> {
    let (mut gates, mut tables) = paths::key_expansion_192(key);
    if back {
        (gates, tables) = paths::inverse_key_schedule_192(&gates, &tables);
    }
    Ok(Keys {
        gates: gates.to_vec(alloc)?,
        tables: tables.to_vec(alloc)?,
    })
}

fn keys_256(alloc: Global, key: &[u8; 32], back: bool) -> Result<Keys, Fault> {
    let (mut gates, mut tables) = paths::key_expansion_256(key);
    if back {
        (gates, tables) = paths::inverse_key_schedule_256(&gates, &tables);
    }
    Ok(Keys {
        gates: gates.to_vec(alloc)?,
        tables: tables.to_vec(alloc)?,
    })
}

// The round keys of a key of 16, 24 or 32 bytes, or those of the inverse cipher.
fn keys_of(alloc: Global, key: &[u8], back: bool) -> Result<Keys, Fault> {
    match key.len() {
        16 => keys_128(alloc, &array_of(key)?, back),
        24 => keys_192(alloc, &array_of(key)?, back),
        32 => keys_256(alloc, &array_of(key)?, back),
        _ => Err(Fault::Line),
    }
}

// A block enciphered on gates.
fn enciphered(key: &[u8], block: &[u8; 16]) -> Result<[u8; 16], Fault> {
    match key.len() {
        16 => Ok(cipher::ciphered_128(&array_of(key)?, block)),
        24 => Ok(cipher::ciphered_192(&array_of(key)?, block)),
        32 => Ok(cipher::ciphered_256(&array_of(key)?, block)),
        _ => Err(Fault::Line),
    }
}

// A block deciphered on gates.
fn deciphered(key: &[u8], block: &[u8; 16]) -> Result<[u8; 16], Fault> {
    match key.len() {
        16 => Ok(cipher::deciphered_128(&array_of(key)?, block)),
        24 => Ok(cipher::deciphered_192(&array_of(key)?, block)),
        32 => Ok(cipher::deciphered_256(&array_of(key)?, block)),
        _ => Err(Fault::Line),
    }
}

// What two blocks come to over this block type: by its calls and its operators.
macro_rules! joined {
    ($block:ty, $first:ident, $second:ident, $ways:ident, $call:ident, $operator:tt) => {{
        let (a, b) = (<$block>::from_bytes($first), <$block>::from_slice($second));
        $ways.tell_bytes("by a call", &a.$call(&b).to_bytes())?;
        $ways.tell_bytes("by an operator", &(a $operator b).to_bytes())?;
        $ways.tell_bytes("by references", &(&a $operator &b).to_bytes())
    }};
}

// The exclusive or of two blocks.
fn tell_xor(first: &[u8; 16], second: &[u8; 16], ways: &mut Ways) -> Result<(), Fault> {
    joined!(Block, first, second, ways, xor, ^)?;
    joined!(unprotected::Block, first, second, ways, xor, ^)
}

// The and of two blocks.
fn tell_and(first: &[u8; 16], second: &[u8; 16], ways: &mut Ways) -> Result<(), Fault> {
    joined!(Block, first, second, ways, and, &)?;
    joined!(unprotected::Block, first, second, ways, and, &)
}

// The bytes through the S-box, by its definition and in a vector.
fn substitute(block: &[u8; 16], ways: &mut Ways) -> Result<(), Fault> {
    let mut bytes = *block;
    for byte in bytes.iter_mut() {
        *byte = sbox(*byte);
    }
    ways.tell_bytes("by definition", &bytes)?;
    ways.tell_bytes(
        "in a vector",
        &sub_bytes(u8x16::from_array(*block)).to_array(),
    )
}

// The products of bytes, one by one.
fn products(alloc: Global, first: &[u8], second: &[u8], ways: &mut Ways) -> Result<(), Fault> {
    let mut bytes = Vec::new(alloc);
    for (a, b) in first.iter().zip(second) {
        bytes.push(gf_mul(*a, *b))?;
    }
    ways.tell_bytes("by definition", &bytes)
}

// One step on a block, by both paths, or nothing where no step has this name.
fn step(name: &str, block: &[u8; 16], key: &[u8; 16], ways: &mut Ways) -> Result<(), Fault> {
    match name {
        "round" => {
            tell_both(&paths::block_encrypt(block, key), ways)?;
            tell_round::<Block>(block, key, ways)?;
            tell_round::<GateBlock>(block, key, ways)?;
            tell_round::<unprotected::Block>(block, key, ways)?;
            let answer = round(u8x16::from_array(*block), u8x16::from_array(*key));
            ways.tell_bytes("in a vector", &answer.to_array())
        }
        "last-round" => tell_both(&paths::block_encrypt_last(block, key), ways),
        "inverse-round" => tell_both(&paths::block_decrypt(block, key), ways),
        "last-inverse-round" => tell_both(&paths::block_decrypt_last(block, key), ways),
        "xor" => tell_xor(block, key, ways),
        "and" => tell_and(block, key, ways),
        _ => Err(Fault::Line),
    }
}

// The answer to a word and one value.
fn one(alloc: Global, name: &str, value: &[u8], ways: &mut Ways) -> Result<(), Fault> {
    match name {
        "keys" | "inverse-keys" => {
            let keys = keys_of(alloc, value, name == "inverse-keys")?;
            ways.tell_bytes("on gates", &bytes_of(alloc, &keys.gates)?)?;
            ways.tell_bytes("by tables", &bytes_of(alloc, &keys.tables)?)
        }
        "mix-back" => tell_both(&paths::inv_mix_block(&array_of(value)?), ways),
        "substitute" => substitute(&array_of(value)?, ways),
        _ => Err(Fault::Line),
    }
}

// The answer to a word and two values.
fn two(
    alloc: Global,
    name: &str,
    first: &[u8],
    second: &[u8],
    ways: &mut Ways,
) -> Result<(), Fault> {
    match name {
        "encipher" => {
            let block = array_of(second)?;
            ways.tell_bytes("on gates", &enciphered(first, &block)?)?;
            let keys = keys_of(alloc, first, false)?;
            ways.tell_bytes("by tables", &through(&keys.tables, &block, false))
        }
        "decipher" => {
            let block = array_of(second)?;
            ways.tell_bytes("on gates", &deciphered(first, &block)?)?;
            let keys = keys_of(alloc, first, true)?;
            ways.tell_bytes("by tables", &through(&keys.tables, &block, true))
        }
        "product" => products(alloc, first, second, ways),
        _ => step(name, &array_of(first)?, &array_of(second)?, ways),
    }
}

// The words of the tables for a byte, of both directions.
fn tell_table(alloc: Global, table: usize, byte: u8, ways: &mut Ways) -> Result<(), Fault> {
    if table > 3 {
        return Err(Fault::Line);
    }
    let (forward, inverse) = (tables::forward(table, byte), tables::inverse(table, byte));
    let answer = format!(in alloc; "{forward:08x} {inverse:08x}")?;
    ways.tell("by tables", answer.as_str())
}

// The block of two words, high and low.
fn tell_block(high: u64, low: u64, ways: &mut Ways) -> Result<(), Fault> {
    ways.tell_bytes("on gates", &Block::from64x2(high, low).to_bytes())?;
    ways.tell_bytes(
        "by tables",
        &unprotected::Block::from64x2(high, low).to_bytes(),
    )
}

/// The answer to a line about AES.
pub fn tell(alloc: Global, words: &[&str], ways: &mut Ways) -> Result<(), Fault> {
    match words {
        ["table", table, byte] => {
            let byte = number(byte)?;
            if byte > 255 {
                return Err(Fault::Line);
            }
            tell_table(alloc, number(table)? as usize, byte as u8, ways)
        }
        ["block", high, low] => tell_block(number(high)?, number(low)?, ways),
        [name, value] => one(alloc, name, &data(alloc, value)?, ways),
        [name, first, second] => two(
            alloc,
            name,
            &data(alloc, first)?,
            &data(alloc, second)?,
            ways,
        ),
        _ => Err(Fault::Line),
    }
}
