//! The words of a line: numbers, and bytes in hex or by a pattern.
use std::alloc::{AllocError, AllocFailed, Global};

/// Why a line isn't carried out.
#[derive(Clone, Copy, Debug, PartialEq, Eq)]
pub enum Fault {
    /// It is none of the lines that are known.
    Line,
    /// No memory was found.
    OutOfMemory,
}

impl From<AllocError> for Fault {
    fn from(_: AllocError) -> Self {
        Fault::OutOfMemory
    }
}

impl<T: Drop> From<AllocFailed<T>> for Fault {
    fn from(_: AllocFailed<T>) -> Self {
        Fault::OutOfMemory
    }
}

/// The number that a word spells.
pub fn number(word: &str) -> Result<u64, Fault> {
    match word.parse::<u64>() {
        Ok(n) => Ok(n),
        Err(_) => Err(Fault::Line),
    }
}

/// The chunk size that a word spells.
pub fn chunk_size_of(word: &str) -> Result<u32, Fault> {
    match word.parse::<u32>() {
        Ok(n) => Ok(n),
        Err(_) => Err(Fault::Line),
    }
}

/// The key where it has so many bytes.
pub fn key_of<const LEN: usize>(bytes: &[u8]) -> Result<[u8; LEN], Fault> {
    match bytes.try_into() {
        Ok(key) => Ok(key),
        Err(_) => Err(Fault::Line),
    }
}

// So many bytes: byte i is `step` i + `first`, modulo 256.
fn pattern(alloc: Global, len: u64, step: u8, first: u8) -> Result<Vec<u8>, Fault> {
    let mut bytes = Vec::new(alloc);
    for i in 0..len {
        bytes.push(((i % 256) as u8).wrapping_mul(step).wrapping_add(first))?;
    }
    Ok(bytes)
}

/// The bytes that a word spells: `-` none, `@n` n bytes 7 i + 2, `+n` n bytes 3 i + 195, `_n` n zeros, else hex.
pub fn data(alloc: Global, word: &str) -> Result<Vec<u8>, Fault> {
    if word == "-" {
        return Ok(Vec::new(alloc));
    }
    if let Some(len) = word.strip_prefix('@') {
        return pattern(alloc, number(len)?, 7, 2);
    }
    if let Some(len) = word.strip_prefix('+') {
        return pattern(alloc, number(len)?, 3, 195);
    }
    if let Some(len) = word.strip_prefix('_') {
        return pattern(alloc, number(len)?, 0, 0);
    }
    match hex::decode(alloc, word) {
        Ok(bytes) => Ok(bytes),
        Err(_) => Err(Fault::Line),
    }
}

/// The numbers that words spell.
pub fn numbers(alloc: Global, words: &[&str]) -> Result<Vec<u64>, Fault> {
    let mut list = Vec::new(alloc);
    for word in words {
        list.push(number(word)?)?;
    }
    Ok(list)
}
