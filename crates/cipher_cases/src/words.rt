//! The words of a line: numbers, and bytes in hex or by a pattern.
use aegis_core::Error;
use std::alloc::{AllocError, AllocFailed, Global};

/// Why a line isn't carried out.
#[derive(Clone, Copy, Debug, PartialEq, Eq)]
pub enum Fault {
    /// It is none of the lines that are known.
    Line,
    /// No memory was found.
    OutOfMemory,
}

impl From<AllocError> for Fault {
    fn from(_: AllocError) -> Self {
        Fault::OutOfMemory
    }
}

impl<T: Drop> From<AllocFailed<T>> for Fault {
    fn from(_: AllocFailed<T>) -> Self {
        Fault::OutOfMemory
    }
}

// A call that seals refuses nothing but for memory.
impl From<Error> for Fault {
    fn from(_: Error) -> Self {
        Fault::OutOfMemory
    }
}

/// The number that a word spells.
pub fn number(word: &str) -> Result<u64, Fault> {
    match word.parse::<u64>() {
        Ok(n) => Ok(n),
        Err(_) => Err(Fault::Line),
    }
}

/// So many bytes: byte i is `step` i + `first`, modulo 256.
fn pattern(alloc: Global, len: u64, step: u8, first: u8) -> Result<Vec<u8>, Fault> {
    let mut bytes = Vec::new(alloc);
    for i in 0..len {
        bytes.push(((i % 256) as u8).wrapping_mul(step).wrapping_add(first))?;
    }
    Ok(bytes)
}

/// The bytes that a word spells: `-` none, `@n` n bytes 7 i + 2, `+n` n bytes 3 i + 195, `_n` n zeros, else hex.
pub fn data(alloc: Global, word: &str) -> Result<Vec<u8>, Fault> {
    if word == "-" {
        return Ok(Vec::new(alloc));
    }
    if let Some(len) = word.strip_prefix('@') {
        return pattern(alloc, number(len)?, 7, 2);
    }
    if let Some(len) = word.strip_prefix('+') {
        return pattern(alloc, number(len)?, 3, 195);
    }
    if let Some(len) = word.strip_prefix('_') {
        return pattern(alloc, number(len)?, 0, 0);
    }
    match hex::decode(alloc, word) {
        Ok(bytes) => Ok(bytes),
        Err(_) => Err(Fault::Line),
    }
}

/// The lengths of pieces that words spell, none of them 0.
pub fn lengths(alloc: Global, words: &[&str]) -> Result<Vec<usize>, Fault> {
    let mut list = Vec::new(alloc);
    for word in words {
        let len = number(word)? as usize;
        if len == 0 {
            return Err(Fault::Line);
        }
        list.push(len)?;
    }
    Ok(list)
}

/// The bytes where they are so many.
pub fn array_of<const LEN: usize>(bytes: &[u8]) -> Result<[u8; LEN], Fault> {
    match bytes.try_into() {
        Ok(array) => Ok(array),
        Err(_) => Err(Fault::Line),
    }
}
