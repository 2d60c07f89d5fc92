//! What a file is made, opened and served with.
use crate::words::{Fault, chunk_size_of, data, number, numbers};
use raf::{AlgorithmId, Version};
use std::alloc::Global;
use std::mem;

/// The hasher of a file.
#[derive(Clone, Copy, PartialEq, Eq)]
pub enum Hashing {
    /// None.
    Without,
    /// By SHA-256.
    Sha256,
    /// One whose answers are so many zeros.
    Fake(usize),
}

/// All that the lines of a case have set.
#[derive(Drop)]
pub struct Bench {
    /// The algorithm.
    pub algorithm: AlgorithmId,
    /// Whether it runs over the tables that are looked up by secrets.
    pub unprotected: bool,
    /// The key.
    pub key: Vec<u8>,
    /// The random bytes of the next run.
    pub random: Vec<u8>,
    /// The hasher.
    pub hashing: Hashing,
    /// The most chunks of its tree.
    pub most: u64,
    /// The chunk size of a new file.
    pub chunk_size: u32,
    /// The version of a new file.
    pub version: Version,
    /// Whether a new file may take the place of one.
    pub truncate: bool,
    /// What the storage holds.
    pub storage: Vec<u8>,
    /// The calls of the storage that fail in the next run.
    pub fail: Vec<u64>,
    /// The calls of the hasher that fail in the next run.
    pub fail_hash: Vec<u64>,
    /// The most hashes that may be asked in the next comparison.
    pub most_hashes: u64,
    /// A byte of the storage that is changed before the next comparison, and what is added to it by exclusive or.
    pub damage: Option<(u64, u8)>,
}

// A number below 2^8.
fn small(word: &str) -> Result<u8, Fault> {
    match word.parse::<u8>() {
        Ok(n) => Ok(n),
        Err(_) => Err(Fault::Line),
    }
}

// The algorithm of a number.
fn algorithm_of(word: &str) -> Result<AlgorithmId, Fault> {
    match AlgorithmId::from_u8(small(word)?) {
        Ok(algorithm) => Ok(algorithm),
        Err(_) => Err(Fault::Line),
    }
}

// The version of a number.
fn version_of(word: &str) -> Result<Version, Fault> {
    match Version::from_u8(small(word)?) {
        Some(version) => Ok(version),
        None => Err(Fault::Line),
    }
}

impl Bench {
    /// The settings that a case begins with.
    pub fn new(alloc: Global) -> Bench {
        Bench {
            algorithm: AlgorithmId::Aegis128L,
            unprotected: false,
            key: Vec::new(alloc),
            random: Vec::new(alloc),
            hashing: Hashing::Without,
            most: 0,
            chunk_size: 16,
            version: Version::V1,
            truncate: false,
            storage: Vec::new(alloc),
            fail: Vec::new(alloc),
            fail_hash: Vec::new(alloc),
            most_hashes: u64::MAX,
            damage: None,
        }
    }

    // The settings of a file.
    fn set_file(&mut self, alloc: Global, words: &[&str]) -> Result<(), Fault> {
        match words {
            ["alg", word] => {
                self.algorithm = algorithm_of(word)?;
                self.unprotected = false;
            }
            ["alg", word, "unprotected"] => {
                self.algorithm = algorithm_of(word)?;
                self.unprotected = true;
            }
            ["key", word] => self.key = data(alloc, word)?,
            ["hasher", "none"] => self.hashing = Hashing::Without,
            ["hasher", "sha256", most] => {
                self.hashing = Hashing::Sha256;
                self.most = number(most)?;
            }
            ["hasher", "fake", len, most] => {
                self.hashing = Hashing::Fake(number(len)? as usize);
                self.most = number(most)?;
            }
            ["chunk", word] => self.chunk_size = chunk_size_of(word)?,
            ["version", word] => self.version = version_of(word)?,
            ["truncate"] => self.truncate = true,
            _ => return Err(Fault::Line),
        }
        Ok(())
    }

    /// Sets what these words say.
    pub fn set(&mut self, alloc: Global, words: &[&str]) -> Result<(), Fault> {
        match words {
            ["random", word] => self.random = data(alloc, word)?,
            ["storage", word] => self.storage = data(alloc, word)?,
            ["put", offset, word] => {
                let bytes = data(alloc, word)?;
                return self.put(number(offset)? as usize, &bytes);
            }
            ["flip", offset, mask] => {
                let mask = small(mask)?;
                match self.storage.get_mut(number(offset)? as usize) {
                    Some(place) => *place ^= mask,
                    None => return Err(Fault::Line),
                }
            }
            ["cut", len] => self.storage.truncate(number(len)? as usize),
            ["fail", calls @ ..] => self.fail = numbers(alloc, calls)?,
            ["fail-hash", calls @ ..] => self.fail_hash = numbers(alloc, calls)?,
            ["most-hashes", word] => self.most_hashes = number(word)?,
            ["damage", offset, mask] => self.damage = Some((number(offset)?, small(mask)?)),
            _ => return self.set_file(alloc, words),
        }
        Ok(())
    }

    // Puts bytes into the storage, which they lie in or follow.
    fn put(&mut self, offset: usize, bytes: &[u8]) -> Result<(), Fault> {
        for (i, byte) in bytes.iter().enumerate() {
            match self.storage.get_mut(offset.saturating_add(i)) {
                Some(place) => *place = *byte,
                None => self.storage.push(*byte)?,
            }
        }
        Ok(())
    }

    /// The storage's bytes, given away.
    pub fn take_storage(&mut self, alloc: Global) -> Vec<u8> {
        mem::replace(&mut self.storage, Vec::new(alloc))
    }

    /// The random bytes, given away.
    pub fn take_random(&mut self, alloc: Global) -> Vec<u8> {
        mem::replace(&mut self.random, Vec::new(alloc))
    }

    /// The storage's calls that fail, given away.
    pub fn take_fail(&mut self, alloc: Global) -> Vec<u64> {
        mem::replace(&mut self.fail, Vec::new(alloc))
    }

    /// The hasher's calls that fail, given away.
    pub fn take_fail_hash(&mut self, alloc: Global) -> Vec<u64> {
        mem::replace(&mut self.fail_hash, Vec::new(alloc))
    }
}
