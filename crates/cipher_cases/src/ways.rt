//! One answer by several ways.
use crate::words::Fault;
use sha2::{Digest, Sha256};
use std::alloc::Global;

/// What the ways of one question answered so far.
#[derive(Drop)]
pub struct Ways {
    alloc: Global,
    first: String,
    each: String,
    count: u64,
    differ: bool,
}

/// Bytes in hex, `-` where there are none, and of more than 1024 their number and their SHA-256.
pub fn shown(alloc: Global, bytes: &[u8]) -> Result<String, Fault> {
    if bytes.is_empty() {
        return Ok(format!(in alloc; "-")?);
    }
    if bytes.len() > 1024 {
        let digest = hex::encode(alloc, &Sha256::digest(bytes))?;
        return Ok(format!(in alloc; "{}#{digest}", bytes.len())?);
    }
    Ok(hex::encode(alloc, bytes)?)
}

/// What a place is filled with: one byte where all are the same.
fn filling(alloc: Global, place: &[u8]) -> Result<String, Fault> {
    match place {
        [] => shown(alloc, place),
        [first, ..] if place.iter().all(|byte| byte == first) => shown(alloc, &[*first]),
        _ => shown(alloc, place),
    }
}

impl Ways {
    /// No way yet.
    pub fn new(alloc: Global) -> Ways {
        Ways {
            alloc,
            first: String::new(alloc),
            each: String::new(alloc),
            count: 0,
            differ: false,
        }
    }

    /// This way answers this.
    pub fn tell(&mut self, way: &str, answer: &str) -> Result<(), Fault> {
        if self.count == 0 {
            self.first.push_str(answer)?;
        }
        self.differ = self.differ || self.first.as_str() != answer;
        self.count = self.count.saturating_add(1);
        let told = format!(in self.alloc; "({way}: {answer})")?;
        self.each.push_str(told.as_str())?;
        Ok(())
    }

    /// This way answers these bytes.
    pub fn tell_bytes(&mut self, way: &str, bytes: &[u8]) -> Result<(), Fault> {
        let answer = shown(self.alloc, bytes)?;
        self.tell(way, answer.as_str())
    }

    /// This way answers this cipher text and tag.
    pub fn tell_sealed(&mut self, way: &str, text: &[u8], tag: &[u8]) -> Result<(), Fault> {
        let text = shown(self.alloc, text)?;
        let tag = shown(self.alloc, tag)?;
        let answer = format!(in self.alloc; "{text} {tag}")?;
        self.tell(way, answer.as_str())
    }

    /// This way leaves a place that is filled with this.
    pub fn tell_filling(&mut self, way: &str, place: &[u8]) -> Result<(), Fault> {
        let answer = filling(self.alloc, place)?;
        self.tell(way, answer.as_str())
    }

    /// Adds to a line what all ways answered, or what each did where they differ.
    pub fn write(&self, line: &mut String) -> Result<(), Fault> {
        if self.count > 0 && !line.is_empty() {
            line.push_str(" ")?;
        }
        if self.differ {
            line.push_str(self.each.as_str())?;
        } else {
            line.push_str(self.first.as_str())?;
        }
        Ok(())
    }
}
