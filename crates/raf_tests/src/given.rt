//! What the tests share: files in memory with chunks of 16 bytes, and a source that gives so many bytes and then fails.
use aegis::raf::{Aegis128L, MemIo, NoMerkle, OsRng, Raf, RafBuilder, VecRng};
use rand_core::TryRng;
use std::alloc::{AllocError, Global};
use std::test::Fail;
use thiserror::Error;

// A key of 16 bytes: byte i is 13 i + 5.
pub const SHORT_KEY: [u8; 16] = [
    5, 18, 31, 44, 57, 70, 83, 96, 109, 122, 135, 148, 161, 174, 187, 200,
];

/// A file in memory.
pub type Plain = Raf<Aegis128L, MemIo, VecRng, NoMerkle>;

// So many bytes: byte i is i, modulo 256.
pub fn counting(alloc: Global, len: usize) -> Result<Vec<u8>, AllocError> {
    let mut bytes = Vec::new(alloc);
    for i in 0..len {
        bytes.push((i % 256) as u8)?;
    }
    Ok(bytes)
}

// An empty file whose source has so many bytes behind those of the id.
pub fn empty_file(alloc: Global, nonces: usize) -> Result<Plain, Fail> {
    let random = counting(alloc, nonces.saturating_add(32))?;
    let builder = RafBuilder::<Aegis128L, VecRng, NoMerkle>::new(VecRng::new(random)).chunk_size(
        16,
    );
    let io = MemIo::new(alloc, Vec::new(alloc), Vec::new(alloc));
    match builder.create::<MemIo>(alloc, io, &SHORT_KEY) {
        Ok(file) => Ok(file),
        Err(refused) => Err(Fail::from(refused.error)),
    }
}

/// There are no more bytes.
#[derive(Debug, Drop, Error)]
#[error("dry")]
pub struct Dry;

/// A source that gives so many bytes of 9, and then fails.
#[derive(Drop)]
pub struct Nines {
    left: usize,
}

impl Nines {
    fn take(&mut self, count: usize) -> Result<(), Dry> {
        if self.left < count {
            return Err(Dry);
        }
        self.left -= count;
        Ok(())
    }
}

impl TryRng for Nines {
    type Error = Dry;

    fn try_next_u32(&mut self) -> Result<u32, Dry> {
        self.take(4)?;
        Ok(0x0909_0909)
    }

    fn try_next_u64(&mut self) -> Result<u64, Dry> {
        self.take(8)?;
        Ok(0x0909_0909_0909_0909)
    }

    fn try_fill_bytes(&mut self, dst: &mut [u8]) -> Result<(), Dry> {
        self.take(dst.len())?;
        dst.fill(9);
        Ok(())
    }
}

// A source of a file that gives so many bytes, and then fails.
pub fn source_of(left: usize) -> OsRng<Nines> {
    OsRng::new(Nines { left })
}
