//! A place in a file of the host, as a reader and a writer of std: each call of it is one call of the host that names its offset.
ghost use Rattle.std.specs.Prelude.{◌≡◌, length, IfOk, OnErr, MatchResult};
ghost use Rattle.std.specs.Io.{ReadsAtMost, WritesAtMost};
ghost use Rattle.std.specs.Io.KnownBytes.{ReadConsumes, WriteAppends};
ghost use Rattle.counts.specs.Counts.{raised};

use std::fs::File;
use std::io;
use std::io::{Read, Write};
use std::os::unix::fs::FileExt;

/// The file's bytes from an offset on. The file's own position is neither asked nor moved.
#[derive(Drop)]
pub struct Place<'f> {
    file: &'f File,
    offset: u64,
}

impl<'f> Place<'f> {
    /// This offset of the file.
    pub fn new(file: &'f File, offset: u64) -> Place<'f>
        ensures file { result.file.now ≡ file.now }
        ensures offset { result.offset ≡ offset }
    {
        Place { file, offset }
    }
}

impl Read for Place<'_> {
    /// Reads at the place, which moves by the bytes that were read. The error is the host's.
    fn read(&mut self, buf: &mut [u8]) -> io::Result<usize>
        ensures bound { ReadsAtMost result buf.new }
        ensures bytes { ReadConsumes None None result buf.new }
        ensures file { self.new.file.now ≡ self.old.file.now }
        ensures moves { MatchResult result (λ n. self.new.offset ≡ raised self.old.offset n) (λ _. self.new.offset ≡ self.old.offset) }
    {
        let given = self.file.read_at(buf, self.offset)?;
        self.offset = self.offset.saturating_add(given as u64);
        Ok(given)
    }
}

impl Write for Place<'_> {
    /// Writes at the place, which moves by the bytes that were written. The error is the host's.
    fn write(&mut self, buf: &[u8]) -> io::Result<usize>
        ensures bound { WritesAtMost result buf.now }
        ensures bytes { WriteAppends None None result buf.now }
        ensures file { self.new.file.now ≡ self.old.file.now }
        ensures moves { MatchResult result (λ n. self.new.offset ≡ raised self.old.offset n) (λ _. self.new.offset ≡ self.old.offset) }
    {
        let taken = self.file.write_at(buf, self.offset)?;
        self.offset = self.offset.saturating_add(taken as u64);
        Ok(taken)
    }

    /// Nothing is kept back.
    fn flush(&mut self) -> io::Result<()> {
        Ok(())
    }
}
