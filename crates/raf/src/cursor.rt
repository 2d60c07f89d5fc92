//! A position in an open file, from which it is read and written.
ghost use Rattle.std.specs.Prelude.{◌≡◌, ◌+◌, ◌^◌, ◌<◌, ◌≤◌, ◌↔◌, ◌⊎◌, pos, ◌+ℤ◌, length, take, drop, unsigned_abs, Some, None, Err, MatchResult};
ghost use Rattle.std.specs.Prelude.{IfSome, IsOk, IfOk, IfErr, OnOk, OnErr};
ghost use Rattle.std.specs.Int.{w64, FitsUnsigned};
ghost use Rattle.std.specs.Io.{ReadsAtMost, WritesAtMost};
ghost use Rattle.std.specs.Io.KnownBytes.{ReadConsumes, WriteAppends, Consumes, Appends, Keeps};
ghost use Rattle.std.specs.Io.Seek.{SeekMoves, MovesTo, MovesBy, StaysAt};
ghost use Rattle.std.specs.IoError.{error_kind};
ghost use Rattle.raf_format.specs.Cipher.{cipher_of};
ghost use Rattle.raf_format.specs.File.{File};
ghost use Rattle.raf_io.specs.Kinds.{kind_of};
ghost use Rattle.raf.specs.Handle.{Holds};
ghost use Rattle.raf.specs.Read.{OldOrOpened};
ghost use Rattle.raf.specs.Stepped.{Stepped, read_reply, write_reply, done_reply};
ghost use Rattle.raf.specs.Seek.{seek_target};
ghost use Rattle.raf.specs.Cursor.{Refuses, FallsShort};
ghost use Rattle.raf.specs.declared.command.Reply.TheVariants.{Bytes, Wrote, Done};

use crate::command::Command;
use crate::file::Raf;
use raf_format::Algorithm;
use raf_io::{Error, ErrorKind, RafIo, RafRng, Reason};
use raf_tree::MerkleHasher;
use std::io;
use std::io::{ErrorKind as IoKind, Read, Seek, SeekFrom, Write};

/// A position in an open file. A call moves it by what the call answers; a refused one leaves it, and is remembered. std's traits stand
/// over the calls of the same names: what their errors can't tell, [`RafCursor::last_error`] does.
#[derive(Drop)]
pub struct RafCursor<'a, A: Algorithm, I: RafIo, R: RafRng, H: MerkleHasher> {
    file: &'a mut Raf<A, I, R, H>,
    position: u64,
    last: Option<ErrorKind>,
}

impl<A: Algorithm, I: RafIo, R: RafRng, H: MerkleHasher> Raf<A, I, R, H> {
    /// A cursor at position 0.
    pub fn cursor(&mut self) -> RafCursor<'_, A, I, R, H>
        ensures same_reference { result.file.ghost_name ≡ self.entry.ghost_name }
        ensures file { result.file.now ≡ self.old }
        ensures position { result.position ≡ 0 }
        ensures last { result.last ≡ None }
    {
        RafCursor {
            file: self,
            position: 0,
            last: None,
        }
    }
}

impl<'a, A: Algorithm, I: RafIo, R: RafRng, H: MerkleHasher> RafCursor<'a, A, I, R, H> {
    /// The kind of the last call on this cursor that was refused, or None where none was.
    pub fn last_error(&self) -> Option<ErrorKind>
        ensures { result ≡ self.now.last }
    {
        self.last
    }

    // Notes a refusal.
    fn refuse<T>(&mut self, error: Error) -> Result<T, Error>
        ensures same_reference { self.new.file.ghost_name ≡ self.old.file.ghost_name }
        ensures file { self.new.file.now ≡ self.old.file.now }
        ensures position { self.new.position ≡ self.old.position }
        ensures last { self.new.last ≡ Some (kind_of error) }
        ensures answer { result ≡ Err error }
    {
        self.last = Some(error.kind());
        Err(error)
    }

    /// Reads as [`Raf::read`] does, from the position on.
    pub fn read(&mut self, buf: &mut [u8]) -> Result<usize, Error>
        ensures same_reference { self.new.file.ghost_name ≡ self.old.file.ghost_name }
        ensures stepped { Stepped (cipher_of A.variant) H.hashing self.old.file.now self.new.file.now
            (Command.Read self.old.position (length buf.old)) (read_reply buf.new result) }
        ensures count { IfOk result (λ n. n ≤ length buf.old) }
        ensures rest { IfOk result (λ n. drop n buf.new ≡ drop n buf.old) }
        ensures refused { (F : File) → Holds (cipher_of A.variant) self.old.file.now F
            → OnErr result (OldOrOpened F self.old.position buf.old buf.new) }
        ensures moves { MatchResult result (λ n. self.new.position ≡ self.old.position + n) (λ _. self.new.position ≡ self.old.position) }
        ensures last { MatchResult result (λ _. self.new.last ≡ self.old.last) (λ e. self.new.last ≡ Some (kind_of e)) }
    {
        match self.file.read(buf, self.position) {
            Ok(read) => {
                self.position += read as u64;
                Ok(read)
            }
            Err(error) => self.refuse(error),
        }
    }

    /// Writes as [`Raf::write`] does, at the position.
    pub fn write(&mut self, buf: &[u8]) -> Result<usize, Error>
        ensures same_reference { self.new.file.ghost_name ≡ self.old.file.ghost_name }
        ensures stepped { Stepped (cipher_of A.variant) H.hashing self.old.file.now self.new.file.now
            (Command.Write self.old.position buf.now) (write_reply result) }
        ensures count { IfOk result (λ n. n ≡ length buf.now) }
        ensures moves { MatchResult result (λ n. self.new.position ≡ self.old.position + n) (λ _. self.new.position ≡ self.old.position) }
        ensures last { MatchResult result (λ _. self.new.last ≡ self.old.last) (λ e. self.new.last ≡ Some (kind_of e)) }
    {
        match self.file.write(buf, self.position) {
            Ok(written) => {
                self.position += written as u64;
                Ok(written)
            }
            Err(error) => self.refuse(error),
        }
    }

    /// Makes the storage durable, as [`Raf::sync`] does.
    pub fn flush(&mut self) -> Result<(), Error>
        ensures same_reference { self.new.file.ghost_name ≡ self.old.file.ghost_name }
        ensures stepped { Stepped (cipher_of A.variant) H.hashing self.old.file.now self.new.file.now Command.Sync (done_reply result) }
        ensures stays { self.new.position ≡ self.old.position }
        ensures last { MatchResult result (λ _. self.new.last ≡ self.old.last) (λ e. self.new.last ≡ Some (kind_of e)) }
    {
        match self.file.sync() {
            Ok(()) => Ok(()),
            Err(error) => self.refuse(error),
        }
    }

    /// Moves the position: from the start, from the end or from where it is. It may lie past the end. Refused by `InvalidArgument` of the
    /// reason `SeekOverflow` exactly where the target is below 0 or above 2^64 - 1.
    pub fn seek(&mut self, pos: SeekFrom) -> Result<u64, Error>
        ensures same_reference { self.new.file.ghost_name ≡ self.old.file.ghost_name }
        ensures file { self.new.file.now ≡ self.old.file.now }
        ensures can { IsOk result ↔ FitsUnsigned w64 (seek_target self.old.position self.old.file.now.header.file_size pos) }
        ensures target { IfOk result (λ n. n ≡ unsigned_abs (seek_target self.old.position self.old.file.now.header.file_size pos)) }
        ensures kind { IfErr result (λ e. e ≡ Error.InvalidArgument Reason.SeekOverflow) }
        ensures moves { MatchResult result (λ n. self.new.position ≡ n) (λ _. self.new.position ≡ self.old.position) }
        ensures last { MatchResult result (λ _. self.new.last ≡ self.old.last) (λ e. self.new.last ≡ Some (kind_of e)) }
    {
        let target = match pos {
            SeekFrom::Start(offset) => Some(offset),
            SeekFrom::End(offset) => self.file.size().checked_add_signed(offset),
            SeekFrom::Current(offset) => self.position.checked_add_signed(offset),
        };
        match target {
            Some(position) => {
                self.position = position;
                Ok(position)
            }
            None => self.refuse(Error::InvalidArgument(Reason::SeekOverflow)),
        }
    }
}

// The error of std's reads and writes.
fn refused() -> io::Error
    ensures { error_kind result ≡ IoKind.Other }
{
    io::Error::other("encrypted file")
}

impl<A: Algorithm, I: RafIo, R: RafRng, H: MerkleHasher> Read for RafCursor<'_, A, I, R, H> {
    /// As the cursor's own `read`. The error is of the kind `Other`.
    fn read(&mut self, buf: &mut [u8]) -> io::Result<usize>
        ensures bound { ReadsAtMost result buf.new }
        ensures bytes { ReadConsumes None None result buf.new }
        ensures same_reference { self.new.file.ghost_name ≡ self.old.file.ghost_name }
        ensures read { IfOk result (λ n. Stepped (cipher_of A.variant) H.hashing self.old.file.now self.new.file.now
            (Command.Read self.old.position (length buf.old)) (Bytes (take n buf.new))) }
        ensures moves { MatchResult result (λ n. self.new.position ≡ self.old.position + n) (λ _. self.new.position ≡ self.old.position) }
        ensures kept { OnOk result (self.new.last ≡ self.old.last) }
        ensures refused { OnErr result (Refuses (cipher_of A.variant) H.hashing self.old.file.now self.new.file.now
            (Command.Read self.old.position (length buf.old)) self.new.last) }
        ensures kind { IfErr result (λ e. error_kind e ≡ IoKind.Other) }
    {
        match RafCursor::read(self, buf) {
            Ok(count) => Ok(count),
            Err(_) => Err(refused()),
        }
    }

    /// Fills the buffer in one read, or answers an error: of the kind `UnexpectedEof` where the file ends before it is full, and then the
    /// position is the file's end; of the kind `Other` where the read is refused.
    fn read_exact(&mut self, buf: &mut [u8]) -> io::Result<()>
        ensures bytes { OnOk result (Consumes None None buf.new) }
        ensures same_reference { self.new.file.ghost_name ≡ self.old.file.ghost_name }
        ensures read { OnOk result (Stepped (cipher_of A.variant) H.hashing self.old.file.now self.new.file.now
            (Command.Read self.old.position (length buf.old)) (Bytes (take (length buf.old) buf.new))) }
        ensures moves { OnOk result (self.new.position ≡ self.old.position + length buf.old) }
        ensures kept { OnOk result (self.new.last ≡ self.old.last) }
        ensures refused { IfErr result (λ e. error_kind e ≡ IoKind.Other → (self.new.position ≡ self.old.position) × Refuses
            (cipher_of A.variant) H.hashing self.old.file.now self.new.file.now (Command.Read self.old.position (length buf.old)) self.new.last) }
        ensures short { IfErr result (λ e. error_kind e ≡ IoKind.UnexpectedEof → (self.new.last ≡ self.old.last) × FallsShort
            (cipher_of A.variant) H.hashing self.old.file.now self.new.file.now self.old.position self.new.position buf.new) }
        ensures kind { IfErr result (λ e. (error_kind e ≡ IoKind.Other) ⊎ (error_kind e ≡ IoKind.UnexpectedEof)) }
    {
        match RafCursor::read(self, buf) {
            Ok(count) if count == buf.len() => Ok(()),
            Ok(_) => Err(io::Error::new(IoKind::UnexpectedEof, "end of file")),
            Err(_) => Err(refused()),
        }
    }
}

impl<A: Algorithm, I: RafIo, R: RafRng, H: MerkleHasher> Write for RafCursor<'_, A, I, R, H> {
    /// As the cursor's own `write`. The error is of the kind `Other`.
    fn write(&mut self, buf: &[u8]) -> io::Result<usize>
        ensures bound { WritesAtMost result buf.now }
        ensures bytes { WriteAppends None None result buf.now }
        ensures same_reference { self.new.file.ghost_name ≡ self.old.file.ghost_name }
        ensures written { IfOk result (λ n. Stepped (cipher_of A.variant) H.hashing self.old.file.now self.new.file.now
            (Command.Write self.old.position buf.now) (Wrote n)) }
        ensures moves { MatchResult result (λ n. self.new.position ≡ self.old.position + n) (λ _. self.new.position ≡ self.old.position) }
        ensures kept { OnOk result (self.new.last ≡ self.old.last) }
        ensures refused { OnErr result (Refuses (cipher_of A.variant) H.hashing self.old.file.now self.new.file.now
            (Command.Write self.old.position buf.now) self.new.last) }
        ensures kind { IfErr result (λ e. error_kind e ≡ IoKind.Other) }
    {
        match RafCursor::write(self, buf) {
            Ok(count) => Ok(count),
            Err(_) => Err(refused()),
        }
    }

    /// The same, since a write is whole or refused.
    fn write_all(&mut self, buf: &[u8]) -> io::Result<()>
        ensures bytes { OnOk result (Appends None None buf.now) }
        ensures same_reference { self.new.file.ghost_name ≡ self.old.file.ghost_name }
        ensures written { OnOk result (Stepped (cipher_of A.variant) H.hashing self.old.file.now self.new.file.now
            (Command.Write self.old.position buf.now) (Wrote (length buf.now))) }
        ensures moves { OnOk result (self.new.position ≡ self.old.position + length buf.now) }
        ensures stays { OnErr result (self.new.position ≡ self.old.position) }
        ensures kept { OnOk result (self.new.last ≡ self.old.last) }
        ensures refused { OnErr result (Refuses (cipher_of A.variant) H.hashing self.old.file.now self.new.file.now
            (Command.Write self.old.position buf.now) self.new.last) }
        ensures kind { IfErr result (λ e. error_kind e ≡ IoKind.Other) }
    {
        match RafCursor::write(self, buf) {
            Ok(_) => Ok(()),
            Err(_) => Err(refused()),
        }
    }

    /// As the cursor's own `flush`. The error is of the kind `Other`.
    fn flush(&mut self) -> io::Result<()>
        ensures bytes { Keeps None None }
        ensures same_reference { self.new.file.ghost_name ≡ self.old.file.ghost_name }
        ensures synced { OnOk result (Stepped (cipher_of A.variant) H.hashing self.old.file.now self.new.file.now Command.Sync Done) }
        ensures stays { self.new.position ≡ self.old.position }
        ensures kept { OnOk result (self.new.last ≡ self.old.last) }
        ensures refused { OnErr result (Refuses (cipher_of A.variant) H.hashing self.old.file.now self.new.file.now Command.Sync
            self.new.last) }
        ensures kind { IfErr result (λ e. error_kind e ≡ IoKind.Other) }
    {
        match RafCursor::flush(self) {
            Ok(()) => Ok(()),
            Err(_) => Err(refused()),
        }
    }
}

impl<A: Algorithm, I: RafIo, R: RafRng, H: MerkleHasher> Seek for RafCursor<'_, A, I, R, H> {
    ghost stream_position = { λ c. Some c.position };

    /// As the cursor's own `seek`. The error is of the kind `InvalidInput`.
    fn seek(&mut self, pos: SeekFrom) -> io::Result<u64>
        ensures moves { SeekMoves (Some self.old.position) (Some self.new.position) None pos result }
        ensures bytes { Keeps None None }
        ensures same_reference { self.new.file.ghost_name ≡ self.old.file.ghost_name }
        ensures file { self.new.file.now ≡ self.old.file.now }
        ensures can { IsOk result ↔ FitsUnsigned w64 (seek_target self.old.position self.old.file.now.header.file_size pos) }
        ensures target { IfOk result (λ n. n ≡ unsigned_abs (seek_target self.old.position self.old.file.now.header.file_size pos)) }
        ensures kept { OnOk result (self.new.last ≡ self.old.last) }
        ensures last { OnErr result (self.new.last ≡ Some (ErrorKind.InvalidArgument Reason.SeekOverflow)) }
        ensures kind { IfErr result (λ e. error_kind e ≡ IoKind.InvalidInput) }
    {
        match RafCursor::seek(self, pos) {
            Ok(position) => Ok(position),
            Err(_) => Err(io::Error::new(IoKind::InvalidInput, "seek overflow")),
        }
    }

    /// Moves the position to the start, which is never refused.
    fn rewind(&mut self) -> io::Result<()>
        ensures moves { MovesTo (Some self.old.position) (Some self.new.position) 0 result }
        ensures bytes { Keeps None None }
        ensures same_reference { self.new.file.ghost_name ≡ self.old.file.ghost_name }
        ensures file { self.new.file.now ≡ self.old.file.now }
        ensures can { IsOk result }
        ensures kept { self.new.last ≡ self.old.last }
    {
        Seek::seek(self, SeekFrom::Start(0))?;
        Ok(())
    }

    /// The position, which is never refused.
    fn stream_position(&mut self) -> io::Result<u64>
        ensures value { IfSome (Some self.old.position) (λ at. IfOk result (λ n. n ≡ at)) }
        ensures stays { StaysAt (Some self.old.position) (Some self.new.position) }
        ensures bytes { Keeps None None }
        ensures same { self.new ≡ self.old }
        ensures can { IsOk result }
    {
        Ok(self.position)
    }

    /// As `seek` from where the position is.
    fn seek_relative(&mut self, offset: i64) -> io::Result<()>
        ensures moves { MovesBy (Some self.old.position) (Some self.new.position) offset result }
        ensures bytes { Keeps None None }
        ensures same_reference { self.new.file.ghost_name ≡ self.old.file.ghost_name }
        ensures file { self.new.file.now ≡ self.old.file.now }
        ensures can { IsOk result ↔ FitsUnsigned w64 (pos self.old.position +ℤ offset) }
        ensures kept { OnOk result (self.new.last ≡ self.old.last) }
        ensures last { OnErr result (self.new.last ≡ Some (ErrorKind.InvalidArgument Reason.SeekOverflow)) }
        ensures kind { IfErr result (λ e. error_kind e ≡ IoKind.InvalidInput) }
    {
        Seek::seek(self, SeekFrom::Current(offset))?;
        Ok(())
    }
}
