//! An open log, and its calls.
ghost use Rattle.std.specs.Prelude.{◌≡◌, ◌+◌, ◌<◌, ◌≤◌, ℕ, length, take, drop, Some, IfOk, IfErr, OnOk, OnErr, IsErrAnd};
ghost use Rattle.std.specs.Prelude.{true, false, unwrap_or, slice_get};
ghost use Rattle.raf_format.specs.Cipher.{cipher_of};
ghost use Rattle.raf_format.specs.File.{File};
ghost use Rattle.raf.specs.Handle.{Holds, hash_len_of};
ghost use Rattle.raf.specs.Read.{OldOrOpened};
ghost use Rattle.raf_log.specs.Entries.{spelled};
ghost use Rattle.raf_log.specs.Kinds.{log_kind};
ghost use Rattle.raf_log.specs.Call.{LogStepped, append_reply, get_reply, commit_reply};
ghost use Rattle.raf_log.specs.Opening.{LogOpened, LogNotOpened};

use crate::command::LogCommand;
use crate::error::{LogError, LogErrorKind};
use crate::opening::{Found, find_entries};
use crate::walk::{ENTRY_BYTES, HEAD_BYTES, LINE_BYTES};
use raf::{Algorithm, ErrorKind, MerkleHasher, Raf, RafIo, RafRng, Reason, contents};
use std::alloc::Global;
use std::marker::Model;

/// A log that is open: entries, one after the other, in an encrypted file. In memory it keeps where each entry begins, 8 bytes an entry, and
/// room for one entry's spelling.
pub struct Log<A: Algorithm, I: RafIo, R: RafRng, H: MerkleHasher> {
    raf: Raf<A, I, R, H>,
    starts: Vec<u64>,
    spare: usize,
    line: Vec<u8>,
}

impl<A: Algorithm, I: RafIo, R: RafRng, H: MerkleHasher> Model for Log<A, I, R, H> {
    ghost use Rattle.std.specs.Prelude.{◌≡◌, ◌+◌, ◌≤◌, vec_len, vec_capacity};
    ghost use Rattle.raf_log.specs.Log.{LogHandle, Spaced};

    ghost Value = { LogHandle };

    ghost view = { λ l. record { file = l.raf; starts = l.starts.items; spare = l.spare } };

    ghost invariant = { λ l. (vec_len l.line ≡ 65540) × (vec_len l.starts + l.spare ≤ vec_capacity l.starts)
        × Spaced 0 l.starts.items l.raf.header.file_size };
}

impl<A: Algorithm, I: RafIo, R: RafRng, H: MerkleHasher> Drop for Log<A, I, R, H> {
    fn drop(self) {
        let Log {
            raf: _,
            starts: _,
            spare: _,
            line: _,
        } = self;
    }
}

/// Why a file wasn't opened as a log, and the file.
#[derive(Drop)]
pub struct LogOpenError<A: Algorithm, I: RafIo, R: RafRng, H: MerkleHasher> {
    /// Why.
    pub error: LogError,
    /// The file.
    pub raf: Raf<A, I, R, H>,
}

impl<A: Algorithm, I: RafIo, R: RafRng, H: MerkleHasher> Model for LogOpenError<A, I, R, H> {
    ghost use Rattle.raf_log.specs.Kinds.{log_kind};
    ghost use Rattle.raf_log.specs.Opening.{LogRefusal};

    ghost Value = { LogRefusal };

    ghost view = { λ e. record { kind = log_kind e.error; file = e.raf } };
}

// Puts an entry's spelling at the front of a line.
fn spell_into(line: &mut [u8], entry: &[u8])
    requires short { length entry.now ≤ 65536 }
    requires room { length line.old ≡ 65540 }
    ensures { take (4 + length entry.now) line.new ≡ spelled entry.now }
{
    let (head, rest) = line.split_at_mut(HEAD_BYTES);
    head.copy_from_slice(&(entry.len() as u32).to_le_bytes());
    rest[..entry.len()].copy_from_slice(entry);
}

// Where an entry begins.
fn start_of(starts: &[u64], index: usize) -> Option<u64>
    ensures { result ≡ slice_get starts.now index }
{
    starts.get(index).copied()
}

// Where an entry ends: where the next one begins, or the file ends.
fn end_of(starts: &[u64], index: usize, size: u64) -> u64
    requires { index < length starts.now }
    ensures { result ≡ unwrap_or (slice_get starts.now (index + 1)) size }
{
    match starts.get(index + 1) {
        Some(next) => *next,
        None => size,
    }
}

impl<A: Algorithm, I: RafIo, R: RafRng, H: MerkleHasher> Log<A, I, R, H> {
    /// Opens an encrypted file as a log. The file is read once, in pieces of at most 2^20 bytes, and nothing is written; each record is read
    /// once where the chunk size divides 2^20, and else at most twice. No entry can be appended before [`Log::reserve`].
    ///
    /// The file comes back with a refusal. The refusals, in their order: `Raf(Broken)` where the file's kept mark is set; `Raf(Io)`;
    /// `Raf(AuthenticationFailed)` where a chunk doesn't open; `Format` where the bytes aren't those of a log. `OutOfMemory` may stand
    /// anywhere behind the first.
    pub fn open(
        alloc: Global,
        raf: Raf<A, I, R, H>,
    ) -> Result<Log<A, I, R, H>, LogOpenError<A, I, R, H>>
        ensures opened { IfOk result (λ log. LogOpened (cipher_of A.variant) raf log) }
        ensures refused { IfErr result (λ e. LogNotOpened (cipher_of A.variant) raf e.file e.kind) }
    {
        let mut raf = raf;
        match find_entries::<A, I, R, H>(alloc, &mut raf) {
            Ok(Found { starts, line }) => Ok(Log {
                raf,
                starts,
                spare: 0,
                line,
            }),
            Err(error) => Err(LogOpenError { error, raf }),
        }
    }

    /// Makes room for this many entries that are appended later. Refused by `OutOfMemory` alone, and then nothing changes.
    pub fn reserve(&mut self, n: usize) -> Result<(), LogError>
        ensures file { (self.new.file ≡ self.old.file) × (self.new.starts ≡ self.old.starts) }
        ensures room { OnOk result (n ≤ self.new.spare) }
        ensures more { self.old.spare ≤ self.new.spare }
        ensures none { IfErr result (λ e. (log_kind e ≡ LogErrorKind.OutOfMemory) × (self.new ≡ self.old)) }
    {
        if n > self.spare {
            match self.starts.reserve(n) {
                Ok(()) => self.spare = n,
                Err(_) => return Err(LogError::OutOfMemory),
            }
        }
        Ok(())
    }

    /// How many entries can be appended.
    pub fn spare(&self) -> usize
        ensures { result ≡ self.now.spare }
    {
        self.spare
    }

    /// How many entries there are.
    pub fn count(&self) -> u64
        ensures { result ≡ length self.now.starts }
    {
        self.starts.len() as u64
    }

    /// The file comes back.
    pub fn close(self) -> Raf<A, I, R, H>
        ensures { result ≡ self.file }
    {
        let Log {
            raf,
            starts: _,
            spare: _,
            line: _,
        } = self;
        raf
    }

    /// Puts an entry at the end, by one write, and gives its index. It takes no memory: `spare` has to be at least 1. Refused by `TooLong`
    /// where the entry has more than 65536 bytes, and as the write is.
    pub fn append(&mut self, entry: &[u8]) -> Result<u64, LogError>
        requires { 1 ≤ self.old.spare }
        ensures { LogStepped (cipher_of A.variant) H.hashing self.old self.new (LogCommand.Append entry.now) (append_reply result) }
    {
        if entry.len() > ENTRY_BYTES {
            return Err(LogError::TooLong);
        }
        contents::<A>();
        let size = self.raf.size();
        spell_into(&mut self.line, entry);
        match self.raf.write(&self.line[..HEAD_BYTES + entry.len()], size) {
            Ok(_) => {}
            Err(error) => return Err(LogError::Raf(error)),
        }
        let index = self.starts.len() as u64;
        self.starts.push(size).unwrap();
        self.spare -= 1;
        Ok(index)
    }

    /// The entry of an index, by one read of its bytes, in front of a buffer of at least 65536 bytes: how many they are. None exactly where
    /// the index is at least the count. What stands behind the entry stays, and all of the buffer where there is none. After a refusal each
    /// place of the buffer has its old byte, or one of a chunk that opened. Refused as the read is.
    pub fn get(&mut self, index: u64, out: &mut [u8]) -> Result<Option<usize>, LogError>
        requires { 65536 ≤ length out.old }
        ensures stepped { LogStepped (cipher_of A.variant) H.hashing self.old self.new (LogCommand.Get index) (get_reply out.new result) }
        ensures rest { IfOk result (λ found. drop (unwrap_or found 0) out.new ≡ drop (unwrap_or found 0) out.old) }
        ensures refused { (F : File) (o : ℕ) → Holds (cipher_of A.variant) self.old.file F → slice_get self.old.starts index ≡ Some o
            → OnErr result (OldOrOpened F (o + 4) out.old out.new) }
    {
        contents::<A>();
        let index = index as usize;
        let size = self.raf.size();
        let start = match start_of(&self.starts, index) {
            Some(start) => start,
            None => return Ok(None),
        };
        let begin = start + HEAD_BYTES as u64;
        let len = (end_of(&self.starts, index, size) - begin) as usize;
        let n = match self.raf.read(&mut out[..len], begin) {
            Ok(n) => n,
            Err(error) => return Err(LogError::Raf(error)),
        };
        Ok(Some(n))
    }

    /// The commitment of the file's tree, of `hash_len` bytes, in front of the buffer; what stands behind it stays. Refused as
    /// [`Raf::merkle_commitment`] is.
    pub fn commitment(&mut self, out: &mut [u8]) -> Result<(), LogError>
        ensures stepped { hash_len_of H.hashing self.old.file.outside.setting ≤ length out.old →
            LogStepped (cipher_of A.variant) H.hashing self.old self.new LogCommand.Commitment
            (commit_reply (take (hash_len_of H.hashing self.old.file.outside.setting) out.new) result) }
        ensures broken { self.old.file.broken ≡ true
            → IsErrAnd result (λ e. log_kind e ≡ LogErrorKind.Raf ErrorKind.Broken) × (self.new ≡ self.old) }
        ensures short { self.old.file.broken ≡ false → length out.old < hash_len_of H.hashing self.old.file.outside.setting →
            IsErrAnd result (λ e. log_kind e ≡ LogErrorKind.Raf (ErrorKind.InvalidArgument Reason.CommitmentBuffer))
            × (self.new ≡ self.old) }
        ensures rest { drop (hash_len_of H.hashing self.old.file.outside.setting) out.new
            ≡ drop (hash_len_of H.hashing self.old.file.outside.setting) out.old }
    {
        contents::<A>();
        match self.raf.merkle_commitment(out) {
            Ok(()) => {}
            Err(error) => return Err(LogError::Raf(error)),
        }
        Ok(())
    }
}
