//! A file is read piece by piece, and the entries are found in it.
ghost use Rattle.std.specs.Prelude.{◌≡◌, ◌+◌, ◌-◌, ◌^◌, ◌<◌, ◌≤◌, List, ℕ, length, take, drop, min, IfOk, IfErr, OnOk, vec_len};
ghost use Rattle.std.specs.Prelude.{true};
ghost use Rattle.raf_format.specs.Cipher.{cipher_of};
ghost use Rattle.raf_format.specs.File.{File};
ghost use Rattle.raf.specs.Handle.{Holds, limit_of};
ghost use Rattle.raf.specs.Content.{IsWhole, content};
ghost use Rattle.raf.specs.Image.{traffic_by};
ghost use Rattle.raf_log.specs.Kinds.{log_kind};
ghost use Rattle.raf_log.specs.Log.{Spaced};
ghost use Rattle.raf_log.specs.Opening.{ReadsAtMost, pieces_traffic};
ghost use Rattle.raf_log.specs.Sweep.{Passed, PieceRead, Shows, FoundAll, NotFound};
ghost use Rattle.raf_log.specs.Walk.{Walked, Stands};

use crate::error::LogError;
use crate::walk::{HEAD_BYTES, LINE_BYTES, Walk};
use raf::{Algorithm, Command, MerkleHasher, Raf, RafIo, RafRng, contents};
use std::alloc::{AllocError, Global};

// The most bytes of a file that are read at once: a multiple of the usual chunk sizes, so that each of their records is read once.
const PIECE_BYTES: usize = 1048576;

// Where the entries begin, and a buffer for one of them.
#[derive(Drop)]
pub struct Found {
    pub starts: Vec<u64>,
    pub line: Vec<u8>,
}

// Reads a piece of the file.
fn read_piece<A: Algorithm, I: RafIo, R: RafRng, H: MerkleHasher>(
    raf: &mut Raf<A, I, R, H>,
    buf: &mut [u8],
    at: u64,
) -> Result<(), LogError>
    requires { at + length buf.old ≤ raf.old.header.file_size }
    ensures read { OnOk result (PieceRead (cipher_of A.variant) raf.old raf.new at buf.new) }
    ensures refused { IfErr result (λ e. NotFound (cipher_of A.variant) raf.old raf.new (log_kind e)) }
    ensures asked { ReadsAtMost (cipher_of A.variant) raf.old raf.new
        (λ F. traffic_by (limit_of raf.old) F (Command.Read at (length buf.old))) }
{
    contents::<A>();
    match raf.read(buf, at) {
        Ok(_) => Ok(()),
        Err(error) => Err(LogError::Raf(error)),
    }
}

// Reads a piece of the file behind the bytes that are held of the piece before.
fn read_behind<A: Algorithm, I: RafIo, R: RafRng, H: MerkleHasher>(
    raf: &mut Raf<A, I, R, H>,
    window: &mut [u8],
    held: usize,
    end: u64,
) -> Result<(), LogError>
    requires held { held ≤ length window.old }
    requires within { end + (length window.old - held) ≤ raf.old.header.file_size }
    ensures front { take held window.new ≡ take held window.old }
    ensures read { OnOk result (PieceRead (cipher_of A.variant) raf.old raf.new end (drop held window.new)) }
    ensures refused { IfErr result (λ e. NotFound (cipher_of A.variant) raf.old raf.new (log_kind e)) }
    ensures asked { ReadsAtMost (cipher_of A.variant) raf.old raf.new
        (λ F. traffic_by (limit_of raf.old) F (Command.Read end (length window.old - held))) }
{
    read_piece::<A, I, R, H>(raf, &mut window[held..], end)
}

// Reads a piece of the file, and goes over the lengths that lie in it and in the bytes that are held in front of it.
fn sweep_piece<A: Algorithm, I: RafIo, R: RafRng, H: MerkleHasher>(
    raf: &mut Raf<A, I, R, H>,
    walk: &mut Walk,
    window: &mut [u8],
    held: usize,
    end: u64,
    size: u64,
) -> Result<(), LogError>
    requires held { (held ≤ length window.old) × (held ≤ end) }
    requires begins { walk.old.formed ≡ true → (end - held ≤ walk.old.next) × (walk.old.next ≤ size) }
    requires within { end + (length window.old - held) ≤ size }
    requires size { size ≡ raf.old.header.file_size }
    requires fits { size < 2 ^ 64 }
    ensures front { take held window.new ≡ take held window.old }
    ensures read { OnOk result (PieceRead (cipher_of A.variant) raf.old raf.new end (drop held window.new)) }
    ensures walked { (x : List ℕ) → Stands x window.new (end - held) size → Walked x walk.old.starts.items walk.old.next walk.old.formed
        → OnOk result (Walked x walk.new.starts.items walk.new.next walk.new.formed) }
    ensures spaced { Spaced 0 walk.old.starts.items walk.old.next → OnOk result (Spaced 0 walk.new.starts.items walk.new.next) }
    ensures near { OnOk result (walk.new.formed ≡ true
        → (end - held ≤ walk.new.next) × (end - held + length window.new < walk.new.next + 4) × (walk.new.next ≤ size)) }
    ensures refused { IfErr result (λ e. NotFound (cipher_of A.variant) raf.old raf.new (log_kind e)) }
    ensures asked { ReadsAtMost (cipher_of A.variant) raf.old raf.new
        (λ F. traffic_by (limit_of raf.old) F (Command.Read end (length window.old - held))) }
{
    read_behind::<A, I, R, H>(raf, window, held, end)?;
    match walk.over(window, end - held as u64, size) {
        Ok(()) => Ok(()),
        Err(_) => Err(LogError::OutOfMemory),
    }
}

// Moves so many bytes from a place on to the front.
fn move_to_front(window: &mut [u8], from: usize, len: usize)
    requires { from + len ≤ length window.old }
    ensures { take len window.new ≡ take len (drop from window.old) }
{
    window.copy_within(from..from + len, 0);
}

// Goes on by a piece, and keeps the front of a length that isn't there whole: how many bytes.
fn sweep_on<A: Algorithm, I: RafIo, R: RafRng, H: MerkleHasher>(
    raf: &mut Raf<A, I, R, H>,
    walk: &mut Walk,
    window: &mut [u8],
    held: usize,
    len: usize,
    end: u64,
    size: u64,
) -> Result<usize, LogError>
    requires room { (held + len ≤ length window.old) × (held ≤ end) }
    requires begins { walk.old.formed ≡ true → (end - held ≤ walk.old.next) × (walk.old.next ≤ size) }
    requires within { end + len ≤ size }
    requires size { size ≡ raf.old.header.file_size }
    requires fits { size < 2 ^ 64 }
    ensures passed { OnOk result (Passed (cipher_of A.variant) raf.old raf.new end len) }
    ensures walked { Shows (cipher_of A.variant) raf.old (end - held) (take held window.old)
        → (F : File) → Holds (cipher_of A.variant) raf.old F → IsWhole F
        → Walked (content F) walk.old.starts.items walk.old.next walk.old.formed
        → OnOk result (Walked (content F) walk.new.starts.items walk.new.next walk.new.formed) }
    ensures shows { Shows (cipher_of A.variant) raf.old (end - held) (take held window.old)
        → IfOk result (λ n. Shows (cipher_of A.variant) raf.old (end + len - n) (take n window.new)) }
    ensures spaced { Spaced 0 walk.old.starts.items walk.old.next → OnOk result (Spaced 0 walk.new.starts.items walk.new.next) }
    ensures near { OnOk result (walk.new.formed ≡ true → (end + len < walk.new.next + 4) × (walk.new.next ≤ size)) }
    ensures most { IfOk result (λ n. (n < 4) × (n ≤ held + len)) }
    ensures begins { IfOk result (λ n. walk.new.formed ≡ true → end + len - n ≤ walk.new.next) }
    ensures refused { IfErr result (λ e. NotFound (cipher_of A.variant) raf.old raf.new (log_kind e)) }
    ensures asked { ReadsAtMost (cipher_of A.variant) raf.old raf.new (λ F. traffic_by (limit_of raf.old) F (Command.Read end len)) }
{
    contents::<A>();
    sweep_piece::<A, I, R, H>(raf, walk, &mut window[..held + len], held, end, size)?;
    let next = walk.cut(end - held as u64, end + len as u64);
    move_to_front(window, held + len - next, next);
    Ok(next)
}

// A buffer of so many bytes.
fn buffer_of(alloc: Global, len: usize) -> Result<Vec<u8>, AllocError>
    ensures { IfOk result (λ buffer. vec_len buffer ≡ len) }
{
    let mut buffer = Vec::new(alloc);
    buffer.resize(len, 0)?;
    Ok(buffer)
}

// A buffer for an entry's spelling, and one for a piece of a file of this size and the front of a length before it.
fn buffers_of(alloc: Global, size: u64) -> Result<(Vec<u8>, Vec<u8>), AllocError>
    ensures line { IfOk result (λ p. vec_len p.0 ≡ 65540) }
    ensures window { IfOk result (λ p. vec_len p.1 ≡ min size 1048576 + 4) }
{
    let line = buffer_of(alloc, LINE_BYTES)?;
    let window = buffer_of(alloc, size.min(PIECE_BYTES as u64) as usize + HEAD_BYTES)?;
    Ok((line, window))
}

// Where the entries of a file begin.
pub fn find_entries<A: Algorithm, I: RafIo, R: RafRng, H: MerkleHasher>(
    alloc: Global,
    raf: &mut Raf<A, I, R, H>,
) -> Result<Found, LogError>
    ensures found { IfOk result (λ f. FoundAll (cipher_of A.variant) raf.old raf.new f.starts.items) }
    ensures spaced { IfOk result (λ f. Spaced 0 f.starts.items raf.new.header.file_size) }
    ensures line { IfOk result (λ f. vec_len f.line ≡ 65540) }
    ensures refused { IfErr result (λ e. NotFound (cipher_of A.variant) raf.old raf.new (log_kind e)) }
    ensures asked { ReadsAtMost (cipher_of A.variant) raf.old raf.new (pieces_traffic (limit_of raf.old)) }
{
    contents::<A>();
    read_piece::<A, I, R, H>(raf, &mut [], 0)?;
    let size = raf.size();
    let (line, mut window) = match buffers_of(alloc, size) {
        Ok(buffers) => buffers,
        Err(_) => return Err(LogError::OutOfMemory),
    };
    let mut walk = Walk::new(alloc);
    let mut held = 0usize;
    let mut end = 0;
    while end < size {
        let len = (size - end).min(PIECE_BYTES as u64) as usize;
        held = sweep_on::<A, I, R, H>(raf, &mut walk, &mut window, held, len, end, size)?;
        end += len as u64;
    }
    if !walk.formed || walk.next != size {
        return Err(LogError::Format);
    }
    Ok(Found {
        starts: walk.starts,
        line,
    })
}
