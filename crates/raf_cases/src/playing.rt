//! A run of a case: a file that is made or opened and asked, or a session.
use crate::bench::{Bench, Hashing};
use crate::logging::{end_log, log_commands_of, serve_log};
use crate::proving::{prove_all, prove_one};
use crate::report::Report;
use crate::steps::{Move, Step, commands_of};
use crate::words::Fault;
use raf::{
    Algorithm, Command, Error, ErrorKind, FakeHasher, MemIo, MerkleHasher, NoMerkle, OpenError,
    Parts, Raf, RafBuilder, RafCursor, RafIo, Reply, SessionEnd, Sha256Hasher, VecRng, session,
};
use raf_log::log_session;
use std::alloc::Global;

/// What is done with a storage.
#[derive(Clone, Copy, PartialEq, Eq)]
pub enum Mode {
    /// A file is made in it, and asked step by step.
    Create,
    /// The file in it is opened, and asked step by step.
    Open,
    /// The file in it is opened, and a cursor asked step by step.
    Cursor,
    /// The file in it is served in one session.
    Session,
    /// The file in it is opened as a log, and asked step by step.
    Log,
    /// The log in it is served in one session.
    LogSession,
}

/// A hasher that knows how many hashes it was asked.
pub trait Counted: MerkleHasher {
    /// How many.
    fn count(&self) -> u64;
}

impl Counted for NoMerkle {
    fn count(&self) -> u64 {
        0
    }
}

impl Counted for Sha256Hasher {
    fn count(&self) -> u64 {
        self.calls()
    }
}

impl Counted for FakeHasher {
    fn count(&self) -> u64 {
        self.calls()
    }
}

/// A file in memory.
pub type File<A, H> = Raf<A, MemIo, VecRng, H>;

// An answer of nothing, or a refusal.
fn done(answer: Result<(), Error>) -> Reply {
    match answer {
        Ok(()) => Reply::Done,
        Err(error) => Reply::Refused(error.kind()),
    }
}

/// So many bytes 0xee.
pub fn room(alloc: Global, len: usize) -> Result<Vec<u8>, Fault> {
    let mut buf = Vec::new(alloc);
    buf.resize(len, 0xee)?;
    Ok(buf)
}

// Tells that bytes behind what was filled were changed.
fn tell_rest(report: &mut Report, buf: &[u8], filled: usize) -> Result<(), Fault> {
    for (i, byte) in buf.iter().enumerate() {
        if filled <= i && *byte != 0xee {
            report.line("the rest was changed")?;
            return Ok(());
        }
    }
    Ok(())
}

// Tells a refusal, and whether that of a file that is broken changed the room.
fn tell_refused(report: &mut Report, error: &Error, buf: &[u8]) -> Result<(), Fault> {
    let kind = error.kind();
    if kind == ErrorKind::Broken {
        tell_rest(report, buf, 0)?;
    }
    report.kind("refused", kind)
}

// Reads into room that has the byte 0xee.
fn read<A: Algorithm, H: MerkleHasher>(
    alloc: Global,
    file: &mut File<A, H>,
    offset: u64,
    len: usize,
    report: &mut Report,
) -> Result<(), Fault> {
    let mut buf = room(alloc, len)?;
    let answer = file.read(&mut buf, offset);
    match answer {
        Ok(count) => {
            tell_rest(report, &buf, count)?;
            buf.truncate(count);
            report.bytes("bytes", &buf)
        }
        Err(error) => { tell_refused(report, &error, &buf) }
    }
}

// Commits into room for so many bytes.
fn commit<A: Algorithm, H: MerkleHasher>(
    alloc: Global,
    file: &mut File<A, H>,
    len: usize,
    report: &mut Report,
) -> Result<(), Fault> {
    let mut buf = room(alloc, len)?;
    let hash_len = file.hash_len().unwrap_or(0);
    let answer = file.merkle_commitment(&mut buf);
    match answer {
        Ok(()) => {
            tell_rest(report, &buf, hash_len)?;
            buf.truncate(hash_len);
            report.bytes("commitment", &buf)
        }
        Err(error) => { tell_refused(report, &error, &buf) }
    }
}

// The reply to a command that changes or compares.
fn reply_to<A: Algorithm, H: MerkleHasher>(file: &mut File<A, H>, command: &Command) -> Reply {
    match command {
        Command::Write { offset, bytes } => match file.write(bytes.as_slice(), *offset) {
            Ok(count) => Reply::Wrote(count),
            Err(error) => Reply::Refused(error.kind()),
        },
        Command::Truncate { size } => done(file.truncate(*size)),
        Command::Sync => done(file.sync()),
        Command::Rebuild => done(file.merkle_rebuild()),
        Command::Verify => match file.merkle_verify() {
            Ok(damaged) => Reply::Verified(damaged),
            Err(error) => Reply::Refused(error.kind()),
        },
        _ => Reply::Size(file.size()),
    }
}

// Puts bytes into a storage, behind the file's back.
fn poke(io: &mut MemIo, offset: u64, bytes: &[u8], report: &mut Report) -> Result<(), Fault> {
    if u64::MAX - offset < bytes.len() as u64 {
        return Err(Fault::Line);
    }
    match io.write_at(bytes, offset) {
        Ok(()) => report.line("poked"),
        Err(_) => Err(Fault::Line),
    }
}

/// Takes one step, and tells the answer.
pub fn take<A: Algorithm, H: MerkleHasher>(
    alloc: Global,
    file: &mut File<A, H>,
    step: &Step,
    report: &mut Report,
) -> Result<(), Fault> {
    match step {
        Step::Ask(Command::Read { offset, len }) => read::<A, H>(
            alloc, file, *offset, *len, report,
        ),
        Step::Ask(Command::Commitment) => commit::<A, H>(alloc, file, 64, report),
        Step::Ask(command) => report.reply(&reply_to::<A, H>(file, command)),
        Step::Commit(len) => commit::<A, H>(alloc, file, *len, report),
        Step::Poke(offset, bytes) => poke(file.storage_mut(), *offset, bytes.as_slice(), report),
        Step::Asked => report.asked(file.storage_mut()),
        Step::HashLen => match file.hash_len() {
            Some(len) => report.number("hash-len", len as u64),
            None => report.line("no hash"),
        },
        Step::Prove(index) => prove_one::<A, H>(alloc, file, *index, report),
        Step::ProveAll(chunk_size) => prove_all::<A, H>(alloc, file, *chunk_size, report),
        Step::Glide(_) | Step::Log(_) => Err(Fault::Line),
    }
}

/// Tells how storage, random bytes and hasher are left, and keeps the storage.
pub fn finish<H: Counted>(
    alloc: Global,
    bench: &mut Bench,
    parts: Parts<MemIo, VecRng, H>,
    report: &mut Report,
) -> Result<(), Fault> {
    let Parts {
        io,
        mut rng,
        hasher,
    } = parts;
    report.asked(&io)?;
    report.left(&mut rng)?;
    if let Some(hasher) = &hasher {
        report.number("hashes", hasher.count())?;
    }
    report.bytes("storage", io.bytes())?;
    bench.storage = io.into_bytes();
    Ok(())
}

// Takes the steps on a file, and closes it.
fn serve<A: Algorithm, H: Counted>(
    alloc: Global,
    bench: &mut Bench,
    mut file: File<A, H>,
    steps: &[Step],
    report: &mut Report,
) -> Result<(), Fault> {
    for step in steps {
        take::<A, H>(alloc, &mut file, step, report)?;
    }
    finish::<H>(alloc, bench, file.close(), report)
}

type Cursor<'a, A, H> = RafCursor<'a, A, MemIo, VecRng, H>;

// Reads at a cursor, into room that has the byte 0xee.
fn read_on<A: Algorithm, H: MerkleHasher>(
    alloc: Global,
    cursor: &mut Cursor<'_, A, H>,
    len: usize,
    report: &mut Report,
) -> Result<(), Fault> {
    let mut buf = room(alloc, len)?;
    let answer = cursor.read(&mut buf);
    match answer {
        Ok(count) => {
            tell_rest(report, &buf, count)?;
            buf.truncate(count);
            report.bytes("bytes", &buf)
        }
        Err(error) => { tell_refused(report, &error, &buf) }
    }
}

// Asks something of a cursor, and tells the answer.
fn glide<A: Algorithm, H: MerkleHasher>(
    alloc: Global,
    cursor: &mut Cursor<'_, A, H>,
    asked: &Move,
    report: &mut Report,
) -> Result<(), Fault> {
    match asked {
        Move::Seek(to) => match cursor.seek(*to) {
            Ok(at) => report.number("at", at),
            Err(error) => report.kind("refused", error.kind()),
        },
        Move::Read(len) => read_on::<A, H>(alloc, cursor, *len, report),
        Move::Write(bytes) => match cursor.write(bytes.as_slice()) {
            Ok(count) => report.number("wrote", count as u64),
            Err(error) => report.kind("refused", error.kind()),
        },
        Move::Flush => report.reply(&done(cursor.flush())),
        Move::LastError => match cursor.last_error() {
            Some(kind) => report.kind("last", kind),
            None => report.line("last none"),
        },
    }
}

// Asks these things of a cursor over a file.
fn glide_all<A: Algorithm, H: MerkleHasher>(
    alloc: Global,
    file: &mut File<A, H>,
    steps: &[Step],
    report: &mut Report,
) -> Result<(), Fault> {
    let mut cursor = file.cursor();
    for step in steps {
        match step {
            Step::Glide(asked) => glide::<A, H>(alloc, &mut cursor, asked, report)?,
            _ => return Err(Fault::Line),
        }
    }
    Ok(())
}

// Opens the file, asks these things of its cursor, and closes it.
fn serve_cursor<A: Algorithm, H: Counted>(
    alloc: Global,
    bench: &mut Bench,
    opened: Start<A, H>,
    steps: &[Step],
    report: &mut Report,
) -> Result<(), Fault> {
    match opened {
        Ok(mut file) => {
            glide_all::<A, H>(alloc, &mut file, steps, report)?;
            finish::<H>(alloc, bench, file.close(), report)
        }
        Err(refused) => start::<A, H>(alloc, bench, Err(refused), steps, report),
    }
}

/// The file, or what was handed in.
pub type Start<A, H> = Result<File<A, H>, OpenError<MemIo, VecRng, H>>;

fn start<A: Algorithm, H: Counted>(
    alloc: Global,
    bench: &mut Bench,
    started: Start<A, H>,
    steps: &[Step],
    report: &mut Report,
) -> Result<(), Fault> {
    match started {
        Ok(file) => serve::<A, H>(alloc, bench, file, steps, report),
        Err(refused) => {
            report.kind("error", refused.error.kind())?;
            let OpenError {
                error: _,
                io,
                rng,
                hasher,
            } = refused;
            finish::<H>(alloc, bench, Parts { io, rng, hasher }, report)
        }
    }
}

// A session of commands.
fn serve_session<A: Algorithm, H: Counted>(
    alloc: Global,
    bench: &mut Bench,
    end: SessionEnd<MemIo, VecRng, H>,
    report: &mut Report,
) -> Result<(), Fault> {
    report.outcome(&end.outcome)?;
    let SessionEnd {
        outcome: _,
        io,
        rng,
        hasher,
    } = end;
    finish::<H>(alloc, bench, Parts { io, rng, hasher }, report)
}

/// Makes or opens the file in the bench's storage, takes the steps, and tells what came of it.
fn play<A: Algorithm, H: Counted>(
    alloc: Global,
    bench: &mut Bench,
    builder: RafBuilder<A, VecRng, H>,
    key: &A::Key,
    mode: Mode,
    steps: Vec<Step>,
    report: &mut Report,
) -> Result<(), Fault> {
    let storage = bench.take_storage(alloc);
    let io = MemIo::new(alloc, storage, bench.take_fail(alloc));
    match mode {
        Mode::Create => {
            let made = builder.create::<MemIo>(alloc, io, key);
            start::<A, H>(alloc, bench, made, &steps, report)
        }
        Mode::Open => {
            let opened = builder.open::<MemIo>(alloc, io, key);
            start::<A, H>(alloc, bench, opened, &steps, report)
        }
        Mode::Cursor => {
            let opened = builder.open::<MemIo>(alloc, io, key);
            serve_cursor::<A, H>(alloc, bench, opened, &steps, report)
        }
        Mode::Session => {
            let commands = commands_of(alloc, steps)?;
            let end = session::<A, MemIo, VecRng, H>(alloc, builder, io, key, &commands);
            serve_session::<A, H>(alloc, bench, end, report)
        }
        Mode::Log => {
            let opened = builder.open::<MemIo>(alloc, io, key);
            serve_log::<A, H>(alloc, bench, opened, &steps, report)
        }
        Mode::LogSession => {
            let commands = log_commands_of(alloc, steps)?;
            let end = log_session::<A, MemIo, VecRng, H>(alloc, builder, io, key, &commands);
            end_log::<H>(alloc, bench, end, report)
        }
    }
}

/// A builder by the bench's settings, with no hasher.
pub fn builder_of<A: Algorithm>(
    alloc: Global,
    bench: &mut Bench,
) -> RafBuilder<A, VecRng, NoMerkle> {
    let rng = VecRng::new(bench.take_random(alloc));
    RafBuilder::<A, VecRng, NoMerkle>::new(rng)
        .chunk_size(bench.chunk_size)
        .version(bench.version)
        .truncate(bench.truncate)
}

/// The same by the bench's hasher.
pub fn play_hashed<A: Algorithm>(
    alloc: Global,
    bench: &mut Bench,
    key: &A::Key,
    mode: Mode,
    steps: Vec<Step>,
    report: &mut Report,
) -> Result<(), Fault> {
    let builder = builder_of::<A>(alloc, bench);
    match bench.hashing {
        Hashing::Without => play::<A, NoMerkle>(alloc, bench, builder, key, mode, steps, report),
        Hashing::Sha256 => {
            let builder = builder.merkle::<Sha256Hasher>(Sha256Hasher::new(), bench.most);
            play::<A, Sha256Hasher>(alloc, bench, builder, key, mode, steps, report)
        }
        Hashing::Fake(len) => {
            let hasher = FakeHasher::new(len, bench.take_fail_hash(alloc));
            let builder = builder.merkle::<FakeHasher>(hasher, bench.most);
            play::<A, FakeHasher>(alloc, bench, builder, key, mode, steps, report)
        }
    }
}
