//! Commands on an open file, answered in order up to the first fault.
ghost use Rattle.std.specs.Prelude.{◌≡◌, ◌+◌, ◌≤◌, List, ℕ, [], length, take, replicate, map, Option, Some, vec_capacity, IfOk, IsOkAnd};
ghost use Rattle.std.specs.Prelude.{IsTrue, ◌↔◌, ◌<◌, ◌^◌};
ghost use Rattle.raf_format.specs.Cipher.{cipher_of};
ghost use Rattle.raf.specs.Stepped.{Stepped, done_reply, write_reply, verify_reply};
ghost use Rattle.raf.specs.Handle.{Handle, hash_len_of};
ghost use Rattle.raf.specs.Session.{room_of, room_total, Meets};
ghost use Rattle.raf.specs.Outside.{over_storage};
ghost use Rattle.raf.specs.Ran.{room_for, Ended, Serves};

use crate::builder::{OpenError, RafBuilder};
use crate::command::{Command, Replies, Reply};
use crate::data::Data;
use crate::file::Raf;
use crate::outside::Parts;
use raf_format::Algorithm;
use raf_io::{Error, RafIo, RafRng};
use raf_tree::MerkleHasher;
use std::alloc::{AllocError, Global};
use std::collections::VecDeque;
use std::marker::Model;

// The bytes from an offset on, as many as the room has, that lie below the size.
fn read_into<A: Algorithm, I: RafIo, R: RafRng, H: MerkleHasher>(
    file: &mut Raf<A, I, R, H>,
    offset: u64,
    room: Data,
) -> Reply
    ensures { Stepped (cipher_of A.variant) H.hashing file.old file.new (Command.Read offset (length room)) result }
{
    let mut bytes = room.into_vec();
    match file.read(&mut bytes, offset) {
        Ok(n) => {
            bytes.truncate(n);
            Reply::Bytes(Data::from_vec(bytes))
        }
        Err(e) => Reply::Refused(e.kind()),
    }
}

// The commitment, in a room of its length.
fn commitment_into<A: Algorithm, I: RafIo, R: RafRng, H: MerkleHasher>(
    file: &mut Raf<A, I, R, H>,
    room: Data,
) -> Reply
    requires { length room ≡ hash_len_of H.hashing file.old.outside.setting }
    ensures { Stepped (cipher_of A.variant) H.hashing file.old file.new Command.Commitment result }
{
    let mut bytes = room.into_vec();
    match file.merkle_commitment(&mut bytes) {
        Ok(()) => Reply::Commitment(Data::from_vec(bytes)),
        Err(e) => Reply::Refused(e.kind()),
    }
}

// A call's answer as a reply.
fn done(answer: Result<(), Error>) -> Reply
    ensures { result ≡ done_reply answer }
{
    match answer {
        Ok(()) => Reply::Done,
        Err(e) => Reply::Refused(e.kind()),
    }
}

fn wrote(answer: Result<usize, Error>) -> Reply
    ensures { result ≡ write_reply answer }
{
    match answer {
        Ok(n) => Reply::Wrote(n),
        Err(e) => Reply::Refused(e.kind()),
    }
}

fn verified(answer: Result<Option<u64>, Error>) -> Reply
    ensures { result ≡ verify_reply answer }
{
    match answer {
        Ok(found) => Reply::Verified(found),
        Err(e) => Reply::Refused(e.kind()),
    }
}

// How long the file is: also where the kept mark is set.
fn sized<A: Algorithm, I: RafIo, R: RafRng, H: MerkleHasher>(file: &mut Raf<A, I, R, H>) -> Reply
    ensures { Stepped (cipher_of A.variant) H.hashing file.old file.new Command.Size result }
{
    Reply::Size(file.size())
}

/// One command, with room for what it reads.
pub fn step<A: Algorithm, I: RafIo, R: RafRng, H: MerkleHasher>(
    file: &mut Raf<A, I, R, H>,
    command: &Command,
    room: Data,
) -> Reply
    requires { length room ≡ room_of (hash_len_of H.hashing file.old.outside.setting) command.now }
    ensures { Stepped (cipher_of A.variant) H.hashing file.old file.new command.now result }
{
    match command {
        Command::Size => sized::<A, I, R, H>(file),
        Command::Read { offset, len: _ } => read_into::<A, I, R, H>(file, *offset, room),
        Command::Commitment => commitment_into::<A, I, R, H>(file, room),
        Command::Write { offset, bytes } => wrote(file.write(bytes.as_slice(), *offset)),
        Command::Truncate { size } => done(file.truncate(*size)),
        Command::Sync => done(file.sync()),
        Command::Rebuild => done(file.merkle_rebuild()),
        Command::Verify => verified(file.merkle_verify()),
    }
}

/// Answers commands up to the first fault.
pub fn answer_all<A: Algorithm, I: RafIo, R: RafRng, H: MerkleHasher>(
    file: &mut Raf<A, I, R, H>,
    commands: &[Command],
    mut rooms: VecDeque<Data>,
    mut replies: Vec<Reply>,
) -> Vec<Reply>
    requires rooms { rooms.items ≡ map (room_for (hash_len_of H.hashing file.old.outside.setting)) commands.now }
    requires none { replies.items ≡ [] }
    requires capacity { length commands.now ≤ vec_capacity replies }
    ensures { Ended (cipher_of A.variant) H.hashing file.old file.new commands.now result.items }
{
    for command in commands {
        let room = rooms.pop_front().unwrap();
        let reply = step::<A, I, R, H>(file, command, room);
        let fault = reply.is_fault();
        replies.push(reply).unwrap();
        if fault {
            return replies;
        }
    }
    replies
}

/// How a session ended: the replies or why there are none, and what was handed in.
#[derive(Drop)]
pub struct SessionEnd<I: RafIo, R: RafRng, H: MerkleHasher> {
    /// The replies in order, or why nothing was answered.
    pub outcome: Result<Replies, Error>,
    /// The storage.
    pub io: I,
    /// The random source.
    pub rng: R,
    /// The hasher, where there was one.
    pub hasher: Option<H>,
}

impl<I: RafIo, R: RafRng, H: MerkleHasher> Model for SessionEnd<I, R, H> {
    ghost use Rattle.std.specs.Option.{option_map};
    ghost use Rattle.raf.specs.Outside.{counted};
    ghost use Rattle.raf.specs.Ran.{End};

    ghost Value = { End };

    ghost view = { λ e. record {
      outcome = e.outcome;
      outside = record {
        bytes = I.bytes e.io;
        durable = I.durable e.io;
        io_faults = I.faults e.io;
        reach = I.reach e.io;
        traffic = I.traffic e.io;
        changes = I.changes e.io;
        strays = I.strays e.io;
        left = R.left e.rng;
        rng_faults = R.faults e.rng;
        asked = R.asked e.rng;
        exact = R.exact;
        setting = option_map H.setting e.hasher;
        hash_faults = counted H.faults e.hasher;
        calls = counted H.calls e.hasher;
      };
    } };
}

impl<I: RafIo, R: RafRng, H: MerkleHasher> SessionEnd<I, R, H> {
    // An outcome, with what was handed in.
    fn of(outcome: Result<Replies, Error>, parts: Parts<I, R, H>) -> SessionEnd<I, R, H>
        ensures { result ≡ record { outcome = outcome; outside = parts } }
    {
        let Parts { io, rng, hasher } = parts;
        SessionEnd {
            outcome,
            io,
            rng,
            hasher,
        }
    }
}

// How many bytes the reply to a command has at most, with hashes of this length.
fn reply_len(command: &Command, hash_len: usize) -> usize
    ensures { result ≡ room_of hash_len command.now }
{
    match command {
        Command::Read { offset: _, len } => *len,
        Command::Commitment => hash_len,
        _ => 0,
    }
}

// The lengths of all replies fit.
fn replies_fit(commands: &[Command], hash_len: usize) -> bool
    ensures { IsTrue result ↔ (room_total hash_len commands.now < 2 ^ 64) }
{
    let mut total = 0usize;
    for command in commands {
        match total.checked_add(reply_len(command, hash_len)) {
            Some(more) => total = more,
            None => return false,
        }
    }
    true
}

// Room for the reply to a command.
fn room_of(alloc: Global, command: &Command, hash_len: usize) -> Result<Data, AllocError>
    ensures { IfOk result (λ room. room ≡ room_for hash_len command.now) }
{
    let mut room = Vec::new(alloc);
    room.resize(reply_len(command, hash_len), 0)?;
    Ok(Data::from_vec(room))
}

// Room for the reply to each command.
fn rooms_of(
    alloc: Global,
    commands: &[Command],
    hash_len: usize,
) -> Result<VecDeque<Data>, AllocError>
    ensures { IfOk result (λ rooms. rooms.items ≡ map (room_for hash_len) commands.now) }
{
    let mut rooms = VecDeque::new(alloc);
    for command in commands {
        rooms.push_back(room_of(alloc, command, hash_len)?)?;
    }
    Ok(rooms)
}

// All the memory of the replies.
fn rooms_and_replies(
    alloc: Global,
    commands: &[Command],
    hash_len: usize,
) -> Result<(VecDeque<Data>, Vec<Reply>), AllocError>
    ensures rooms { IfOk result (λ p. p.0.items ≡ map (room_for hash_len) commands.now) }
    ensures none { IfOk result (λ p. p.1.items ≡ []) }
    ensures capacity { IfOk result (λ p. length commands.now ≤ vec_capacity p.1) }
{
    let rooms = rooms_of(alloc, commands, hash_len)?;
    let replies = Vec::with_capacity(alloc, commands.len())?;
    Ok((rooms, replies))
}

// Runs commands on a file that was opened, and hands it back.
fn run_on<A: Algorithm, I: RafIo, R: RafRng, H: MerkleHasher>(
    mut file: Raf<A, I, R, H>,
    commands: &[Command],
    rooms: VecDeque<Data>,
    replies: Vec<Reply>,
) -> SessionEnd<I, R, H>
    requires rooms { rooms.items ≡ map (room_for (hash_len_of H.hashing file.outside.setting)) commands.now }
    requires none { replies.items ≡ [] }
    requires capacity { length commands.now ≤ vec_capacity replies }
    ensures { IsOkAnd result.outcome (λ answers. (now : Handle) × Ended (cipher_of A.variant) H.hashing file now commands.now answers
        × (result.outside ≡ now.outside)) }
{
    let replies = answer_all::<A, I, R, H>(&mut file, commands, rooms, replies);
    SessionEnd::<I, R, H>::of(Ok(Replies::from_vec(replies)), file.close())
}

// Commands on a file that was opened, with room for the replies if there is any.
fn serve<A: Algorithm, I: RafIo, R: RafRng, H: MerkleHasher>(
    alloc: Global,
    file: Raf<A, I, R, H>,
    commands: &[Command],
    hash_len: usize,
) -> SessionEnd<I, R, H>
    requires { hash_len ≡ hash_len_of H.hashing file.outside.setting }
    ensures { Serves (cipher_of A.variant) H.hashing file commands.now result.outside result.outcome }
{
    match rooms_and_replies(alloc, commands, hash_len) {
        Ok((rooms, replies)) => run_on::<A, I, R, H>(file, commands, rooms, replies),
        Err(_) => SessionEnd::<I, R, H>::of(Err(Error::OutOfMemory), file.close()),
    }
}

/// Opens the encrypted file in `io` under `key`, and answers the commands in order. A refused command is a reply, and the next one runs;
/// a fault of the storage, the random source or the hasher ends the run as the last reply. All memory is taken before the first command:
/// the room for what is read has the full lengths asked, so ask `Size` before reading a whole file. Storage, random source and hasher
/// come back in every case.
///
/// The outcome is an error where nothing was answered and nothing changed: `Overflow` where the lengths of all reads, and with a hasher
/// a hash for each commitment, add up to more than a `usize` has; else the refusals of [`RafBuilder::open`]; `OutOfMemory` where no
/// memory was found.
pub fn session<A: Algorithm, I: RafIo, R: RafRng, H: MerkleHasher>(
    alloc: Global,
    builder: RafBuilder<A, R, H>,
    io: I,
    key: &A::Key,
    commands: &[Command],
) -> SessionEnd<I, R, H>
    ensures meets { Meets (cipher_of A.variant) H.hashing (A.key_list key.now) builder commands.now
        (over_storage (I.bytes io) (I.durable io) (I.faults io) (I.reach io) (I.traffic io) (I.changes io) (I.strays io) builder.outside)
        result.outside result.outcome }
{
    let hash_len = builder.hash_len_or_zero();
    if !replies_fit(commands, hash_len) {
        return SessionEnd::<I, R, H>::of(Err(Error::Overflow), builder.into_parts::<I>(io));
    }
    match builder.open::<I>(alloc, io, key) {
        Ok(file) => serve::<A, I, R, H>(alloc, file, commands, hash_len),
        Err(refused) => {
            let OpenError {
                error,
                io,
                rng,
                hasher,
            } = refused;
            SessionEnd {
                outcome: Err(error),
                io,
                rng,
                hasher,
            }
        }
    }
}
