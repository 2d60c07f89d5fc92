//! Commands on a log, answered in order up to the first fault.
ghost use Rattle.std.specs.Prelude.{◌≡◌, ◌+◌, ◌≤◌, List, ℕ, [], length, take, replicate, map, Option, Some, vec_capacity, IfOk, IsOkAnd};
ghost use Rattle.std.specs.Prelude.{IsTrue, ◌↔◌, ◌<◌, ◌^◌, unwrap_or};
ghost use Rattle.raf_format.specs.Cipher.{cipher_of};
ghost use Rattle.raf.specs.Handle.{hash_len_of};
ghost use Rattle.raf.specs.Outside.{over_storage};
ghost use Rattle.raf_log.specs.Call.{LogStepped, append_reply};
ghost use Rattle.raf_log.specs.Log.{LogHandle};
ghost use Rattle.raf_log.specs.Session.{log_room, log_room_for, log_rooms, LogMeets};
ghost use Rattle.raf_log.specs.Kinds.{opening_refusal};
ghost use Rattle.raf_log.specs.Ran.{LogEnded, LogServes, ServesFile};

use crate::command::{LogCommand, LogReplies, LogReply};
use crate::error::LogError;
use crate::log::{Log, LogOpenError};
use crate::walk::ENTRY_BYTES;
use raf::{Algorithm, Data, Error, MerkleHasher, OpenError, Parts, Raf, RafBuilder, RafIo, RafRng};
use std::alloc::{AllocError, Global};
use std::collections::VecDeque;
use std::marker::Model;

// The entry of an index, in a room for any.
fn get_into<A: Algorithm, I: RafIo, R: RafRng, H: MerkleHasher>(
    log: &mut Log<A, I, R, H>,
    index: u64,
    room: Data,
) -> LogReply
    requires { length room ≡ 65536 }
    ensures { LogStepped (cipher_of A.variant) H.hashing log.old log.new (LogCommand.Get index) result }
{
    let mut bytes = room.into_vec();
    match log.get(index, &mut bytes) {
        Ok(Some(n)) => {
            bytes.truncate(n);
            LogReply::Entry(Data::from_vec(bytes))
        }
        Ok(None) => LogReply::Absent,
        Err(e) => LogReply::Refused(e.kind()),
    }
}

// The commitment, in a room of its length.
fn commitment_into<A: Algorithm, I: RafIo, R: RafRng, H: MerkleHasher>(
    log: &mut Log<A, I, R, H>,
    room: Data,
) -> LogReply
    requires { length room ≡ hash_len_of H.hashing log.old.file.outside.setting }
    ensures { LogStepped (cipher_of A.variant) H.hashing log.old log.new LogCommand.Commitment result }
{
    let mut bytes = room.into_vec();
    match log.commitment(&mut bytes) {
        Ok(()) => LogReply::Commitment(Data::from_vec(bytes)),
        Err(e) => LogReply::Refused(e.kind()),
    }
}

// A call's answer as a reply.
fn appended(answer: Result<u64, LogError>) -> LogReply
    ensures { result ≡ append_reply answer }
{
    match answer {
        Ok(index) => LogReply::Appended(index),
        Err(e) => LogReply::Refused(e.kind()),
    }
}

// How many entries there are.
fn counted<A: Algorithm, I: RafIo, R: RafRng, H: MerkleHasher>(
    log: &mut Log<A, I, R, H>,
) -> LogReply
    ensures { LogStepped (cipher_of A.variant) H.hashing log.old log.new LogCommand.Count result }
{
    LogReply::Count(log.count())
}

/// One command, with room for what it reads.
pub fn step<A: Algorithm, I: RafIo, R: RafRng, H: MerkleHasher>(
    log: &mut Log<A, I, R, H>,
    command: &LogCommand,
    room: Data,
) -> LogReply
    requires spare { 1 ≤ log.old.spare }
    requires room { length room ≡ log_room (hash_len_of H.hashing log.old.file.outside.setting) command.now }
    ensures { LogStepped (cipher_of A.variant) H.hashing log.old log.new command.now result }
{
    match command {
        LogCommand::Append(entry) => appended(log.append(entry.as_slice())),
        LogCommand::Get(index) => get_into::<A, I, R, H>(log, *index, room),
        LogCommand::Count => counted::<A, I, R, H>(log),
        LogCommand::Commitment => commitment_into::<A, I, R, H>(log, room),
    }
}

/// Answers commands up to the first fault.
pub fn answer_all<A: Algorithm, I: RafIo, R: RafRng, H: MerkleHasher>(
    log: &mut Log<A, I, R, H>,
    commands: &[LogCommand],
    mut rooms: VecDeque<Data>,
    mut replies: Vec<LogReply>,
) -> Vec<LogReply>
    requires spare { length commands.now ≤ log.old.spare }
    requires rooms { rooms.items ≡ map (log_room_for (hash_len_of H.hashing log.old.file.outside.setting)) commands.now }
    requires none { replies.items ≡ [] }
    requires capacity { length commands.now ≤ vec_capacity replies }
    ensures { LogEnded (cipher_of A.variant) H.hashing log.old log.new commands.now result.items }
{
    for command in commands {
        let room = rooms.pop_front().unwrap();
        let reply = step::<A, I, R, H>(log, command, room);
        let fault = reply.is_fault();
        replies.push(reply).unwrap();
        if fault {
            return replies;
        }
    }
    replies
}

/// How a log's session ended: the replies or why there are none, and what was handed in.
#[derive(Drop)]
pub struct LogSessionEnd<I: RafIo, R: RafRng, H: MerkleHasher> {
    /// The replies in order, or why nothing was answered.
    pub outcome: Result<LogReplies, LogError>,
    /// The storage.
    pub io: I,
    /// The random source.
    pub rng: R,
    /// The hasher, where there was one.
    pub hasher: Option<H>,
}

impl<I: RafIo, R: RafRng, H: MerkleHasher> Model for LogSessionEnd<I, R, H> {
    ghost use Rattle.std.specs.Option.{option_map};
    ghost use Rattle.raf.specs.Outside.{counted};
    ghost use Rattle.raf_log.specs.Ran.{LogEnd};

    ghost Value = { LogEnd };

    ghost view = { λ e. record {
      outcome = e.outcome;
      outside = record {
        bytes = I.bytes e.io;
        durable = I.durable e.io;
        io_faults = I.faults e.io;
        reach = I.reach e.io;
        traffic = I.traffic e.io;
        changes = I.changes e.io;
        strays = I.strays e.io;
        left = R.left e.rng;
        rng_faults = R.faults e.rng;
        asked = R.asked e.rng;
        exact = R.exact;
        setting = option_map H.setting e.hasher;
        hash_faults = counted H.faults e.hasher;
        calls = counted H.calls e.hasher;
      };
    } };
}

impl<I: RafIo, R: RafRng, H: MerkleHasher> LogSessionEnd<I, R, H> {
    // An outcome, with what was handed in.
    fn of(outcome: Result<LogReplies, LogError>, parts: Parts<I, R, H>) -> LogSessionEnd<I, R, H>
        ensures { result ≡ record { outcome = outcome; outside = parts } }
    {
        let Parts { io, rng, hasher } = parts;
        LogSessionEnd {
            outcome,
            io,
            rng,
            hasher,
        }
    }
}

// How many bytes the reply to a command has at most, with hashes of this length.
fn reply_len(command: &LogCommand, hash_len: usize) -> usize
    ensures { result ≡ log_room hash_len command.now }
{
    match command {
        LogCommand::Get(_) => ENTRY_BYTES,
        LogCommand::Commitment => hash_len,
        _ => 0,
    }
}

// The lengths of all replies fit.
fn replies_fit(commands: &[LogCommand], hash_len: usize) -> bool
    ensures { IsTrue result ↔ (log_rooms hash_len commands.now < 2 ^ 64) }
{
    let mut total = 0usize;
    for command in commands {
        match total.checked_add(reply_len(command, hash_len)) {
            Some(more) => total = more,
            None => return false,
        }
    }
    true
}

// Room for the reply to a command.
fn room_of(alloc: Global, command: &LogCommand, hash_len: usize) -> Result<Data, AllocError>
    ensures { IfOk result (λ room. room ≡ log_room_for hash_len command.now) }
{
    let mut room = Vec::new(alloc);
    room.resize(reply_len(command, hash_len), 0)?;
    Ok(Data::from_vec(room))
}

// Room for the reply to each command.
fn rooms_of(
    alloc: Global,
    commands: &[LogCommand],
    hash_len: usize,
) -> Result<VecDeque<Data>, AllocError>
    ensures { IfOk result (λ rooms. rooms.items ≡ map (log_room_for hash_len) commands.now) }
{
    let mut rooms = VecDeque::new(alloc);
    for command in commands {
        rooms.push_back(room_of(alloc, command, hash_len)?)?;
    }
    Ok(rooms)
}

// The memory of the replies.
fn rooms_and_replies(
    alloc: Global,
    commands: &[LogCommand],
    hash_len: usize,
) -> Result<(VecDeque<Data>, Vec<LogReply>), AllocError>
    ensures rooms { IfOk result (λ p. p.0.items ≡ map (log_room_for hash_len) commands.now) }
    ensures none { IfOk result (λ p. p.1.items ≡ []) }
    ensures capacity { IfOk result (λ p. length commands.now ≤ vec_capacity p.1) }
{
    let rooms = rooms_of(alloc, commands, hash_len)?;
    let replies = Vec::with_capacity(alloc, commands.len())?;
    Ok((rooms, replies))
}

// Runs commands on a log that was opened, and hands it back.
fn run_on<A: Algorithm, I: RafIo, R: RafRng, H: MerkleHasher>(
    mut log: Log<A, I, R, H>,
    commands: &[LogCommand],
    rooms: VecDeque<Data>,
    replies: Vec<LogReply>,
) -> LogSessionEnd<I, R, H>
    requires spare { length commands.now ≤ log.spare }
    requires rooms { rooms.items ≡ map (log_room_for (hash_len_of H.hashing log.file.outside.setting)) commands.now }
    requires none { replies.items ≡ [] }
    requires capacity { length commands.now ≤ vec_capacity replies }
    ensures { IsOkAnd result.outcome (λ answers. (now : LogHandle) × LogEnded (cipher_of A.variant) H.hashing log now commands.now answers
        × (result.outside ≡ now.file.outside)) }
{
    let replies = answer_all::<A, I, R, H>(&mut log, commands, rooms, replies);
    LogSessionEnd::<I, R, H>::of(Ok(LogReplies::from_vec(replies)), log.close().close())
}

// Commands on a log that was opened, with all the memory that they need if there is any.
fn serve<A: Algorithm, I: RafIo, R: RafRng, H: MerkleHasher>(
    alloc: Global,
    mut log: Log<A, I, R, H>,
    commands: &[LogCommand],
    hash_len: usize,
) -> LogSessionEnd<I, R, H>
    requires { hash_len ≡ hash_len_of H.hashing log.file.outside.setting }
    ensures { LogServes (cipher_of A.variant) H.hashing log commands.now result.outside result.outcome }
{
    match log.reserve(commands.len()) {
        Ok(()) => {}
        Err(error) => return LogSessionEnd::<I, R, H>::of(Err(error), log.close().close()),
    }
    match rooms_and_replies(alloc, commands, hash_len) {
        Ok((rooms, replies)) => run_on::<A, I, R, H>(log, commands, rooms, replies),
        Err(_) => { LogSessionEnd::<I, R, H>::of(Err(LogError::OutOfMemory), log.close().close()) }
    }
}

// Why an opening was refused, as the log's refusal.
fn opening_error(error: Error) -> LogError
    ensures { result ≡ opening_refusal error }
{
    match error {
        Error::OutOfMemory => LogError::OutOfMemory,
        other => LogError::Raf(other),
    }
}

// Commands on a file that was opened: it is opened as a log.
fn serve_file<A: Algorithm, I: RafIo, R: RafRng, H: MerkleHasher>(
    alloc: Global,
    file: Raf<A, I, R, H>,
    commands: &[LogCommand],
    hash_len: usize,
) -> LogSessionEnd<I, R, H>
    requires { hash_len ≡ hash_len_of H.hashing file.outside.setting }
    ensures { ServesFile (cipher_of A.variant) H.hashing file commands.now result.outside result.outcome }
{
    match Log::open(alloc, file) {
        Ok(log) => serve::<A, I, R, H>(alloc, log, commands, hash_len),
        Err(refused) => {
            let LogOpenError { error, raf } = refused;
            LogSessionEnd::<I, R, H>::of(Err(error), raf.close())
        }
    }
}

/// Opens the encrypted file in `io` under `key` as a log, and answers the commands in order. A refused command is a reply, and the next
/// one runs; a fault of the storage, the random source or the hasher ends the run as the last reply. All memory is taken before the first
/// command. Storage, random source and hasher come back in every case.
///
/// The outcome is an error where nothing was answered and nothing changed: `Overflow` where 65536 for each `Get`, and with a hasher a hash
/// for each commitment, add up to more than a `usize` has; else the refusals of [`RafBuilder::open`] and of [`Log::open`]; `OutOfMemory`
/// where no memory was found.
pub fn log_session<A: Algorithm, I: RafIo, R: RafRng, H: MerkleHasher>(
    alloc: Global,
    builder: RafBuilder<A, R, H>,
    io: I,
    key: &A::Key,
    commands: &[LogCommand],
) -> LogSessionEnd<I, R, H>
    ensures { LogMeets (cipher_of A.variant) H.hashing (A.key_list key.now) builder commands.now
        (over_storage (I.bytes io) (I.durable io) (I.faults io) (I.reach io) (I.traffic io) (I.changes io) (I.strays io) builder.outside)
        result.outside result.outcome }
{
    let hash_len = builder.hash_len().unwrap_or(0);
    if !replies_fit(commands, hash_len) {
        return LogSessionEnd::<I, R, H>::of(Err(LogError::Overflow), builder.into_parts::<I>(io));
    }
    match builder.open::<I>(alloc, io, key) {
        Ok(file) => serve_file::<A, I, R, H>(alloc, file, commands, hash_len),
        Err(refused) => {
            let OpenError {
                error,
                io,
                rng,
                hasher,
            } = refused;
            LogSessionEnd {
                outcome: Err(opening_error(error)),
                io,
                rng,
                hasher,
            }
        }
    }
}
