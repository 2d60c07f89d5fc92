//! Logs over a file: opened and asked step by step, or served in one session.
use crate::bench::Bench;
use crate::playing::{Counted, File, Start, finish, room};
use crate::report::Report;
use crate::steps::{LogStep, Step};
use crate::words::Fault;
use raf::{Algorithm, Command, MemIo, OpenError, Parts, VecRng};
use raf_log::{ENTRY_BYTES, Log, LogCommand, LogErrorKind, LogOpenError, LogReply, LogSessionEnd};
use std::alloc::Global;

type OpenLog<A, H> = Log<A, MemIo, VecRng, H>;

// A name and why.
fn tell_kind(report: &mut Report, name: &str, kind: LogErrorKind) -> Result<(), Fault> {
    match kind {
        LogErrorKind::Raf(kind) => report.kind(name, kind),
        LogErrorKind::Format => report.name(name, "Format"),
        LogErrorKind::TooLong => report.name(name, "TooLong"),
        LogErrorKind::OutOfMemory => report.name(name, "OutOfMemory"),
        LogErrorKind::Overflow => report.name(name, "Overflow"),
    }
}

// A reply.
fn tell_reply(report: &mut Report, reply: &LogReply) -> Result<(), Fault> {
    match reply {
        LogReply::Appended(index) => report.number("entry", *index),
        LogReply::Entry(bytes) => report.bytes("bytes", bytes.as_slice()),
        LogReply::Absent => report.line("none"),
        LogReply::Count(count) => report.number("count", *count),
        LogReply::Commitment(bytes) => report.bytes("commitment", bytes.as_slice()),
        LogReply::Refused(kind) => tell_kind(report, "refused", *kind),
    }
}

// Appends an entry, where there is room for it.
fn append<A: Algorithm, H: Counted>(
    log: &mut OpenLog<A, H>,
    entry: &[u8],
    report: &mut Report,
) -> Result<(), Fault> {
    if log.spare() == 0 {
        return report.line("no room");
    }
    match log.append(entry) {
        Ok(index) => report.number("entry", index),
        Err(error) => tell_kind(report, "refused", error.kind()),
    }
}

// Reads an entry.
fn get<A: Algorithm, H: Counted>(
    alloc: Global,
    log: &mut OpenLog<A, H>,
    index: u64,
    report: &mut Report,
) -> Result<(), Fault> {
    let mut buf = vec![in alloc; 0u8; ENTRY_BYTES]?;
    let answer = log.get(index, &mut buf);
    match answer {
        Ok(Some(count)) => {
            buf.truncate(count);
            report.bytes("bytes", &buf)
        }
        Ok(None) => report.line("none"),
        Err(error) => tell_kind(report, "refused", error.kind()),
    }
}

// Commits into room for so many bytes, of which a hash has `hash_len`.
fn commit<A: Algorithm, H: Counted>(
    alloc: Global,
    log: &mut OpenLog<A, H>,
    len: usize,
    hash_len: usize,
    report: &mut Report,
) -> Result<(), Fault> {
    let mut buf = room(alloc, len)?;
    let answer = log.commitment(&mut buf);
    match answer {
        Ok(()) => {
            buf.truncate(hash_len);
            report.bytes("commitment", &buf)
        }
        Err(error) => tell_kind(report, "refused", error.kind()),
    }
}

// Takes one step on a log.
fn take<A: Algorithm, H: Counted>(
    alloc: Global,
    log: &mut OpenLog<A, H>,
    hash_len: usize,
    step: &Step,
    report: &mut Report,
) -> Result<(), Fault> {
    match step {
        Step::Log(LogStep::Append(entry)) => append::<A, H>(log, entry.as_slice(), report),
        Step::Log(LogStep::Get(index)) => get::<A, H>(alloc, log, *index, report),
        Step::Log(LogStep::Count) => report.number("count", log.count()),
        Step::Log(LogStep::Reserve(count)) => match log.reserve(*count) {
            Ok(()) => report.number("spare", log.spare() as u64),
            Err(error) => tell_kind(report, "refused", error.kind()),
        },
        Step::Ask(Command::Commitment) => commit::<A, H>(alloc, log, 64, hash_len, report),
        Step::Commit(len) => commit::<A, H>(alloc, log, *len, hash_len, report),
        _ => Err(Fault::Line),
    }
}

// Opens a file as a log, takes the steps, and closes it.
fn serve<A: Algorithm, H: Counted>(
    alloc: Global,
    bench: &mut Bench,
    file: File<A, H>,
    steps: &[Step],
    report: &mut Report,
) -> Result<(), Fault> {
    let hash_len = file.hash_len().unwrap_or(0);
    match OpenLog::<A, H>::open(alloc, file) {
        Ok(mut log) => {
            for step in steps {
                take::<A, H>(alloc, &mut log, hash_len, step, report)?;
            }
            finish::<H>(alloc, bench, log.close().close(), report)
        }
        Err(refused) => {
            let LogOpenError { error, raf } = refused;
            tell_kind(report, "error", error.kind())?;
            finish::<H>(alloc, bench, raf.close(), report)
        }
    }
}

/// Opens a file as a log and takes the steps on it, or tells why it isn't opened.
pub fn serve_log<A: Algorithm, H: Counted>(
    alloc: Global,
    bench: &mut Bench,
    opened: Start<A, H>,
    steps: &[Step],
    report: &mut Report,
) -> Result<(), Fault> {
    match opened {
        Ok(file) => serve::<A, H>(alloc, bench, file, steps, report),
        Err(refused) => {
            report.kind("error", refused.error.kind())?;
            let OpenError {
                error: _,
                io,
                rng,
                hasher,
            } = refused;
            finish::<H>(alloc, bench, Parts { io, rng, hasher }, report)
        }
    }
}

// A step as a command.
fn command_of(step: LogStep) -> Result<LogCommand, Fault> {
    match step {
        LogStep::Append(entry) => Ok(LogCommand::Append(entry)),
        LogStep::Get(index) => Ok(LogCommand::Get(index)),
        LogStep::Count => Ok(LogCommand::Count),
        LogStep::Reserve(_) => Err(Fault::Line),
    }
}

// A command of a file that is one of a log too.
fn commitment_of(command: &Command) -> Result<LogCommand, Fault> {
    match command {
        Command::Commitment => Ok(LogCommand::Commitment),
        _ => Err(Fault::Line),
    }
}

/// The commands of steps that are commands of a log.
pub fn log_commands_of(alloc: Global, steps: Vec<Step>) -> Result<Vec<LogCommand>, Fault> {
    let mut commands = Vec::new(alloc);
    for step in steps {
        match step {
            Step::Log(step) => commands.push(command_of(step)?)?,
            Step::Ask(command) => commands.push(commitment_of(&command)?)?,
            _ => return Err(Fault::Line),
        }
    }
    Ok(commands)
}

/// Tells what a session of a log came to.
pub fn end_log<H: Counted>(
    alloc: Global,
    bench: &mut Bench,
    end: LogSessionEnd<MemIo, VecRng, H>,
    report: &mut Report,
) -> Result<(), Fault> {
    match &end.outcome {
        Ok(replies) => {
            for i in 0..replies.len() {
                if let Some(reply) = replies.get(i) {
                    tell_reply(report, reply)?;
                }
            }
        }
        Err(error) => tell_kind(report, "error", error.kind())?,
    }
    let LogSessionEnd {
        outcome: _,
        io,
        rng,
        hasher,
    } = end;
    finish::<H>(alloc, bench, Parts { io, rng, hasher }, report)
}
