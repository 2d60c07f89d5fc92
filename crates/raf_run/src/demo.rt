//! The demo: commands that a number stands for, run in memory, and what they leave.
ghost use Rattle.std.specs.Prelude.{◌≡◌, ◌≤◌, ◌<◌, ◌^◌, ◌-◌, ℕ, List, None, Some, Ok, IfOk, IfSome, length, slice_get};
ghost use Rattle.std.specs.List.{sum};
ghost use Rattle.raf.specs.declared.command.Reply.TheVariants.{Bytes, Size, Verified};
ghost use Rattle.raf_run.specs.Demo as spec;
ghost use Rattle.raf_run.specs.Demo.{write_bytes, demo_write, demo_commands, demo_report, Tells};

use crate::answer::Report;
use crate::running::{Ended, run_with};
use crate::seed::SeedRng;
use aegis::raf::{Command, Data, MemIo, Replies, Reply, unprotected};
use raf_format::{Version, marker_variants};
use raf_script::{Commands, Start};
use std::alloc::{AllocError, Global};

/// How long the file is, in bytes.
const SIZE: u64 = 200_000;

/// How many bytes each write has.
const PIECE: usize = 100;

const KEY: [u8; 16] = [0, 1, 2, 3, 4, 5, 6, 7, 8, 9, 10, 11, 12, 13, 14, 15];

// A write, by its number.
fn write_of(alloc: Global, number: u64) -> Result<Command, AllocError>
    requires { number < 2 ^ 32 }
    ensures { IfOk result (λ c. c ≡ demo_write number) }
{
    let bytes = Vec::from_elem(alloc, (number % 251 + 1) as u8, PIECE)?;
    Ok(Command::Write {
        offset: 7919 * number % 199_901,
        bytes: Data::from_vec(bytes),
    })
}

// The commands of a demo with so many writes.
fn commands_of(alloc: Global, writes: u64) -> Result<Commands, AllocError>
    requires { writes ≤ 1000 }
    ensures { IfOk result (λ commands. commands ≡ demo_commands writes) }
{
    let mut commands = Commands::new(alloc);
    commands.push(Command::Truncate { size: SIZE })?;
    for number in 0..writes {
        let command = write_of(alloc, number)?;
        commands.push(command)?;
    }
    commands.push(Command::Sync)?;
    commands.push(Command::Verify)?;
    commands.push(Command::Size)?;
    commands.push(Command::Read {
        offset: 0,
        len: SIZE as usize,
    })?;
    Ok(commands)
}

fn sum_of(bytes: &[u8]) -> u64
    requires { length bytes.now < 2 ^ 32 }
    ensures { result ≡ sum bytes.now }
{
    let mut total = 0;
    for byte in bytes {
        total += *byte as u64;
    }
    total
}

// The reply that stands so far from the end of all.
fn reply_at(replies: &Replies, from_end: usize) -> Option<&Reply>
    requires { 0 < from_end }
    ensures { IfSome result (λ reply. slice_get replies.now (length replies.now - from_end) ≡ Some reply.now) }
{
    replies.get(replies.len().checked_sub(from_end)?)
}

// What the last three replies tell, where none of them is a refusal and no chunk is damaged.
fn report_of(replies: &Replies, storage: usize) -> Option<Report>
    ensures { IfSome result (λ report. Tells replies.now storage report) }
{
    match (
        reply_at(replies, 3)?,
        reply_at(replies, 2)?,
        reply_at(replies, 1)?,
    ) {
        (Reply::Verified(None), Reply::Size(size), Reply::Bytes(bytes)) => {
            if bytes.as_slice().len() > SIZE as usize {
                return None;
            }
            Some(Report {
                size: *size,
                sum: sum_of(bytes.as_slice()),
                storage: storage as u64,
            })
        }
        _ => None,
    }
}

/// Runs the demo with so many writes. None is want of memory.
pub fn run_demo(alloc: Global, writes: u64) -> Option<Report>
    requires { writes ≤ 1000 }
    ensures { IfSome result (λ report. report ≡ demo_report writes) }
{
    marker_variants();
    let Ok(commands) = commands_of(alloc, writes) else {
        return None;
    };
    let memory = MemIo::new(alloc, Vec::new(alloc), Vec::new(alloc));
    let start = Start::Create {
        chunk_size: 65536,
        version: Version::V1,
    };
    let Ended { outcome, io } = run_with::<unprotected::Aegis128L, MemIo, SeedRng>(
        alloc,
        SeedRng::new([0; 32]),
        Some(4),
        memory,
        &KEY,
        start,
        commands.as_slice(),
    );
    match outcome {
        Ok(replies) => report_of(&replies, io.bytes().len()),
        Err(_) => None,
    }
}
