//! The reply text of a log's session into a sink. Nothing here takes memory.
ghost use Rattle.std.specs.Prelude.{◌≡◌, ◌<◌, ◌≤◌, codes, length, decimal};
ghost use Rattle.std.specs.List.{flat_map};
ghost use Rattle.raf_log.specs.declared.command.LogReply.TheVariants as replies;
ghost use Rattle.raf_run.specs.LogText as spec;
ghost use Rattle.raf_run.specs.LogText.{log_reply_line, log_refused_line, log_outcome_text, log_end_text};
ghost use Rattle.raf_run.specs.Text.{Puts, line, hex_word, item_at};

use crate::answer::LogEnd;
use crate::output::{kind_word, put, put_bytes, put_line, put_number, put_storage};
use program_io::{Failed, Sink};
use raf_log::{LogError, LogErrorKind, LogReplies, LogReply};

fn log_word(kind: LogErrorKind) -> &'static [u8]
    ensures word { result.now ≡ spec.log_word kind }
    ensures short { length result.now ≤ 16 }
{
    match kind {
        LogErrorKind::Raf(kind) => kind_word(kind),
        LogErrorKind::Format => b"log",
        LogErrorKind::TooLong => b"long",
        LogErrorKind::OutOfMemory => b"memory",
        LogErrorKind::Overflow => b"overflow",
    }
}

#[tactic(auto, unfolding(crate::specs::LogText::log_refused_line))]
fn put_refused<K: Sink>(sink: &mut K, reply: &LogReply, kind: LogErrorKind) -> Result<(), Failed>
    requires { reply.now ≡ replies.Refused kind }
    ensures { Puts (K.written sink.old) (K.written sink.new) (K.faults sink.old) (K.faults sink.new) result (log_refused_line kind) }
{
    if reply.is_fault() {
        put_line(sink, b"fault ", log_word(kind))
    } else {
        put_line(sink, b"refused ", log_word(kind))
    }
}

// The line of a reply.
#[tactic(auto, unfolding(crate::specs::LogText::log_reply_line))]
fn put_reply<K: Sink>(sink: &mut K, reply: &LogReply) -> Result<(), Failed>
    ensures { Puts (K.written sink.old) (K.written sink.new) (K.faults sink.old) (K.faults sink.new) result (log_reply_line reply.now) }
{
    match reply {
        LogReply::Appended(index) => put_number(sink, b"entry ", *index),
        LogReply::Entry(bytes) => put_bytes(sink, b"bytes ", bytes.as_slice()),
        LogReply::Absent => put(sink, b"none\n"),
        LogReply::Count(count) => put_number(sink, b"count ", *count),
        LogReply::Commitment(bytes) => put_bytes(sink, b"commitment ", bytes.as_slice()),
        LogReply::Refused(kind) => put_refused(sink, reply, *kind),
    }
}

// The line of the reply at an index.
fn put_at<K: Sink>(sink: &mut K, replies: &LogReplies, index: usize) -> Result<(), Failed>
    requires { index < length replies.now }
    ensures { Puts (K.written sink.old) (K.written sink.new) (K.faults sink.old) (K.faults sink.new) result (flat_map log_reply_line (item_at replies.now index)) }
{
    match replies.get(index) {
        Some(reply) => put_reply(sink, reply),
        None => Ok(()),
    }
}

// A line a reply.
fn put_replies<K: Sink>(sink: &mut K, replies: &LogReplies) -> Result<(), Failed>
    ensures { Puts (K.written sink.old) (K.written sink.new) (K.faults sink.old) (K.faults sink.new) result (flat_map log_reply_line replies.now) }
{
    for index in 0..replies.len() {
        put_at(sink, replies, index)?;
    }
    Ok(())
}

// The replies or the refusal.
fn put_outcome<K: Sink>(sink: &mut K, outcome: &Result<LogReplies, LogError>) -> Result<(), Failed>
    ensures { Puts (K.written sink.old) (K.written sink.new) (K.faults sink.old) (K.faults sink.new) result (log_outcome_text outcome.now) }
{
    match outcome {
        Ok(replies) => put_replies(sink, replies),
        Err(error) => put_line(sink, b"error ", log_word(error.kind())),
    }
}

/// The replies or the refusal, and then the storage line.
pub fn put_log_end<K: Sink>(sink: &mut K, end: &LogEnd) -> Result<(), Failed>
    ensures { Puts (K.written sink.old) (K.written sink.new) (K.faults sink.old) (K.faults sink.new) result (log_end_text end.now) }
{
    put_outcome(sink, &end.outcome)?;
    put_storage(sink, &end.storage)
}
