//! The reply text into a sink. Nothing here takes memory.
ghost use Rattle.std.specs.Prelude.{◌≡◌, ◌+◌, ◌*◌, ◌≤◌, ◌<◌, codes, length, decimal, ℕ, List};
ghost use Rattle.std.specs.List.{flat_map};
ghost use Rattle.hex.specs.Hex.{encode_lower};
ghost use Rattle.raf.specs.Due.{is_fault};
ghost use Rattle.raf.specs.declared.command.Reply.TheVariants as replies;
ghost use Rattle.raf_run.specs.Text as spec;
ghost use Rattle.raf_run.specs.Text.{Puts, line, hex_word, reply_line, refused_line, word, end_text, outcome_text, item_at, report_text};

use crate::answer::{End, Report};
use aegis::raf::{Data, Error, ErrorKind, Reason, Replies, Reply};
use itoa::Buffer;
use program_io::{Failed, Sink, write_whole};

/// How many bytes become hex digits at once, on the stack.
const PIECE: usize = 1024;

/// This text.
pub fn put<K: Sink>(sink: &mut K, text: &[u8]) -> Result<(), Failed>
    ensures { Puts (K.written sink.old) (K.written sink.new) (K.faults sink.old) (K.faults sink.new) result text.now }
{
    write_whole(sink, text)
}

// A few bytes in hex.
fn put_piece<K: Sink>(sink: &mut K, piece: &[u8]) -> Result<(), Failed>
    requires { length piece.now ≤ 1024 }
    ensures { Puts (K.written sink.old) (K.written sink.new) (K.faults sink.old) (K.faults sink.new) result (encode_lower piece.now) }
{
    let mut digits = [0; 2 * PIECE];
    let room = &mut digits[..2 * piece.len()];
    match hex::encode_to_slice(piece, room) {
        Ok(()) => put(sink, room),
        Err(_) => Err(Failed),
    }
}

// Bytes in hex, piece by piece.
fn put_digits<K: Sink>(sink: &mut K, bytes: &[u8]) -> Result<(), Failed>
    ensures { Puts (K.written sink.old) (K.written sink.new) (K.faults sink.old) (K.faults sink.new) result (encode_lower bytes.now) }
{
    let mut at = 0;
    while at < bytes.len() {
        let count = PIECE.min(bytes.len() - at);
        put_piece(sink, &bytes[at..at + count])?;
        at += count;
    }
    Ok(())
}

#[tactic(auto, unfolding(crate::specs::Text::hex_word))]
fn put_hex<K: Sink>(sink: &mut K, bytes: &[u8]) -> Result<(), Failed>
    ensures { Puts (K.written sink.old) (K.written sink.new) (K.faults sink.old) (K.faults sink.new) result (hex_word bytes.now) }
{
    match bytes {
        [] => put(sink, b"-"),
        [_, ..] => put_digits(sink, bytes),
    }
}

// A name, an argument and LF.
fn fill_line(out: &mut [u8], name: &[u8], argument: &[u8])
    requires { length out.old ≡ length name.now + length argument.now + 1 }
    ensures { out.new ≡ line name.now argument.now }
{
    let (front, rest) = out.split_at_mut(name.len());
    let (middle, end) = rest.split_at_mut(argument.len());
    front.copy_from_slice(name);
    middle.copy_from_slice(argument);
    end.copy_from_slice(b"\n");
}

/// A line with a short argument, in one call of the sink.
pub fn put_line<K: Sink>(sink: &mut K, name: &[u8], argument: &[u8]) -> Result<(), Failed>
    requires { length name.now + length argument.now < 64 }
    ensures { Puts (K.written sink.old) (K.written sink.new) (K.faults sink.old) (K.faults sink.new) result (line name.now argument.now) }
{
    let mut room = [0; 64];
    let out = &mut room[..name.len() + argument.len() + 1];
    fill_line(out, name, argument);
    put(sink, out)
}

/// A name, a number and LF.
pub fn put_number<K: Sink>(sink: &mut K, name: &[u8], number: u64) -> Result<(), Failed>
    requires { length name.now < 16 }
    ensures { Puts (K.written sink.old) (K.written sink.new) (K.faults sink.old) (K.faults sink.new) result (line name.now (decimal number)) }
{
    put_line(sink, name, Buffer::new().format(number).as_bytes())
}

/// A name, bytes in hex and LF.
pub fn put_bytes<K: Sink>(sink: &mut K, name: &[u8], bytes: &[u8]) -> Result<(), Failed>
    ensures { Puts (K.written sink.old) (K.written sink.new) (K.faults sink.old) (K.faults sink.new) result (line name.now (hex_word bytes.now)) }
{
    put(sink, name)?;
    put_hex(sink, bytes)?;
    put(sink, b"\n")
}

fn reason_word(reason: Reason) -> &'static [u8]
    ensures word { result.now ≡ spec.reason_word reason }
    ensures short { length result.now ≤ 16 }
{
    match reason {
        Reason::Header => b"header",
        Reason::UnknownAlgorithm => b"unknown",
        Reason::AlgorithmMismatch => b"algorithm",
        Reason::Layout => b"layout",
        Reason::ChunkSize => b"chunk-size",
        Reason::HashLen => b"hash-len",
        Reason::MaxChunks => b"max-chunks",
        Reason::KeyLength => b"key-length",
        Reason::ContextTooLong => b"context",
        Reason::CommitmentBuffer => b"buffer",
        Reason::SeekOverflow => b"seek",
    }
}

/// The word for a kind of error.
pub fn kind_word(kind: ErrorKind) -> &'static [u8]
    ensures word { result.now ≡ word kind }
    ensures short { length result.now ≤ 16 }
{
    match kind {
        ErrorKind::Io => b"io",
        ErrorKind::InvalidArgument(reason) => reason_word(reason),
        ErrorKind::AuthenticationFailed => b"authentication",
        ErrorKind::AlreadyExists => b"exists",
        ErrorKind::NotFound => b"missing",
        ErrorKind::Overflow => b"overflow",
        ErrorKind::MerkleNotEnabled => b"merkle",
        ErrorKind::CorruptedChunk(_) => b"corrupted",
        ErrorKind::Rng => b"rng",
        ErrorKind::Hash => b"hash",
        ErrorKind::Broken => b"broken",
        ErrorKind::OutOfMemory => b"memory",
    }
}

fn put_word<K: Sink>(sink: &mut K, name: &[u8], kind: ErrorKind) -> Result<(), Failed>
    requires { length name.now < 16 }
    ensures { Puts (K.written sink.old) (K.written sink.new) (K.faults sink.old) (K.faults sink.new) result (line name.now (word kind)) }
{
    put_line(sink, name, kind_word(kind))
}

#[tactic(auto, unfolding(crate::specs::Text::refused_line))]
fn put_refused<K: Sink>(sink: &mut K, reply: &Reply, kind: ErrorKind) -> Result<(), Failed>
    requires { reply.now ≡ replies.Refused kind }
    ensures { Puts (K.written sink.old) (K.written sink.new) (K.faults sink.old) (K.faults sink.new) result (refused_line kind) }
{
    if reply.is_fault() {
        put_word(sink, b"fault ", kind)
    } else {
        put_word(sink, b"refused ", kind)
    }
}

// The line of a reply.
#[tactic(auto, unfolding(crate::specs::Text::reply_line))]
fn put_reply<K: Sink>(sink: &mut K, reply: &Reply) -> Result<(), Failed>
    ensures { Puts (K.written sink.old) (K.written sink.new) (K.faults sink.old) (K.faults sink.new) result (reply_line reply.now) }
{
    match reply {
        Reply::Bytes(bytes) => put_bytes(sink, b"bytes ", bytes.as_slice()),
        Reply::Wrote(count) => put_number(sink, b"wrote ", *count as u64),
        Reply::Done => put(sink, b"done\n"),
        Reply::Size(size) => put_number(sink, b"size ", *size),
        Reply::Verified(None) => put(sink, b"verified\n"),
        Reply::Verified(Some(index)) => put_number(sink, b"damaged ", *index),
        Reply::Commitment(bytes) => put_bytes(sink, b"commitment ", bytes.as_slice()),
        Reply::Refused(kind) => put_refused(sink, reply, *kind),
    }
}

// The line of the reply at an index.
fn put_at<K: Sink>(sink: &mut K, replies: &Replies, index: usize) -> Result<(), Failed>
    requires { index < length replies.now }
    ensures { Puts (K.written sink.old) (K.written sink.new) (K.faults sink.old) (K.faults sink.new) result (flat_map reply_line (item_at replies.now index)) }
{
    match replies.get(index) {
        Some(reply) => put_reply(sink, reply),
        None => Ok(()),
    }
}

// A line a reply.
fn put_replies<K: Sink>(sink: &mut K, replies: &Replies) -> Result<(), Failed>
    ensures { Puts (K.written sink.old) (K.written sink.new) (K.faults sink.old) (K.faults sink.new) result (flat_map reply_line replies.now) }
{
    for index in 0..replies.len() {
        put_at(sink, replies, index)?;
    }
    Ok(())
}

/// The replies or the refusal.
pub fn put_outcome<K: Sink>(sink: &mut K, outcome: &Result<Replies, Error>) -> Result<(), Failed>
    ensures { Puts (K.written sink.old) (K.written sink.new) (K.faults sink.old) (K.faults sink.new) result (outcome_text outcome.now) }
{
    match outcome {
        Ok(replies) => put_replies(sink, replies),
        Err(error) => put_word(sink, b"error ", error.kind()),
    }
}

/// The storage line.
pub fn put_storage<K: Sink>(sink: &mut K, storage: &Data) -> Result<(), Failed>
    ensures { Puts (K.written sink.old) (K.written sink.new) (K.faults sink.old) (K.faults sink.new) result (line (codes "storage ") (hex_word storage.now)) }
{
    put_bytes(sink, b"storage ", storage.as_slice())
}

/// The replies or the refusal, and then the storage line.
pub fn put_end<K: Sink>(sink: &mut K, end: &End) -> Result<(), Failed>
    ensures { Puts (K.written sink.old) (K.written sink.new) (K.faults sink.old) (K.faults sink.new) result (end_text end.now) }
{
    put_outcome(sink, &end.outcome)?;
    put_storage(sink, &end.storage)
}

/// The four lines of the demo.
pub fn put_report<K: Sink>(sink: &mut K, report: &Report) -> Result<(), Failed>
    ensures { Puts (K.written sink.old) (K.written sink.new) (K.faults sink.old) (K.faults sink.new) result (report_text report.now) }
{
    put_number(sink, b"size ", report.size)?;
    put_number(sink, b"sum ", report.sum)?;
    put_number(sink, b"storage ", report.storage)?;
    put(sink, b"verified\n")
}
