//! Opening a sealed source.
ghost use Rattle.std.specs.Prelude.{◌≡◌, ◌+◌, ◌-◌, ◌^◌, ◌<◌, ◌≤◌, ℕ, List, [], None, length, if◌then◌else◌};
ghost use Rattle.program_io.specs.Streams.{TellsAsBefore, intake_of, output_of};
ghost use Rattle.aegis_stream.specs.Opening.{Took};
ghost use Rattle.seal_run.specs.Unsealing.{Unseals};
ghost use Rattle.seal_run.specs.Steps.{Opens};

use crate::ends::{MOST_BYTES, StreamEnd};
use aegis_stream::{MESSAGE_BYTES, Opener};
use program_io::{Sink, Source, write_whole};
use std::alloc::Global;

// How many bytes are asked of a source at once.
const PIECE: usize = 65536;

/// Opens the sealed stream that `source` holds under `key`, and writes each message to `sink` once its tag fits.
///
/// It ends `Whole` where the source was read to its end, that is the end of the stream, and all messages were written; `NotAStream`,
/// exactly where a frame has no form or does not open, where bytes follow the end, or where the source ends before the stream does;
/// `TooLong`, exactly where the first 2^40 bytes may be a stream and the source has more. The messages that open were written then.
/// `ReadFault` or `WriteFault` come exactly where a call of the source or of the sink failed: a front of the messages was written. It
/// takes the memory of a piece, a frame and a message at the start: `OutOfMemory` comes before a byte is taken or written.
pub fn unseal<S: Source, K: Sink>(
    alloc: Global,
    source: &mut S,
    sink: &mut K,
    key: &[u8; 16],
) -> StreamEnd
    ensures { Unseals key.now (intake_of S.left S.faults source.old source.new) (output_of K.written K.faults sink.old sink.new) result }
{
    let Ok(mut opener) = Opener::new(alloc, key) else {
        return StreamEnd::OutOfMemory;
    };
    let Ok(mut piece) = vec![in alloc; 0; PIECE] else {
        return StreamEnd::OutOfMemory;
    };
    let Ok(mut message) = vec![in alloc; 0; MESSAGE_BYTES] else {
        return StreamEnd::OutOfMemory;
    };
    open_all(source, sink, &mut opener, &mut piece, &mut message)
}

// The same, with an opener that has taken nothing, and room for a piece and for a message.
fn open_all<S: Source, K: Sink>(
    source: &mut S,
    sink: &mut K,
    opener: &mut Opener,
    piece: &mut [u8],
    message: &mut [u8],
) -> StreamEnd
    requires took { Took opener.old [] }
    requires going { opener.old.refused ≡ None }
    requires piece { length piece.old ≡ 65536 }
    requires message { length message.old ≡ 65536 }
    ensures { Unseals opener.old.key (intake_of S.left S.faults source.old source.new) (output_of K.written K.faults sink.old sink.new) result }
{
    let mut taken = 0;
    let mut ended = false;
    while taken < MOST_BYTES {
        let room = (MOST_BYTES - taken).min(PIECE as u64) as usize;
        let Ok(count) = source.read(&mut piece[..room]) else {
            return StreamEnd::ReadFault;
        };
        if count == 0 {
            return at_end(ended);
        }
        match open_piece(opener, &piece[..count], message, sink) {
            Ok(now) => ended = now,
            Err(end) => return end,
        }
        taken += count as u64;
    }
    match source.read(&mut piece[..1]) {
        Ok(0) => at_end(ended),
        Ok(_) => StreamEnd::TooLong,
        Err(_) => StreamEnd::ReadFault,
    }
}

// How a run ends where the source does.
fn at_end(ended: bool) -> StreamEnd
    ensures { result ≡ (if ended then StreamEnd.Whole else StreamEnd.NotAStream) }
{
    if ended {
        StreamEnd::Whole
    } else {
        StreamEnd::NotAStream
    }
}

// Opens the frames that a piece of the stream completes, and writes their messages: whether the stream is ended then.
fn open_piece<K: Sink>(
    opener: &mut Opener,
    piece: &[u8],
    message: &mut [u8],
    sink: &mut K,
) -> Result<bool, StreamEnd>
    requires took { (taken : List ℕ) × Took opener.old taken × (length taken + length piece.now < 2 ^ 64 - 1) }
    requires going { opener.old.refused ≡ None }
    requires some { 0 < length piece.now }
    requires room { length message.old ≡ 65536 }
    ensures opens { (taken : List ℕ) → Took opener.old taken → Opens opener.old opener.new taken piece.now
        (output_of K.written K.faults sink.old sink.new) result }
    ensures tells { TellsAsBefore (K.written sink.old) (K.written sink.new) }
{
    let mut at = 0;
    let mut ended = false;
    while at < piece.len() {
        let Ok(fed) = opener.feed(&piece[at..], message) else {
            return Err(StreamEnd::NotAStream);
        };
        // No clause of `feed` says that it fits.
        let len = fed.written.min(message.len());
        if write_whole(sink, &message[..len]).is_err() {
            return Err(StreamEnd::WriteFault);
        }
        at += fed.taken;
        ended = fed.ended;
    }
    Ok(ended)
}
