//! Sealing a source.
ghost use Rattle.std.specs.Prelude.{◌≡◌, ◌+◌, ◌-◌, ◌^◌, ◌<◌, ◌≤◌, false, length};
ghost use Rattle.program_io.specs.Streams.{intake_of, output_of};
ghost use Rattle.seal_run.specs.Sealing.{Seals};
ghost use Rattle.seal_run.specs.Steps.{Puts};

use crate::ends::{MOST_BYTES, StreamEnd};
use crate::filling::fill;
use aegis_stream::{MESSAGE_BYTES, Sealer, stream_laws};
use program_io::{Failed, Sink, Source, write_whole};
use std::alloc::Global;

// How many bytes a frame has beside its message.
const FRAME_BYTES: usize = 21;

/// Seals all the bytes of `source` as one stream under `key`, whose first 8 bytes are `prefix`, into `sink`. No other stream under this
/// key may have this prefix. The messages have 65536 bytes each, and the last one has the rest, which may be empty.
///
/// It ends `Whole` where the source was read to its end and the stream was written whole; `TooLong`, exactly where the source has more
/// than 2^40 bytes; `ReadFault` or `WriteFault`, exactly where a call of the source or of the sink failed. A front of the stream was
/// written then. It takes the memory of a piece and a frame at the start: `OutOfMemory` comes before a byte is taken or written.
pub fn seal<S: Source, K: Sink>(
    alloc: Global,
    source: &mut S,
    sink: &mut K,
    key: &[u8; 16],
    prefix: &[u8; 8],
) -> StreamEnd
    ensures { Seals key.now prefix.now (intake_of S.left S.faults source.old source.new) (output_of K.written K.faults sink.old sink.new) result }
{
    let Ok(mut piece) = vec![in alloc; 0; MESSAGE_BYTES] else {
        return StreamEnd::OutOfMemory;
    };
    let Ok(mut frame) = vec![in alloc; 0; FRAME_BYTES + MESSAGE_BYTES] else {
        return StreamEnd::OutOfMemory;
    };
    seal_all(source, sink, key, prefix, &mut piece, &mut frame)
}

// The same, with room for a piece and for a frame.
fn seal_all<S: Source, K: Sink>(
    source: &mut S,
    sink: &mut K,
    key: &[u8; 16],
    prefix: &[u8; 8],
    piece: &mut [u8],
    frame: &mut [u8],
) -> StreamEnd
    requires piece { length piece.old ≡ 65536 }
    requires frame { length frame.old ≡ 65557 }
    ensures { Seals key.now prefix.now (intake_of S.left S.faults source.old source.new) (output_of K.written K.faults sink.old sink.new) result }
{
    stream_laws();
    let mut sealer = Sealer::new(key, prefix);
    if write_whole(sink, prefix).is_err() {
        return StreamEnd::WriteFault;
    }
    let mut sealed = 0;
    loop {
        let room = (MOST_BYTES + 1 - sealed).min(MESSAGE_BYTES as u64) as usize;
        let Ok(count) = fill(source, &mut piece[..room]) else {
            return StreamEnd::ReadFault;
        };
        sealed += count as u64;
        if sealed > MOST_BYTES {
            return StreamEnd::TooLong;
        }
        let last = count < MESSAGE_BYTES;
        if seal_piece(&mut sealer, &piece[..count], last, frame, sink).is_err() {
            return StreamEnd::WriteFault;
        }
        if last {
            return StreamEnd::Whole;
        }
    }
}

// Seals one message and writes its frame.
fn seal_piece<K: Sink>(
    sealer: &mut Sealer,
    piece: &[u8],
    last: bool,
    frame: &mut [u8],
    sink: &mut K,
) -> Result<(), Failed>
    requires going { sealer.old.ended ≡ false }
    requires most { length piece.now ≤ 65536 }
    requires some { last ≡ false → 0 < length piece.now }
    requires room { 21 + length piece.now ≤ length frame.old }
    requires frames { sealer.old.frames < 2 ^ 64 - 1 }
    ensures { Puts sealer.old sealer.new piece.now last (output_of K.written K.faults sink.old sink.new) result }
{
    let Ok(len) = sealer.seal(piece, last, frame) else {
        unreachable!()
    };
    write_whole(sink, &frame[..len])
}
