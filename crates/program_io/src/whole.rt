//! A whole source in, and a whole text into a sink.
ghost use Rattle.std.specs.Prelude.{◌≡◌, ◌≢◌, ◌+◌, ◌^◌, ◌<◌, ◌≤◌, length, IfOk, OnOk, IsErrOf, IfSome};
ghost use Rattle.std.specs.Io.KnownBytes.{Appends, Consumes, IsAtEnd};
ghost use Rattle.counts.specs.Counts.{HasCause, Rose};
ghost use Rattle.program_io.specs.Streams.{AppendsPrefix, ConsumesAtMost, TellsAsBefore};
ghost use Rattle.program_io.specs.declared.whole.ReadError.TheVariants.{OutOfMemory};

use crate::streams::{Failed, Sink, Source};
use std::alloc::{AllocError, Global};

/// How many bytes are asked of a source at once.
const PIECE: usize = 4096;

/// Why a source was not read to its end.
#[derive(Clone, Copy, Debug, PartialEq, Eq)]
pub enum ReadError {
    /// A call of the source failed.
    Failed,
    /// The source has more bytes than were asked for.
    TooLong,
    /// No memory was found for the bytes.
    OutOfMemory,
}

impl From<AllocError> for ReadError {
    ghost from_gives = { λ _ e. e ≡ OutOfMemory };

    fn from(_: AllocError) -> Self {
        ReadError::OutOfMemory
    }
}

/// All that the source has left, if that is at most `limit` bytes. It reads at most one byte more than the limit.
pub fn read_whole<S: Source>(
    alloc: Global,
    source: &mut S,
    limit: usize,
) -> Result<Vec<u8>, ReadError>
    requires { limit < 2 ^ 32 }
    // The bytes are all that was left, and the source was read to its end.
    ensures bytes { IfOk result (λ text. Consumes (S.left source.old) (S.left source.new) text.items) }
    ensures end { OnOk result (IsAtEnd (S.left source.new)) }
    ensures within { IfOk result (λ text. length text.items ≤ limit) }

    ensures long { IsErrOf result ReadError.TooLong → IfSome (S.left source.old) (λ bytes. limit < length bytes) }
    // A fault is told exactly where the source failed.
    ensures failed { IsErrOf result ReadError.Failed → Rose (S.faults source.old) (S.faults source.new) }
    ensures kept { (result ≢ Err ReadError.Failed) → S.faults source.new ≡ S.faults source.old }
    ensures later { S.faults source.old ≤ S.faults source.new }

    ensures most { ConsumesAtMost (S.left source.old) (S.left source.new) (limit + 1) }
    ensures tells { TellsAsBefore (S.left source.old) (S.left source.new) }
{
    let mut text = Vec::new(alloc);
    let mut piece = [0; PIECE];
    while text.len() <= limit {
        let room = PIECE.min(limit + 1 - text.len());
        let Ok(count) = source.read(&mut piece[..room]) else {
            return Err(ReadError::Failed);
        };
        if count == 0 {
            return Ok(text);
        }
        text.extend_from_slice(&piece[..count])?;
    }
    Err(ReadError::TooLong)
}

/// Writes the whole text, piece by piece. It takes no memory.
pub fn write_whole<K: Sink>(sink: &mut K, text: &[u8]) -> Result<(), Failed>
    ensures whole { OnOk result (Appends (K.written sink.old) (K.written sink.new) text.now) }
    ensures prefix { AppendsPrefix (K.written sink.old) (K.written sink.new) text.now }
    ensures cause { HasCause (K.faults sink.old) (K.faults sink.new) result }
    ensures tells { TellsAsBefore (K.written sink.old) (K.written sink.new) }
{
    let mut at = 0;
    while at < text.len() {
        at += sink.write(&text[at..])?;
    }
    Ok(())
}
