//! A piece of a source, as long as there is room and bytes are left.
ghost use Rattle.std.specs.Prelude.{◌≤◌, ◌<◌, length, take, IfOk};
ghost use Rattle.std.specs.Io.KnownBytes.{Consumes, IsAtEnd};
ghost use Rattle.counts.specs.Counts.{HasCause};
ghost use Rattle.program_io.specs.Streams.{ConsumesAtMost, TellsAsBefore};

use program_io::{Failed, Source};

// Reads until `buf` is full or the source is at its end, and answers how many bytes there are.
pub fn fill<S: Source>(source: &mut S, buf: &mut [u8]) -> Result<usize, Failed>
    ensures bound { IfOk result (λ n. n ≤ length buf.new) }
    ensures bytes { IfOk result (λ n. Consumes (S.left source.old) (S.left source.new) (take n buf.new)) }
    ensures end { IfOk result (λ n. n < length buf.new → IsAtEnd (S.left source.new)) }
    ensures most { ConsumesAtMost (S.left source.old) (S.left source.new) (length buf.new) }
    ensures tells { TellsAsBefore (S.left source.old) (S.left source.new) }
    ensures cause { HasCause (S.faults source.old) (S.faults source.new) result }
{
    let mut filled = 0;
    while filled < buf.len() {
        let count = source.read(&mut buf[filled..])?;
        if count == 0 {
            return Ok(filled);
        }
        filled += count;
    }
    Ok(filled)
}
