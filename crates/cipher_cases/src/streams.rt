//! Sealed streams.
use crate::ways::{Ways, shown};
use crate::words::Fault;
use aegis_stream::{MESSAGE_BYTES, Opener, Sealer, StreamError};
use std::alloc::Global;

// The next frame of a stream, put behind what is there.
fn seal(
    sealer: &mut Sealer,
    piece: &[u8],
    last: bool,
    room: &mut [u8],
    stream: &mut Vec<u8>,
) -> Result<(), Fault> {
    let may_come = last || piece.len() > 0;
    if !may_come || piece.len() > 65536 || room.len() < 65557 || sealer.frames() > 1000 {
        return Err(Fault::Line);
    }
    let sealed = sealer.seal(piece, last, room);
    match sealed {
        Ok(len) => {
            for byte in room.iter().take(len) {
                stream.push(*byte)?;
            }
            Ok(())
        }
        Err(_) => Err(Fault::Line),
    }
}

/// The stream of these messages under a prefix.
pub fn spell(
    alloc: Global,
    key: &[u8; 16],
    prefix: &[u8; 8],
    pieces: &[Vec<u8>],
) -> Result<Vec<u8>, Fault> {
    let mut sealer = Sealer::new(key, prefix);
    let mut begin = [0u8; 8];
    sealer.begin(&mut begin);
    let mut stream = begin.to_vec(alloc)?;
    let mut room = Vec::from_elem(alloc, 0xeeu8, MESSAGE_BYTES + 21)?;
    for (i, piece) in pieces.iter().enumerate() {
        let last = pieces.len() - i == 1;
        seal(&mut sealer, piece.as_slice(), last, &mut room, &mut stream)?;
    }
    Ok(stream)
}

/// What an opener took so far.
#[derive(Drop)]
struct Reading {
    opener: Opener,
    room: Vec<u8>,
    released: Vec<u8>,
    ended: bool,
    refused: Option<StreamError>,
}

impl Reading {
    // Feeds bytes: how many were taken. None is taken once there was a refusal.
    fn feed(&mut self, bytes: &[u8]) -> Result<usize, Fault> {
        if self.opener.frames() > 1000 || self.room.len() < 65536 {
            return Err(Fault::Line);
        }
        let answer = self.opener.feed(bytes, &mut self.room);
        match answer {
            Ok(fed) => {
                for byte in self.room.iter().take(fed.written) {
                    self.released.push(*byte)?;
                }
                self.ended = fed.ended;
                Ok(fed.taken)
            }
            Err(refusal) => {
                self.refused = Some(refusal);
                Ok(0)
            }
        }
    }

    // Feeds all of the bytes, at most so many at a time, until a refusal.
    fn feed_all(&mut self, bytes: &[u8], step: usize) -> Result<(), Fault> {
        let mut at = 0usize;
        for _ in 0..bytes.len() {
            let rest = bytes.get(at..).ok_or(Fault::Line)?;
            if rest.is_empty() || self.refused.is_some() {
                break;
            }
            let taken = self.feed(rest.get(..step).unwrap_or(rest))?;
            at = at.saturating_add(taken);
        }
        Ok(())
    }

    // What came out, how many frames, and how it stands; a refusal has to stand at the next call.
    fn told(&mut self, alloc: Global) -> Result<String, Fault> {
        let released = shown(alloc, &self.released)?;
        let frames = self.opener.frames();
        match self.refused {
            Some(refusal) => {
                self.refused = None;
                self.feed(&[])?;
                if self.refused != Some(refusal) {
                    return Ok(format!(in alloc; "{refusal:?} did not stand")?);
                }
                Ok(format!(in alloc; "{released} {frames} {refusal:?}")?)
            }
            None if self.ended => Ok(format!(in alloc; "{released} {frames} ended")?),
            None => Ok(format!(in alloc; "{released} {frames} open")?),
        }
    }
}

/// What an opener makes of bytes, in pieces of each of these lengths.
pub fn unspell(
    alloc: Global,
    key: &[u8; 16],
    bytes: &[u8],
    steps: &[usize],
    ways: &mut Ways,
) -> Result<(), Fault> {
    for step in steps {
        let Ok(opener) = Opener::new(alloc, key) else {
            return Err(Fault::OutOfMemory);
        };
        let mut reading = Reading {
            opener,
            room: Vec::from_elem(alloc, 0xeeu8, MESSAGE_BYTES)?,
            released: Vec::new(alloc),
            ended: false,
            refused: None,
        };
        reading.feed_all(bytes, *step)?;
        let told = reading.told(alloc)?;
        ways.tell("in pieces", told.as_str())?;
    }
    Ok(())
}
