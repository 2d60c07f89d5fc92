//! A file that is moved into an empty one: to another key, algorithm, chunk size or version.
ghost use Rattle.std.specs.Prelude.{◌≡◌, ◌<◌, ◌+◌, ◌≤◌, length, false, Ok, Err, IfOk};
ghost use Rattle.raf_format.specs.Cipher.{cipher_of};
ghost use Rattle.raf.specs.Converted.{Converted};
ghost use Rattle.raf.specs.Converting.{Passed};

use crate::file::Raf;
use raf_format::Algorithm;
use raf_io::{Error, RafIo, RafRng};
use raf_tree::MerkleHasher;

/// Which of the two files of a conversion.
#[derive(Clone, Copy, Debug, PartialEq, Eq)]
pub enum Side {
    /// The old one, which is read.
    From,
    /// The new one, which is written.
    To,
}

/// Why a file was not moved, or no more than its front.
#[derive(Debug, Drop)]
pub struct ConvertError {
    /// The file whose call was refused.
    pub side: Side,
    /// Why.
    pub error: Error,
}

// One piece: read of the old file and written to the new one, both at the same offset. It answers how many bytes it has.
fn pass<
    A1: Algorithm,
    I1: RafIo,
    R1: RafRng,
    H1: MerkleHasher,
    A2: Algorithm,
    I2: RafIo,
    R2: RafRng,
    H2: MerkleHasher,
>(
    from: &mut Raf<A1, I1, R1, H1>,
    to: &mut Raf<A2, I2, R2, H2>,
    piece: &mut [u8],
    offset: u64,
) -> Result<usize, ConvertError>
    ensures passed { Passed (cipher_of A1.variant) (cipher_of A2.variant) H1.hashing H2.hashing from.old from.new to.old to.new offset
        (length piece.old) result }
    ensures count { IfOk result (λ n. n ≤ length piece.old) }
{
    let count = match from.read(piece, offset) {
        Ok(count) => count,
        Err(error) => {
            return Err(ConvertError {
                side: Side::From,
                error,
            });
        }
    };
    match to.write(&piece[..count], offset) {
        Ok(_) => Ok(count),
        Err(error) => Err(ConvertError {
            side: Side::To,
            error,
        }),
    }
}

/// Moves the bytes of an open file into another one, which is empty: for each piece of `buf.len()` bytes in rising order, the last one as
/// short as the size says, one [`Raf::read`] of `from` and one [`Raf::write`] of `to` at the same offset. `to` keeps its own key,
/// algorithm, version, chunk size and id. It takes no memory.
///
/// It is refused, in this order, by `Broken` of `from` and then of `to`, where an earlier change of that file was cut short; by `Overflow`
/// of `to`, where that can't be as long as `from` is ([`Raf::admits`]); and piece by piece by what `read` refuses of `from`, and then by
/// what `write` refuses of `to`. The bytes of `from` never change. After a refusal of `from`, `to` holds the bytes of the pieces before.
pub fn convert<
    A1: Algorithm,
    I1: RafIo,
    R1: RafRng,
    H1: MerkleHasher,
    A2: Algorithm,
    I2: RafIo,
    R2: RafRng,
    H2: MerkleHasher,
>(
    from: &mut Raf<A1, I1, R1, H1>,
    to: &mut Raf<A2, I2, R2, H2>,
    buf: &mut [u8],
) -> Result<(), ConvertError>
    requires empty { to.old.header.file_size ≡ 0 }
    requires room { 0 < length buf.old }
    ensures { Converted (cipher_of A1.variant) (cipher_of A2.variant) H1.hashing H2.hashing (length buf.old) from.old from.new to.old to.new
        result }
{
    if from.is_broken() {
        return Err(ConvertError {
            side: Side::From,
            error: Error::Broken,
        });
    }
    if to.is_broken() {
        return Err(ConvertError {
            side: Side::To,
            error: Error::Broken,
        });
    }
    let size = from.size();
    if !to.admits(size) {
        return Err(ConvertError {
            side: Side::To,
            error: Error::Overflow,
        });
    }
    let mut offset = 0;
    while offset < size {
        let len = (size - offset).min(buf.len() as u64) as usize;
        offset += pass(from, to, &mut buf[..len], offset)? as u64;
    }
    Ok(())
}
