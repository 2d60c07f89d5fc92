//! What a user of the crate may rest on beside the calls.
ghost use Rattle.std.specs.Prelude.{◌≡◌, ◌+◌, ◌^◌, ◌<◌, ◌≤◌, length, OnOk};
ghost use Rattle.raf_io.specs.Storage.{spliced};
ghost use Rattle.raf_format.specs.Cipher.{cipher_of};
ghost use Rattle.raf_format.specs.File.{File, file_of};
ghost use Rattle.raf.specs.Handle.{Holds, HoldsAgain};
ghost use Rattle.raf.specs.Complete.{Complete};
ghost use Rattle.raf.specs.Content.{Contents};
ghost use Rattle.raf.specs.Stepped.{Stepped, write_reply};

use crate::command::Command;
use crate::file::Raf;
use raf_format::Algorithm;
use raf_io::{Error, RafIo, RafRng};
use raf_tree::MerkleHasher;
use std::io::SeekFrom;

/// After `storage_mut`: where the storage's first 96 bytes and its length are as before, and key and header are those kept, the handle
/// holds the file that the bytes are now.
pub fn holds_again<A: Algorithm>()
    ensures { HoldsAgain (cipher_of A.variant) }
{}

/// Puts bytes behind the header, through `storage_mut`, in place of as many that the storage holds: the file is then what the storage holds.
pub fn put_behind<A: Algorithm, I: RafIo, R: RafRng, H: MerkleHasher>(
    file: &mut Raf<A, I, R, H>,
    bytes: &[u8],
    offset: u64,
) -> Result<(), Error>
    requires behind { 96 ≤ offset }
    requires end { offset + length bytes.now < 2 ^ 64 }
    ensures { (F : File) (held : Holds (cipher_of A.variant) file.old F) → offset + length bytes.now ≤ length held.bytes
        → OnOk result (Holds (cipher_of A.variant) file.new
        (file_of (cipher_of A.variant) file.old.key file.old.header (spliced offset bytes.now held.bytes))) }
{
    holds_again::<A>();
    match file.storage_mut().write_at(bytes, offset) {
        Ok(()) => Ok(()),
        Err(fault) => Err(Error::Io(fault)),
    }
}

/// Valid input and no fault: on an open file without the kept mark every valid command is answered, whatever memory there is; and a file
/// is opened or made, and a session answered, but for want of memory.
pub fn complete<A: Algorithm, H: MerkleHasher>()
    ensures { Complete (cipher_of A.variant) H.hashing }
{}

/// The bytes of a file none of whose chunks is missing: what reads and writes do by them; and how reads, one after the other, show that none
/// is.
pub fn contents<A: Algorithm>()
    ensures { Contents (cipher_of A.variant) }
{}

/// Writes bytes at an offset, and reads as many from there: they are the same.
pub fn write_then_read<A: Algorithm, I: RafIo, R: RafRng, H: MerkleHasher>(
    file: &mut Raf<A, I, R, H>,
    bytes: &[u8],
    offset: u64,
    buf: &mut [u8],
) -> Result<(), Error>
    requires { length buf.old ≡ length bytes.now }
    ensures { (F : File) → Holds (cipher_of A.variant) file.old F → OnOk result (buf.new ≡ bytes.now) }
{
    file.write(bytes, offset)?;
    file.read(buf, offset)?;
    Ok(())
}

/// Writes bytes at an offset through a cursor: it states what a write at that offset does.
pub fn write_through<A: Algorithm, I: RafIo, R: RafRng, H: MerkleHasher>(
    file: &mut Raf<A, I, R, H>,
    bytes: &[u8],
    offset: u64,
) -> Result<usize, Error>
    ensures { Stepped (cipher_of A.variant) H.hashing file.old file.new (Command.Write offset bytes.now) (write_reply result) }
{
    let mut cursor = file.cursor();
    cursor.seek(SeekFrom::Start(offset))?;
    cursor.write(bytes)
}
