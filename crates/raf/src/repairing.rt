//! The way back after a change that was cut short: a storage gets the length that its header says.
ghost use Rattle.std.specs.Prelude.{◌≡◌, OnOk, OnErr, IfErr};
ghost use Rattle.std.specs.Option.{option_map};
ghost use Rattle.counts.specs.Counts.{Rose};
ghost use Rattle.raf_format.specs.Cipher.{cipher_of};
ghost use Rattle.raf_io.specs.Kinds.{kind_of};
ghost use Rattle.raf_io.specs.Storage.{Told, Cut, resized};
ghost use Rattle.raf.specs.Outside.{Quiet, Caused, Moved};
ghost use Rattle.raf.specs.Probe.{alone};
ghost use Rattle.raf.specs.Repaired.{Measured, Repaired};

use crate::opening::layout_of;
use crate::probing::{read_head, size_of};
use raf_format::{Algorithm, algorithm_number, header_tag_fits, parse_header};
use raf_io::{Error, ErrorKind, RafIo, Reason};

/// How long a storage is, and how long its header says that it is, in bytes.
#[derive(Clone, Copy, Drop)]
pub struct Lengths {
    /// How long it is.
    pub has: u64,
    /// What the header says.
    pub says: u64,
}

// Looks at a storage's length and at its header, whose tag has to fit.
fn measure<A: Algorithm, I: RafIo>(io: &mut I, key: &A::Key) -> Result<Lengths, Error>
    ensures { Measured (cipher_of A.variant) (A.key_list key.now) (alone I.RafIo io.old) (alone I.RafIo io.new) result }
{
    let has = size_of::<I>(io)?;
    if has < 96 {
        return Err(Error::InvalidArgument(Reason::Header));
    }
    let mut bytes = [0u8; 96];
    read_head::<I>(io, &mut bytes)?;
    let header = match parse_header(&bytes) {
        Ok(header) => header,
        Err(_) => return Err(Error::InvalidArgument(Reason::Header)),
    };
    if header.algorithm != algorithm_number::<A>() {
        return Err(Error::InvalidArgument(Reason::AlgorithmMismatch));
    }
    let says = match layout_of::<A>(&header) {
        Some(len) => len,
        None => return Err(Error::InvalidArgument(Reason::Layout)),
    };
    if !header_tag_fits::<A>(&bytes, key) {
        return Err(Error::AuthenticationFailed);
    }
    Ok(Lengths { has, says })
}

// Cuts a storage down to a length, or adds zeros up to it.
fn set_length<I: RafIo>(io: &mut I, size: u64) -> Result<(), Error>
    ensures resized { OnOk result (I.bytes io.new ≡ option_map (resized size) (I.bytes io.old)) }
    ensures cut { OnErr result (Told (Cut size) (I.bytes io.old) (I.bytes io.new)) }
    ensures failed { IfErr result (λ e. (kind_of e ≡ ErrorKind.Io) × Caused ErrorKind.Io (alone I.RafIo io.old) (alone I.RafIo io.new)) }
    ensures quiet { OnOk result (Quiet (alone I.RafIo io.old) (alone I.RafIo io.new)) }
    ensures moved { Moved (alone I.RafIo io.old) (alone I.RafIo io.new) size 0 0 1 0 }
    ensures began { Rose (I.changes io.old) (I.changes io.new) }
    ensures strays { I.strays io.new ≡ I.strays io.old }
{
    match io.set_size(size) {
        Ok(()) => Ok(()),
        Err(fault) => Err(Error::Io(fault)),
    }
}

/// Gives a storage the length that its header says: a change that was cut short, by a full disk for example, can leave another, and then
/// [`RafBuilder::open`](crate::RafBuilder::open) is refused by `Layout`. Answers whether it had another: if not, nothing is changed. The
/// storage opens to the file of that header, each chunk by its record; one whose record was cut short is missing. No memory is taken.
///
/// Refused, in this order, by `Io` where the storage failed; by `InvalidArgument` of the reasons `Header`, where it begins with no header,
/// `AlgorithmMismatch`, and `Layout`, where the header's numbers pass 2^64 - 1 bytes; and by `AuthenticationFailed` where the header's tag
/// doesn't fit under this key. The storage is then as it was; a resize that failed leaves the bytes that both lengths have.
pub fn repair<A: Algorithm, I: RafIo>(io: &mut I, key: &A::Key) -> Result<bool, Error>
    ensures { Repaired (cipher_of A.variant) (A.key_list key.now) (alone I.RafIo io.old) (alone I.RafIo io.new) result }
{
    let Lengths { has, says } = measure::<A, I>(io, key)?;
    if has == says {
        return Ok(false);
    }
    set_length::<I>(io, says)?;
    Ok(true)
}
