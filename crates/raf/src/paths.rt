//! Encrypted files at paths of the host.
ghost use Rattle.std.specs.Prelude.{◌≡◌, Some, None, true, IfOk, IfErr};
ghost use Rattle.raf_format.specs.Cipher.{cipher_of};
ghost use Rattle.raf_io.specs.Kinds.{kind_of};
ghost use Rattle.raf.specs.Opening.{Made, NotMade, Opened, NotOpened};
ghost use Rattle.raf.specs.Paths.{FromNew, RefusedAt, Shows, IsOfHost};

use crate::builder::{OpenError, RafBuilder};
use crate::file::Raf;
use raf_format::Algorithm;
use raf_io::{Error, RafIo, RafRng};
use raf_os::FileIo;
use raf_tree::{MerkleHasher, NoMerkle};
use std::alloc::Global;
use std::fs::File;
use std::io;
use std::io::ErrorKind as IoKind;
use std::rt::Files;

/// Why there is no encrypted file at a path, and what was opened and handed in.
#[derive(Drop)]
pub struct PathError<R: RafRng> {
    /// Why.
    pub error: Error,
    /// The file of the host, or None exactly where the host opened none.
    pub io: Option<FileIo>,
    /// The random source.
    pub rng: R,
}

// What the host said where it opened no file.
fn error_of(fault: io::Error) -> Error
    ensures { IsOfHost fault result }
{
    if fault.kind() == IoKind::NotFound {
        Error::NotFound
    } else {
        Error::Io(fault)
    }
}

impl<R: RafRng> PathError<R> {
    // The host opened no file.
    fn unopened(fault: io::Error, rng: R) -> PathError<R>
        ensures error { IsOfHost fault result.error }
        ensures io { result.io ≡ None }
        ensures rng { result.rng ≡ rng }
    {
        PathError {
            error: error_of(fault),
            io: None,
            rng,
        }
    }

    // A file of the host became no encrypted file.
    fn refused(refusal: OpenError<FileIo, R, NoMerkle>) -> PathError<R>
        ensures { (file : FileIo) × (result.io ≡ Some file) × Shows ⟦<FileIo as RafIo>⟧ R.RafRng file result.rng refusal.outside
            × (kind_of result.error ≡ refusal.kind) }
    {
        let OpenError {
            error,
            io,
            rng,
            hasher: _,
        } = refusal;
        PathError {
            error,
            io: Some(io),
            rng,
        }
    }
}

impl<A: Algorithm, R: RafRng> Raf<A, FileIo, R, NoMerkle> {
    /// Makes an empty encrypted file at a path, in place of what is there, with chunks of 65536 bytes. Refused by `NotFound` where the
    /// host says that there is no such path, and by `Io` where it opens no file otherwise; and as [`RafBuilder::create`].
    pub fn create_file<F: Files<File = File>>(
        rt: &F,
        alloc: Global,
        path: &str,
        key: &A::Key,
        rng: R,
    ) -> Result<Raf<A, FileIo, R, NoMerkle>, PathError<R>>
        ensures made { IfOk result (λ raf. FromNew R.RafRng rng (λ s old. Made (cipher_of A.variant) ⟦<NoMerkle as MerkleHasher>⟧.hashing
            (A.key_list key.now) (record s { truncate = true }) old raf)) }
        ensures refused { IfErr result (λ e. RefusedAt ⟦<FileIo as RafIo>⟧ R.RafRng rng
            (λ s. NotMade ⟦<NoMerkle as MerkleHasher>⟧.hashing (record s { truncate = true })) e) }
    {
        let io = match FileIo::create(rt, path) {
            Ok(io) => io,
            Err(fault) => return Err(PathError::unopened(fault, rng)),
        };
        let builder = RafBuilder::<A, R, NoMerkle>::new(rng).truncate(true);
        match builder.create(alloc, io, key) {
            Ok(file) => Ok(file),
            Err(refusal) => Err(PathError::refused(refusal)),
        }
    }

    /// Opens the encrypted file at a path. Refused by `NotFound` where the host says that there is no such path, and by `Io` where it
    /// opens no file otherwise; and as [`RafBuilder::open`].
    pub fn open_file<F: Files<File = File>>(
        rt: &F,
        alloc: Global,
        path: &str,
        key: &A::Key,
        rng: R,
    ) -> Result<Raf<A, FileIo, R, NoMerkle>, PathError<R>>
        ensures opened { IfOk result (λ raf. FromNew R.RafRng rng (λ _ old. Opened (cipher_of A.variant)
            ⟦<NoMerkle as MerkleHasher>⟧.hashing (A.key_list key.now) None old raf)) }
        ensures refused { IfErr result (λ e. RefusedAt ⟦<FileIo as RafIo>⟧ R.RafRng rng
            (λ _. NotOpened (cipher_of A.variant) ⟦<NoMerkle as MerkleHasher>⟧.hashing (A.key_list key.now) None) e) }
    {
        let io = match FileIo::open(rt, path) {
            Ok(io) => io,
            Err(fault) => return Err(PathError::unopened(fault, rng)),
        };
        let builder = RafBuilder::<A, R, NoMerkle>::new(rng);
        match builder.open(alloc, io, key) {
            Ok(file) => Ok(file),
            Err(refusal) => Err(PathError::refused(refusal)),
        }
    }
}
