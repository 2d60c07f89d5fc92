//! A storage whose failures have a kind of their own, and that this kind comes out.
ghost use Rattle.std.specs.Prelude.{◌≡◌, ◌+◌, ◌^◌, ◌<◌};

use crate::given::{SHORT_KEY, counting, empty_file};
use aegis::raf::{Aegis128L, Error, MemIo, NoMerkle, Raf, RafBuilder, RafIo, VecRng, probe};
use std::alloc::Global;
use std::io;
use std::test::Fail;

/// A storage that says, where the one below it fails, that it has no leave.
#[derive(Drop)]
struct Denying<I: RafIo> {
    inner: I,
}

// The failure of this kind.
fn denied() -> io::Error {
    io::Error::from(io::ErrorKind::PermissionDenied)
}

impl<I: RafIo> RafIo for Denying<I> {
    ghost bytes = { λ d. I.bytes d.inner };

    ghost durable = { λ d. I.durable d.inner };

    ghost faults = { λ d. I.faults d.inner };

    ghost reach = { λ d. I.reach d.inner };

    ghost traffic = { λ d. I.traffic d.inner };

    ghost changes = { λ d. I.changes d.inner };

    ghost strays = { λ d. I.strays d.inner };

    fn read_at(&mut self, buf: &mut [u8], offset: u64) -> io::Result<()> {
        match self.inner.read_at(buf, offset) {
            Ok(()) => Ok(()),
            Err(_) => Err(denied()),
        }
    }

    fn write_at(&mut self, buf: &[u8], offset: u64) -> io::Result<()> {
        match self.inner.write_at(buf, offset) {
            Ok(()) => Ok(()),
            Err(_) => Err(denied()),
        }
    }

    fn get_size(&mut self) -> io::Result<u64> {
        match self.inner.get_size() {
            Ok(size) => Ok(size),
            Err(_) => Err(denied()),
        }
    }

    fn set_size(&mut self, size: u64) -> io::Result<()> {
        match self.inner.set_size(size) {
            Ok(()) => Ok(()),
            Err(_) => Err(denied()),
        }
    }

    fn sync(&mut self) -> io::Result<()> {
        match self.inner.sync() {
            Ok(()) => Ok(()),
            Err(_) => Err(denied()),
        }
    }
}

// It is the storage's own error.
fn is_denied(error: &Error) -> bool {
    match error {
        Error::Io(fault) => fault.kind() == io::ErrorKind::PermissionDenied,
        _ => false,
    }
}

// The call was refused by the storage's own error.
fn says_so<T: Drop>(answer: Result<T, Error>) -> bool {
    match answer {
        Ok(_) => false,
        Err(error) => is_denied(&error),
    }
}

/// A file over such a storage.
type Denied = Raf<Aegis128L, Denying<MemIo>, VecRng, NoMerkle>;

// The file of 33 bytes in chunks of 16 in a storage that fails at this call.
fn stored(alloc: Global, fail: u64) -> Result<Denying<MemIo>, Fail> {
    let mut file = empty_file(alloc, 48)?;
    file.write(&[7; 33], 0)?;
    let storage = file.into_io().into_bytes();
    Ok(Denying {
        inner: MemIo::new(alloc, storage, vec![in alloc; fail]?),
    })
}

// That file, or why it isn't opened.
fn opened(alloc: Global, fail: u64) -> Result<Result<Denied, Error>, Fail> {
    let builder = RafBuilder::<Aegis128L, VecRng, NoMerkle>::new(VecRng::new(counting(alloc, 64)?));
    match builder.open::<Denying<MemIo>>(alloc, stored(alloc, fail)?, &SHORT_KEY) {
        Ok(file) => Ok(Ok(file)),
        Err(refused) => Ok(Err(refused.error)),
    }
}

/// A call on that file.
#[derive(Clone, Copy, Debug)]
enum Asked {
    Probe,
    Open,
    Read,
    Sync,
    Write,
    Cut,
}

// Whether the call is refused by the storage's own error, where the storage fails at this call of its own.
fn denies(alloc: Global, asked: Asked, fail: u64) -> Result<bool, Fail> {
    if let Asked::Probe = asked {
        return Ok(says_so(probe(&mut stored(alloc, fail)?)));
    }
    let mut file = match opened(alloc, fail)? {
        Ok(file) => file,
        Err(error) => return Ok(matches!(asked, Asked::Open) && is_denied(&error)),
    };
    let mut buf = [0u8; 16];
    Ok(match asked {
        Asked::Probe | Asked::Open => false,
        Asked::Read => says_so(file.read(&mut buf, 0)),
        Asked::Sync => says_so(file.sync()),
        Asked::Write => says_so(file.write(&[1], 33)),
        Asked::Cut => says_so(file.truncate(16)),
    })
}

// Opening asks twice, so calls on an open file begin at 2. A write of one byte at the end reads and writes the last record, and writes
// the header; a cut to 16 writes the header and ends with the cut.
const CALLS: [(Asked, u64); 11] = [
    (Asked::Probe, 0),
    (Asked::Probe, 1),
    (Asked::Open, 0),
    (Asked::Open, 1),
    (Asked::Read, 2),
    (Asked::Sync, 2),
    (Asked::Write, 2),
    (Asked::Write, 3),
    (Asked::Write, 4),
    (Asked::Cut, 2),
    (Asked::Cut, 3),
];

#[test]
fn the_storages_own_error_comes_out(rt: HostRuntime) -> Result<(), Fail> {
    let alloc = rt.alloc();
    for (asked, fail) in CALLS {
        assert!(rt; denies(alloc, asked, fail)?, "{asked:?}, call {fail}");
    }
    Ok(())
}
