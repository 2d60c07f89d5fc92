//! A file of the host as a storage. It tells no bytes, and keeps the counts.
ghost use Rattle.std.specs.Prelude.{◌≡◌, ◌+◌, ◌^◌, ◌<◌, max, IfOk, None};
ghost use Rattle.counts.specs.Counts.{raised, HasCause};
ghost use Rattle.raf_os.specs.Fresh.{IsFresh};

use crate::place::Place;
use crate::whole::{read_whole, write_whole};
use raf_io::RafIo;
use std::fs::{File, OpenOptions};
use std::io;
use std::rt::Files;

/// A file of the host. Each read and each write asks the host at its offset until all bytes are moved, which is one call where the host moves
/// them at once; a call of the host that is interrupted, or that moves nothing, is a fault. The file's own position plays no part. One handle
/// at a time is to stand on a file.
#[derive(Drop)]
pub struct FileIo {
    file: File,
    faults: u64,
    reach: u64,
    traffic: u64,
    changes: u64,
}

impl FileIo {
    /// This file, of which nothing was asked. It must be open for reading and writing.
    pub fn new(file: File) -> FileIo
        ensures file { result.file ≡ file }
        ensures fresh { IsFresh result }
    {
        FileIo {
            file,
            faults: 0,
            reach: 0,
            traffic: 0,
            changes: 0,
        }
    }

    /// The file at this path, for reading and writing. It is made where there is none; what it holds stays. The error is the host's.
    pub fn create<F: Files<File = File>>(rt: &F, path: &str) -> io::Result<FileIo>
        ensures { IfOk result (λ f. IsFresh f) }
    {
        let file = OpenOptions::new()
            .read(true)
            .write(true)
            .create(true)
            .open(rt, path)?;
        Ok(FileIo::new(file))
    }

    /// The file at this path, for reading and writing. The error is the host's: of the kind `NotFound` where there is no such file.
    pub fn open<F: Files<File = File>>(rt: &F, path: &str) -> io::Result<FileIo>
        ensures { IfOk result (λ f. IsFresh f) }
    {
        let file = OpenOptions::new().read(true).write(true).open(rt, path)?;
        Ok(FileIo::new(file))
    }

    // Counts a range that is asked.
    fn ask(&mut self, offset: u64, len: usize)
        requires { offset + len < 2 ^ 64 }
        ensures { self.new ≡ record self.old { reach = max self.old.reach (offset + len); traffic = raised self.old.traffic len } }
    {
        self.reach = self.reach.max(offset + len as u64);
        self.traffic = self.traffic.saturating_add(len as u64);
    }

    // Hands an answer of the host on, and counts a fault where it is an error.
    fn counted<T>(&mut self, answer: io::Result<T>) -> io::Result<T>
        ensures answer { result ≡ answer }
        ensures cause { HasCause self.old.faults self.new.faults result }
        ensures rest { self.new ≡ record self.old { faults = self.new.faults } }
    {
        if answer.is_err() {
            self.faults = self.faults.saturating_add(1);
        }
        answer
    }
}

// How many bytes the file has.
fn size_of(file: &File) -> io::Result<u64> {
    Ok(file.metadata()?.len())
}

impl RafIo for FileIo {
    ghost bytes = { λ _. None };

    ghost durable = { λ _. None };

    ghost faults = { λ f. f.faults };

    ghost reach = { λ f. f.reach };

    ghost traffic = { λ f. f.traffic };

    ghost changes = { λ f. f.changes };

    ghost strays = { λ _. 0 };

    fn read_at(&mut self, buf: &mut [u8], offset: u64) -> io::Result<()> {
        self.ask(offset, buf.len());
        let read = read_whole(&mut Place::new(&self.file, offset), buf);
        self.counted(read)
    }

    fn write_at(&mut self, buf: &[u8], offset: u64) -> io::Result<()> {
        self.ask(offset, buf.len());
        self.changes = self.changes.saturating_add(1);
        let written = write_whole(&mut Place::new(&self.file, offset), buf);
        self.counted(written)
    }

    fn get_size(&mut self) -> io::Result<u64> {
        let size = size_of(&self.file);
        self.counted(size)
    }

    fn set_size(&mut self, size: u64) -> io::Result<()> {
        self.reach = self.reach.max(size);
        self.changes = self.changes.saturating_add(1);
        let resized = self.file.set_len(size);
        self.counted(resized)
    }

    fn sync(&mut self) -> io::Result<()> {
        let synced = self.file.sync_all();
        self.counted(synced)
    }
}
