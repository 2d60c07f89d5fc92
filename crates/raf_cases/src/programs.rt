//! A run of the program `raf_tool` over a script, between a source and a sink in memory.
ghost use Rattle.std.specs.Prelude.{Some};

use crate::report::Report;
use crate::words::{Fault, data, number, numbers};
use program_io::{Failed, Sink, Source, VecSink, VecSource};
use raf::MemIo;
use raf_run::{Ran, Words, run};
use std::alloc::{AllocError, Global};
use std::mem;

/// A source or a sink that moves one byte a call.
#[derive(Drop)]
struct OneByte<T> {
    inner: T,
}

impl Source for OneByte<VecSource> {
    ghost left = { λ s. Some s.inner.bytes };

    ghost faults = { λ s. s.inner.faults };

    fn read(&mut self, buf: &mut [u8]) -> Result<usize, Failed> {
        let room = buf.len().min(1);
        self.inner.read(&mut buf[..room])
    }
}

impl Sink for OneByte<VecSink> {
    ghost written = { λ s. Some s.inner.bytes };

    ghost faults = { λ s. s.inner.faults };

    fn write(&mut self, buf: &[u8]) -> Result<usize, Failed> {
        let count = buf.len().min(1);
        self.inner.write(&buf[..count])
    }
}

/// What the program is run with.
#[derive(Drop)]
pub struct Program {
    script: Vec<u8>,
    fail_read: Vec<u64>,
    fail_write: Vec<u64>,
    by_byte: bool,
    as_bytes: bool,
    disk: Option<Vec<u8>>,
}

/// These words after the program's name.
pub fn words_of(alloc: Global, words: &[&str]) -> Result<Words, AllocError> {
    let mut list = Vec::new(alloc);
    for word in words {
        list.push(String::from_str(alloc, word)?)?;
    }
    Ok(Words::new(list))
}

// The disk where there are bytes of one.
fn disk_of(alloc: Global, bytes: Option<Vec<u8>>, fail: Vec<u64>) -> Option<MemIo> {
    match bytes {
        Some(bytes) => Some(MemIo::new(alloc, bytes, fail)),
        None => None,
    }
}

// A run.
fn play<S: Source, K: Sink>(
    alloc: Global,
    words: &Words,
    source: &mut S,
    sink: &mut K,
    disk: Option<MemIo>,
) -> Ran<MemIo> {
    run::<S, K, MemIo>(alloc, words, source, sink, disk)
}

impl Program {
    /// An empty script, no disk, and no call that fails.
    pub fn new(alloc: Global) -> Program {
        Program {
            script: Vec::new(alloc),
            fail_read: Vec::new(alloc),
            fail_write: Vec::new(alloc),
            by_byte: false,
            as_bytes: false,
            disk: None,
        }
    }

    /// Sets what these words say.
    pub fn set(&mut self, alloc: Global, words: &[&str]) -> Result<(), Fault> {
        match words {
            ["disk", word] => self.disk = Some(data(alloc, word)?),
            ["fail-read", calls @ ..] => self.fail_read = numbers(alloc, calls)?,
            ["fail-write", calls @ ..] => self.fail_write = numbers(alloc, calls)?,
            ["by-byte"] => self.by_byte = true,
            ["as-bytes"] => self.as_bytes = true,
            ["source", word] => self.script = data(alloc, word)?,
            ["spaces", count] => {
                self.script = Vec::from_elem(alloc, b' ', number(count)? as usize)?;
            }
            _ => return Err(Fault::Line),
        }
        Ok(())
    }

    /// Changes what the next run reads, as these words say.
    pub fn change(&mut self, words: &[&str]) -> Result<(), Fault> {
        match words {
            ["cut-source", len] => self.script.truncate(number(len)? as usize),
            ["flip-source", offset] => match self.script.get_mut(number(offset)? as usize) {
                Some(place) => *place ^= 1,
                None => return Err(Fault::Line),
            },
            ["more-source"] => self.script.push(0)?,
            _ => return Err(Fault::Line),
        }
        Ok(())
    }

    /// Lets the first call of the source fail.
    pub fn fail_at_once(&mut self) -> Result<(), Fault> {
        Ok(self.fail_read.push(0)?)
    }

    /// Appends a line to the script.
    pub fn take_line(&mut self, line: &str) -> Result<(), Fault> {
        self.script.extend_from_slice(line.as_bytes())?;
        self.script.push(b'\n')?;
        Ok(())
    }

    /// Takes the last byte of the script away, the end of its last line.
    pub fn cut_line(&mut self) {
        let _end = self.script.pop();
    }

    // Tells what a run wrote and answered, and keeps the disk; what was written as bytes is what the next run reads.
    fn finish(
        &mut self,
        had_disk: bool,
        as_bytes: bool,
        ran: Ran<MemIo>,
        written: &[u8],
        report: &mut Report,
    ) -> Result<(), Fault> {
        let Ran { status, disk } = ran;
        if as_bytes {
            self.script.clear();
            self.script.extend_from_slice(written)?;
            report.bytes("written", written)?;
        } else {
            report.text(written)?;
        }
        report.number("status", status as u64)?;
        if let Some(disk) = disk {
            report.asked(&disk)?;
            report.bytes("disk", disk.bytes())?;
            self.disk = Some(disk.into_bytes());
            return Ok(());
        }
        if had_disk {
            report.line("no disk")?;
        }
        Ok(())
    }

    /// Runs the program with these words over the script, and over the disk, whose calls of these numbers fail.
    pub fn run(
        &mut self,
        alloc: Global,
        words: &Words,
        fail: Vec<u64>,
        report: &mut Report,
    ) -> Result<(), Fault> {
        let mut own = mem::replace(self, Program::new(alloc));
        let had_disk = own.disk.is_some();
        let disk = disk_of(alloc, own.disk.take(), fail);
        let mut source = VecSource::new(own.script, own.fail_read);
        let mut sink = VecSink::new(alloc, own.fail_write);
        if own.by_byte {
            let mut source = OneByte { inner: source };
            let mut sink = OneByte { inner: sink };
            let ran = play(alloc, words, &mut source, &mut sink, disk);
            return self.finish(had_disk, own.as_bytes, ran, sink.inner.written(), report);
        }
        let ran = play(alloc, words, &mut source, &mut sink, disk);
        self.finish(had_disk, own.as_bytes, ran, sink.written(), report)
    }
}
