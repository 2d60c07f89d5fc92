//! The program `raf_tool`: a script of commands over an encrypted file, in memory or on a disk, in, and its replies, out.
#![tactic(auto)]

use program_io::{ReadSource, WriteSink};
use raf_os::FileIo;
use raf_run::{Words, run};
use std::alloc::AllocError;
use std::fs::File;
use std::process::ExitCode;
use std::rt::Files;
use std::{env, io};

// The words after the program's name. Words that are no text are a form of none, so none of them are kept.
fn words_of(rt: &HostRuntime) -> Result<Words, AllocError> {
    let mut words = Vec::new(rt.alloc());
    match env::args(rt) {
        Ok(args) => {
            for word in args.skip(1) {
                words.push(word)?;
            }
            Ok(Words::new(words))
        }
        Err(error) if error.kind() == io::ErrorKind::OutOfMemory => Err(AllocError),
        Err(_) => Ok(Words::new(words)),
    }
}

// The disk that the words ask for. A file is made where there is none; where the host refuses, there is no disk.
fn disk_of<F: Files<File = File>>(rt: &F, words: &Words) -> Option<FileIo> {
    FileIo::create(rt, words.path()?).ok()
}

fn main(rt: HostRuntime) -> ExitCode {
    let Ok(words) = words_of(&rt) else {
        return ExitCode::from(7);
    };
    let disk = disk_of(&rt, &words);
    let mut source = ReadSource::new(rt.reader());
    let mut sink = WriteSink::new(io::writer(&rt));
    let ran = run(rt.alloc(), &words, &mut source, &mut sink, disk);
    ExitCode::from(ran.status)
}
