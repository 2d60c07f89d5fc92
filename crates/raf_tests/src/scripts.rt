//! Scripts over a real file of the host, and a reader and a writer of std that fail. The bytes of storages are those of an independent
//! program.
use aegis::raf::FileIo;
use program_io::{Failed, ReadSource, Sink, Source, VecSink, VecSource, WriteSink};
use raf_run::{Words, run};
use std::alloc::{AllocError, Global};
use std::io::{Read, Write};
use std::test::Fail;
use std::{fs, io};

/// The first four lines of each script: a key of bytes 0 to 15, 64 random bytes, all of them zero, and no tree.
const HEAD: &str =
    "alg aegis128l\nkey 000102030405060708090a0b0c0d0e0f\nrandom 00000000000000000000000000000000000000000000000000000000000000000000000000000000000000000000000000000000000000000000000000000000\nmerkle none\n";

/// An empty file of chunk size 16 and zero id.
const EMPTY: &str =
    "5345414c5241463101010000100000000000000000000000000000000000000000000000000000000000000000000000000000000000000000000000000000009fe56d23cdb860f83f14c8cd69efa5e50b15a92481f0c7e752cf7815ce074f49";

/// A file of twenty zeros and 5a.
const GAP: &str =
    "5345414c524146310101000010000000150000000000000000000000000000000000000000000000000000000000000000000000000000000000000000000000f24f6b3c0b44463a1a06c6c8392d2f0160f07396b1f3bf377d22411646c398dc00000000000000000000000000000000af91060083646f2ffa51285ce32c44dd4330611fcaaa04569948ac5a0f0d125b00000000000000000000000000000000af910600d9e14c9da86178d9b801be538dc53cc1ac";

// What a script has behind its fourth line, what it writes, and what the file holds then. A later run finds what an earlier one left.
const RUNS: [(&str, &str, &str); 3] = [
    (
        "create 16\nwrite 20 5a\nsize\nsync\n",
        "wrote 1\nsize 21\ndone\n",
        GAP,
    ),
    (
        "storage -\nread 0 21\n",
        "bytes 00000000000000000000000000000000000000005a\n",
        GAP,
    ),
    ("create 16\n", "", EMPTY),
];

// The words of a script over a path.
fn file_words(alloc: Global, path: &str) -> Result<Words, AllocError> {
    let mut words = Vec::new(alloc);
    words.push(String::from_str(alloc, "file")?)?;
    words.push(String::from_str(alloc, path)?)?;
    Ok(Words::new(words))
}

// What a script writes over the host's file at this path, and its status.
fn ran_over(
    rt: &HostRuntime,
    alloc: Global,
    path: &str,
    rest: &str,
) -> Result<(Vec<u8>, u8), Fail> {
    let mut script = HEAD.as_bytes().to_vec(alloc)?;
    script.extend_from_slice(rest.as_bytes())?;
    let words = file_words(alloc, path)?;
    let disk = FileIo::create(rt, path)?;
    let mut source = VecSource::new(script, Vec::new(alloc));
    let mut sink = VecSink::new(alloc, Vec::new(alloc));
    let ran = run(alloc, &words, &mut source, &mut sink, Some(disk));
    Ok((sink.written().to_vec(alloc)?, ran.status))
}

#[test]
fn scripts_over_a_real_file(rt: HostRuntime) -> Result<(), Fail> {
    let alloc = rt.alloc();
    let path = "scripts.raf";
    for (rest, text, after) in &RUNS {
        let (written, status) = ran_over(&rt, alloc, path, rest)?;
        assert!(rt;
            status == 0 && written.as_slice() == text.as_bytes(),
            "after {rest}"
        );
        assert!(rt;
            fs::read(&rt, path)?.as_slice() == hex::decode(alloc, after)?.as_slice(),
            "after {rest}"
        );
    }
    fs::remove_file(&rt, path)?;
    Ok(())
}

// A reader and a writer of std whose first call fails.
#[derive(Drop)]
struct FailsOnce {
    failed: bool,
}

impl Read for FailsOnce {
    fn read(&mut self, buf: &mut [u8]) -> io::Result<usize> {
        if !self.failed {
            self.failed = true;
            return Err(io::ErrorKind::Other.into());
        }
        buf.fill(7);
        Ok(buf.len())
    }
}

impl Write for FailsOnce {
    fn write(&mut self, buf: &[u8]) -> io::Result<usize> {
        if !self.failed {
            self.failed = true;
            return Err(io::ErrorKind::Other.into());
        }
        Ok(buf.len())
    }

    fn flush(&mut self) -> io::Result<()> {
        Ok(())
    }
}

#[test]
fn a_reader_and_a_writer_of_std_work_again_after_a_fault(rt: HostRuntime) {
    let mut source = ReadSource::new(FailsOnce { failed: false });
    let mut buf = [0; 4];
    assert!(rt; source.read(&mut buf) == Err(Failed));
    assert!(rt; source.read(&mut buf) == Ok(4));
    assert!(rt; buf == [7; 4]);
    let mut sink = WriteSink::new(FailsOnce { failed: false });
    assert!(rt; sink.write(b"text") == Err(Failed));
    assert!(rt; sink.write(b"text") == Ok(4));
}
