//! What is written of a run, a line an answer.
use crate::words::Fault;
use raf::{Error, ErrorKind, MemIo, Place, RafInfo, RafRng, Replies, Reply, VecRng, Verdict};
use sha2::{Digest, Sha256};
use std::alloc::Global;
use std::str;

/// The lines so far.
#[derive(Drop)]
pub struct Report {
    alloc: Global,
    text: String,
    most: usize,
}

impl Report {
    /// No line. Up to 1024 bytes are written in hex, and of more their number and the first 8 bytes of their SHA-256.
    pub fn new(alloc: Global) -> Report {
        Report {
            alloc,
            text: String::new(alloc),
            most: 1024,
        }
    }

    /// From now on up to so many bytes are written in hex, and nothing is written of what was asked.
    pub fn shorten(&mut self, most: usize) {
        self.most = most;
    }

    // What was asked isn't written.
    fn is_brief(&self) -> bool {
        self.most < 1024
    }

    /// The lines.
    pub fn as_str(&self) -> &str {
        self.text.as_str()
    }

    /// Begins anew.
    pub fn clear(&mut self) {
        self.text.clear();
    }

    /// A line.
    pub fn line(&mut self, line: &str) -> Result<(), Fault> {
        self.text.push_str(line)?;
        self.text.push_str("\n")?;
        Ok(())
    }

    /// Two words.
    pub fn name(&mut self, name: &str, word: &str) -> Result<(), Fault> {
        let line = format!(in self.alloc; "{name} {word}")?;
        self.line(line.as_str())
    }

    /// A name and a number.
    pub fn number(&mut self, name: &str, number: u64) -> Result<(), Fault> {
        let line = format!(in self.alloc; "{name} {number}")?;
        self.line(line.as_str())
    }

    /// That a block of the case has no end.
    pub fn unended(&mut self, name: &str) -> Result<(), Fault> {
        let line = format!(in self.alloc; "case {name} has no end")?;
        self.line(line.as_str())
    }

    /// A name and bytes.
    pub fn bytes(&mut self, name: &str, bytes: &[u8]) -> Result<(), Fault> {
        let line = if bytes.len() > self.most {
            let digest = Sha256::digest(bytes);
            let digits = hex::encode(self.alloc, &digest[..8])?;
            format!(in self.alloc; "{name} {} #{digits}", bytes.len())?
        } else {
            let digits = hex::encode(self.alloc, bytes)?;
            format!(in self.alloc; "{name} {digits}")?
        };
        self.line(line.as_str())
    }

    /// How many bytes a text has, and its lines. A last line that isn't ended is ended here.
    pub fn text(&mut self, text: &[u8]) -> Result<(), Fault> {
        self.number("text", text.len() as u64)?;
        let Ok(lines) = str::from_utf8(text) else {
            return self.bytes("no text", text);
        };
        self.text.push_str(lines)?;
        if !text.is_empty() && !text.ends_with(b"\n") {
            self.text.push_str("\n")?;
        }
        Ok(())
    }

    /// A name and why.
    pub fn kind(&mut self, name: &str, kind: ErrorKind) -> Result<(), Fault> {
        let line = format!(in self.alloc; "{name} {kind:?}")?;
        self.line(line.as_str())
    }

    /// A reply.
    pub fn reply(&mut self, reply: &Reply) -> Result<(), Fault> {
        match reply {
            Reply::Bytes(bytes) => self.bytes("bytes", bytes.as_slice()),
            Reply::Wrote(count) => self.number("wrote", *count as u64),
            Reply::Done => self.line("done"),
            Reply::Size(size) => self.number("size", *size),
            Reply::Verified(None) => self.line("verified"),
            Reply::Verified(Some(index)) => self.number("damaged", *index),
            Reply::Commitment(bytes) => self.bytes("commitment", bytes.as_slice()),
            Reply::Refused(kind) => self.kind("refused", *kind),
        }
    }

    /// How a session ended.
    pub fn outcome(&mut self, outcome: &Result<Replies, Error>) -> Result<(), Fault> {
        match outcome {
            Ok(replies) => {
                for i in 0..replies.len() {
                    if let Some(reply) = replies.get(i) {
                        self.reply(reply)?;
                    }
                }
                Ok(())
            }
            Err(error) => self.kind("error", error.kind()),
        }
    }

    /// What a storage was asked: faults, reach, bytes, changes and reads past the end.
    pub fn asked(&mut self, io: &MemIo) -> Result<(), Fault> {
        if self.is_brief() {
            return Ok(());
        }
        let line = format!(in self.alloc;
            "asked {} {} {} {} {}",
            io.faults(),
            io.reach(),
            io.traffic(),
            io.changes(),
            io.strays()
        )?;
        self.line(line.as_str())
    }

    /// How many random bytes are left.
    pub fn left(&mut self, rng: &mut VecRng) -> Result<(), Fault> {
        if self.is_brief() {
            return Ok(());
        }
        for n in 0..u64::MAX {
            if rng.fill(&mut [0u8]).is_err() {
                return self.number("left", n);
            }
        }
        Ok(())
    }

    // A place of a tree.
    fn place(&mut self, place: Place) -> Result<(), Fault> {
        let word = match place {
            Place::Commitment => format!(in self.alloc; " commitment")?,
            Place::Node { level, index } => format!(in self.alloc; " node {level} {index}")?,
        };
        self.text.push_str(word.as_str())?;
        Ok(())
    }

    /// What a comparison of two files came to.
    pub fn verdict(&mut self, answer: &Result<Verdict, Error>) -> Result<(), Fault> {
        match answer {
            Ok(Verdict::Unequal) => self.line("unequal"),
            Ok(Verdict::Same) => self.line("same"),
            Ok(Verdict::Clash { a, b }) => {
                self.text.push_str("clash")?;
                self.place(*a)?;
                self.place(*b)?;
                self.line("")
            }
            Err(error) => self.kind("refused", error.kind()),
        }
    }

    /// What a header tells.
    pub fn probed(&mut self, answer: &Result<RafInfo, Error>) -> Result<(), Fault> {
        match answer {
            Ok(info) => {
                let line = format!(in self.alloc;
                    "{:?} {} {}",
                    info.algorithm, info.chunk_size, info.file_size
                )?;
                self.line(line.as_str())
            }
            Err(error) => self.kind("error", error.kind()),
        }
    }
}
