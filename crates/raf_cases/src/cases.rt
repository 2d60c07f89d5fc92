//! The lines of cases, one after the other.
use crate::bench::Bench;
use crate::comparing::play_both;
use crate::moving::play_moved;
use crate::playing::{Mode, play_hashed};
use crate::programs::{Program, words_of};
use crate::questions::ask;
use crate::report::Report;
use crate::steps::{Step, step_of};
use crate::words::{Fault, key_of, number};
use raf::{
    Aegis128L, Aegis128X2, Aegis128X4, Aegis256, Aegis256X2, Aegis256X4, AlgorithmId, unprotected,
};
use raf_run::Words;
use std::alloc::Global;
use std::mem;

/// What the lines up to `end` are for.
#[derive(Clone, Copy, PartialEq, Eq)]
enum Block {
    /// What a file is asked.
    Steps(Mode),
    /// What two files are asked, after they were compared.
    Both,
    /// What two files are asked, after the first was moved into the second by pieces of so many bytes.
    Moved(usize),
    /// What the program reads.
    Program,
}

/// The case that is read.
#[derive(Drop)]
pub struct Case {
    bench: Bench,
    other: Bench,
    program: Program,
    block: Option<Block>,
    words: Words,
    steps: Vec<Step>,
    name: String,
    count: u64,
}

// Runs the steps by the bench's algorithm.
fn play(
    alloc: Global,
    bench: &mut Bench,
    mode: Mode,
    steps: Vec<Step>,
    report: &mut Report,
) -> Result<(), Fault> {
    if bench.unprotected {
        return play_unprotected(alloc, bench, mode, steps, report);
    }
    match bench.algorithm {
        AlgorithmId::Aegis128L => {
            let key = key_of::<16>(&bench.key)?;
            play_hashed::<Aegis128L>(alloc, bench, &key, mode, steps, report)
        }
        AlgorithmId::Aegis128X2 => {
            let key = key_of::<16>(&bench.key)?;
            play_hashed::<Aegis128X2>(alloc, bench, &key, mode, steps, report)
        }
        AlgorithmId::Aegis128X4 => {
            let key = key_of::<16>(&bench.key)?;
            play_hashed::<Aegis128X4>(alloc, bench, &key, mode, steps, report)
        }
        AlgorithmId::Aegis256 => {
            let key = key_of::<32>(&bench.key)?;
            play_hashed::<Aegis256>(alloc, bench, &key, mode, steps, report)
        }
        AlgorithmId::Aegis256X2 => {
            let key = key_of::<32>(&bench.key)?;
            play_hashed::<Aegis256X2>(alloc, bench, &key, mode, steps, report)
        }
        AlgorithmId::Aegis256X4 => {
            let key = key_of::<32>(&bench.key)?;
            play_hashed::<Aegis256X4>(alloc, bench, &key, mode, steps, report)
        }
    }
}

// Runs the steps by one of two algorithms over the block that looks its tables up by secrets.
fn play_unprotected(
    alloc: Global,
    bench: &mut Bench,
    mode: Mode,
    steps: Vec<Step>,
    report: &mut Report,
) -> Result<(), Fault> {
    match bench.algorithm {
        AlgorithmId::Aegis128L => {
            let key = key_of::<16>(&bench.key)?;
            play_hashed::<unprotected::Aegis128L>(alloc, bench, &key, mode, steps, report)
        }
        AlgorithmId::Aegis256X4 => {
            let key = key_of::<32>(&bench.key)?;
            play_hashed::<unprotected::Aegis256X4>(alloc, bench, &key, mode, steps, report)
        }
        _ => Err(Fault::Line),
    }
}

// The block that begins with these words.
fn block_of(words: &[&str]) -> Option<Block> {
    match words {
        ["create"] => Some(Block::Steps(Mode::Create)),
        ["open"] => Some(Block::Steps(Mode::Open)),
        ["cursor"] => Some(Block::Steps(Mode::Cursor)),
        ["session"] => Some(Block::Steps(Mode::Session)),
        ["log"] => Some(Block::Steps(Mode::Log)),
        ["log-session"] => Some(Block::Steps(Mode::LogSession)),
        ["clash"] => Some(Block::Both),
        _ => None,
    }
}

impl Case {
    /// No case so far.
    pub fn new(alloc: Global) -> Case {
        Case {
            bench: Bench::new(alloc),
            other: Bench::new(alloc),
            program: Program::new(alloc),
            block: None,
            words: Words::new(Vec::new(alloc)),
            steps: Vec::new(alloc),
            name: String::new(alloc),
            count: 0,
        }
    }

    /// Ends the case, and tells where a block of it has no end.
    pub fn finish(&mut self, report: &mut Report) -> Result<(), Fault> {
        if self.block.is_some() {
            report.unended(self.name.as_str())?;
        }
        self.block = None;
        Ok(())
    }

    /// How many cases have begun.
    pub fn count(&self) -> u64 {
        self.count
    }

    // Begins a case of this name.
    fn begin(&mut self, alloc: Global, name: &str, report: &mut Report) -> Result<(), Fault> {
        self.finish(report)?;
        let count = self.count.saturating_add(1);
        *self = Case::new(alloc);
        self.count = count;
        self.name.push_str(name)?;
        report.shorten(1024);
        report.name("case", name)
    }

    // Runs the program with these words.
    fn run_program(
        &mut self,
        alloc: Global,
        words: &Words,
        report: &mut Report,
    ) -> Result<(), Fault> {
        let fail = self.bench.take_fail(alloc);
        self.program.run(alloc, words, fail, report)
    }

    // Begins a block for the program, which is run with these words at its end.
    fn begin_program(&mut self, alloc: Global, words: &[&str]) -> Result<(), Fault> {
        self.words = words_of(alloc, words)?;
        self.block = Some(Block::Program);
        Ok(())
    }

    // Does what the block asks for, at its end.
    fn run(&mut self, alloc: Global, block: Block, report: &mut Report) -> Result<(), Fault> {
        self.block = None;
        match block {
            Block::Steps(mode) => {
                let steps = mem::replace(&mut self.steps, Vec::new(alloc));
                play(alloc, &mut self.bench, mode, steps, report)
            }
            Block::Both => {
                let steps = mem::replace(&mut self.steps, Vec::new(alloc));
                play_both(alloc, &mut self.bench, &mut self.other, &steps, report)
            }
            Block::Moved(room) => {
                let steps = mem::replace(&mut self.steps, Vec::new(alloc));
                play_moved(
                    alloc,
                    &mut self.bench,
                    &mut self.other,
                    room,
                    &steps,
                    report,
                )
            }
            Block::Program => {
                let words = mem::replace(&mut self.words, Words::new(Vec::new(alloc)));
                self.run_program(alloc, &words, report)
            }
        }
    }

    // A line of a block.
    fn take_inside(
        &mut self,
        alloc: Global,
        block: Block,
        line: &str,
        words: &[&str],
        report: &mut Report,
    ) -> Result<(), Fault> {
        match (block, words) {
            (_, ["end"]) => self.run(alloc, block, report),
            (Block::Program, ["end", "unended"]) => {
                self.program.cut_line();
                self.run(alloc, block, report)
            }
            (Block::Program, _) => self.program.take_line(line),
            (_, [] | ["#", ..]) => Ok(()),
            _ => Ok(self.steps.push(step_of(alloc, words)?)?),
        }
    }

    // A line outside of blocks.
    fn take_outside(
        &mut self,
        alloc: Global,
        words: &[&str],
        report: &mut Report,
    ) -> Result<(), Fault> {
        if let Some(block) = block_of(words) {
            self.block = Some(block);
            return Ok(());
        }
        match words {
            [] | ["#", ..] => Ok(()),
            ["brief", most] => {
                report.shorten(number(most)? as usize);
                Ok(())
            }
            ["other"] => {
                mem::swap(&mut self.bench, &mut self.other);
                Ok(())
            }
            ["words", words @ ..] => {
                self.program.fail_at_once()?;
                self.run_program(alloc, &words_of(alloc, words)?, report)
            }
            ["script"] => self.begin_program(alloc, &["script"]),
            ["file"] => self.begin_program(alloc, &["file", "disk"]),
            ["run", words @ ..] => self.begin_program(alloc, words),
            ["convert", room] => {
                self.block = Some(Block::Moved(number(room)? as usize));
                Ok(())
            }
            ["cut-source" | "flip-source" | "more-source", ..] => self.program.change(words),
            [
                "disk" | "fail-read" | "fail-write" | "by-byte" | "spaces" | "source" | "as-bytes",
                ..
            ] => { self.program.set(alloc, words) }
            _ => ask(alloc, &mut self.bench, words, report),
        }
    }

    /// Does what a line says.
    pub fn take(&mut self, alloc: Global, line: &str, report: &mut Report) -> Result<(), Fault> {
        let words: Vec<&str> = line.split_whitespace().collect(alloc)?;
        match (words.as_slice(), self.block) {
            (["case", name], _) => self.begin(alloc, name, report),
            (words, Some(block)) => self.take_inside(alloc, block, line, words, report),
            (words, None) => self.take_outside(alloc, words, report),
        }
    }
}
