//! Cases over an encrypted file: the lines of each say what it is made, opened and asked with, and what comes of it is written.
#![tactic(auto)]

mod bench;
mod cases;
mod comparing;
mod logging;
mod moving;
mod playing;
mod programs;
mod proving;
mod questions;
mod report;
mod steps;
mod words;

use cases::Case;
use report::Report;
use std::io::{self, BufRead, BufReader};
use words::Fault;

fn main(rt: HostRuntime) -> io::Result<()> {
    let alloc = rt.alloc();
    let mut case = Case::new(alloc);
    let mut report = Report::new(alloc);
    let mut number = 0u64;
    for line in BufReader::new(alloc, rt.reader())?.lines(alloc) {
        let line = line?;
        number = number.saturating_add(1);
        let taken = case.take(alloc, line.as_str(), &mut report);
        print!(rt; "{}", report.as_str())?;
        match taken {
            Ok(()) => {}
            Err(Fault::Line) => println!(rt; "line {number} is wrong")?,
            Err(Fault::OutOfMemory) => println!(rt; "no memory at line {number}")?,
        }
        report.clear();
    }
    if case.finish(&mut report).is_err() {
        println!(rt; "no memory at the end")?;
    }
    println!(rt; "{}{} cases", report.as_str(), case.count())
}
