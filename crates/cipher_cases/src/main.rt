//! Cases over the ciphers: each line asks something of them, by every way there is, and one line answers it.
#![tactic(auto)]

mod aes;
mod asking;
mod macs;
mod opening;
mod sealing;
mod streams;
mod ways;
mod words;

use asking::Bench;
use std::io::{self, BufRead, BufReader};
use words::Fault;

fn main(rt: HostRuntime) -> io::Result<()> {
    let alloc = rt.alloc();
    let mut bench = Bench::new(alloc);
    let (mut number, mut cases) = (0u64, 0u64);
    for line in BufReader::new(alloc, rt.reader())?.lines(alloc) {
        let line = line?;
        number = number.saturating_add(1);
        let answer = bench.answer(alloc, line.as_str());
        match answer {
            Ok(Some(answer)) => {
                cases = cases.saturating_add(1);
                println!(rt; "{}", answer.as_str())?;
            }
            Ok(None) => {}
            Err(Fault::Line) => println!(rt; "line {number} is wrong")?,
            Err(Fault::OutOfMemory) => println!(rt; "no memory at line {number}")?,
        }
    }
    println!(rt; "{cases} cases")
}
