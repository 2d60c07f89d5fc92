//! What the program does, as a library: words, a source and a disk in, texts and a status out.
#![tactic(auto)]

mod answer;
mod answering;
mod converting;
mod demo;
mod log_output;
mod logging;
mod output;
mod program;
mod running;
mod seed;
mod telling;
mod words;

pub use program::{Ran, run};
pub use words::{Form, Words};
