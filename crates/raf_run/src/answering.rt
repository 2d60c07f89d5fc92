//! What each word has to answer, and why.
ghost use Rattle.std.specs.Prelude.{◌≡◌, ◌+◌, ◌≤◌, ◌^◌, Some, IfOk, IfErr, length};
ghost use Rattle.aegis_core.specs.Sealing.{key_len};
ghost use Rattle.program_io.specs.Streams.{ConsumesAtMost, intake_of};
ghost use Rattle.raf_format.specs.Numbers.{variant_of};
ghost use Rattle.raf_script.specs.Script.{Reads};
ghost use Rattle.raf_script.specs.Conversion.{ReadsConversion};
ghost use Rattle.raf_script.specs.LogScript.{ReadsLog};
ghost use Rattle.raf_run.specs.Answers.{WasRead, WhyNoText, HasRead, WhyUnread, answer_of};
ghost use Rattle.raf_run.specs.Disk.{disk_of};
ghost use Rattle.raf_run.specs.Run.{ScriptDue, ConvertDue, LogDue, FileDue, CanShow, disks_of};

use crate::answer::Answer;
use crate::converting::run_conversion;
use crate::demo::run_demo;
use crate::logging::run_log;
use crate::running::{Ended, run_in_memory, run_script};
use aegis::raf::RafIo;
use program_io::{ReadError, Source, read_whole};
use raf_script::{
    Conversion, LogScript, Medium, Script, ScriptError, parse, parse_conversion, parse_log,
};
use std::alloc::Global;

/// A text has at most this many bytes.
const MOST: usize = 1 << 26;

// All that a source has left, or the answer where that is no text.
fn read_text<S: Source>(alloc: Global, source: &mut S) -> Result<Vec<u8>, Answer>
    ensures short { IfOk result (λ text. length text.items ≤ 2 ^ 26) }
    ensures text { IfOk result (λ text. WasRead (λ bytes. bytes ≡ text.items) (intake_of S.left S.faults source.old source.new)) }
    ensures answer { IfErr result (WhyNoText (intake_of S.left S.faults source.old source.new)) }
    ensures most { ConsumesAtMost (S.left source.old) (S.left source.new) (2 ^ 26 + 1) }
{
    match read_whole(alloc, source, MOST) {
        Ok(text) => Ok(text),
        Err(ReadError::Failed) => Err(Answer::ReadFault),
        Err(ReadError::TooLong) => Err(Answer::Long),
        Err(ReadError::OutOfMemory) => Err(Answer::OutOfMemory),
    }
}

// The answer to a text that no content was read of.
fn unread(error: ScriptError) -> Answer
    ensures { result ≡ answer_of error }
{
    match error {
        ScriptError::Line(number) => Answer::Wrong(number),
        ScriptError::OutOfMemory => Answer::OutOfMemory,
    }
}

// The script that a source holds, or the answer where it holds none.
fn read_script<S: Source>(alloc: Global, source: &mut S, medium: Medium) -> Result<Script, Answer>
    ensures key { IfOk result (λ s. length s.key ≡ key_len (variant_of s.algorithm)) }
    ensures script { IfOk result (HasRead (Reads medium) (intake_of S.left S.faults source.old source.new)) }
    ensures answer { IfErr result (WhyUnread (Reads medium) (intake_of S.left S.faults source.old source.new)) }
    ensures most { ConsumesAtMost (S.left source.old) (S.left source.new) (2 ^ 26 + 1) }
{
    let text = read_text(alloc, source)?;
    match parse(alloc, &text, medium) {
        Ok(script) => Ok(script),
        Err(error) => Err(unread(error)),
    }
}

/// The answer of the word `script`: the script that the source holds is run in memory.
pub fn answer_script<S: Source>(alloc: Global, source: &mut S) -> Answer
    ensures due { ScriptDue (intake_of S.left S.faults source.old source.new) result }
    ensures most { ConsumesAtMost (S.left source.old) (S.left source.new) (2 ^ 26 + 1) }
{
    match read_script(alloc, source, Medium::Memory) {
        Ok(script) => Answer::Ended(run_in_memory(alloc, script)),
        Err(answer) => answer,
    }
}

// The conversion that a source holds, or the answer where it holds none.
fn read_conversion<S: Source>(alloc: Global, source: &mut S) -> Result<Conversion, Answer>
    ensures old_key { IfOk result (λ c. length c.old_key ≡ key_len (variant_of c.old_algorithm)) }
    ensures key { IfOk result (λ c. length c.key ≡ key_len (variant_of c.algorithm)) }
    ensures conversion { IfOk result (HasRead ReadsConversion (intake_of S.left S.faults source.old source.new)) }
    ensures answer { IfErr result (WhyUnread ReadsConversion (intake_of S.left S.faults source.old source.new)) }
    ensures most { ConsumesAtMost (S.left source.old) (S.left source.new) (2 ^ 26 + 1) }
{
    let text = read_text(alloc, source)?;
    match parse_conversion(alloc, &text) {
        Ok(conversion) => Ok(conversion),
        Err(error) => Err(unread(error)),
    }
}

/// The answer of the word `convert`: the old file that the source holds is moved into a new one, in memory.
pub fn answer_conversion<S: Source>(alloc: Global, source: &mut S) -> Answer
    ensures due { ConvertDue (intake_of S.left S.faults source.old source.new) result }
    ensures most { ConsumesAtMost (S.left source.old) (S.left source.new) (2 ^ 26 + 1) }
{
    match read_conversion(alloc, source) {
        Ok(conversion) => Answer::Ended(run_conversion(alloc, conversion)),
        Err(answer) => answer,
    }
}

// The log's source that a source holds, or the answer where it holds none.
fn read_log<S: Source>(alloc: Global, source: &mut S) -> Result<LogScript, Answer>
    ensures key { IfOk result (λ s. length s.key ≡ key_len (variant_of s.algorithm)) }
    ensures script { IfOk result (HasRead ReadsLog (intake_of S.left S.faults source.old source.new)) }
    ensures answer { IfErr result (WhyUnread ReadsLog (intake_of S.left S.faults source.old source.new)) }
    ensures most { ConsumesAtMost (S.left source.old) (S.left source.new) (2 ^ 26 + 1) }
{
    let text = read_text(alloc, source)?;
    match parse_log(alloc, &text) {
        Ok(script) => Ok(script),
        Err(error) => Err(unread(error)),
    }
}

/// The answer of the word `log`: the commands that the source holds are run in memory.
pub fn answer_log<S: Source>(alloc: Global, source: &mut S) -> Answer
    ensures due { LogDue (intake_of S.left S.faults source.old source.new) result }
    ensures most { ConsumesAtMost (S.left source.old) (S.left source.new) (2 ^ 26 + 1) }
{
    match read_log(alloc, source) {
        Ok(script) => Answer::Logged(run_log(alloc, script)),
        Err(answer) => answer,
    }
}

/// An answer, and the disk as it was left.
#[derive(Drop)]
pub struct Filed<I> {
    /// The answer.
    pub answer: Answer,
    /// The disk.
    pub io: I,
}

/// The answer of the word `file`: the script that the source holds is run over this disk.
pub fn answer_file<S: Source, I: RafIo>(alloc: Global, source: &mut S, io: I) -> Filed<I>
    ensures due { FileDue (disks_of (disk_of I.bytes I.durable I.faults I.reach I.traffic I.changes I.strays) (Some io) (Some result.io))
        (intake_of S.left S.faults source.old source.new) result.answer }
    ensures most { ConsumesAtMost (S.left source.old) (S.left source.new) (2 ^ 26 + 1) }
{
    match read_script(alloc, source, Medium::Disk) {
        Ok(script) => {
            let Ended { outcome, io } = run_script::<I>(alloc, script, io);
            let answer = Answer::Filed(outcome);
            Filed { answer, io }
        }
        Err(answer) => Filed { answer, io },
    }
}

/// The answer of the word `demo`: its commands, with so many writes, are run in memory.
pub fn answer_demo(alloc: Global, writes: u64) -> Answer
    requires { writes ≤ 1000 }
    ensures { CanShow writes result }
{
    match run_demo(alloc, writes) {
        Some(report) => Answer::Shown(report),
        None => Answer::OutOfMemory,
    }
}
