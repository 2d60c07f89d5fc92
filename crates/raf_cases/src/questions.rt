//! Lines that ask one thing: what a header tells, a derived key, the length of a storage, what a proof shows; and the repair of a storage.
use crate::bench::Bench;
use crate::proving::{ask_changed, ask_check};
use crate::report::Report;
use crate::words::{Fault, chunk_size_of, data, key_of, number};
use raf::{Aegis128L, Aegis256, AlgorithmId, MemIo, derive_key, probe, repair};
use raf_format::layout_len;
use std::alloc::Global;

// What the header of the bench's storage tells.
fn ask_probe(alloc: Global, bench: &mut Bench, report: &mut Report) -> Result<(), Fault> {
    let storage = bench.take_storage(alloc);
    let mut io = MemIo::new(alloc, storage, bench.take_fail(alloc));
    let answer = probe(&mut io);
    bench.storage = io.into_bytes();
    report.probed(&answer)
}

// A key that is derived from a key of 16, 24 or 32 bytes for a context.
fn ask_key(key: &[u8], context: &[u8], report: &mut Report) -> Result<(), Fault> {
    match key.len() {
        16 => match derive_key(&key_of::<16>(key)?, context) {
            Ok(derived) => report.bytes("key", derived.as_slice()),
            Err(error) => report.kind("refused", error.kind()),
        },
        24 => match derive_key(&key_of::<24>(key)?, context) {
            Ok(derived) => report.bytes("key", derived.as_slice()),
            Err(error) => report.kind("refused", error.kind()),
        },
        32 => match derive_key(&key_of::<32>(key)?, context) {
            Ok(derived) => report.bytes("key", derived.as_slice()),
            Err(error) => report.kind("refused", error.kind()),
        },
        _ => Err(Fault::Line),
    }
}

// How long the storage of a file of this size is, by the lengths of nonces, tags and chunks.
fn ask_layout(
    lengths: (&str, &str),
    chunk_size: u32,
    size: u64,
    report: &mut Report,
) -> Result<(), Fault> {
    if chunk_size < 16 || chunk_size > 1048576 {
        return Err(Fault::Line);
    }
    let len = match lengths {
        ("16", "16") => layout_len(16, 16, chunk_size, size),
        ("16", "32") => layout_len(16, 32, chunk_size, size),
        ("32", "16") => layout_len(32, 16, chunk_size, size),
        ("32", "32") => layout_len(32, 32, chunk_size, size),
        _ => return Err(Fault::Line),
    };
    match len {
        Some(len) => report.number("length", len),
        None => report.line("no length"),
    }
}

// Gives the bench's storage the length that its header says, under algorithm 1 or 4.
fn ask_repair(alloc: Global, bench: &mut Bench, report: &mut Report) -> Result<(), Fault> {
    let storage = bench.take_storage(alloc);
    let mut io = MemIo::new(alloc, storage, bench.take_fail(alloc));
    let answer = match bench.algorithm {
        AlgorithmId::Aegis128L => {
            repair::<Aegis128L, MemIo>(&mut io, &key_of::<16>(&bench.key)?)
        }
        AlgorithmId::Aegis256 => repair::<Aegis256, MemIo>(&mut io, &key_of::<32>(&bench.key)?),
        _ => return Err(Fault::Line),
    };
    match answer {
        Ok(true) => report.line("repaired")?,
        Ok(false) => report.line("nothing to repair")?,
        Err(error) => report.kind("refused", error.kind())?,
    }
    report.asked(&io)?;
    report.bytes("storage", io.bytes())?;
    bench.storage = io.into_bytes();
    Ok(())
}

/// Answers what these words ask, or sets what they say.
pub fn ask(
    alloc: Global,
    bench: &mut Bench,
    words: &[&str],
    report: &mut Report,
) -> Result<(), Fault> {
    match words {
        ["probe"] => ask_probe(alloc, bench, report),
        ["repair"] => ask_repair(alloc, bench, report),
        ["derive", key, context] => ask_key(&data(alloc, key)?, &data(alloc, context)?, report),
        ["layout", nonce_len, tag_len, chunk_size, size] => {
            let chunk_size = chunk_size_of(chunk_size)?;
            ask_layout((*nonce_len, *tag_len), chunk_size, number(size)?, report)
        }
        ["check", commitment, chunk, proof] => {
            let (commitment, chunk) = (data(alloc, commitment)?, data(alloc, chunk)?);
            ask_check(
                alloc,
                bench,
                &commitment,
                &chunk,
                &data(alloc, proof)?,
                report,
            )
        }
        ["check-changed", commitment, chunk, proof] => {
            let (commitment, chunk) = (data(alloc, commitment)?, data(alloc, chunk)?);
            ask_changed(alloc, &commitment, &chunk, &data(alloc, proof)?, report)
        }
        _ => bench.set(alloc, words),
    }
}
