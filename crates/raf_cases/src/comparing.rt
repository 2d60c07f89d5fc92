//! Two files that are compared, and asked afterwards.
use crate::bench::{Bench, Hashing};
use crate::playing::{Counted, File, builder_of, take};
use crate::report::Report;
use crate::steps::Step;
use crate::words::{Fault, key_of};
use raf::{
    Aegis128L, Aegis256X2, Algorithm, AlgorithmId, FakeHasher, MemIo, NoMerkle, OpenError, Parts,
    RafBuilder, RafIo, Sha256Hasher, VecRng, clash,
};
use std::alloc::Global;

/// The file in a bench's storage, or None where it is refused, which is told.
pub fn open<A: Algorithm, H: Counted>(
    alloc: Global,
    bench: &mut Bench,
    builder: RafBuilder<A, VecRng, H>,
    key: &A::Key,
    report: &mut Report,
) -> Result<Option<File<A, H>>, Fault> {
    let storage = bench.take_storage(alloc);
    let io = MemIo::new(alloc, storage, bench.take_fail(alloc));
    match builder.open::<MemIo>(alloc, io, key) {
        Ok(file) => Ok(Some(file)),
        Err(refused) => {
            report.kind("error", refused.error.kind())?;
            let OpenError {
                error: _,
                io,
                rng: _,
                hasher: _,
            } = refused;
            bench.storage = io.into_bytes();
            Ok(None)
        }
    }
}

// Changes a byte of a storage that a file is open over.
fn damage(io: &mut MemIo, place: Option<(u64, u8)>) -> Result<(), Fault> {
    let Some((offset, mask)) = place else {
        return Ok(());
    };
    let Some(byte) = io.bytes().get(offset as usize) else {
        return Err(Fault::Line);
    };
    let byte = *byte ^ mask;
    match io.write_at(&[byte], offset) {
        Ok(()) => Ok(()),
        Err(_) => Err(Fault::Line),
    }
}

/// Takes the steps on a file, and closes it. Tells what its storage holds, and where more was asked than may be.
pub fn close<A: Algorithm, H: Counted>(
    alloc: Global,
    bench: &mut Bench,
    mut file: File<A, H>,
    steps: &[Step],
    report: &mut Report,
) -> Result<(), Fault> {
    for step in steps {
        take::<A, H>(alloc, &mut file, step, report)?;
    }
    let Parts { io, rng: _, hasher } = file.close();
    if let Some(hasher) = &hasher
        && bench.most_hashes < hasher.count()
    {
        report.line("too many hashes")?;
    }
    report.bytes("storage", io.bytes())?;
    bench.storage = io.into_bytes();
    Ok(())
}

// How many bytes were read and written so far.
fn moved<A: Algorithm, H: Counted>(file: &mut File<A, H>) -> u64 {
    file.storage_mut().traffic()
}

// How many bytes the records have.
fn records_len<A: Algorithm, H: Counted>(file: &mut File<A, H>) -> u64 {
    (file.storage_mut().bytes().len() as u64).saturating_sub(96)
}

// Compares two files, and tells where more bytes were read than their records have.
fn compare<A: Algorithm, B: Algorithm, H: Counted>(
    first: &mut File<A, H>,
    second: &mut File<B, H>,
    report: &mut Report,
) -> Result<(), Fault> {
    let moved_before = (moved::<A, H>(first), moved::<B, H>(second));
    let answer = clash::<A, MemIo, VecRng, B, MemIo, VecRng, H>(first, second);
    report.verdict(&answer)?;
    let read = moved::<A, H>(first).saturating_sub(moved_before.0);
    let read_of_second = moved::<B, H>(second).saturating_sub(moved_before.1);
    if records_len::<A, H>(first) < read || records_len::<B, H>(second) < read_of_second {
        report.line("too many bytes")?;
    }
    Ok(())
}

// Opens both files, compares them, and takes the steps on each.
fn play_two<A: Algorithm, B: Algorithm, H: Counted>(
    alloc: Global,
    benches: (&mut Bench, &mut Bench),
    builders: (RafBuilder<A, VecRng, H>, RafBuilder<B, VecRng, H>),
    keys: (&A::Key, &B::Key),
    steps: &[Step],
    report: &mut Report,
) -> Result<(), Fault> {
    let (bench, other_bench) = benches;
    let file = open::<A, H>(alloc, bench, builders.0, keys.0, report)?;
    let other = open::<B, H>(alloc, other_bench, builders.1, keys.1, report)?;
    match (file, other) {
        (Some(mut file), Some(mut other)) => {
            damage(file.storage_mut(), bench.damage.take())?;
            damage(other.storage_mut(), other_bench.damage.take())?;
            compare::<A, B, H>(&mut file, &mut other, report)?;
            close::<A, H>(alloc, bench, file, steps, report)?;
            close::<B, H>(alloc, other_bench, other, steps, report)
        }
        (Some(file), None) => close::<A, H>(alloc, bench, file, &[], report),
        (None, Some(other)) => close::<B, H>(alloc, other_bench, other, &[], report),
        (None, None) => Ok(()),
    }
}

// The same by the benches' hasher.
fn play_hashed<A: Algorithm, B: Algorithm>(
    alloc: Global,
    bench: &mut Bench,
    other: &mut Bench,
    keys: (&A::Key, &B::Key),
    steps: &[Step],
    report: &mut Report,
) -> Result<(), Fault> {
    let builder = builder_of::<A>(alloc, bench);
    let other_builder = builder_of::<B>(alloc, other);
    match (bench.hashing, other.hashing) {
        (Hashing::Without, Hashing::Without) => play_two::<A, B, NoMerkle>(
            alloc,
            (bench, other),
            (builder, other_builder),
            keys,
            steps,
            report,
        ),
        (Hashing::Sha256, Hashing::Sha256) => {
            let builders = (
                builder.merkle::<Sha256Hasher>(Sha256Hasher::new(), bench.most),
                other_builder.merkle::<Sha256Hasher>(Sha256Hasher::new(), other.most),
            );
            play_two::<A, B, Sha256Hasher>(alloc, (bench, other), builders, keys, steps, report)
        }
        (Hashing::Fake(len), Hashing::Fake(other_len)) => {
            let hasher = FakeHasher::new(len, bench.take_fail_hash(alloc));
            let other_hasher = FakeHasher::new(other_len, other.take_fail_hash(alloc));
            let builders = (
                builder.merkle::<FakeHasher>(hasher, bench.most),
                other_builder.merkle::<FakeHasher>(other_hasher, other.most),
            );
            play_two::<A, B, FakeHasher>(alloc, (bench, other), builders, keys, steps, report)
        }
        _ => Err(Fault::Line),
    }
}

/// Opens the files in two storages, compares them, and takes the steps on each. The first has algorithm 1, the second 1 or 5.
pub fn play_both(
    alloc: Global,
    bench: &mut Bench,
    other: &mut Bench,
    steps: &[Step],
    report: &mut Report,
) -> Result<(), Fault> {
    let key = key_of::<16>(&bench.key)?;
    match (bench.algorithm, other.algorithm) {
        (AlgorithmId::Aegis128L, AlgorithmId::Aegis128L) => {
            let keys = (&key, &key_of::<16>(&other.key)?);
            play_hashed::<Aegis128L, Aegis128L>(alloc, bench, other, keys, steps, report)
        }
        (AlgorithmId::Aegis128L, AlgorithmId::Aegis256X2) => {
            let keys = (&key, &key_of::<32>(&other.key)?);
            play_hashed::<Aegis128L, Aegis256X2>(alloc, bench, other, keys, steps, report)
        }
        _ => Err(Fault::Line),
    }
}
