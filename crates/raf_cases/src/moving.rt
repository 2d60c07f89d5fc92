//! A file that is moved into a new one.
use crate::bench::{Bench, Hashing};
use crate::comparing::{close, open};
use crate::playing::{Counted, File, builder_of, room};
use crate::report::Report;
use crate::steps::Step;
use crate::words::{Fault, key_of};
use raf::{
    Aegis128L, Aegis256X2, Algorithm, AlgorithmId, ConvertError, FakeHasher, MemIo, NoMerkle,
    OpenError, RafBuilder, Sha256Hasher, Side, VecRng, convert,
};
use std::alloc::Global;

// A new file in a bench's storage, or None where it is refused, which is told.
fn make<A: Algorithm, H: Counted>(
    alloc: Global,
    bench: &mut Bench,
    builder: RafBuilder<A, VecRng, H>,
    key: &A::Key,
    report: &mut Report,
) -> Result<Option<File<A, H>>, Fault> {
    let storage = bench.take_storage(alloc);
    let io = MemIo::new(alloc, storage, bench.take_fail(alloc));
    match builder.create::<MemIo>(alloc, io, key) {
        Ok(file) => Ok(Some(file)),
        Err(refused) => {
            report.kind("error", refused.error.kind())?;
            let OpenError {
                error: _,
                io,
                rng: _,
                hasher: _,
            } = refused;
            bench.storage = io.into_bytes();
            Ok(None)
        }
    }
}

// Moves one file into the other, and tells the answer.
fn move_file<A: Algorithm, B: Algorithm, H: Counted, K: Counted>(
    from: &mut File<A, H>,
    to: &mut File<B, K>,
    buf: &mut [u8],
    report: &mut Report,
) -> Result<(), Fault> {
    if buf.is_empty() || to.size() != 0 {
        return Err(Fault::Line);
    }
    match convert::<A, MemIo, VecRng, H, B, MemIo, VecRng, K>(from, to, buf) {
        Ok(()) => report.line("converted"),
        Err(ConvertError { side, error }) => match side {
            Side::From => report.kind("from", error.kind()),
            Side::To => report.kind("to", error.kind()),
        },
    }
}

// Opens the first file, makes the second, moves the one into the other, and takes the steps on each.
fn play_two<A: Algorithm, B: Algorithm, H: Counted, K: Counted>(
    alloc: Global,
    benches: (&mut Bench, &mut Bench),
    builders: (RafBuilder<A, VecRng, H>, RafBuilder<B, VecRng, K>),
    keys: (&A::Key, &B::Key),
    asked: (usize, &[Step]),
    report: &mut Report,
) -> Result<(), Fault> {
    let (bench, other_bench) = benches;
    let (len, steps) = asked;
    let from = open::<A, H>(alloc, bench, builders.0, keys.0, report)?;
    let to = make::<B, K>(alloc, other_bench, builders.1, keys.1, report)?;
    match (from, to) {
        (Some(mut from), Some(mut to)) => {
            let mut buf = room(alloc, len)?;
            move_file::<A, B, H, K>(&mut from, &mut to, &mut buf, report)?;
            close::<A, H>(alloc, bench, from, steps, report)?;
            close::<B, K>(alloc, other_bench, to, steps, report)
        }
        (Some(from), None) => close::<A, H>(alloc, bench, from, &[], report),
        (None, Some(to)) => close::<B, K>(alloc, other_bench, to, &[], report),
        (None, None) => Ok(()),
    }
}

// The same by the benches' hashers.
fn play_hashed<A: Algorithm, B: Algorithm>(
    alloc: Global,
    bench: &mut Bench,
    other: &mut Bench,
    keys: (&A::Key, &B::Key),
    asked: (usize, &[Step]),
    report: &mut Report,
) -> Result<(), Fault> {
    let from = builder_of::<A>(alloc, bench);
    let to = builder_of::<B>(alloc, other);
    match (bench.hashing, other.hashing) {
        (Hashing::Without, Hashing::Without) => {
            let benches = (bench, other);
            play_two::<A, B, NoMerkle, NoMerkle>(alloc, benches, (from, to), keys, asked, report)
        }
        (Hashing::Sha256, Hashing::Without) => {
            let from = from.merkle::<Sha256Hasher>(Sha256Hasher::new(), bench.most);
            let benches = (bench, other);
            play_two::<A, B, Sha256Hasher, NoMerkle>(
                alloc,
                benches,
                (from, to),
                keys,
                asked,
                report,
            )
        }
        (Hashing::Without, Hashing::Sha256) => {
            let to = to.merkle::<Sha256Hasher>(Sha256Hasher::new(), other.most);
            let benches = (bench, other);
            play_two::<A, B, NoMerkle, Sha256Hasher>(
                alloc,
                benches,
                (from, to),
                keys,
                asked,
                report,
            )
        }
        (Hashing::Fake(len), Hashing::Fake(other_len)) => {
            let hasher = FakeHasher::new(len, bench.take_fail_hash(alloc));
            let other_hasher = FakeHasher::new(other_len, other.take_fail_hash(alloc));
            let from = from.merkle::<FakeHasher>(hasher, bench.most);
            let to = to.merkle::<FakeHasher>(other_hasher, other.most);
            let benches = (bench, other);
            play_two::<A, B, FakeHasher, FakeHasher>(
                alloc,
                benches,
                (from, to),
                keys,
                asked,
                report,
            )
        }
        _ => Err(Fault::Line),
    }
}

/// Opens the file in the first storage, makes one in the second, moves it there by pieces of `room` bytes, and takes the steps on each. The
/// first has algorithm 1, the second 1 or 5.
pub fn play_moved(
    alloc: Global,
    bench: &mut Bench,
    other: &mut Bench,
    room: usize,
    steps: &[Step],
    report: &mut Report,
) -> Result<(), Fault> {
    let key = key_of::<16>(&bench.key)?;
    let asked = (room, steps);
    match (bench.algorithm, other.algorithm) {
        (AlgorithmId::Aegis128L, AlgorithmId::Aegis128L) => {
            let keys = (&key, &key_of::<16>(&other.key)?);
            play_hashed::<Aegis128L, Aegis128L>(alloc, bench, other, keys, asked, report)
        }
        (AlgorithmId::Aegis128L, AlgorithmId::Aegis256X2) => {
            let keys = (&key, &key_of::<32>(&other.key)?);
            play_hashed::<Aegis128L, Aegis256X2>(alloc, bench, other, keys, asked, report)
        }
        _ => Err(Fault::Line),
    }
}
