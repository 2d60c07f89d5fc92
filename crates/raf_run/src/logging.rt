//! A run of a log's commands, in memory: over what it holds, or over a file that is made there first.
ghost use Rattle.std.specs.Prelude.{◌≡◌, None, true, length};
ghost use Rattle.aegis_core.specs.Sealing.{key_len};
ghost use Rattle.raf_format.specs.Cipher.{cipher_of};
ghost use Rattle.raf_format.specs.Numbers.{variant_of};
ghost use Rattle.raf_run.specs.Disk.{disk_of};
ghost use Rattle.raf_run.specs.Ends.{answers_of, setting_of};
ghost use Rattle.raf_run.specs.Logs.{LogServed, EndsLoggedOn, EndsLogged, log_ground};

use crate::answer::LogEnd;
use crate::running::{Unmade, make, no_source, take_memory};
use crate::seed::SeedRng;
use aegis::raf::{
    Aegis128L, Aegis128X2, Aegis128X4, Aegis256, Aegis256X2, Aegis256X4, Algorithm, AlgorithmId,
    Data, MemIo, NoMerkle, Parts, RafBuilder, RafIo, RafRng, Sha256Hasher, VecRng,
};
use raf_format::marker_variants;
use raf_log::{LogCommand, LogError, LogReplies, LogSessionEnd, log_session};
use raf_script::{LogScript, Randomness, Start};
use raf_tree::MerkleHasher;
use std::alloc::Global;

// How a run over a storage ended: the replies or the refusal, and the storage.
#[derive(Drop)]
struct Ended<I: RafIo> {
    outcome: Result<LogReplies, LogError>,
    io: I,
}

// A session over a storage, with a hasher that never fails.
fn serve<A: Algorithm, I: RafIo, R: RafRng, H: MerkleHasher>(
    alloc: Global,
    builder: RafBuilder<A, R, H>,
    io: I,
    key: &A::Key,
    commands: &[LogCommand],
) -> Ended<I>
    requires hasher { (h : H) → H.faults h ≡ 0 }
    requires source { builder.outside.left ≡ None → (r : R) → R.faults r ≡ 0 }
    ensures { LogServed (record { cipher = cipher_of A.variant; key = A.key_list key.now; answers = H.hashing; most = builder.most; setting = builder.outside.setting; random = builder.outside.left })
        builder commands.now (disk_of I.bytes I.durable I.faults I.reach I.traffic I.changes I.strays io)
        result.outcome (disk_of I.bytes I.durable I.faults I.reach I.traffic I.changes I.strays result.io) }
{
    let end = log_session::<A, I, R, H>(alloc, builder, io, key, commands);
    let LogSessionEnd {
        outcome,
        io,
        rng: _,
        hasher: _,
    } = end;
    Ended { outcome, io }
}

// The commands over a storage. The second builder opens a file that the first has made.
fn run_on<A: Algorithm, I: RafIo, R: RafRng, H: MerkleHasher>(
    alloc: Global,
    builder: RafBuilder<A, R, H>,
    opener: RafBuilder<A, VecRng, H>,
    io: I,
    key: &A::Key,
    start: Start,
    commands: &[LogCommand],
) -> Ended<I>
    requires sure { (h : H) → H.faults h ≡ 0 }
    requires hasher { (opener.most ≡ builder.most) × (opener.outside.setting ≡ builder.outside.setting) }
    requires truncate { builder.truncate ≡ true }
    requires source { (builder.outside.rng_faults ≡ 0) × (builder.outside.asked ≡ 0) × (builder.outside.exact ≡ true) }
    requires random { builder.outside.left ≡ None → (r : R) → R.faults r ≡ 0 }
    ensures { EndsLoggedOn (record { cipher = cipher_of A.variant; key = A.key_list key.now; answers = H.hashing; most = builder.most; setting = builder.outside.setting; random = builder.outside.left })
        start commands.now (disk_of I.bytes I.durable I.faults I.reach I.traffic I.changes I.strays io)
        result.outcome (disk_of I.bytes I.durable I.faults I.reach I.traffic I.changes I.strays result.io) }
{
    match start {
        Start::Storage(_) => serve::<A, I, R, H>(alloc, builder, io, key, commands),
        Start::Create {
            chunk_size,
            version,
        } => {
            let maker = builder.chunk_size(chunk_size).version(version);
            match make::<A, I, R, H>(alloc, maker, io, key) {
                Ok(parts) => {
                    let Parts { io, rng, hasher: _ } = parts;
                    serve::<A, I, R, H>(alloc, opener.rng::<R>(rng), io, key, commands)
                }
                Err(Unmade { error, io }) => Ended {
                    outcome: Err(LogError::Raf(error)),
                    io,
                },
            }
        }
    }
}

// The commands over a storage, by one algorithm, with this random source, and with a tree where there is a limit of its chunks.
fn run_with<A: Algorithm, I: RafIo, R: RafRng>(
    alloc: Global,
    rng: R,
    max_chunks: Option<u64>,
    io: I,
    key: &A::Key,
    start: Start,
    commands: &[LogCommand],
) -> Ended<I>
    requires source { (R.faults rng ≡ 0) × (R.asked rng ≡ 0) × (R.exact ≡ true) }
    requires random { R.left rng ≡ None → (r : R) → R.faults r ≡ 0 }
    ensures { EndsLoggedOn (record { cipher = cipher_of A.variant; key = A.key_list key.now; answers = answers_of max_chunks; most = max_chunks; setting = setting_of max_chunks; random = R.left rng })
        start commands.now (disk_of I.bytes I.durable I.faults I.reach I.traffic I.changes I.strays io)
        result.outcome (disk_of I.bytes I.durable I.faults I.reach I.traffic I.changes I.strays result.io) }
{
    let builder = RafBuilder::<A, R, NoMerkle>::new(rng).truncate(true);
    let opener = RafBuilder::<A, VecRng, NoMerkle>::new(no_source(alloc));
    match max_chunks {
        None => run_on::<A, I, R, NoMerkle>(alloc, builder, opener, io, key, start, commands),
        Some(most) => {
            let builder = builder.merkle::<Sha256Hasher>(Sha256Hasher::new(), most);
            let opener = opener.merkle::<Sha256Hasher>(Sha256Hasher::new(), most);
            run_on::<A, I, R, Sha256Hasher>(alloc, builder, opener, io, key, start, commands)
        }
    }
}

// The same for what a log's source spells, by one algorithm.
fn run_by<A: Algorithm, I: RafIo>(alloc: Global, script: LogScript, io: I) -> Ended<I>
    requires algorithm { A.variant ≡ variant_of script.algorithm }
    requires key { length script.key ≡ key_len (variant_of script.algorithm) }
    ensures { EndsLoggedOn (log_ground script) script.start script.commands (disk_of I.bytes I.durable I.faults I.reach I.traffic I.changes I.strays io)
        result.outcome (disk_of I.bytes I.durable I.faults I.reach I.traffic I.changes I.strays result.io) }
{
    let LogScript {
        algorithm: _,
        key,
        randomness,
        max_chunks,
        start,
        commands,
    } = script;
    let key = A::key_from(key.as_slice());
    let commands = commands.as_slice();
    match randomness {
        Randomness::Random(bytes) => {
            let rng = VecRng::new(bytes.into_vec());
            run_with::<A, I, VecRng>(alloc, rng, max_chunks, io, &key, start, commands)
        }
        Randomness::Seed(seed) => {
            let rng = SeedRng::new(seed);
            run_with::<A, I, SeedRng>(alloc, rng, max_chunks, io, &key, start, commands)
        }
    }
}

// The same by the algorithm that the source names.
fn run_over<I: RafIo>(alloc: Global, script: LogScript, io: I) -> Ended<I>
    requires key { length script.key ≡ key_len (variant_of script.algorithm) }
    ensures { EndsLoggedOn (log_ground script) script.start script.commands (disk_of I.bytes I.durable I.faults I.reach I.traffic I.changes I.strays io)
        result.outcome (disk_of I.bytes I.durable I.faults I.reach I.traffic I.changes I.strays result.io) }
{
    marker_variants();
    match script.algorithm {
        AlgorithmId::Aegis128L => run_by::<Aegis128L, I>(alloc, script, io),
        AlgorithmId::Aegis128X2 => run_by::<Aegis128X2, I>(alloc, script, io),
        AlgorithmId::Aegis128X4 => run_by::<Aegis128X4, I>(alloc, script, io),
        AlgorithmId::Aegis256 => run_by::<Aegis256, I>(alloc, script, io),
        AlgorithmId::Aegis256X2 => run_by::<Aegis256X2, I>(alloc, script, io),
        AlgorithmId::Aegis256X4 => run_by::<Aegis256X4, I>(alloc, script, io),
    }
}

/// Runs the commands of a log in memory.
pub fn run_log(alloc: Global, mut script: LogScript) -> LogEnd
    requires key { length script.key ≡ key_len (variant_of script.algorithm) }
    ensures { EndsLogged script result }
{
    let io = take_memory(alloc, &mut script.start);
    let Ended { outcome, io } = run_over::<MemIo>(alloc, script, io);
    LogEnd {
        outcome,
        storage: Data::from_vec(io.into_bytes()),
    }
}
