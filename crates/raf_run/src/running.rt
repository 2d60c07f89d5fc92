//! A run of a script's commands: over what a storage holds, or over a file that is made there first.
ghost use Rattle.std.specs.Prelude.{◌≡◌, [], Some, None, true, false, length, Result, Ok, Err, IfOk, IfErr};
ghost use Rattle.aegis_core.specs.Sealing.{key_len};
ghost use Rattle.raf_format.specs.Cipher.{cipher_of};
ghost use Rattle.raf_format.specs.Numbers.{variant_of};
ghost use Rattle.raf_io.specs.Memory.{memory_bytes, durable_bytes, failing, IsFresh};
ghost use Rattle.raf.specs.Handle.{Handle};
ghost use Rattle.raf.specs.Opening.{Made};
ghost use Rattle.raf_run.specs.Disk.{disk_of, disk_in, over};
ghost use Rattle.raf_run.specs.Ends.{Ground, BuilderOf, HasherOf, Served, RefusedAnew, EndsOn, Ends, EndsInMemory, answers_of, setting_of, first_bytes, without_bytes};

use crate::answer::End;
use crate::seed::SeedRng;
use aegis::raf::{
    Aegis128L, Aegis128X2, Aegis128X4, Aegis256, Aegis256X2, Aegis256X4, Algorithm, AlgorithmId,
    Command, Data, Error, MemIo, NoMerkle, OpenError, Parts, RafBuilder, RafIo, RafRng, Replies,
    SessionEnd, Sha256Hasher, VecRng, session,
};
use raf_format::marker_variants;
use raf_script::{Randomness, Script, Start};
use raf_tree::MerkleHasher;
use std::alloc::Global;
use std::mem;

/// How a run over a storage ended: the replies or the refusal, and the storage, which comes back in every case.
#[derive(Drop)]
pub struct Ended<I: RafIo> {
    /// The replies, or why there are none.
    pub outcome: Result<Replies, Error>,
    /// The storage.
    pub io: I,
}

// A session over a storage, with a hasher that never fails.
fn serve<A: Algorithm, I: RafIo, R: RafRng, H: MerkleHasher>(
    alloc: Global,
    builder: RafBuilder<A, R, H>,
    io: I,
    key: &A::Key,
    commands: &[Command],
) -> Ended<I>
    requires hasher { (h : H) → H.faults h ≡ 0 }
    requires source { builder.outside.left ≡ None → (r : R) → R.faults r ≡ 0 }
    ensures { Served (record { cipher = cipher_of A.variant; key = A.key_list key.now; answers = H.hashing; most = builder.most; setting = builder.outside.setting; random = builder.outside.left })
        builder commands.now (disk_of I.bytes I.durable I.faults I.reach I.traffic I.changes I.strays io)
        result.outcome (disk_of I.bytes I.durable I.faults I.reach I.traffic I.changes I.strays result.io) }
{
    let end = session::<A, I, R, H>(alloc, builder, io, key, commands);
    let SessionEnd {
        outcome,
        io,
        rng: _,
        hasher: _,
    } = end;
    Ended { outcome, io }
}

/// Why no file was made, and the storage.
#[derive(Drop)]
pub struct Unmade<I: RafIo> {
    /// Why.
    pub error: Error,
    /// The storage.
    pub io: I,
}

/// A new file, closed again, or why there is none.
pub fn make<A: Algorithm, I: RafIo, R: RafRng, H: MerkleHasher>(
    alloc: Global,
    builder: RafBuilder<A, R, H>,
    io: I,
    key: &A::Key,
) -> Result<Parts<I, R, H>, Unmade<I>>
    requires hasher { (h : H) → H.faults h ≡ 0 }
    requires source { builder.outside.left ≡ None → (r : R) → R.faults r ≡ 0 }
    ensures made { IfOk result (λ parts. (h : Handle) × (parts ≡ h.outside) × Made (cipher_of A.variant) H.hashing (A.key_list key.now) builder
        (over (disk_of I.bytes I.durable I.faults I.reach I.traffic I.changes I.strays io) builder.outside) h) }
    ensures refused { IfErr result (λ e. RefusedAnew (record { cipher = cipher_of A.variant; key = A.key_list key.now; answers = H.hashing; most = builder.most; setting = builder.outside.setting; random = builder.outside.left })
        builder (disk_of I.bytes I.durable I.faults I.reach I.traffic I.changes I.strays io)
        (Err e.error) (disk_of I.bytes I.durable I.faults I.reach I.traffic I.changes I.strays e.io)) }
{
    match builder.create::<I>(alloc, io, key) {
        Ok(file) => Ok(file.close()),
        Err(refused) => {
            let OpenError {
                error,
                io,
                rng: _,
                hasher: _,
            } = refused;
            Err(Unmade { error, io })
        }
    }
}

// The commands over a storage. The second builder opens a file that the first has made.
fn run_on<A: Algorithm, I: RafIo, R: RafRng, H: MerkleHasher>(
    alloc: Global,
    builder: RafBuilder<A, R, H>,
    opener: RafBuilder<A, VecRng, H>,
    io: I,
    key: &A::Key,
    start: Start,
    commands: &[Command],
) -> Ended<I>
    requires sure { (h : H) → H.faults h ≡ 0 }
    requires hasher { (opener.most ≡ builder.most) × (opener.outside.setting ≡ builder.outside.setting) }
    requires truncate { builder.truncate ≡ true }
    requires source { (builder.outside.rng_faults ≡ 0) × (builder.outside.asked ≡ 0) × (builder.outside.exact ≡ true) }
    requires random { builder.outside.left ≡ None → (r : R) → R.faults r ≡ 0 }
    ensures { EndsOn (record { cipher = cipher_of A.variant; key = A.key_list key.now; answers = H.hashing; most = builder.most; setting = builder.outside.setting; random = builder.outside.left })
        start commands.now (disk_of I.bytes I.durable I.faults I.reach I.traffic I.changes I.strays io)
        result.outcome (disk_of I.bytes I.durable I.faults I.reach I.traffic I.changes I.strays result.io) }
{
    match start {
        Start::Storage(_) => serve::<A, I, R, H>(alloc, builder, io, key, commands),
        Start::Create {
            chunk_size,
            version,
        } => {
            let maker = builder.chunk_size(chunk_size).version(version);
            match make::<A, I, R, H>(alloc, maker, io, key) {
                Ok(parts) => {
                    let Parts { io, rng, hasher: _ } = parts;
                    serve::<A, I, R, H>(alloc, opener.rng::<R>(rng), io, key, commands)
                }
                Err(Unmade { error, io }) => Ended {
                    outcome: Err(error),
                    io,
                },
            }
        }
    }
}

/// A source of no bytes, in a builder whose source is set later.
pub fn no_source(alloc: Global) -> VecRng {
    VecRng::new(Vec::new(alloc))
}

/// The commands over a storage, by one algorithm, with this random source, and with a tree where there is a limit of its chunks.
pub fn run_with<A: Algorithm, I: RafIo, R: RafRng>(
    alloc: Global,
    rng: R,
    max_chunks: Option<u64>,
    io: I,
    key: &A::Key,
    start: Start,
    commands: &[Command],
) -> Ended<I>
    requires source { (R.faults rng ≡ 0) × (R.asked rng ≡ 0) × (R.exact ≡ true) }
    requires random { R.left rng ≡ None → (r : R) → R.faults r ≡ 0 }
    ensures { EndsOn (record { cipher = cipher_of A.variant; key = A.key_list key.now; answers = answers_of max_chunks; most = max_chunks; setting = setting_of max_chunks; random = R.left rng })
        start commands.now (disk_of I.bytes I.durable I.faults I.reach I.traffic I.changes I.strays io)
        result.outcome (disk_of I.bytes I.durable I.faults I.reach I.traffic I.changes I.strays result.io) }
{
    let builder = RafBuilder::<A, R, NoMerkle>::new(rng).truncate(true);
    let opener = RafBuilder::<A, VecRng, NoMerkle>::new(no_source(alloc));
    match max_chunks {
        None => run_on::<A, I, R, NoMerkle>(alloc, builder, opener, io, key, start, commands),
        Some(most) => {
            let builder = builder.merkle::<Sha256Hasher>(Sha256Hasher::new(), most);
            let opener = opener.merkle::<Sha256Hasher>(Sha256Hasher::new(), most);
            run_on::<A, I, R, Sha256Hasher>(alloc, builder, opener, io, key, start, commands)
        }
    }
}

// The same for a script's content, by one algorithm.
fn run_by<A: Algorithm, I: RafIo>(alloc: Global, script: Script, io: I) -> Ended<I>
    requires algorithm { A.variant ≡ variant_of script.algorithm }
    requires key { length script.key ≡ key_len (variant_of script.algorithm) }
    ensures { Ends script (disk_of I.bytes I.durable I.faults I.reach I.traffic I.changes I.strays io)
        result.outcome (disk_of I.bytes I.durable I.faults I.reach I.traffic I.changes I.strays result.io) }
{
    let Script {
        algorithm: _,
        key,
        randomness,
        max_chunks,
        start,
        commands,
    } = script;
    let key = A::key_from(key.as_slice());
    let commands = commands.as_slice();
    match randomness {
        Randomness::Random(bytes) => {
            let rng = VecRng::new(bytes.into_vec());
            run_with::<A, I, VecRng>(alloc, rng, max_chunks, io, &key, start, commands)
        }
        Randomness::Seed(seed) => {
            let rng = SeedRng::new(seed);
            run_with::<A, I, SeedRng>(alloc, rng, max_chunks, io, &key, start, commands)
        }
    }
}

/// Runs the commands of a script over what a storage holds, or over a file that is made there first, by the script's algorithm.
pub fn run_script<I: RafIo>(alloc: Global, script: Script, io: I) -> Ended<I>
    requires key { length script.key ≡ key_len (variant_of script.algorithm) }
    ensures { Ends script (disk_of I.bytes I.durable I.faults I.reach I.traffic I.changes I.strays io)
        result.outcome (disk_of I.bytes I.durable I.faults I.reach I.traffic I.changes I.strays result.io) }
{
    marker_variants();
    match script.algorithm {
        AlgorithmId::Aegis128L => run_by::<Aegis128L, I>(alloc, script, io),
        AlgorithmId::Aegis128X2 => run_by::<Aegis128X2, I>(alloc, script, io),
        AlgorithmId::Aegis128X4 => run_by::<Aegis128X4, I>(alloc, script, io),
        AlgorithmId::Aegis256 => run_by::<Aegis256, I>(alloc, script, io),
        AlgorithmId::Aegis256X2 => run_by::<Aegis256X2, I>(alloc, script, io),
        AlgorithmId::Aegis256X4 => run_by::<Aegis256X4, I>(alloc, script, io),
    }
}

/// The memory that a script begins with, whose bytes are taken from the script.
pub fn take_memory(alloc: Global, start: &mut Start) -> MemIo
    ensures bytes { memory_bytes result ≡ first_bytes start.old }
    ensures durable { durable_bytes result ≡ [] }
    ensures fresh { IsFresh result }
    // None of its calls is to fail.
    ensures sound { failing result ≡ [] }
    ensures start { start.new ≡ without_bytes start.old }
{
    let none = Data::from_vec(Vec::new(alloc));
    let bytes = match start {
        Start::Storage(bytes) => mem::replace(bytes, none),
        Start::Create { .. } => none,
    };
    MemIo::new(alloc, bytes.into_vec(), Vec::new(alloc))
}

/// Runs the commands of a script in memory.
pub fn run_in_memory(alloc: Global, mut script: Script) -> End
    requires key { length script.key ≡ key_len (variant_of script.algorithm) }
    ensures { EndsInMemory script result }
{
    let io = take_memory(alloc, &mut script.start);
    let Ended { outcome, io } = run_script::<MemIo>(alloc, script, io);
    End {
        outcome,
        storage: Data::from_vec(io.into_bytes()),
    }
}
