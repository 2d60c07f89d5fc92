//! A conversion: an old file in memory is moved into a new one, in memory too.
ghost use Rattle.std.specs.Prelude.{◌≡◌, ◌⊎◌, [], length, IfOk, IfErr};
ghost use Rattle.aegis_core.specs.Sealing.{key_len};
ghost use Rattle.raf_format.specs.Cipher.{cipher_of};
ghost use Rattle.raf_format.specs.Numbers.{variant_of};
ghost use Rattle.raf_format.specs.Version.{version_number};
ghost use Rattle.raf_io.specs.Kinds.{kind_of};
ghost use Rattle.raf_io.specs.declared.errors.ErrorKind.{ErrorKind};
ghost use Rattle.raf_run.specs.Conversions.{bare, OpenedIn, NotOpenedIn, MadeIn, NotMadeIn, RefusedBy, Moved, EndsUnmade, EndsMoved, EndsConverted, old_ground};

use crate::answer::End;
use aegis::raf::{
    Aegis128L, Aegis128X2, Aegis128X4, Aegis256, Aegis256X2, Aegis256X4, Algorithm, AlgorithmId,
    Data, Error, MemIo, NoMerkle, OpenError, Raf, RafBuilder, Replies, VecRng, convert,
};
use raf_format::{Version, marker_variants};
use raf_script::Conversion;
use std::alloc::Global;
use std::mem;

/// A piece has so many bytes.
const PIECE: usize = 65536;

// A file in memory, with told random bytes and without a hasher.
type MemFile<A> = Raf<A, MemIo, VecRng, NoMerkle>;

// A conversion that was refused, with what the new storage holds.
fn refused(error: Error, storage: Data) -> End
    ensures outcome { result.outcome ≡ Err error }
    ensures storage { result.storage ≡ storage }
{
    End {
        outcome: Err(error),
        storage,
    }
}

// The file that is in memory with these bytes. It has no random bytes.
fn open_old<A: Algorithm>(alloc: Global, key: &[u8], bytes: Data) -> Result<MemFile<A>, Error>
    requires { length key.now ≡ key_len A.variant }
    ensures opened { IfOk result (λ file. OpenedIn (bare A.variant key.now []) bytes file) }
    ensures refused { IfErr result (λ e. NotOpenedIn (bare A.variant key.now []) bytes (kind_of e)) }
{
    let io = MemIo::new(alloc, bytes.into_vec(), Vec::new(alloc));
    let rng = VecRng::new(Vec::new(alloc));
    let builder = RafBuilder::<A, VecRng, NoMerkle>::new(rng).truncate(true);
    match builder.open::<MemIo>(alloc, io, &A::key_from(key)) {
        Ok(file) => Ok(file),
        Err(why) => {
            let OpenError {
                error,
                io: _,
                rng: _,
                hasher: _,
            } = why;
            Err(error)
        }
    }
}

// A new file in empty memory, or why there is none and what the memory holds.
fn make_new<A: Algorithm>(
    alloc: Global,
    key: &[u8],
    random: Data,
    chunk_size: u32,
    version: Version,
) -> Result<MemFile<A>, End>
    requires { length key.now ≡ key_len A.variant }
    ensures made { IfOk result (λ file. MadeIn (bare A.variant key.now random) chunk_size (version_number version) file) }
    ensures refused { IfErr result (λ end. (kind : ErrorKind)
        × NotMadeIn (bare A.variant key.now random) chunk_size (version_number version) kind end.storage × RefusedBy kind end) }
{
    let io = MemIo::new(alloc, Vec::new(alloc), Vec::new(alloc));
    let builder = RafBuilder::<A, VecRng, NoMerkle>::new(VecRng::new(random.into_vec()))
        .truncate(true)
        .chunk_size(chunk_size)
        .version(version);
    match builder.create::<MemIo>(alloc, io, &A::key_from(key)) {
        Ok(file) => Ok(file),
        Err(why) => {
            let OpenError {
                error,
                io,
                rng: _,
                hasher: _,
            } = why;
            Err(refused(error, Data::from_vec(io.into_bytes())))
        }
    }
}

// One file is moved into another, which is empty.
fn move_file<A1: Algorithm, A2: Algorithm>(
    alloc: Global,
    mut from: MemFile<A1>,
    mut to: MemFile<A2>,
    mut piece: Vec<u8>,
) -> End
    requires empty { to.header.file_size ≡ 0 }
    requires piece { length piece.items ≡ 65536 }
    ensures { Moved (cipher_of A1.variant) (cipher_of A2.variant) from to result }
{
    let outcome = match convert(&mut from, &mut to, &mut piece) {
        Ok(()) => Ok(Replies::from_vec(Vec::new(alloc))),
        Err(why) => Err(why.error),
    };
    End {
        outcome,
        storage: Data::from_vec(to.into_io().into_bytes()),
    }
}

// The new file is made, and the open old one moved into it.
fn convert_into<A1: Algorithm, A2: Algorithm>(
    alloc: Global,
    from: MemFile<A1>,
    conversion: Conversion,
    piece: Vec<u8>,
) -> End
    requires old { A1.variant ≡ variant_of conversion.old_algorithm }
    requires algorithm { A2.variant ≡ variant_of conversion.algorithm }
    requires key { length conversion.key ≡ key_len (variant_of conversion.algorithm) }
    requires piece { length piece.items ≡ 65536 }
    ensures { EndsUnmade conversion result ⊎ EndsMoved conversion from result }
{
    let Conversion {
        old_algorithm: _,
        old_key: _,
        storage: _,
        algorithm: _,
        key,
        random,
        chunk_size,
        version,
    } = conversion;
    match make_new::<A2>(alloc, key.as_slice(), random, chunk_size, version) {
        Ok(to) => move_file::<A1, A2>(alloc, from, to, piece),
        Err(end) => end,
    }
}

// The same by the algorithm of the new file.
fn convert_open<A: Algorithm>(
    alloc: Global,
    from: MemFile<A>,
    conversion: Conversion,
    piece: Vec<u8>,
) -> End
    requires old { A.variant ≡ variant_of conversion.old_algorithm }
    requires key { length conversion.key ≡ key_len (variant_of conversion.algorithm) }
    requires piece { length piece.items ≡ 65536 }
    ensures { EndsUnmade conversion result ⊎ EndsMoved conversion from result }
{
    marker_variants();
    match conversion.algorithm {
        AlgorithmId::Aegis128L => convert_into::<A, Aegis128L>(alloc, from, conversion, piece),
        AlgorithmId::Aegis128X2 => convert_into::<A, Aegis128X2>(alloc, from, conversion, piece),
        AlgorithmId::Aegis128X4 => convert_into::<A, Aegis128X4>(alloc, from, conversion, piece),
        AlgorithmId::Aegis256 => convert_into::<A, Aegis256>(alloc, from, conversion, piece),
        AlgorithmId::Aegis256X2 => convert_into::<A, Aegis256X2>(alloc, from, conversion, piece),
        AlgorithmId::Aegis256X4 => convert_into::<A, Aegis256X4>(alloc, from, conversion, piece),
    }
}

// The whole conversion, by the algorithm of the old file.
fn convert_by<A: Algorithm>(alloc: Global, mut conversion: Conversion) -> End
    requires algorithm { A.variant ≡ variant_of conversion.old_algorithm }
    requires old_key { length conversion.old_key ≡ key_len (variant_of conversion.old_algorithm) }
    requires key { length conversion.key ≡ key_len (variant_of conversion.algorithm) }
    ensures { EndsConverted conversion result }
{
    let nothing = Data::from_vec(Vec::new(alloc));
    let Ok(piece) = Vec::from_elem(alloc, 0, PIECE) else {
        return refused(Error::OutOfMemory, nothing);
    };
    let bytes = mem::replace(&mut conversion.storage, Data::from_vec(Vec::new(alloc)));
    match open_old::<A>(alloc, conversion.old_key.as_slice(), bytes) {
        Ok(from) => convert_open::<A>(alloc, from, conversion, piece),
        Err(error) => refused(error, nothing),
    }
}

/// Moves the old file of a conversion into a new one, and gives what the new one's storage holds: nothing where none was made.
pub fn run_conversion(alloc: Global, conversion: Conversion) -> End
    requires old_key { length conversion.old_key ≡ key_len (variant_of conversion.old_algorithm) }
    requires key { length conversion.key ≡ key_len (variant_of conversion.algorithm) }
    ensures { EndsConverted conversion result }
{
    marker_variants();
    match conversion.old_algorithm {
        AlgorithmId::Aegis128L => convert_by::<Aegis128L>(alloc, conversion),
        AlgorithmId::Aegis128X2 => convert_by::<Aegis128X2>(alloc, conversion),
        AlgorithmId::Aegis128X4 => convert_by::<Aegis128X4>(alloc, conversion),
        AlgorithmId::Aegis256 => convert_by::<Aegis256>(alloc, conversion),
        AlgorithmId::Aegis256X2 => convert_by::<Aegis256X2>(alloc, conversion),
        AlgorithmId::Aegis256X4 => convert_by::<Aegis256X4>(alloc, conversion),
    }
}
