//! What a storage and a key tell without an open file: its header, and keys for contexts.
ghost use Rattle.std.specs.Prelude.{◌≡◌, ◌+◌, ◌^◌, ◌<◌, List, ℕ, length, Some, IfOk, IfErr, OnOk, OnErr};
ghost use Rattle.aegis_core.specs.Sealing.{key_len};
ghost use Rattle.aegis_core.specs.Keys.{derived_key};
ghost use Rattle.aegis_core.specs.declared.variant.Variant.{Variant};
ghost use Rattle.raf_format.specs.Derived.{CanDerive};
ghost use Rattle.raf_io.specs.Storage.{ReadsFrom, IsLengthOf, Strays};
ghost use Rattle.raf_io.specs.Kinds.{kind_of};
ghost use Rattle.raf.specs.Outside.{Outside, Kept as Kept_, Quiet, Caused, Moved};
ghost use Rattle.raf.specs.Probe.{Probed, WhyNoKey, alone, reason_named};

use raf_format::{AlgorithmId, FormatError, RafInfo, parse_header};
use raf_io::{Error, ErrorKind, RafIo, Reason};

// The reason of the same name.
fn reason_of(error: FormatError) -> Reason
    ensures { result ≡ reason_named error }
{
    match error {
        FormatError::Header => Reason::Header,
        FormatError::UnknownAlgorithm => Reason::UnknownAlgorithm,
        FormatError::KeyLength => Reason::KeyLength,
        FormatError::ContextTooLong => Reason::ContextTooLong,
    }
}

/// A refusal of the layout, as one of the file's.
pub(crate) fn refusal_of(error: FormatError) -> Error
    ensures { kind_of result ≡ ErrorKind.InvalidArgument (reason_named error) }
{
    Error::InvalidArgument(reason_of(error))
}

/// A key for a context, from a master key of 16 or 32 bytes: the value is the same for each algorithm with keys of this length. Refused
/// by `InvalidArgument`: by `KeyLength` where the key has another length, and then by `ContextTooLong` where the context has more than
/// 120 bytes (keys of 16) or 72 (keys of 32).
pub fn derive_key<const KEY_LEN: usize>(
    master_key: &[u8; KEY_LEN],
    context: &[u8],
) -> Result<[u8; KEY_LEN], Error>
    ensures key { IfOk result (λ key. (v : Variant) → key_len v ≡ KEY_LEN → key ≡ derived_key v master_key.now context.now) }
    ensures can { IfOk result (λ _. CanDerive KEY_LEN (length context.now)) }
    ensures refused { IfErr result (λ e. WhyNoKey KEY_LEN (length context.now) (kind_of e)) }
{
    match raf_format::derive_key(master_key, context) {
        Ok(key) => Ok(key),
        Err(error) => Err(refusal_of(error)),
    }
}

/// How long a storage is.
pub fn size_of<I: RafIo>(io: &mut I) -> Result<u64, Error>
    ensures size { IfOk result (λ size. IsLengthOf (I.bytes io.old) size) }
    ensures failed { IfErr result (λ e. (kind_of e ≡ ErrorKind.Io) × Caused ErrorKind.Io (alone I.RafIo io.old) (alone I.RafIo io.new)) }
    ensures quiet { OnOk result (Quiet (alone I.RafIo io.old) (alone I.RafIo io.new)) }
    ensures kept { Kept_ (alone I.RafIo io.old) (alone I.RafIo io.new) }
    ensures moved { Moved (alone I.RafIo io.old) (alone I.RafIo io.new) 0 0 0 0 0 }
    ensures strays { I.strays io.new ≡ I.strays io.old }
{
    match io.get_size() {
        Ok(size) => Ok(size),
        Err(fault) => Err(Error::Io(fault)),
    }
}

/// Reads the first bytes of a storage.
pub fn read_head<I: RafIo>(io: &mut I, buf: &mut [u8]) -> Result<(), Error>
    requires { length buf.old ≡ 96 }
    ensures read { OnOk result (ReadsFrom (I.bytes io.old) 0 buf.new) }
    ensures failed { IfErr result (λ e. (kind_of e ≡ ErrorKind.Io) × Caused ErrorKind.Io (alone I.RafIo io.old) (alone I.RafIo io.new)) }
    ensures quiet { OnOk result (Quiet (alone I.RafIo io.old) (alone I.RafIo io.new)) }
    ensures kept { Kept_ (alone I.RafIo io.old) (alone I.RafIo io.new) }
    ensures moved { Moved (alone I.RafIo io.old) (alone I.RafIo io.new) 96 96 0 0 0 }
    ensures strays { Strays (I.bytes io.old) 0 96 (I.strays io.old) (I.strays io.new) }
{
    match io.read_at(buf, 0) {
        Ok(()) => Ok(()),
        Err(fault) => Err(Error::Io(fault)),
    }
}

/// What the header in a storage tells without a key; its tag and the storage's length aren't looked at. Refused by `Io` where the
/// storage failed, by `InvalidArgument` of the reason `Header` exactly where it holds no header, and else of the reason
/// `UnknownAlgorithm` exactly where the number of its algorithm is none of 1 to 6.
pub fn probe<I: RafIo>(io: &mut I) -> Result<RafInfo, Error>
    ensures { Probed (alone I.RafIo io.old) (alone I.RafIo io.new) result }
{
    let size = size_of::<I>(io)?;
    if size < 96 {
        return Err(Error::InvalidArgument(Reason::Header));
    }
    let mut bytes = [0u8; 96];
    read_head::<I>(io, &mut bytes)?;
    let header = match parse_header(&bytes) {
        Ok(header) => header,
        Err(_) => return Err(Error::InvalidArgument(Reason::Header)),
    };
    match AlgorithmId::from_u8(header.algorithm) {
        Ok(algorithm) => Ok(RafInfo {
            algorithm,
            chunk_size: header.chunk_size,
            file_size: header.file_size,
        }),
        Err(_) => Err(Error::InvalidArgument(Reason::UnknownAlgorithm)),
    }
}
