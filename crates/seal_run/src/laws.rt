//! What opening gives back of what sealing wrote.
ghost use Rattle.seal_run.specs.Laws.{SealThenUnseal};

use aegis_stream::stream_laws;

/// The law of `seal` and `unseal`, for the proofs of callers: the stream that `seal` wrote whole, opened by `unseal` under the same key,
/// gives all the bytes of the source back, unless a call fails, no memory is found, or the stream itself has more than 2^40 bytes.
/// The call does nothing.
pub fn seal_then_unseal()
    ensures { SealThenUnseal }
{
    stream_laws();
}
