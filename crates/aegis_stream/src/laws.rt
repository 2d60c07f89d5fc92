//! The laws of streams.

ghost use Rattle.aegis_stream.specs.Laws.{IsStream};

/// The laws of streams, for the proofs of callers: of a front of a stream come a front of its messages, and
/// all of them exactly where it is the whole; and what is written of a stream that goes on is a front of
/// each stream that it may become. The call does nothing.
pub fn stream_laws()
    ensures { IsStream }
{}
