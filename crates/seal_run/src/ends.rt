//! How a run over a source and a sink ends.
ghost use Rattle.std.specs.Prelude.{◌≡◌};
ghost use Rattle.seal_run.specs.Ends.{status_of};

// The most bytes that a source may have.
pub const MOST_BYTES: u64 = 1 << 40;

/// How a run over a source and a sink ended.
#[derive(Clone, Copy, Debug, PartialEq, Eq)]
pub enum StreamEnd {
    /// The source was read to its end, and all was written.
    Whole,
    /// A call of the source failed.
    ReadFault,
    /// A call of the sink failed.
    WriteFault,
    /// No memory was found for the buffers.
    OutOfMemory,
    /// The source's bytes are no sealed stream under this key, or not a whole one.
    NotAStream,
    /// The source has more than 2^40 bytes.
    TooLong,
}

impl StreamEnd {
    /// The status that a program tells it by: 0, 5, 6, 7, 9 or 10.
    pub fn status(self) -> u8
        ensures { result ≡ status_of self }
    {
        match self {
            StreamEnd::Whole => 0,
            StreamEnd::ReadFault => 5,
            StreamEnd::WriteFault => 6,
            StreamEnd::OutOfMemory => 7,
            StreamEnd::NotAStream => 9,
            StreamEnd::TooLong => 10,
        }
    }
}
