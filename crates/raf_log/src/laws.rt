//! What a user of the crate may rest on beside the calls.
ghost use Rattle.raf_format.specs.Cipher.{cipher_of};
ghost use Rattle.raf_log.specs.Complete.{LogComplete};
ghost use Rattle.raf_log.specs.Entries.{OneList};

use raf::{Algorithm, MerkleHasher, complete};

/// At most one list of entries is spelled by any bytes.
pub fn one_list()
    ensures { OneList }
{}

/// Valid input and no fault: a file whose bytes are those of a log is opened as one, and a session on it answered by the replies that are
/// due, but for want of memory.
pub fn log_complete<A: Algorithm, H: MerkleHasher>()
    ensures { LogComplete (cipher_of A.variant) H.hashing }
{
    complete::<A, H>();
}
