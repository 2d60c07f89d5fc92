//! Laws for the proofs of callers. The calls do nothing.
ghost use Rattle.raf_format.specs.Cipher.{IsLawful, cipher_of};
ghost use Rattle.raf_format.specs.Laws.{AreLawful};

use crate::algorithm::Algorithm;

/// An algorithm opens what it sealed and nothing else, and lengths are kept.
pub fn algorithm_laws<A: Algorithm>()
    ensures { IsLawful (cipher_of A.variant) }
{}

/// Bytes say one header at most, a record is the sealed form of the chunk that it opens to and of no other, and bytes open to one file
/// at most.
pub fn file_laws<A: Algorithm>()
    ensures { AreLawful (cipher_of A.variant) }
{}
