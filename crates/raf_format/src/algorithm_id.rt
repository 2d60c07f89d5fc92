//! The algorithms of files by name and number.
ghost use Rattle.std.specs.Prelude.{◌≡◌, IfOk, IfErr};
ghost use Rattle.raf_format.specs.Numbers.{number_of};
ghost use Rattle.raf_format.specs.declared.algorithm_id.AlgorithmId.{AlgorithmId};

use crate::error::FormatError;

/// An algorithm by its name and its number in a header.
#[derive(Clone, Copy, Debug, PartialEq, Eq)]
pub enum AlgorithmId {
    /// AEGIS-128L, number 1.
    Aegis128L = 1,
    /// AEGIS-128X2, number 2.
    Aegis128X2 = 2,
    /// AEGIS-128X4, number 3.
    Aegis128X4 = 3,
    /// AEGIS-256, number 4.
    Aegis256 = 4,
    /// AEGIS-256X2, number 5.
    Aegis256X2 = 5,
    /// AEGIS-256X4, number 6.
    Aegis256X4 = 6,
}

impl AlgorithmId {
    /// The algorithm of this number. Any number but 1 to 6 is refused by `UnknownAlgorithm`.
    pub fn from_u8(v: u8) -> Result<AlgorithmId, FormatError>
        ensures found { IfOk result (λ a. number_of a ≡ v) }
        ensures refused { IfErr result (λ e. (e ≡ FormatError.UnknownAlgorithm) × ((a : AlgorithmId) → number_of a ≡ v → ⊥)) }
    {
        match v {
            1 => Ok(AlgorithmId::Aegis128L),
            2 => Ok(AlgorithmId::Aegis128X2),
            3 => Ok(AlgorithmId::Aegis128X4),
            4 => Ok(AlgorithmId::Aegis256),
            5 => Ok(AlgorithmId::Aegis256X2),
            6 => Ok(AlgorithmId::Aegis256X4),
            _ => Err(FormatError::UnknownAlgorithm),
        }
    }
}

/// What a file's header tells without a key.
#[derive(Clone, Debug, Drop)]
pub struct RafInfo {
    /// The algorithm.
    pub algorithm: AlgorithmId,
    /// How many bytes a chunk has.
    pub chunk_size: u32,
    /// How many bytes the file has, unencrypted.
    pub file_size: u64,
}
