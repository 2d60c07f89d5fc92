//! Vectors of the AEGIS specification, computed by the checker from the definitions of `aegis_core`: each function
//! here does nothing, and its contract is the vector. So the definitions say what the specification says at these
//! values, of one, two and four lanes, whatever the code does.
#![tactic(auto)]

ghost use Rattle.aegis_vectors.specs.IsSealed128LZeros.{IsSealed128LZeros};
ghost use Rattle.aegis_vectors.specs.IsSealed128L.{IsSealed128L};
ghost use Rattle.aegis_vectors.specs.IsSealed128X2.{IsSealed128X2};
ghost use Rattle.aegis_vectors.specs.IsSealed256.{IsSealed256};
ghost use Rattle.aegis_vectors.specs.IsSealed256X4.{IsSealed256X4};

/// AEGIS-128L: 16 zeros without associated data.
pub fn aegis128l_zeros()
    ensures { IsSealed128LZeros }
{}

/// AEGIS-128L: 32 bytes with 8 bytes of associated data.
pub fn aegis128l()
    ensures { IsSealed128L }
{}

/// AEGIS-128X2: 120 bytes with 8 bytes of associated data, in two lanes.
pub fn aegis128x2()
    ensures { IsSealed128X2 }
{}

/// AEGIS-256: 32 bytes with 8 bytes of associated data.
pub fn aegis256()
    ensures { IsSealed256 }
{}

/// AEGIS-256X4: 120 bytes with 8 bytes of associated data, in four lanes.
pub fn aegis256x4()
    ensures { IsSealed256X4 }
{}
