//! The rule of each word of the tables.

ghost use Rattle.std.specs.Prelude.{◌≡◌, ◌<◌};
ghost use Rattle.softaes.specs.Tables.{forward_word, inverse_word};

use crate::unprotected::tables::{
    FORWARD_0, FORWARD_1, FORWARD_2, FORWARD_3, INVERSE_0, INVERSE_1, INVERSE_2, INVERSE_3,
};

/// Entry `x` of forward table `table`, 0 to 3: with s the S-box at `x`, the little-endian word of the bytes
/// 02 s, s, s and 03 s, rotated left by 8 `table` bits. It is what byte `x` in row `table` of a column adds
/// to the column after MixColumns (FIPS 197, section 5.1.3).
pub fn forward(table: usize, x: u8) -> u32
    requires { table < 4 }
    ensures { result ≡ forward_word table x }
{
    let at = x as usize;
    if table == 0 {
        FORWARD_0[at]
    } else if table == 1 {
        FORWARD_1[at]
    } else if table == 2 {
        FORWARD_2[at]
    } else {
        FORWARD_3[at]
    }
}

/// Entry `x` of inverse table `table`, 0 to 3: with s the inverse S-box at `x`, the little-endian word of
/// the bytes 0e s, 09 s, 0d s and 0b s, rotated left by 8 `table` bits. It is what byte `x` in row `table`
/// of a column adds to the column after InvMixColumns (FIPS 197, section 5.3.3).
pub fn inverse(table: usize, x: u8) -> u32
    requires { table < 4 }
    ensures { result ≡ inverse_word table x }
{
    let at = x as usize;
    if table == 0 {
        INVERSE_0[at]
    } else if table == 1 {
        INVERSE_1[at]
    } else if table == 2 {
        INVERSE_2[at]
    } else {
        INVERSE_3[at]
    }
}
