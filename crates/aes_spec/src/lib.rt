//! The definitions of AES, as FIPS 197 has them, in `specs/`, with the lemmas on them that other crates
//! cite in `proofs/`; and the product and the S-box of the field as plain code.
//!
//! A byte stands for a polynomial over bits: bit i is the coefficient of x^i.
#![tactic(auto)]

ghost use Rattle.std.specs.Prelude.{◌≡◌, ◌^◌, ◌<◌};
ghost use Rattle.aes_spec.specs.Field.{mul, affine, S};

/// The product of two bytes in the field: without carries, modulo x^8 + x^4 + x^3 + x + 1 (FIPS 197,
/// section 4.2). It branches on its arguments.
pub fn gf_mul(a: u8, b: u8) -> u8
    ensures { result ≡ mul a b }
{
    let mut product = 0u16;
    for i in 0..8u32 {
        if (b >> i) & 1 == 1 {
            product ^= (a as u16) << i;
        }
    }
    for i in (0..7u32).rev() {
        if (product >> (i + 8)) & 1 == 1 {
            product ^= 0x11b << i;
        }
    }
    product as u8
}

/// The affine map of the S-box (FIPS 197, section 5.1.1): bit i becomes the sum of the bits i, i + 4,
/// i + 5, i + 6 and i + 7 modulo 8 and of bit i of 0x63.
fn affine(b: u8) -> u8
    ensures { result ≡ affine b }
{
    b ^ b.rotate_left(1) ^ b.rotate_left(2) ^ b.rotate_left(3) ^ b.rotate_left(4) ^ 0x63
}

/// The S-box at `b` (FIPS 197, section 5.1.1): the inverse in the field, with 0 for 0, and then the
/// affine map. It searches the inverse among all bytes.
pub fn sbox(b: u8) -> u8
    ensures { result ≡ S b }
{
    let mut inverse = 0;
    for x in 0..255u8 {
        if gf_mul(b, x + 1) == 1 {
            inverse = x + 1;
        }
    }
    affine(inverse)
}
