//! ShiftRows and MixColumns of both blocks of a pair, as permutes within each block.

ghost use Rattle.std.specs.Prelude.{◌≡◌, ℕ, ◌+◌, ◌*◌, ◌/◌, ◌%◌, ◌<◌, slice_index, bit_xor};
ghost use Rattle.aes_spec.specs.Field.{mul};
ghost use Rattle.aes_spec.specs.Rounds.{mix_columns, shift_rows};
ghost use Rattle.aes_vector.specs.Lanes.{HasLanes, pair_block, part, with_constant};
ghost use Rattle.aes_vector.specs.Turns.{below, opposite, turn};

use std::simd::prelude::*;

/// In each lane the lane that stands below it once the rows are turned.
#[inline(always)]
fn below_once_turned(x: u8x32) -> u8x32
    ensures { result ≡ pair_block (λ k. slice_index x (16 * (k / 16) + below (k % 16))) }
{
    x.swizzle([
        5, 6, 7, 4, 9, 10, 11, 8, 13, 14, 15, 12, 1, 2, 3, 0, 21, 22, 23, 20, 25, 26, 27, 24, 29,
        30, 31, 28, 17, 18, 19, 16,
    ])
}

/// The rows turned (FIPS 197, section 5.1.2).
#[inline(always)]
fn turned(x: u8x32) -> u8x32
    ensures { result ≡ pair_block (λ k. slice_index x (16 * (k / 16) + turn (k % 16))) }
{
    x.swizzle([
        0, 5, 10, 15, 4, 9, 14, 3, 8, 13, 2, 7, 12, 1, 6, 11, 16, 21, 26, 31, 20, 25, 30, 19, 24,
        29, 18, 23, 28, 17, 22, 27,
    ])
}

/// The rows turned, and then in each row the row two below it.
#[inline(always)]
fn turned_opposite(x: u8x32) -> u8x32
    ensures { result ≡ pair_block (λ k. slice_index x (16 * (k / 16) + opposite (k % 16))) }
{
    x.swizzle([
        10, 15, 0, 5, 14, 3, 4, 9, 2, 7, 8, 13, 6, 11, 12, 1, 26, 31, 16, 21, 30, 19, 20, 25, 18,
        23, 24, 29, 22, 27, 28, 17,
    ])
}

/// Each byte twice in the field, with the constant of SubBytes added: one choice by the top bits gives both.
#[inline(always)]
fn twice_and_constant(x: u8x32) -> u8x32
    ensures { HasLanes 32 result (λ k. bit_xor (mul 2 (slice_index x k)) 0x63) }
{
    let carries = x.simd_ge(u8x32::splat(128));
    (x + x) ^ carries.select(u8x32::splat(0x78), u8x32::splat(0x63))
}

/// What comes of bytes before the constant of SubBytes: the constant, ShiftRows and MixColumns. What is
/// added up is turned at the end, so it takes one permute less than ShiftRows and MixColumns; the constant
/// comes back to itself, and comes with the doubling.
#[inline(always)]
pub(crate) fn mix_shifted(x: u8x32) -> u8x32
    ensures { (h : ℕ) → h < 2 → part h result ≡ mix_columns (shift_rows (with_constant (part h x))) }
{
    let below = below_once_turned(x);
    let pairs = x ^ below;
    turned(twice_and_constant(pairs) ^ below) ^ turned_opposite(pairs)
}
