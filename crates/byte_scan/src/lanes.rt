// Tests of 32 lanes. The result is all ones or 0 in each lane.
ghost use Rattle.std.specs.Prelude.{◌≡◌, ◌/◌, ◌%◌, ◌==◌, ◌++◌, map, not, nat_lt, slice_index};
ghost use Rattle.std.specs.Simd.Lanes.{mask_l};
ghost use Rattle.byte_scan.specs.Lanes.{flags};

use std::simd::prelude::*;

pub(crate) const LANES: usize = 32;

const YES: u8 = 255;

pub(crate) const NO: u8 = 0;

#[inline(always)]
pub(crate) fn equal_to(lanes: u8x32, byte: u8) -> u8x32
    ensures { result ≡ flags (λ lane. lane == byte) lanes }
{
    lanes
        .simd_eq(u8x32::splat(byte))
        .select(u8x32::splat(YES), u8x32::splat(NO))
}

#[inline(always)]
pub(crate) fn differs_from(lanes: u8x32, byte: u8) -> u8x32
    ensures { result ≡ flags (λ lane. not (lane == byte)) lanes }
{
    lanes
        .simd_ne(u8x32::splat(byte))
        .select(u8x32::splat(YES), u8x32::splat(NO))
}

#[inline(always)]
pub(crate) fn below(lanes: u8x32, bound: u8) -> u8x32
    ensures { result ≡ flags (λ lane. nat_lt lane bound) lanes }
{
    lanes
        .simd_lt(u8x32::splat(bound))
        .select(u8x32::splat(YES), u8x32::splat(NO))
}

/// The table in both halves.
#[inline(always)]
fn twice(table: [u8; 16]) -> u8x32
    ensures { result ≡ table ++ table }
{
    let half = u8x16::from_array(table);
    half.shuffle(
        half,
        [
            0, 1, 2, 3, 4, 5, 6, 7, 8, 9, 10, 11, 12, 13, 14, 15, 16, 17, 18, 19, 20, 21, 22, 23,
            24, 25, 26, 27, 28, 29, 30, 31,
        ],
    )
}

/// The table's entry at the low four bits of each lane.
#[inline(always)]
pub(crate) fn at_low_bits(table: [u8; 16], lanes: u8x32) -> u8x32
    ensures { result ≡ map (λ lane. slice_index table (lane % 16)) lanes }
{
    twice(table).swizzle_dyn_within::<16>(lanes & u8x32::splat(15))
}

/// The table's entry at the high four bits of each lane.
#[inline(always)]
pub(crate) fn at_high_bits(table: [u8; 16], lanes: u8x32) -> u8x32
    ensures { result ≡ map (λ lane. slice_index table (lane / 16)) lanes }
{
    twice(table).swizzle_dyn_within::<16>(lanes >> u8x32::splat(4))
}

/// Bit k is set where lane k isn't 0.
#[inline(always)]
pub(crate) fn yes_bits(lanes: u8x32) -> u64
    ensures { result ≡ mask_l (map (λ lane. not (lane == NO)) lanes) }
{
    lanes.simd_ne(u8x32::splat(NO)).to_bitmask()
}
