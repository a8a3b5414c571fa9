// Scans by any test of a byte: whole blocks of lanes first, then the remaining bytes.
ghost use Rattle.std.specs.Prelude.{◌≡◌, ℕ, Bool, map, position, count_by};
ghost use Rattle.std.specs.Simd.Lanes.{mask_l};
ghost use Rattle.byte_scan.specs.Blocks.{IsCut};
ghost use Rattle.byte_scan.specs.Lanes.{flags};

use crate::lanes::{LANES, yes_bits};
use std::simd::prelude::*;

pub(crate) trait ByteTest {
    ghost passes: { Self → ℕ → Bool };

    /// All ones in each lane that passes, and 0 in each that does not.
    fn flags(&self, lanes: u8x32) -> u8x32
        ensures { result ≡ flags (passes self.now) lanes };

    fn passes(&self, byte: u8) -> bool
        ensures { result ≡ passes self.now byte };
}

/// The leading whole blocks, and the bytes after them.
#[inline(always)]
fn cut(bytes: &[u8]) -> (&[[u8; LANES]], &[u8])
    ensures { IsCut LANES bytes.now result.0.now result.1.now }
{
    bytes.as_chunks::<LANES>()
}

/// Bit k is set where byte k of the block passes.
#[inline(always)]
fn hits<T: ByteTest>(block: &[u8; LANES], test: &T) -> u64
    ensures { result ≡ mask_l (map (T.passes test.now) block.now) }
{
    yes_bits(test.flags(u8x32::from_array(*block)))
}

#[inline(always)]
fn first_by_byte<T: ByteTest>(bytes: &[u8], test: &T) -> Option<usize>
    ensures { result ≡ position (T.passes test.now) bytes.now }
{
    bytes.iter().position(|byte| test.passes(*byte))
}

#[inline(always)]
fn count_by_byte<T: ByteTest>(bytes: &[u8], test: &T) -> u64
    ensures { result ≡ count_by (T.passes test.now) bytes.now }
{
    bytes.iter().filter(|byte| test.passes(**byte)).count() as u64
}

/// The index of the first byte that passes.
#[inline(always)]
pub(crate) fn first<T: ByteTest>(bytes: &[u8], test: &T) -> Option<usize>
    ensures { result ≡ position (T.passes test.now) bytes.now }
{
    let (blocks, rest) = cut(bytes);
    for (index, block) in blocks.iter().enumerate() {
        let found = hits(block, test);
        if found != 0 {
            return Some(LANES * index + found.trailing_zeros() as usize);
        }
    }
    let passed = bytes.len() - rest.len();
    let place = first_by_byte(rest, test)?;
    Some(passed + place)
}

/// How many bytes pass.
#[inline(always)]
pub(crate) fn count<T: ByteTest>(bytes: &[u8], test: &T) -> u64
    ensures { result ≡ count_by (T.passes test.now) bytes.now }
{
    let (blocks, rest) = cut(bytes);
    let mut count = 0;
    for block in blocks {
        count += u64::from(hits(block, test).count_ones());
    }
    count + count_by_byte(rest, test)
}
