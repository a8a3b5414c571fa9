// Sets of up to eight ASCII bytes.
ghost use Rattle.std.specs.Prelude.{◌≡◌, position, IsTrue};
ghost use Rattle.byte_scan.specs.ByteSet.{is_member, all_ascii, HasRows};

use crate::lanes::{NO, at_high_bits, at_low_bits, differs_from};
use crate::scan::{ByteTest, first};
use std::marker::Model;
use std::simd::prelude::*;

/// A set of one to eight ASCII bytes, prepared for [`first_of_set`]: build it once for many calls.
#[derive(Drop)]
pub struct ByteSet {
    members: [u8; 8],
    // Bit `high` of row `low` is set where 16 * high + low is a member.
    rows: [u8; 16],
}

impl Model for ByteSet {
    ghost use Rattle.std.specs.Prelude.{List, ℕ};
    ghost use Rattle.byte_scan.specs.ByteSet.{IsReady};

    ghost Value = { List ℕ };

    ghost view = { λ set. set.members };

    ghost invariant = { λ set. IsReady set.members set.rows };
}

// The bit of a row for each upper half of a byte; 0 for those that aren't ASCII.
const BITS: [u8; 16] = [1, 2, 4, 8, 16, 32, 64, 128, 0, 0, 0, 0, 0, 0, 0, 0];

fn rows_of(members: &[u8; 8]) -> [u8; 16]
    requires { IsTrue (all_ascii members.now) }
    ensures { HasRows members.now result }
{
    let mut rows = [0; 16];
    for member in members {
        rows[usize::from(*member % 16)] |= 1 << (*member / 16);
    }
    rows
}

impl ByteSet {
    /// The set of these ASCII bytes, which may repeat.
    pub fn new(members: [u8; 8]) -> ByteSet
        requires { IsTrue (all_ascii members) }
        ensures { result ≡ members }
    {
        let rows = rows_of(&members);
        ByteSet { members, rows }
    }
}

impl ByteTest for ByteSet {
    ghost passes = { is_member };

    #[inline(always)]
    fn flags(&self, lanes: u8x32) -> u8x32 {
        differs_from(
            at_low_bits(self.rows, lanes) & at_high_bits(BITS, lanes),
            NO,
        )
    }

    #[inline(always)]
    fn passes(&self, byte: u8) -> bool {
        self.rows[usize::from(byte % 16)] & BITS[usize::from(byte / 16)] != NO
    }
}

/// The index of the first byte that is a member of the set.
pub fn first_of_set(bytes: &[u8], set: &ByteSet) -> Option<usize>
    ensures { result ≡ position (is_member set.now) bytes.now }
{
    first(bytes, set)
}
