// Line ends.
ghost use Rattle.std.specs.Prelude.{◌≡◌, count_by};
ghost use Rattle.byte_scan.specs.Lines.{is_line_feed};

use crate::lanes::equal_to;
use crate::scan::{ByteTest, count};
use std::simd::prelude::*;

pub(crate) const LINE_FEED: u8 = b'\n';

#[derive(Drop)]
struct LineFeed;

impl ByteTest for LineFeed {
    ghost passes = { λ _. is_line_feed };

    #[inline(always)]
    fn flags(&self, lanes: u8x32) -> u8x32 {
        equal_to(lanes, LINE_FEED)
    }

    #[inline(always)]
    fn passes(&self, byte: u8) -> bool {
        byte == LINE_FEED
    }
}

/// How many bytes are LF.
pub fn count_lf(bytes: &[u8]) -> u64
    ensures { result ≡ count_by is_line_feed bytes.now }
{
    count(bytes, &LineFeed)
}
