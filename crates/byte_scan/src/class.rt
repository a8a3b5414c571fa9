// The bytes that a text may not contain.
ghost use Rattle.std.specs.Prelude.{◌≡◌, position};
ghost use Rattle.byte_scan.specs.Class.{is_outside, is_low_control};
ghost use Rattle.byte_scan.specs.Lanes.{flags};

use crate::lanes::{below, differs_from, equal_to};
use crate::lines::LINE_FEED;
use crate::scan::{ByteTest, first};
use std::simd::prelude::*;

/// A class of text, by the bytes that it may not contain.
#[derive(Debug, Clone, Copy, PartialEq, Eq, Drop)]
pub enum Class {
    /// Excludes the bytes below 0x20 except tab, LF and CR: those that `Char` of XML 1.0, production 2, excludes.
    Xml,
    /// Excludes the same bytes and 0x7F. RFC 8216 4.1 forbids every control character except CR and LF in a playlist:
    /// of these, this class allows the tab, and doesn't see U+0080 to U+009F, which aren't single bytes.
    Playlist,
}

const TAB: u8 = b'\t';

const CARRIAGE_RETURN: u8 = b'\r';

const SPACE: u8 = b' ';

const DELETE: u8 = 0x7f;

#[inline(always)]
fn low_controls(lanes: u8x32) -> u8x32
    ensures { result ≡ flags is_low_control lanes }
{
    below(lanes, SPACE)
        & differs_from(lanes, TAB)
        & differs_from(lanes, LINE_FEED)
        & differs_from(lanes, CARRIAGE_RETURN)
}

#[inline(always)]
fn is_low_control(byte: u8) -> bool
    ensures { result ≡ is_low_control byte }
{
    byte < SPACE && byte != TAB && byte != LINE_FEED && byte != CARRIAGE_RETURN
}

impl ByteTest for Class {
    ghost passes = { is_outside };

    #[inline(always)]
    fn flags(&self, lanes: u8x32) -> u8x32 {
        match *self {
            Class::Xml => low_controls(lanes),
            Class::Playlist => low_controls(lanes) | equal_to(lanes, DELETE),
        }
    }

    #[inline(always)]
    fn passes(&self, byte: u8) -> bool {
        match *self {
            Class::Xml => is_low_control(byte),
            Class::Playlist => is_low_control(byte) || byte == DELETE,
        }
    }
}

/// The index of the first byte that the class excludes.
pub fn first_outside(bytes: &[u8], class: Class) -> Option<usize>
    ensures { result ≡ position (is_outside class) bytes.now }
{
    first(bytes, &class)
}
