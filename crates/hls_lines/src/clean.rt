// Checks for UTF-8, and for control characters.
ghost use Rattle.std.specs.Prelude.{◌≡◌, ◌≤◌, length, Some};
ghost use Rattle.bridge_io.specs.Answer.{Gives};
ghost use Rattle.bridge_io.specs.Places.{place_of};
ghost use Rattle.hls_lines.specs.Characters.{begins_with_high_control, high_control_from, first_control};
ghost use Rattle.hls_lines.specs.Lines.{clean};

use crate::LineFault;
use crate::marks::find_mark;
use bridge_io::Place;
use byte_scan::{Class, count_lf, first_outside};

/// Whether the bytes begin with a character U+0080 to U+009F.
#[inline(always)]
fn begins_with_high_control(bytes: &[u8]) -> bool
    ensures { result ≡ begins_with_high_control bytes.now }
{
    matches!(bytes, [0xc2, 0x80..=0x9f, ..])
}

/// The first byte of each character U+0080 to U+00BF.
const LEAD: u8 = 0xc2;

/// The index of the first character U+0080 to U+009F.
fn first_high_control(bytes: &[u8]) -> Option<usize>
    ensures { result ≡ high_control_from 0 bytes.now }
{
    let mut at = 0;
    while let Some(passed) = find_mark(&bytes[at..], LEAD) {
        at += passed;
        if begins_with_high_control(&bytes[at..]) {
            return Some(at);
        }
        at += 1;
    }
    None
}

/// The index of the first control character that a playlist may not have.
fn first_control(bytes: &[u8]) -> Option<usize>
    ensures { result ≡ first_control bytes.now }
{
    match (
        first_outside(bytes, Class::Playlist),
        first_high_control(bytes),
    ) {
        (None, other) => other,
        (Some(one), None) => Some(one),
        (Some(one), Some(other)) => Some(one.min(other)),
    }
}

fn place_at(bytes: &[u8], at: usize) -> Place
    requires { at ≤ length bytes.now }
    ensures { result ≡ place_of bytes.now at }
{
    Place {
        at: at as u64,
        line: count_lf(&bytes[..at]) + 1,
    }
}

/// The bytes as a text, without control characters that a playlist may not have.
#[tactic(auto, unfolding(crate::specs::Lines::clean))]
pub(crate) fn clean(bytes: &[u8]) -> Result<&str, LineFault>
    ensures { Gives (λ text. text.now) Some result (clean bytes.now) }
{
    let text = match str::from_utf8(bytes) {
        Ok(text) => text,
        Err(error) => return Err(LineFault::NotUtf8(place_at(bytes, error.valid_up_to()))),
    };
    match first_control(bytes) {
        None => Ok(text),
        Some(at) => Err(LineFault::BadChar(place_at(bytes, at))),
    }
}
