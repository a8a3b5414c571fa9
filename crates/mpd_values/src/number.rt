// Numbers.
ghost use Rattle.std.specs.Prelude.{◌≡◌, ◌+◌, ◌^◌, ◌==◌, pos, option_map, slice_index};
ghost use Rattle.mpd_values.specs.Numbers as spec;

use crate::blank::{Blank, trimmed};
use fast_float::parse_u64;

/// Reads a number of one ASCII digit or more, spaces around it dropped.
///
/// `None` exactly where the text isn't of that form, or the number is below `least`, or not below `bound`.
#[tactic(auto, unfolding(crate::specs::Numbers::number_of))]
pub fn read_number(text: &str, least: u64, bound: u64) -> Option<u64>
    ensures { result ≡ spec.number_between least bound text.now }
{
    let number = read_numeral(trimmed(text, Blank::Space))?;
    (least <= number && number < bound).then_some(number)
}

/// Reads a number of one ASCII digit or more that may have a `-` before it, spaces around it dropped.
///
/// `None` exactly where the text isn't of that form, or the number doesn't fit 64 signed bits.
#[tactic(auto, unfolding(crate::specs::Numbers::signed_64_of))]
pub fn read_signed(text: &str) -> Option<i64>
    ensures { result ≡ spec.signed_64_of text.now }
{
    let text = trimmed(text, Blank::Space);
    match text.strip_prefix('-') {
        Some(digits) => read_negative(digits),
        None => read_positive(text),
    }
}

fn read_negative(digits: &str) -> Option<i64>
    ensures { result ≡ option_map spec.negated (spec.kept_if (spec.is_between 0 (2 ^ 63 + 1)) (spec.numeral_of digits.now)) }
{
    0_i64.checked_sub_unsigned(read_numeral(digits)?)
}

fn read_positive(digits: &str) -> Option<i64>
    ensures { result ≡ option_map pos (spec.kept_if (spec.is_between 0 (2 ^ 63)) (spec.numeral_of digits.now)) }
{
    0_i64.checked_add_unsigned(read_numeral(digits)?)
}

/// The number that one ASCII digit or more write, where it is below 2^64.
pub(crate) fn read_numeral(text: &str) -> Option<u64>
    ensures { result ≡ spec.kept_if (spec.is_between 0 (2 ^ 64)) (spec.numeral_of text.now) }
{
    let digits = text.as_bytes();
    if has_plus(digits) {
        return None;
    }
    parse_u64(digits).ok()
}

#[inline(always)]
fn has_plus(bytes: &[u8]) -> bool
    ensures { result ≡ (slice_index bytes.now 0 == 43) }
{
    match bytes {
        [b'+', ..] => true,
        _ => false,
    }
}
