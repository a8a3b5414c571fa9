// The values of tags.
ghost use Rattle.std.specs.Prelude.{◌≡◌, ◌^◌, ◌<◌, ◌≤◌, IsTrue, length, IfSome, option_map};
ghost use Rattle.std.specs.Str.{all_ascii_digits};
ghost use Rattle.std.specs.Str.Parse.{digits_value};
ghost use Rattle.hls_media.specs.Values as spec;

use hls_lines::cut_at;
use url_parts::Range;

/// The bound of byte offsets in a file.
const PLACES: u64 = 1 << 63;

fn are_digits(bytes: &[u8]) -> bool
    ensures { result ≡ all_ascii_digits bytes.now }
{
    bytes.iter().all(|byte| byte.is_ascii_digit())
}

fn is_number(text: &str) -> bool
    ensures { result ≡ spec.is_number text.now }
{
    are_digits(text.as_bytes()) && !text.is_empty()
}

/// A decimal number below a bound.
#[tactic(auto, unfolding(crate::specs::Values::number_of))]
pub(crate) fn read_number(text: &str, bound: u64) -> Option<u64>
    requires { bound ≤ 2 ^ 63 }
    ensures { result ≡ spec.below bound (spec.number_of text.now) }
{
    if !is_number(text) {
        return None;
    }
    let number = text.parse::<u64>().ok()?;
    (number < bound).then_some(number)
}

/// Whether these are `least` to `most` digits.
fn is_run(digits: &[u8], least: usize, most: usize) -> bool
    ensures { result ≡ spec.is_run least most digits.now }
{
    are_digits(digits) && least <= digits.len() && digits.len() <= most
}

/// The number of at most twenty digits.
fn number(digits: &[u8]) -> u128
    requires ascii { IsTrue (all_ascii_digits digits.now) }
    requires few { length digits.now ≤ 20 }
    ensures value { result ≡ digits_value 10 digits.now }
    ensures bound { result < 10 ^ length digits.now }
    ensures small { result < 10 ^ 20 }
{
    let mut number = 0;
    for digit in digits {
        number = number * 10 + (*digit - b'0') as u128;
    }
    number
}

/// The nanoseconds that the digits after a decimal point write: the first nine, and 0 for each missing one.
#[tactic(auto, unfolding(crate::specs::Values::fraction_nanos))]
fn fraction_nanos(digits: &[u8]) -> u128
    requires { IsTrue (all_ascii_digits digits.now) }
    ensures value { result ≡ spec.fraction_nanos digits.now }
    ensures bound { result < 10 ^ 9 }
{
    let len = digits.len().min(9);
    number(&digits[..len]) * 10_u128.pow((9 - len) as u32)
}

/// What is before the first comma.
fn before_title(text: &str) -> &str
    ensures { result.now ≡ spec.before_title text.now }
{
    let (number, _title) = cut_at(text, b',').unwrap_or((text, ""));
    number
}

/// What is before and after the first decimal point.
fn decimal_parts(text: &str) -> (&str, &str)
    ensures whole { result.0.now ≡ (spec.decimal_parts text.now).0 }
    ensures fraction { result.1.now ≡ (spec.decimal_parts text.now).1 }
{
    cut_at(text, b'.').unwrap_or((text, ""))
}

/// The nanoseconds of `n`, `n.` or `n.f`, optionally followed by a comma and a title. n has 1 to 20 digits, and f at
/// most 30, of which the first nine count.
#[tactic(auto, unfolding(crate::specs::Values::duration_of))]
pub(crate) fn read_duration(text: &str) -> Option<u128>
    ensures { result ≡ spec.duration_of text.now }
{
    let (whole, fraction) = decimal_parts(before_title(text));
    nanos(whole.as_bytes(), fraction.as_bytes())
}

fn nanos(whole: &[u8], fraction: &[u8]) -> Option<u128>
    ensures { result ≡ spec.nanos_of (whole.now, fraction.now) }
{
    if !is_run(whole, 1, 20) || !is_run(fraction, 0, 30) {
        return None;
    }
    Some(number(whole) * 1_000_000_000 + fraction_nanos(fraction))
}

/// The byte range of `n[@o]`, where it ends below 2^63. Without an offset it begins at `otherwise`, or is invalid
/// where that is `None`.
#[tactic(auto, unfolding(crate::specs::Values::range_from))]
pub(crate) fn read_range(text: &str, otherwise: Option<u128>) -> Option<Range>
    ensures { result ≡ spec.fitting (spec.range_from otherwise text.now) }
{
    let (count, first) = match cut_at(text, b'@') {
        Some((count, offset)) => (count, Some(u128::from(read_number(offset, PLACES)?))),
        None => (text, otherwise),
    };
    let count = read_number(count, PLACES)?;
    let first = first?;
    if count == 0 || first >= u128::from(PLACES - count) {
        return None;
    }
    let first = first as u64;
    Some(Range { first, count })
}

/// Whether a text is `n@o` and ends below 2^63, or `n`, where n isn't 0.
#[tactic(auto, unfolding(crate::specs::Values::is_range))]
pub(crate) fn is_range(text: &str) -> bool
    ensures { result ≡ spec.is_range text.now }
{
    match cut_at(text, b'@') {
        Some(_) => read_range(text, None).is_some(),
        None => is_positive(text),
    }
}

/// Whether a text is a number other than 0.
#[tactic(auto, unfolding(crate::specs::Values::number_of))]
fn is_positive(text: &str) -> bool
    ensures { result ≡ spec.is_positive (spec.number_of text.now) }
{
    is_number(text) && read_number(text, PLACES) != Some(0)
}
