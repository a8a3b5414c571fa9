// The values of attributes.
ghost use Rattle.std.specs.Prelude.{◌≡◌, ◌<◌, ◌^◌, option_map};
ghost use Rattle.std.specs.Char.{is_ascii_digit};
ghost use Rattle.std.specs.List.{list_all};
ghost use Rattle.hls_master.specs.Values.{number_below, size_within, rate_within, digit_at, thousandths};

use bridge_io::{Ratio, Size};

/// A text as a decimal number, where it is below a bound.
pub(crate) fn read_number(text: &str, bound: u64) -> Option<u64>
    ensures { result ≡ number_below bound text.now }
{
    let number = read_numeral(text)?;
    (number < bound).then_some(number)
}

fn read_numeral(text: &str) -> Option<u64>
    ensures { result ≡ number_below (2 ^ 64) text.now }
{
    if !has_only_digits(text) {
        return None;
    }
    text.parse::<u64>().ok()
}

fn has_only_digits(text: &str) -> bool
    ensures { result ≡ list_all is_ascii_digit text.now }
{
    text.as_bytes().iter().all(|byte| byte.is_ascii_digit())
}

/// A picture's size: width, `x` and height, in pixels (RFC 8216 4.2, decimal-resolution).
pub(crate) fn read_size(text: &str) -> Option<Size>
    ensures { result ≡ size_within text.now }
{
    let (width, height) = text.split_once('x')?;
    let width = read_number(width, 1 << 32)? as u32;
    let height = read_number(height, 1 << 32)? as u32;
    Some(Size { width, height })
}

/// Frames per second below 2^20 (RFC 8216 4.2, decimal-floating-point), truncated to thousandths.
pub(crate) fn read_frame_rate(text: &str) -> Option<Ratio>
    ensures { option_map (λ rate. (rate.n, rate.m)) result ≡ rate_within text.now }
{
    let (whole, digits) = text.split_once('.').unwrap_or((text, ""));
    let whole = read_number(whole, 1 << 20)? as u32;
    if !has_only_digits(digits) {
        return None;
    }
    let n = 1000 * whole + first_thousandths(digits.as_bytes());
    Some(Ratio { n, m: 1000 })
}

/// The thousandths of the first three digits after a decimal point.
fn first_thousandths(digits: &[u8]) -> u32
    ensures value { result ≡ thousandths digits.now }
    ensures small { result < 2 ^ 15 }
{
    100 * digit_at(digits, 0) + 10 * digit_at(digits, 1) + digit_at(digits, 2)
}

/// The digit at an index, 0 after the last one.
fn digit_at(digits: &[u8], place: usize) -> u32
    ensures value { result ≡ digit_at digits.now place }
    ensures small { result < 256 }
{
    match digits.get(place) {
        None => 0,
        Some(byte) => u32::from(byte.saturating_sub(b'0')),
    }
}
