// The run of digits that is the first number.
ghost use Rattle.std.specs.Prelude.{◌≡◌, ◌<◌, ◌≤◌, ◌-◌, true, length, slice_index, IfSome};
ghost use Rattle.std.specs.Char.{is_ascii_digit};
ghost use Rattle.segment_forms.specs.Numbers.{value_of};
ghost use Rattle.segment_forms.specs.Patterns.{IsPlaced, counts_within, kept, pattern_at, run_end, run_start, width_of};

use crate::Pattern;

/// The most digits that a number may have.
const MOST_DIGITS: usize = 20;

/// The pattern whose first number is the run of digits at a place, where the run has no more than 20 digits and the number is
/// below 2^32.
pub fn pattern_at(first: &str, place: usize) -> Option<Pattern>
    requires { is_ascii_digit (slice_index first.now place) ≡ true }
    ensures value { result ≡ kept (λ p. counts_within p 1) (pattern_at first.now place) }
    ensures placed { IfSome result (IsPlaced first.now) }
{
    let text = first.as_bytes();
    let start = run_start(text, place);
    let end = run_end(text, place);
    let run = &text[start..end];
    if run.len() > MOST_DIGITS {
        return None;
    }
    Some(Pattern {
        prefix_len: start,
        suffix_start: end,
        first_number: value_of(run)?,
        width: width_of(run),
    })
}

/// Where the run of digits at a place begins.
fn run_start(text: &[u8], place: usize) -> usize
    requires { is_ascii_digit (slice_index text.now place) ≡ true }
    ensures value { result ≡ run_start text.now place }
    ensures before { result ≤ place }
    ensures digit { is_ascii_digit (slice_index text.now result) ≡ true }
{
    let mut start = place;
    while start > 0 && text[start - 1].is_ascii_digit() {
        start -= 1;
    }
    start
}

/// Where the run of digits at a place ends.
fn run_end(text: &[u8], place: usize) -> usize
    requires { is_ascii_digit (slice_index text.now place) ≡ true }
    ensures value { result ≡ run_end text.now place }
    ensures behind { place < result }
    ensures within { result ≤ length text.now }
    ensures digit { is_ascii_digit (slice_index text.now (result - 1)) ≡ true }
{
    let mut end = place + 1;
    while end < text.len() && text[end].is_ascii_digit() {
        end += 1;
    }
    end
}

/// How many digits a run is padded to: all, where it begins with a zero that isn't needed.
fn width_of(run: &[u8]) -> u8
    requires { length run.now ≤ 20 }
    ensures { result ≡ width_of run.now }
{
    match run {
        [b'0', _, ..] => run.len() as u8,
        _ => 0,
    }
}

/// The value of digits, where it is below 2^32.
pub fn value_of(digits: &[u8]) -> Option<u32>
    ensures { result ≡ value_of digits.now }
{
    let mut value = 0u64;
    for digit in digits {
        if !digit.is_ascii_digit() {
            return None;
        }
        value = value * 10 + u64::from(digit - b'0');
        if value > u64::from(u32::MAX) {
            return None;
        }
    }
    Some(value as u32)
}
