//! Durations: XML Schema part 2, 3.2.6.
ghost use Rattle.std.specs.Prelude.{ℕ, Result, ◌↔◌, ◌≡◌, ◌+◌, ◌^◌, ◌<◌, ◌≤◌, ◌++◌, IfSome, option_map};
ghost use Rattle.arrayvec.specs.ArrayString.{array_string_len};
ghost use Rattle.iso_time.specs.Digits.{number_of, optional_rest};
ghost use Rattle.iso_time.specs.Duration as spec;
ghost use Rattle.iso_time.specs.declared.duration.DurationFault.{DurationFault};

use crate::digits::{after, digit, fraction, whole_number};
use arrayvec::ArrayString;
use exact_time::Nanos;
use std::marker::Model;
use thiserror::Error;

/// Why a text denotes no duration. The first variant that holds is returned.
#[derive(Clone, Copy, PartialEq, Eq, Debug, Error)]
pub enum DurationFault {
    /// It isn't written as a duration.
    #[error("not a duration")]
    Shape,
    /// It has years or months, which have no fixed length.
    #[error("a duration of years or months")]
    Calendar,
    /// It is 10^19 nanoseconds or more.
    #[error("a duration of 10^19 nanoseconds or more")]
    Range,
}

/// A length of time: its months, which have no fixed number of days, and the rest.
#[derive(Drop)]
struct Extent {
    months: u128,
    nanos: u128,
}

/// A number with its letter, and the rest; `None` where the text doesn't begin with those.
#[tactic(auto, unfolding(crate::specs::Duration::part_at))]
fn part(text: &[u8], letter: u8) -> (Option<u128>, &[u8])
    ensures number { result.0 ≡ option_map number_of (spec.part_at letter text.now).0 }
    ensures rest { result.1.now ≡ (spec.part_at letter text.now).1 }
    ensures bound { IfSome result.0 (λ n. n < 10 ^ 20) }
{
    let Some((number, rest)) = whole_number(text) else {
        return (None, text);
    };
    match after(rest, letter) {
        Some(rest) => (Some(number), rest),
        None => (None, text),
    }
}

/// The nanoseconds of `n[.f]S`, where the whole text is of that form.
#[tactic(auto, unfolding(crate::specs::Duration::seconds_of))]
fn seconds(text: &[u8]) -> Option<u128>
    ensures value { result ≡ option_map spec.seconds_nanos (spec.seconds_of text.now) }
    ensures bound { IfSome result (λ n. n < 10 ^ 30) }
{
    let (whole, rest) = whole_number(text)?;
    let (nanos, rest) = fraction(rest);
    let rest = after(rest, b'S')?;
    if !rest.is_empty() {
        return None;
    }
    Some(whole * 1_000_000_000 + nanos as u128)
}

/// The same, or `Some(None)` for an empty text.
fn seconds_if_any(text: &[u8]) -> Option<Option<u128>>
    ensures value { result
        ≡ option_map (option_map spec.seconds_nanos) (optional_rest spec.seconds_of text.now) }
    ensures bound { IfSome result (λ seconds. IfSome seconds (λ n. n < 10 ^ 30)) }
{
    if text.is_empty() {
        return Some(None);
    }
    Some(Some(seconds(text)?))
}

/// The nanoseconds of `T[nH][nM][n[.f]S]`, where the whole text is of that form.
#[tactic(auto, unfolding(crate::specs::Duration::clock_of))]
fn clock(text: &[u8]) -> Option<u128>
    ensures value { result ≡ option_map spec.clock_nanos (spec.clock_of text.now) }
    ensures bound { IfSome result (λ n. n < 10 ^ 33) }
{
    let rest = after(text, b'T')?;
    let (hours, rest) = part(rest, b'H');
    let (minutes, rest) = part(rest, b'M');
    let seconds = seconds_if_any(rest)?;
    if hours.is_none() && minutes.is_none() && seconds.is_none() {
        return None;
    }
    let whole = hours.unwrap_or(0) * 3600 + minutes.unwrap_or(0) * 60;
    Some(whole * 1_000_000_000 + seconds.unwrap_or(0))
}

/// The same, or `Some(None)` for an empty text.
fn clock_if_any(text: &[u8]) -> Option<Option<u128>>
    ensures value { result
        ≡ option_map (option_map spec.clock_nanos) (optional_rest spec.clock_of text.now) }
    ensures bound { IfSome result (λ clock. IfSome clock (λ n. n < 10 ^ 33)) }
{
    if text.is_empty() {
        return Some(None);
    }
    Some(Some(clock(text)?))
}

/// What a text says, where it is written as a duration.
#[tactic(auto, unfolding(crate::specs::Duration::parts_of))]
fn extent_at(text: &[u8]) -> Option<Extent>
    ensures { result ≡ option_map spec.extent_of (spec.parts_of text.now) }
{
    let rest = after(text, b'P')?;
    let (years, rest) = part(rest, b'Y');
    let (months, rest) = part(rest, b'M');
    let (days, rest) = part(rest, b'D');
    let clock = clock_if_any(rest)?;
    if years.is_none() && months.is_none() && days.is_none() && clock.is_none() {
        return None;
    }
    Some(Extent {
        months: years.unwrap_or(0) * 12 + months.unwrap_or(0),
        nanos: days.unwrap_or(0) * 86_400 * 1_000_000_000 + clock.unwrap_or(0),
    })
}

impl Extent {
    /// The whole nanoseconds, where there are no months and it is in range.
    fn nanos(&self) -> Result<Nanos, DurationFault>
        ensures { result ≡ spec.nanos_or_fault self.now }
    {
        if self.months != 0 {
            return Err(DurationFault::Calendar);
        }
        if self.nanos >= 10_000_000_000_000_000_000 {
            return Err(DurationFault::Range);
        }
        Ok(Nanos(self.nanos as u64))
    }
}

/// Reads a duration: `P[nY][nM][nD][T[nH][nM][n[.f]S]]` with at least one part, and at least one after a `T`. Each n
/// has 1 to 20 digits, and f 1 to 30, of which the first nine count.
#[tactic(auto, unfolding(crate::specs::Duration::duration_of))]
pub fn read_duration(text: &str) -> Result<Nanos, DurationFault>
    ensures answer { result ≡ spec.duration_of text.now }
    // It is what the text denotes: the value, or the error that applies, and nothing else.
    ensures exactly { (answer : Result ℕ DurationFault) →
        (result ≡ answer) ↔ spec.DenotesDuration text.now answer }
{
    match extent_at(text.as_bytes()) {
        Some(extent) => extent.nanos(),
        None => Err(DurationFault::Shape),
    }
}

/// The longest text: `PT9999999999.999999999S`.
const MAX_LEN: usize = 23;

/// The text of a duration. In a contract it is its bytes.
#[derive(Drop)]
pub struct DurationText {
    text: ArrayString<MAX_LEN>,
}

impl Model for DurationText {
    ghost use Rattle.std.specs.Prelude.{List, ℕ};

    ghost Value = { List ℕ };

    ghost view = { λ a. a.text.bytes };
}

impl DurationText {
    /// The text.
    pub fn as_str(&self) -> &str
        ensures { result.now ≡ self.now }
    {
        self.text.as_str()
    }
}

/// Appends a decimal point and the digits of a fraction up to the last that isn't 0, or nothing for 0.
fn push_fraction(text: &mut ArrayString<MAX_LEN>, nanos: u32)
    requires fraction { nanos < 10 ^ 9 }
    requires room { array_string_len text.old ≤ 12 }
    ensures text { text.new.bytes ≡ text.old.bytes ++ spec.nanos_text nanos }
    ensures len { array_string_len text.new ≤ array_string_len text.old + 10 }
{
    if nanos == 0 {
        return;
    }
    text.push('.');
    for place in (0..9).rev() {
        if nanos % 10_u32.pow(place + 1) == 0 {
            return;
        }
        text.push(char::from(digit(nanos, place)));
    }
}

/// Writes a duration: `PT`, the whole seconds, a decimal point and the fraction up to its last digit that isn't 0
/// where there is a fraction, and `S`.
#[tactic(auto, unfolding(crate::specs::Duration::duration_text))]
pub fn write_duration(value: Nanos) -> DurationText
    ensures { result ≡ spec.duration_text value }
{
    let mut text = ArrayString::new();
    text.push_str("PT");
    text.push_str(itoa::Buffer::new().format(value.0 / 1_000_000_000));
    push_fraction(&mut text, (value.0 % 1_000_000_000) as u32);
    text.push('S');
    DurationText { text }
}
