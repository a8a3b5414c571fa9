//! Timestamps: XML Schema part 2, 3.2.7.
ghost use Rattle.std.specs.Prelude.{ℤ, Result, ◌↔◌, ◌≡◌, ◌^◌, ◌<◌, ◌≤◌, pos, ◌≤ℤ◌, IfOk, IfSome, option_map};
ghost use Rattle.std.specs.Option.{SomeIff};
ghost use Rattle.std.specs.Str.{IsAscii};
ghost use Rattle.jiff_core.specs.Calendar.{IsWithin};
ghost use Rattle.jiff_core.specs.DateTime.{IsCivilNanos, civil_nanos as nanos_of};
ghost use Rattle.jiff_core.specs.declared.civil.datetime.DateTime.{DateTime as CivilDateTime};
ghost use Rattle.iso_time.specs.Civil.{civil_text, instant_text};
ghost use Rattle.iso_time.specs.Digits.{before_mark, digits_at, number_found};
ghost use Rattle.iso_time.specs.Instant as spec;
ghost use Rattle.iso_time.specs.declared.instant.InstantFault.{InstantFault};

use crate::digits::{after, digit, field, fraction};
use jiff::civil::DateTime;
use jiff_core::civil;
use std::marker::Model;
use thiserror::Error;

/// A timestamp: nanoseconds since 1970-01-01T00:00:00Z, less than 10^21 from it.
///
/// In a contract an `Instant` is that number.
#[derive(Clone, Copy, PartialEq, Eq, PartialOrd, Ord, Debug)]
pub struct Instant(pub i128);

impl Model for Instant {
    ghost use Rattle.std.specs.Prelude.{ℤ, pos, neg_ℤ, ◌<ℤ◌, ◌^◌};

    ghost Value = { ℤ };

    ghost view = { λ a. a.0 };

    ghost invariant = { λ a. (neg_ℤ (pos (10 ^ 21)) <ℤ a.0) × (a.0 <ℤ pos (10 ^ 21)) };

    ghost inverse = { λ z. record { 0 = z } };
}

/// Why a text denotes no timestamp. The first variant that holds is returned.
#[derive(Clone, Copy, PartialEq, Eq, Debug, Error)]
pub enum InstantFault {
    /// It isn't written as a date and a time.
    #[error("not an instant")]
    Shape,
    /// It has a month, day, hour, minute, second or offset that doesn't exist.
    #[error("a date, a time or an offset that doesn't exist")]
    Date,
    /// It is before 1583-01-01T00:00:00Z, or not before 3000-01-01T00:00:00Z.
    #[error("an instant outside the years 1583 to 2999")]
    Range,
}

/// 1583-01-01T00:00:00Z.
const FIRST: i128 = -12_212_553_600_000_000_000;

/// 3000-01-01T00:00:00Z.
const END: i128 = 32_503_680_000_000_000_000;

/// The timestamp of a number of nanoseconds, where it is in range.
fn checked_instant(nanos: i128) -> Result<Instant, InstantFault>
    ensures { result ≡ spec.instant_or_fault nanos }
{
    if nanos < FIRST || nanos >= END {
        return Err(InstantFault::Range);
    }
    Ok(Instant(nanos))
}

/// An offset from UTC.
#[derive(Drop)]
struct Offset {
    behind: bool,
    hours: u16,
    minutes: u16,
}

/// The numbers of a written timestamp.
#[derive(Drop)]
struct Fields {
    year: u16,
    month: u16,
    day: u16,
    hour: u16,
    minute: u16,
    second: u16,
    nanos: u32,
    offset: Offset,
}

/// A number of `width` digits followed by a mark, and the rest.
fn marked_field(text: &[u8], width: usize, mark: u8) -> Option<(u16, &[u8])>
    requires { width ≤ 4 }
    ensures found { option_map (λ p. (p.0, p.1.now)) result
        ≡ number_found (before_mark mark (digits_at width text.now)) }
    ensures bound { IfSome result (λ p. p.0 < 10 ^ width) }
{
    let (number, rest) = field(text, width)?;
    let rest = after(rest, mark)?;
    Some((number, rest))
}

/// What follows a leading `:`, or the whole text where there is none.
fn past_colon(text: &[u8]) -> &[u8]
    ensures { result.now ≡ (spec.colon_at text.now).1 }
{
    match after(text, b':') {
        Some(rest) => rest,
        None => text,
    }
}

impl Offset {
    /// No offset.
    const UTC: Offset = Offset {
        behind: false,
        hours: 0,
        minutes: 0,
    };

    /// `hh:mm` or `hhmm`, where the whole text is of that form.
    #[tactic(auto, unfolding(crate::specs::Instant::shift_of))]
    fn shift(text: &[u8], behind: bool) -> Option<Offset>
        ensures { result ≡ option_map spec.offset_of (spec.shift_of behind text.now) }
    {
        let (hours, rest) = field(text, 2)?;
        let (minutes, rest) = field(past_colon(rest), 2)?;
        if !rest.is_empty() {
            return None;
        }
        Some(Offset {
            behind,
            hours,
            minutes,
        })
    }

    /// `Z`, `+hh:mm`, `-hh:mm`, `+hhmm`, `-hhmm` or nothing, where the whole text is of that form.
    #[tactic(auto, unfolding(crate::specs::Instant::zone_of))]
    fn of(text: &[u8]) -> Option<Offset>
        ensures { result ≡ option_map spec.offset_of (spec.zone_of text.now) }
    {
        match text {
            [] | [b'Z'] => Some(Offset::UTC),
            [b'+', rest @ ..] => Offset::shift(rest, false),
            [b'-', rest @ ..] => Offset::shift(rest, true),
            _ => None,
        }
    }

    /// The seconds ahead of UTC, where the offset is valid.
    fn seconds(&self) -> Option<i32>
        ensures value { SomeIff result (spec.IsOffset self.now) (spec.seconds_ahead self.now) }
        ensures bound { IfSome result (IsWithin 53_940) }
    {
        if self.hours > 14 || self.minutes > 59 {
            return None;
        }
        let seconds = self.hours as i32 * 3600 + self.minutes as i32 * 60;
        Some(if self.behind { -seconds } else { seconds })
    }
}

impl Fields {
    /// The numbers of a text, where it is written as a timestamp.
    #[tactic(auto, unfolding(crate::specs::Instant::parts_of))]
    fn of(text: &[u8]) -> Option<Fields>
        ensures found { result ≡ option_map spec.fields_of (spec.parts_of text.now) }
        ensures short { IfSome result spec.AreShort }
    {
        let (year, rest) = marked_field(text, 4, b'-')?;
        let (month, rest) = marked_field(rest, 2, b'-')?;
        let (day, rest) = marked_field(rest, 2, b'T')?;
        let (hour, rest) = marked_field(rest, 2, b':')?;
        let (minute, rest) = marked_field(rest, 2, b':')?;
        let (second, rest) = field(rest, 2)?;
        let (nanos, rest) = fraction(rest);
        let offset = Offset::of(rest)?;
        Some(Fields {
            year,
            month,
            day,
            hour,
            minute,
            second,
            nanos,
            offset,
        })
    }

    /// The local time, in nanoseconds since the local 1970-01-01T00:00:00, where the date and the time of day exist.
    fn civil_nanos(&self) -> Option<i128>
        requires { spec.AreShort self.now }
        ensures value { SomeIff result (spec.IsCivil self.now) (spec.civil_nanos self.now) }
        ensures bound { IfSome result IsCivilNanos }
    {
        let local = DateTime::new(
            self.year as i16,
            self.month as i8,
            self.day as i8,
            self.hour as i8,
            self.minute as i8,
            self.second as i8,
            self.nanos as i32,
        );
        match local {
            Ok(local) => Some(local.to_plain().to_nanosecond()),
            Err(_) => None,
        }
    }

    /// The timestamp, or why there is none.
    fn instant(&self) -> Result<Instant, InstantFault>
        requires { spec.AreShort self.now }
        ensures { result ≡ spec.answer_of self.now }
    {
        let Some(local) = self.civil_nanos() else {
            return Err(InstantFault::Date);
        };
        let Some(ahead) = self.offset.seconds() else {
            return Err(InstantFault::Date);
        };
        checked_instant(local - ahead as i128 * 1_000_000_000)
    }
}

/// Reads a timestamp: `YYYY-MM-DDThh:mm:ss[.f]`, and then `Z`, `+hh:mm`, `-hh:mm`, `+hhmm`, `-hhmm` or nothing, which
/// is read as UTC. Digits of the fraction after the ninth are dropped.
#[tactic(auto, unfolding(crate::specs::Instant::instant_of))]
pub fn read_instant(text: &str) -> Result<Instant, InstantFault>
    ensures answer { result ≡ spec.instant_of text.now }
    // It is what the text denotes: the value, or the error that applies, and nothing else.
    ensures exactly { (answer : Result ℤ InstantFault) →
        (result ≡ answer) ↔ spec.DenotesInstant text.now answer }
    ensures readable { IfOk result spec.IsReadable }
{
    match Fields::of(text.as_bytes()) {
        Some(fields) => fields.instant(),
        None => Err(InstantFault::Shape),
    }
}

/// The text of a date and a time in UTC, from the year 0 on.
#[tactic(auto, unfolding(crate::specs::Civil::moment_text, crate::specs::Digits::padded_digits))]
fn text_of(moment: civil::DateTime) -> [u8; 24]
    requires { pos 0 ≤ℤ moment.date.year }
    ensures { result ≡ civil_text moment }
{
    let year = moment.date.year as u32;
    let (month, day) = (moment.date.month as u32, moment.date.day as u32);
    let (hour, minute) = (moment.time.hour as u32, moment.time.minute as u32);
    let second = moment.time.second as u32;
    let millis = moment.time.subsec_nanosecond / 1_000_000;
    [
        digit(year, 3),
        digit(year, 2),
        digit(year, 1),
        digit(year, 0),
        b'-',
        digit(month, 1),
        digit(month, 0),
        b'-',
        digit(day, 1),
        digit(day, 0),
        b'T',
        digit(hour, 1),
        digit(hour, 0),
        b':',
        digit(minute, 1),
        digit(minute, 0),
        b':',
        digit(second, 1),
        digit(second, 0),
        b'.',
        digit(millis, 2),
        digit(millis, 1),
        digit(millis, 0),
        b'Z',
    ]
}

/// Writes a timestamp of the years 1000 to 9999 as `YYYY-MM-DDThh:mm:ss.mmmZ`, rounded down to milliseconds.
pub fn write_instant_ms(value: Instant) -> [u8; 24]
    requires { spec.IsWritable value }
    ensures text { result ≡ instant_text value }
    // It shows the date and the time in UTC.
    ensures civil { (dt : CivilDateTime) → nanos_of dt ≡ value → result ≡ civil_text dt }
    ensures ascii { IsAscii result }
{
    text_of(civil::DateTime::from_nanosecond_in_range(value.0))
}
