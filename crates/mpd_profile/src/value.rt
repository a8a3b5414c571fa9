// The value types of attributes.
ghost use Rattle.std.specs.Prelude.{◌≡◌, is_some};
ghost use Rattle.std.specs.Char.{is_ascii_digit};
ghost use Rattle.std.specs.List.{list_all};
ghost use Rattle.mpd_values.specs.Numbers.{number_between};
ghost use Rattle.mpd_profile.specs.Values.{are_few_digits, has_room, is_value};

use iso_time::{read_duration, read_instant};
use mpd_values::{
    Blank, are_codes, is_language, read_frame_rate, read_number, read_signed, trimmed,
};
use url_parts::read_range;

/// The value type of an attribute.
#[derive(Clone, Copy)]
pub enum Value {
    /// `static` or `dynamic` (ISO/IEC 23009-1, 5.3.1.2).
    MpdType,
    /// An xs:dateTime.
    Instant,
    /// An xs:duration.
    Duration,
    /// Any text.
    AnyText,
    /// A number, at least the first and below the second one.
    Number(u64, u64),
    /// A signed 64-bit number.
    Signed,
    /// A frame rate.
    FrameRate,
    /// A list of codecs.
    Codes,
    /// A language.
    Language,
    /// A byte range.
    Range,
}

impl Value {
    /// Whether a text has this type.
    #[tactic(auto, unfolding(crate::specs::Values::is_value))]
    pub fn accepts(self, text: &str) -> bool
        ensures { result ≡ is_value self text.now }
    {
        match self {
            Value::MpdType => text == "static" || text == "dynamic",
            Value::Instant => read_instant(trimmed(text, Blank::Space)).is_ok(),
            Value::Duration => read_duration(trimmed(text, Blank::Space)).is_ok(),
            Value::AnyText => true,
            Value::Number(least, bound) => is_number(text, least, bound),
            Value::Signed => read_signed(text).is_some(),
            Value::FrameRate => read_frame_rate(text).is_some(),
            Value::Codes => are_codes(text),
            Value::Language => is_language(text),
            Value::Range => read_range(trimmed(text, Blank::Space)).is_some(),
        }
    }
}

/// Whether a text is a number, at least `least` and below `bound`. A number of few digits isn't evaluated where all
/// such numbers are within the bounds.
fn is_number(text: &str, least: u64, bound: u64) -> bool
    ensures { result ≡ is_some (number_between least bound text.now) }
{
    if has_room(least, bound) && are_few_digits(text) {
        return true;
    }
    read_number(text, least, bound).is_some()
}

/// Whether all numbers below 10^18 are within bounds.
fn has_room(least: u64, bound: u64) -> bool
    ensures { result ≡ has_room least bound }
{
    least == 0 && 1_000_000_000_000_000_000 <= bound
}

/// Whether a text is 1 to 18 digits.
pub(crate) fn are_few_digits(text: &str) -> bool
    ensures { result ≡ are_few_digits text.now }
{
    are_digits(text) && !text.is_empty() && text.len() <= 18
}

fn are_digits(text: &str) -> bool
    ensures { result ≡ list_all is_ascii_digit text.now }
{
    text.as_bytes().iter().all(|byte| byte.is_ascii_digit())
}
