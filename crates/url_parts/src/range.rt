// Byte ranges.
ghost use Rattle.std.specs.Prelude.{◌≡◌};
ghost use Rattle.std.specs.List.{list_all};
ghost use Rattle.std.specs.Char.{is_ascii_digit};
ghost use Rattle.url_parts.specs.Ranges.{range_of, place_of};

/// A byte range of a file.
#[derive(Clone, Copy, PartialEq, Eq)]
pub struct Range {
    /// The offset of its first byte.
    pub first: u64,
    /// How many bytes it has.
    pub count: u64,
}

/// Reads `first-last`, the offsets of the first and the last byte (ISO/IEC 23009-1, 5.3.9.2.2).
///
/// `None` exactly where the text isn't two decimal numbers below 2^63 with a `-` between them, the first one at most
/// the last one.
pub fn read_range(text: &str) -> Option<Range>
    ensures { result ≡ range_of text.now }
{
    let (first, last) = text.split_once('-')?;
    let first = read_place(first)?;
    let last = read_place(last)?;
    if first > last {
        return None;
    }
    let count = last - first + 1;
    Some(Range { first, count })
}

fn read_place(digits: &str) -> Option<u64>
    ensures { result ≡ place_of digits.now }
{
    if !is_all_digits(digits) {
        return None;
    }
    let place = digits.parse::<u64>().ok()?;
    (place < 1 << 63).then_some(place)
}

fn is_all_digits(text: &str) -> bool
    ensures { result ≡ list_all is_ascii_digit text.now }
{
    text.as_bytes().iter().all(|byte| byte.is_ascii_digit())
}
