// What the lines of a playlist tell beside its segments.
ghost use Rattle.std.specs.Prelude.{◌≡◌, All, IfOk, IfSome};
ghost use Rattle.iso_time.specs.Instant.{IsReadable};
ghost use Rattle.hls_lines.specs.Said.{said};
ghost use Rattle.followed_text.specs.Followed as spec;

use bridge_io::{NoMemory, Sequence};
use exact_time::Digits;
use hls_lines::{Line, Lines, cut_at};
use iso_time::{Instant, read_instant};
use std::alloc::Global;

/// Instants in order.
pub(crate) type DateList = Sequence<Instant>;

/// The instants of the EXT-X-PROGRAM-DATE-TIME lines (RFC 8216, 4.3.2.6).
pub(crate) fn dates_in(alloc: Global, lines: Lines<'_>) -> Result<DateList, NoMemory>
    ensures dates { IfOk result (λ dates. dates ≡ spec.dates_of lines.entry) }
    ensures readable { IfOk result (λ dates. All IsReadable dates) }
{
    let mut lines = lines;
    let mut dates = DateList::new(alloc);
    while let Some(line) = lines.next() {
        if let Some(date) = date_of(line) {
            dates.push(date)?;
        }
    }
    Ok(dates)
}

fn date_of(line: Line<'_>) -> Option<Instant>
    ensures date { result ≡ spec.date_of (said line.entry) }
    ensures readable { IfSome result IsReadable }
{
    match line {
        Line::Tag { name, rest, .. } if name == "EXT-X-PROGRAM-DATE-TIME" => {
            read_instant(rest).ok()
        }
        _ => None,
    }
}

/// The number of decimals of the first EXTINF (RFC 8216, 4.3.2.1), if that is one that is printed.
pub(crate) fn digits_in(lines: Lines<'_>) -> Option<Digits>
    ensures { result ≡ spec.digits_of lines.entry }
{
    let mut lines = lines;
    while let Some(line) = lines.next() {
        if let Line::Tag { name, rest, .. } = line {
            if name == "EXTINF" {
                return digits_from(decimals(rest));
            }
        }
    }
    None
}

fn digits_from(count: usize) -> Option<Digits>
    ensures { result ≡ spec.digits_from count }
{
    if count < 3 || count > 9 {
        return None;
    }
    Digits::of(count as u8)
}

fn decimals(duration: &str) -> usize
    ensures { result ≡ spec.decimals duration.now }
{
    let (number, _title) = cut_at(duration, b',').unwrap_or((duration, ""));
    let (_whole, fraction) = cut_at(number, b'.').unwrap_or((number, ""));
    fraction.len()
}
