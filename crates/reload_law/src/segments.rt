// Segments of two playlists, side by side.
ghost use Rattle.std.specs.Prelude.{◌≡◌, ◌^◌, ◌<◌, ◌+◌, length, bytes_eq};
ghost use Rattle.std.specs.Option.{option_eq};
ghost use Rattle.reload_law.specs.Rules as spec;

use crate::Unlawful;
use hls_media::MediaSegment;
use url_parts::{Address, Part, Range};

/// Finds the first sequence numbers whose segments differ between the playlists; the first two segments have the
/// number `first`.
pub(crate) fn compare(
    mut olds: &[MediaSegment],
    mut news: &[MediaSegment],
    first: u64,
) -> Result<(), Unlawful>
    requires { first < 2 ^ 63 }
    ensures { result ≡ spec.compared olds.entry.now news.entry.now first }
{
    let mut number = first;
    let mut section = None;
    while let (Some((old, later_olds)), Some((new, later_news))) = (
        olds.split_first(),
        news.split_first(),
    ) {
        if !is_same_segment(old, new) {
            return Err(Unlawful::Segment { number });
        }
        if section.is_none() && old.section != new.section {
            section = Some(number);
        }
        (olds, news) = (later_olds, later_news);
        number += 1;
    }
    match section {
        Some(number) => Err(Unlawful::Discontinuity { number }),
        None => Ok(()),
    }
}

fn is_same_segment(old: &MediaSegment, new: &MediaSegment) -> bool
    ensures { result ≡ spec.same_segment old.now new.now }
{
    is_same_address(&old.address, &new.address)
        && old.range == new.range
        && old.duration == new.duration
        && is_same_map(&old.map, &new.map)
}

fn is_same_map(old: &Option<Part>, new: &Option<Part>) -> bool
    ensures { result ≡ option_eq spec.same_part old.now new.now }
{
    match (old, new) {
        (Some(old), Some(new)) => is_same_part(old, new),
        (None, None) => true,
        _ => false,
    }
}

fn is_same_part(old: &Part, new: &Part) -> bool
    ensures { result ≡ spec.same_part old.now new.now }
{
    is_same_address(&old.address, &new.address) && old.range == new.range
}

fn is_same_address(old: &Address, new: &Address) -> bool
    ensures { result ≡ bytes_eq old.now new.now }
{
    old.as_str() == new.as_str()
}
