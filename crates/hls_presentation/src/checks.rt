// Checks of one track.
ghost use Rattle.std.specs.Prelude.{◌≡◌, map};
ghost use Rattle.std.specs.Option.{option_eq};
ghost use Rattle.bridge_io.specs.Firsts.{first_fault};
ghost use Rattle.hls_presentation.specs.Tracks as spec;
ghost use Rattle.hls_presentation.specs.Views.{source_of};

use crate::HlsFault;
use crate::kept::{Source, is_left_out, lacks_maps};
use hls_media::{Media, MediaSegment};
use url_parts::Part;

/// The first error of a single track, in the order of the tracks.
pub(crate) fn check_tracks(sources: &[Source<'_>]) -> Result<(), HlsFault>
    ensures { result ≡ first_fault (spec.track_faults (map source_of sources.now)) }
{
    for source in sources {
        check_track(source)?;
    }
    Ok(())
}

fn check_track(source: &Source<'_>) -> Result<(), HlsFault>
    ensures { result ≡ first_fault (spec.faults_of (source_of source.now)) }
{
    if !source.media.ended {
        return Err(HlsFault::NotEnded);
    }
    check_so_far(source)
}

/// The first error of a track whose playlist may be live: `NoMap`, `MapChanged` or `ZeroDuration`, in this order. A
/// dropped track has no errors (RFC 8216 4.3.2.1 and 4.3.2.5).
pub fn check_so_far(source: &Source<'_>) -> Result<(), HlsFault>
    ensures { result ≡ first_fault (spec.faults_so_far (source_of source.now)) }
{
    if is_left_out(source) {
        return Ok(());
    }
    check_segments(source.media)
}

/// The same for a track that isn't dropped, also where a segment of a text track has no map.
pub fn check_segments(media: &Media) -> Result<(), HlsFault>
    ensures { result ≡ first_fault (spec.segment_faults media.now) }
{
    if lacks_maps(media) {
        return Err(HlsFault::NoMap);
    }
    if map_changes(media.segments.as_slice()) {
        return Err(HlsFault::MapChanged);
    }
    if has_empty(media.segments.as_slice()) {
        return Err(HlsFault::ZeroDuration);
    }
    Ok(())
}

fn has_empty(segments: &[MediaSegment]) -> bool
    ensures { result ≡ spec.has_empty segments.now }
{
    segments.iter().any(lasts_no_time)
}

fn lasts_no_time(segment: &MediaSegment) -> bool
    ensures { result ≡ spec.lasts_no_time segment.now }
{
    segment.duration.0 == 0
}

/// Whether two consecutive segments of one section have different maps.
fn map_changes(segments: &[MediaSegment]) -> bool
    ensures { result ≡ spec.map_changes segments.now }
{
    let Some((mut segment, mut rest)) = segments.split_first() else {
        return false;
    };
    while let Some((next, later)) = rest.split_first() {
        if changes_map(segment, next) {
            return true;
        }
        (segment, rest) = (next, later);
    }
    false
}

fn changes_map(segment: &MediaSegment, next: &MediaSegment) -> bool
    ensures { result ≡ spec.changes_map segment.now next.now }
{
    segment.section == next.section && !is_same_map(&segment.map, &next.map)
}

fn is_same_map(map: &Option<Part>, other: &Option<Part>) -> bool
    ensures { result ≡ option_eq spec.same_part map.now other.now }
{
    match (map, other) {
        (Some(map), Some(other)) => is_same_part(map, other),
        (None, None) => true,
        _ => false,
    }
}

/// Whether two parts have the same URL and the same byte range.
pub fn is_same_part(part: &Part, other: &Part) -> bool
    ensures { result ≡ spec.same_part part.now other.now }
{
    part.address.as_str() == other.address.as_str() && part.range == other.range
}
