// Media playlists.
ghost use Rattle.std.specs.Prelude.{◌≡◌, length, Some, None, true, option_map};
ghost use Rattle.std.specs.List.{list_all};
ghost use Rattle.bridge_io.specs.Answer.{Gives};
ghost use Rattle.bridge_io.specs.Firsts.{first_of};
ghost use Rattle.bridge_io.specs.Places.{place_of};
ghost use Rattle.hls_lines.specs.Lines.{lines_of};
ghost use Rattle.hls_media.specs.Media.{media_of, media_in, lines_or_fault, long_faults, is_long, is_short, refusal};
ghost use Rattle.hls_media.specs.Values.{duration_of};
ghost use Rattle.hls_media.specs.declared.fault.MediaFault.TheVariants.{LongSegment};

use crate::MediaFault;
use crate::reader::read_lines;
use crate::value::read_duration;
use bridge_io::{Place, Sequence};
use byte_scan::count_lf;
use exact_time::Nanos;
use hls_lines::{Line, Lines};
use std::alloc::Global;
use url_parts::{Address, Base, Part, Range};

/// The segments of a playlist, in their order.
pub type MediaList = Sequence<MediaSegment>;

/// A media playlist.
#[derive(Drop)]
pub struct Media {
    /// The target duration in seconds, below 2^31 (RFC 8216 4.3.3.1).
    pub target: u64,
    /// The first segment's number, below 2^63 (RFC 8216 4.3.3.2).
    pub sequence: u64,
    /// Whether it has an EXT-X-ENDLIST: no more segments will be added (RFC 8216 4.3.3.4).
    pub ended: bool,
    /// At most 100,000 segments.
    pub segments: MediaList,
}

/// A segment of a playlist.
#[derive(Drop)]
pub struct MediaSegment {
    /// The URL of its file.
    pub address: Address,
    /// Its byte range in the file; `None` is the whole file (RFC 8216 4.3.2.2).
    pub range: Option<Range>,
    /// Its init segment: the last EXT-X-MAP before it (RFC 8216 4.3.2.5).
    pub map: Option<Part>,
    /// At most 1,000,000 seconds (RFC 8216 4.3.2.1).
    pub duration: Nanos,
    /// Its discontinuity sequence number: that of the playlist (RFC 8216 4.3.3.3), plus one for each discontinuity
    /// before it.
    pub section: u64,
}

/// Reads a media playlist, whose URIs are resolved against the base (RFC 8216 4.1).
///
/// Segments share the texts of maps with the same reference, and of the URL of the segment before, if it is the same.
pub fn read_media(alloc: Global, bytes: &[u8], base: &Base) -> Result<Media, MediaFault>
    ensures { Gives (λ media. media) refusal result (media_of bytes.now base.now) }
{
    read_update(alloc, bytes, base, None)
}

/// Reads a media playlist as [`read_media`] does. Segments share the texts of URLs that the former playlist has under
/// the same sequence numbers (RFC 8216 6.2.1).
#[tactic(auto, unfolding(crate::specs::Media::media_of))]
pub fn read_update(
    alloc: Global,
    bytes: &[u8],
    base: &Base,
    former: Option<&Media>,
) -> Result<Media, MediaFault>
    ensures { Gives (λ media. media) refusal result (media_of bytes.now base.now) }
{
    let lines = lines_of(bytes)?;
    media_in(alloc, lines, bytes, base, former)
}

fn lines_of(bytes: &[u8]) -> Result<Lines<'_>, MediaFault>
    ensures { result ≡ lines_or_fault (lines_of bytes.now) }
{
    match Lines::new(bytes) {
        Ok(lines) => Ok(lines),
        Err(fault) => Err(MediaFault::Line(fault)),
    }
}

/// The position after all bytes.
fn end_of(bytes: &[u8]) -> Place
    ensures { result ≡ place_of bytes.now (length bytes.now) }
{
    Place {
        at: bytes.len() as u64,
        line: count_lf(bytes) + 1,
    }
}

/// The playlist of these lines of a file, or its first fault.
fn media_in<'a>(
    alloc: Global,
    lines: Lines<'a>,
    bytes: &[u8],
    base: &Base,
    former: Option<&'a Media>,
) -> Result<Media, MediaFault>
    ensures { Gives (λ media. media) refusal result (media_in (place_of bytes.now (length bytes.now)) base.now lines.entry) }
{
    let reader = read_lines(alloc, lines.copy(), base, former)?;
    let Some(target) = reader.target else {
        return Err(MediaFault::NoTarget(end_of(bytes)));
    };
    if let Some(place) = first_long(reader.segments.as_slice(), lines, target) {
        return Err(MediaFault::LongSegment(place));
    }
    Ok(reader.finish(target))
}

/// The position of the first EXTINF that is more than half a second above the target duration. The lines are read
/// again only where there is such a segment.
fn first_long(segments: &[MediaSegment], lines: Lines<'_>, target: u64) -> Option<Place>
    requires { list_all (is_short target) segments.now ≡ true → first_of (long_faults target lines) ≡ None }
    ensures { option_map LongSegment result ≡ first_of (long_faults target lines.entry) }
{
    if are_short(segments, target) {
        return None;
    }
    first_long_line(lines, target)
}

fn are_short(segments: &[MediaSegment], target: u64) -> bool
    ensures { result ≡ list_all (is_short target) segments.now }
{
    segments.iter().all(|segment| !is_above(u128::from(segment.duration.0), target))
}

fn first_long_line(mut lines: Lines<'_>, target: u64) -> Option<Place>
    ensures { option_map LongSegment result ≡ first_of (long_faults target lines.entry) }
{
    while let Some(line) = lines.next() {
        if let Line::Tag { name, rest, place } = line {
            if name == "EXTINF" && is_long(rest, target) {
                return Some(place);
            }
        }
    }
    None
}

fn is_long(duration: &str, target: u64) -> bool
    ensures { result ≡ is_long target (duration_of duration.now) }
{
    match read_duration(duration) {
        Some(nanos) => is_above(nanos, target),
        None => false,
    }
}

/// Whether a duration is more than half a second above the target.
fn is_above(nanos: u128, target: u64) -> bool
    ensures { result ≡ is_long target (Some nanos) }
{
    nanos > u128::from(target) * 1_000_000_000 + 500_000_000
}
