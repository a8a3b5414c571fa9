// The tracks of a master playlist with their media playlists, and which of them are kept.
ghost use Rattle.std.specs.Prelude.{◌≡◌, map, IfOk};
ghost use Rattle.std.specs.List.{prefix_len};
ghost use Rattle.hls_presentation.specs.Tracks as spec;
ghost use Rattle.hls_presentation.specs.Views.{source_of};

use bridge_io::{Kind, NoMemory};
use hls_master::MasterTrack;
use hls_media::{Media, MediaSegment};
use std::alloc::Global;

/// A track of a master playlist with its media playlist.
#[derive(Clone, Copy)]
pub struct Source<'a> {
    /// The master's track.
    pub track: &'a MasterTrack,
    /// Its media playlist.
    pub media: &'a Media,
}

/// The tracks paired with the media playlists, in order. A track or a playlist without the other is ignored.
pub fn sources_of<'a>(
    alloc: Global,
    mut tracks: &'a [MasterTrack],
    mut medias: &'a [Media],
) -> Result<Vec<Source<'a>>, NoMemory>
    ensures { IfOk result (λ sources. map source_of sources.items ≡ spec.sources tracks.entry.now medias.entry.now) }
{
    let mut sources = Vec::new(alloc);
    while let (Some((track, later_tracks)), Some((media, later_medias))) = (
        tracks.split_first(),
        medias.split_first(),
    ) {
        sources.push(Source { track, media })?;
        (tracks, medias) = (later_tracks, later_medias);
    }
    Ok(sources)
}

/// The kept tracks, in order.
pub fn kept_of<'a>(alloc: Global, sources: &[Source<'a>]) -> Result<Vec<Source<'a>>, NoMemory>
    ensures { IfOk result (λ kept. map source_of kept.items ≡ spec.kept (map source_of sources.now)) }
{
    let mut kept = Vec::new(alloc);
    for source in sources {
        if !is_left_out(source) {
            kept.push(*source)?;
        }
    }
    Ok(kept)
}

/// How many tracks are dropped.
pub fn left_out_of(sources: &[Source<'_>]) -> u64
    ensures { result ≡ spec.left_out (map source_of sources.now) }
{
    let mut count = 0;
    for source in sources {
        if is_left_out(source) {
            count += 1;
        }
    }
    count
}

/// Whether a track is dropped: a text track with a segment without map (RFC 8216 4.3.2.5).
pub fn is_left_out(source: &Source<'_>) -> bool
    ensures { result ≡ spec.is_left_out (source_of source.now) }
{
    is_text(source.track.kind) && lacks_maps(source.media)
}

fn is_text(kind: Kind) -> bool
    ensures { result ≡ spec.is_text kind }
{
    matches!(kind, Kind::Text)
}

/// Whether a segment has no map (RFC 8216 4.3.2.5).
pub fn lacks_maps(media: &Media) -> bool
    ensures { result ≡ spec.lacks_maps media.now }
{
    media.segments.as_slice().iter().any(lacks_map)
}

fn lacks_map(segment: &MediaSegment) -> bool
    ensures { result ≡ spec.lacks_map segment.now }
{
    segment.map.is_none()
}
