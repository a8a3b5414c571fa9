// The tracks and the sections of a presentation of playlists.
ghost use Rattle.std.specs.Prelude.{◌≡◌, ◌<◌, ◌^◌, false, map, IfOk};
ghost use Rattle.hls_presentation.specs.Presenting as spec;
ghost use Rattle.hls_presentation.specs.Sections.{is_over_limit, rows_of};
ghost use Rattle.hls_presentation.specs.Views.{source_of};

use crate::groups::{Groups, row_length, section_count};
use crate::kept::Source;
use bridge_io::{NoMemory, Text};
use exact_time::Nanos;
use hls_master::MasterTrack;
use presentation::{Section, SectionList, Track, TrackList};
use std::alloc::Global;

/// The tracks of a presentation of these playlists, in order.
pub fn tracks_of(alloc: Global, sources: &[Source<'_>]) -> Result<TrackList, NoMemory>
    ensures { IfOk result (λ tracks. tracks ≡ map spec.track_of (map source_of sources.now)) }
{
    let mut tracks = TrackList::new(alloc);
    for source in sources {
        tracks.push(track_of(alloc, source.track)?)?;
    }
    Ok(tracks)
}

/// A master playlist's track as that of a presentation.
pub fn track_of(alloc: Global, track: &MasterTrack) -> Result<Track, NoMemory>
    ensures { IfOk result (λ made. made ≡ spec.track_from track.now) }
{
    let language = copy_of(alloc, &track.language)?;
    let codecs = copy_of(alloc, &track.codecs)?;
    Ok(Track {
        kind: track.kind,
        set: track.set,
        language,
        codecs,
        bandwidth: track.bandwidth,
        size: track.size,
        frame_rate: track.frame_rate,
    })
}

fn copy_of(alloc: Global, text: &Option<Text>) -> Result<Option<Text>, NoMemory>
    ensures { IfOk result (λ copy. copy ≡ text.now) }
{
    match text {
        Some(text) => Ok(Some(Text::copy_of(alloc, text.as_str())?)),
        None => Ok(None),
    }
}

/// The sections, each of which begins where the one before it ends. A section's id is its index.
#[tactic(auto, using(crate::proofs::Rows::row_next))]
pub(crate) fn sections_of(alloc: Global, tracks: &[Groups<'_>]) -> Result<SectionList, NoMemory>
    requires { is_over_limit (rows_of tracks.now) ≡ false }
    ensures { IfOk result (λ sections. sections ≡ spec.sections_from 0 0 (rows_of tracks.now)) }
{
    let mut sections = SectionList::new(alloc);
    let mut start = 0;
    for place in 0..section_count(tracks) {
        let length = row_length(tracks, place) as u64;
        sections.push(section_at(alloc, place, start, length)?)?;
        start += length;
    }
    Ok(sections)
}

fn section_at(alloc: Global, place: usize, start: u64, length: u64) -> Result<Section, NoMemory>
    requires begun { start < 10 ^ 19 }
    requires short { length < 10 ^ 19 }
    ensures { IfOk result (λ section. section ≡ spec.section_at place start length) }
{
    let id = Text::from(format!(in alloc; "{place}")?);
    Ok(Section {
        id,
        start: Nanos(start),
        length: Some(Nanos(length)),
    })
}
