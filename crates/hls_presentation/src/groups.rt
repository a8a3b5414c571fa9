// The sections of media playlists.
ghost use Rattle.std.specs.Prelude.{◌≡◌, ◌≤◌, map, length, IfOk};
ghost use Rattle.std.specs.List.{prefix_len};
ghost use Rattle.bridge_io.specs.Firsts.{first_fault};
ghost use Rattle.hls_presentation.specs.Sections as spec;
ghost use Rattle.hls_presentation.specs.Views.{source_of};

use crate::HlsFault;
use crate::kept::Source;
use bridge_io::NoMemory;
use hls_media::MediaSegment;
use std::alloc::Global;
use std::marker::Model;

/// The segments of one track in one section.
pub type Segments<'a> = &'a [MediaSegment];

/// The segments of one track, cut where the section changes.
#[derive(Drop)]
pub struct Groups<'a> {
    groups: Vec<Segments<'a>>,
}

impl<'a> Model for Groups<'a> {
    ghost use Rattle.std.specs.Prelude.{List, map};
    ghost use Rattle.hls_media.specs.declared.media.MediaSegment.{MediaSegment};

    ghost Value = { List (List MediaSegment) };

    ghost view = { λ g. map (λ group. group.now) g.groups.items };
}

impl<'a> Groups<'a> {
    fn of(alloc: Global, segments: Segments<'a>) -> Result<Groups<'a>, NoMemory>
        ensures { IfOk result (λ groups. groups ≡ spec.groups_of segments.now) }
    {
        let mut groups = Vec::new(alloc);
        let mut rest = segments;
        while let Some(first) = rest.first() {
            let (group, later) = rest.split_at(count_of(first.section, rest));
            groups.push(group)?;
            rest = later;
        }
        Ok(Groups { groups })
    }

    /// How many sections the track has.
    pub fn len(&self) -> usize
        ensures { result ≡ length self.now }
    {
        self.groups.len()
    }

    /// The segments of the track in the section at an index.
    pub fn at(&self, place: usize) -> Segments<'a>
        ensures { result.now ≡ spec.group_at place self.now }
    {
        match self.groups.get(place) {
            Some(group) => group,
            None => &[],
        }
    }

    /// Whether two tracks have the same section numbers.
    fn is_alike(&self, other: &Groups<'_>) -> bool
        ensures { result ≡ spec.are_alike self.now other.now }
    {
        if self.len() != other.len() {
            return false;
        }
        for place in 0..self.len() {
            if !starts_alike(self.at(place), other.at(place)) {
                return false;
            }
        }
        true
    }
}

/// The segments of each track, cut where the section changes.
pub fn groups_of_all<'a>(alloc: Global, tracks: &[Source<'a>]) -> Result<Vec<Groups<'a>>, NoMemory>
    ensures { IfOk result (λ groups. groups.items ≡ map spec.groups_in (map source_of tracks.now)) }
{
    let mut groups = Vec::new(alloc);
    for track in tracks {
        groups.push(Groups::of(alloc, track.media.segments.as_slice())?)?;
    }
    Ok(groups)
}

/// How many leading segments are in this section.
fn count_of(section: u64, segments: &[MediaSegment]) -> usize
    ensures { result ≡ prefix_len (spec.is_of section) segments.now }
{
    let mut count = 0;
    for segment in segments {
        if segment.section != section {
            return count;
        }
        count += 1;
    }
    count
}

fn starts_alike(group: &[MediaSegment], other: &[MediaSegment]) -> bool
    ensures { result ≡ spec.starts_alike group.now other.now }
{
    match (group.first(), other.first()) {
        (Some(first), Some(other)) => first.section == other.section,
        (None, None) => true,
        _ => false,
    }
}

/// The first error of all tracks together.
pub(crate) fn check_groups(tracks: &[Groups<'_>]) -> Result<(), HlsFault>
    ensures { result ≡ first_fault (spec.whole_faults tracks.now) }
{
    if !are_all_alike(tracks) {
        return Err(HlsFault::SectionsDiffer);
    }
    if is_over_limit(tracks) {
        return Err(HlsFault::Limit);
    }
    if section_count(tracks) == 0 {
        return Err(HlsFault::NoTracks);
    }
    Ok(())
}

fn are_all_alike(tracks: &[Groups<'_>]) -> bool
    ensures { result ≡ spec.all_alike tracks.now }
{
    let Some((first, rest)) = tracks.split_first() else {
        return true;
    };
    for track in rest {
        if !first.is_alike(track) {
            return false;
        }
    }
    true
}

/// How many sections there are.
pub(crate) fn section_count(tracks: &[Groups<'_>]) -> usize
    ensures { result ≡ spec.section_count tracks.now }
{
    match tracks.first() {
        Some(first) => first.len(),
        None => 0,
    }
}

#[tactic(auto, using(crate::proofs::Rows::row_next))]
fn is_over_limit(tracks: &[Groups<'_>]) -> bool
    ensures { result ≡ spec.is_over_limit (spec.rows_of tracks.now) }
{
    let count = section_count(tracks);
    let mut total = 0;
    for place in 0..count {
        let length = row_length(tracks, place);
        if 1 << 63 <= length {
            return true;
        }
        total += length;
    }
    10_000_000_000_000_000_000 <= total || 1_000 < count
}

/// The duration of the section at an index, in nanoseconds: that of its longest track.
pub(crate) fn row_length(tracks: &[Groups<'_>], place: usize) -> u128
    ensures { result ≡ spec.row_length (spec.row_at tracks.now place) }
{
    let mut longest = 0;
    for track in tracks {
        longest = longest.max(length_of(track.at(place)));
    }
    longest
}

/// The total duration of segments, in nanoseconds.
fn length_of(group: Segments<'_>) -> u128
    ensures { result ≡ spec.length_of group.now }
{
    let mut length = 0;
    for segment in group {
        length += u128::from(segment.duration.0);
    }
    length
}
