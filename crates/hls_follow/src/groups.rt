// The sections of a track's segments.
ghost use Rattle.std.specs.Prelude.{[], ◌∷◌, ◌≡◌, ◌<◌, ◌≤◌, ◌^◌, drop, map, length, unwrap_or, IfOk};
ghost use Rattle.std.specs.List.{prefix_len};
ghost use Rattle.std.specs.Option.{option_copied};
ghost use Rattle.hls_follow.specs.Groups as spec;

use crate::state::{TimedList, TimedSegment};
use bridge_io::NoMemory;
use std::alloc::Global;
use std::marker::Model;

/// The segments of one track in one section.
pub(crate) type Group<'a, 'b> = &'a [TimedSegment<'b>];

/// The segments of one track, cut where the section changes.
#[derive(Drop)]
pub(crate) struct Groups<'a, 'b> {
    groups: Vec<Group<'a, 'b>>,
}

impl<'a, 'b> Model for Groups<'a, 'b> {
    ghost use Rattle.std.specs.Prelude.{List, map};
    ghost use Rattle.hls_follow.specs.Times.{TimedSegment};

    ghost Value = { List (List TimedSegment) };

    ghost view = { λ g. map (λ group. group.now) g.groups.items };
}

impl<'a, 'b> Groups<'a, 'b> {
    fn of(alloc: Global, segments: Group<'a, 'b>) -> Result<Groups<'a, 'b>, NoMemory>
        ensures { IfOk result (λ groups. groups ≡ spec.groups_of segments.now) }
    {
        let mut groups = Vec::new(alloc);
        let mut start = 0;
        while start < segments.len() {
            let group = first_of(&segments[start..]);
            groups.push(group)?;
            start += group.len();
        }
        Ok(Groups { groups })
    }

    /// The segments of the track in the section at an index.
    pub(crate) fn at(&self, place: usize) -> Option<Group<'a, 'b>>
        ensures { unwrap_or (option_copied result) [] ≡ spec.group_at place self.now }
    {
        self.groups.get(place).copied()
    }
}

/// The segments of each track, cut where the section changes.
pub(crate) fn groups_of_all<'a, 'b>(
    alloc: Global,
    tracks: &'a [TimedList<'b>],
) -> Result<Vec<Groups<'a, 'b>>, NoMemory>
    ensures { IfOk result (λ groups. groups.items ≡ map spec.groups_of tracks.now) }
{
    let mut groups = Vec::new(alloc);
    for track in tracks {
        groups.push(Groups::of(alloc, track.as_slice())?)?;
    }
    Ok(groups)
}

/// The leading segments of one section.
fn first_of<'a, 'b>(segments: Group<'a, 'b>) -> Group<'a, 'b>
    requires { 0 < length segments.now }
    ensures some { 0 < length result.now }
    ensures cut { spec.groups_of segments.entry.now ≡ result.now ∷ spec.groups_of (drop (length result.now) segments.entry.now) }
    ensures fits { length result.now ≤ length segments.entry.now }
{
    let count = count_of(segments[0].segment().section, segments);
    &segments[..count]
}

/// How many leading segments are in this section.
fn count_of(section: u64, segments: Group<'_, '_>) -> usize
    ensures { result ≡ prefix_len (spec.is_of section) segments.now }
{
    let mut count = 0;
    for timed in segments {
        if timed.segment().section != section {
            return count;
        }
        count += 1;
    }
    count
}

/// When the longest track ends in the section at an index, in nanoseconds relative to its start.
pub(crate) fn row_end(tracks: &[Groups<'_, '_>], place: usize) -> u128
    ensures end { result ≡ spec.row_end (spec.row_at tracks.now place) }
    ensures near { result < 2 ^ 66 }
{
    let mut end = 0;
    for track in tracks {
        if let Some(group) = track.at(place) {
            end = end.max(group_end(group));
        }
    }
    end
}

/// When the last segment ends.
fn group_end(group: Group<'_, '_>) -> u128
    ensures end { result ≡ spec.group_end group.now }
    ensures near { result < 2 ^ 66 }
{
    let mut end = 0;
    for timed in group {
        end = end.max(u128::from(timed.time()) + u128::from(timed.segment().duration.0));
    }
    end
}
