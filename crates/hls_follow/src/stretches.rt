// The segments of a snapshot's tracks, section by section.
ghost use Rattle.std.specs.Prelude.{◌≡◌, IfOk, length, map};
ghost use Rattle.std.specs.Option.{option_copied};
ghost use Rattle.hls_presentation.specs.Views.{source_of};
ghost use Rattle.hls_follow.specs.Stretches as spec;

use crate::state::FollowedTrack;
use bridge_io::NoMemory;
use hls_media::{Media, MediaSegment};
use hls_presentation::{Groups, Source, groups_of_all};
use std::alloc::Global;
use std::marker::Model;

/// The segments of a track in a section.
#[derive(Clone, Copy)]
pub(crate) struct Stretch<'a> {
    /// The segments.
    pub(crate) segments: &'a [MediaSegment],
    /// The times of those that the last accepted snapshot listed, in ticks. They come first.
    pub(crate) known: &'a [u64],
}

impl<'a> Stretch<'a> {
    /// The segments that the last accepted snapshot didn't list.
    pub(crate) fn new_segments(&self) -> &'a [MediaSegment]
        ensures { result.now ≡ spec.new_in (spec.stretch_of self.now) }
    {
        match self.segments.split_at_checked(self.known.len()) {
            Some((_, later)) => later,
            None => &[],
        }
    }
}

/// The segments of a track, section by section.
#[derive(Drop)]
pub(crate) struct Stretches<'a> {
    stretches: Vec<Stretch<'a>>,
}

impl<'a> Model for Stretches<'a> {
    ghost use Rattle.std.specs.Prelude.{List, map};
    ghost use Rattle.hls_follow.specs.Stretches.{Stretch, stretch_of};

    ghost Value = { List Stretch };

    ghost view = { λ s. map stretch_of s.stretches.items };
}

impl<'a> Stretches<'a> {
    /// The same, given the segments of each section and the times of those that were listed before, which come first.
    fn of(alloc: Global, groups: &Groups<'a>, known: &'a [u64]) -> Result<Stretches<'a>, NoMemory>
        ensures { IfOk result (λ stretches. stretches ≡ spec.stretches_from known.now groups.now) }
    {
        let mut stretches = Vec::new(alloc);
        let mut left = known;
        for place in 0..groups.len() {
            let segments = groups.at(place);
            let (own, later) = left.split_at(left.len().min(segments.len()));
            stretches.push(Stretch {
                segments,
                known: own,
            })?;
            left = later;
        }
        Ok(Stretches { stretches })
    }

    /// The segments in the section at an index.
    pub(crate) fn at(&self, place: usize) -> Stretch<'a>
        ensures { spec.stretch_of result ≡ spec.stretch_at place self.now }
    {
        match self.stretches.get(place) {
            Some(stretch) => *stretch,
            None => Stretch {
                segments: &[],
                known: &[],
            },
        }
    }
}

/// The segments of the kept tracks.
pub(crate) fn stretches_of_all<'a>(
    alloc: Global,
    formers: &'a [FollowedTrack],
    kept: &[Source<'a>],
) -> Result<Vec<Stretches<'a>>, NoMemory>
    ensures { IfOk result (λ all. all.items ≡ spec.stretches_of_all formers.now 0 (map source_of kept.now)) }
{
    let groups = groups_of_all(alloc, kept)?;
    let mut all = Vec::new(alloc);
    for place in 0..kept.len() {
        let known = known_times(formers.get(place), kept[place].media);
        all.push(Stretches::of(alloc, &groups[place], known)?)?;
    }
    Ok(all)
}

/// The times of the playlist's segments that the last accepted one listed, which are its first ones.
fn known_times<'a>(former: Option<&'a FollowedTrack>, media: &Media) -> &'a [u64]
    ensures { result.now ≡ spec.known_times (option_copied former.entry) media.now }
{
    let Some(former) = former else {
        return &[];
    };
    let times = former.times.as_slice();
    let passed = u128::from(media.sequence.saturating_sub(former.media.sequence));
    if passed < times.len() as u128 {
        &times[passed as usize..]
    } else {
        &[]
    }
}
