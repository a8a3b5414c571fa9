// Where a presentation's times differ from the decode times of its files.
ghost use Rattle.std.specs.Prelude.{◌≡◌, ◌==◌, ◌+◌, ◌<◌, ◌^◌, All, length, unsigned_abs};
ghost use Rattle.exact_time.specs.Tick.{time_of};
ghost use Rattle.exact_time.specs.Time.{IsNotNegative, in_units};
ghost use Rattle.meaning.specs.Differences.{is_same_time};
ghost use Rattle.presentation.specs.Presented.{IsEnded};
ghost use Rattle.fragment_times.specs.Agreeing as spec;
ghost use Rattle.fragment_times.specs.Times.{FillPlaces};

use crate::{SegmentSpot, SegmentTimes, TimesList};
use exact_time::Tick;
use presentation::Presentation;
use timeline::{TimeWalk, closed_ends};

/// The first listed segment, by section, track and index, whose start plus `@presentationTimeOffset` (ISO/IEC 23009-1,
/// 5.3.9.2) isn't its file's decode time over the timescale of its track's media, as fractions of a second.
///
/// Requires that no segments continue to an open end, and that there are times for each section and track, by section, then
/// by track.
pub fn first_apart(presentation: &Presentation, times: &TimesList) -> Option<SegmentSpot>
    requires ended { All IsEnded presentation.now.contents }
    requires filled { FillPlaces presentation.now (length times.now) }
    ensures { result ≡ spec.first_apart presentation.now times.now }
{
    for section in 0..presentation.sections().len() {
        if let Some(spot) = first_in_section(presentation, times.as_slice(), section) {
            return Some(spot);
        }
    }
    None
}

/// The same for a section.
fn first_in_section(
    presentation: &Presentation,
    times: &[SegmentTimes],
    section: usize,
) -> Option<SegmentSpot>
    requires ended { All IsEnded presentation.now.contents }
    requires filled { FillPlaces presentation.now (length times.now) }
    requires section { section < length presentation.now.sections }
    ensures { result ≡ spec.apart_in presentation.now times.now section }
{
    for track in 0..presentation.tracks().len() {
        if let Some(spot) = first_of_track(presentation, times, section, track) {
            return Some(spot);
        }
    }
    None
}

/// The same for a track in a section.
#[tactic(auto, unfolding(crate::specs::Agreeing::apart_at))]
fn first_of_track(
    presentation: &Presentation,
    times: &[SegmentTimes],
    section: usize,
    track: usize,
) -> Option<SegmentSpot>
    requires ended { All IsEnded presentation.now.contents }
    requires filled { FillPlaces presentation.now (length times.now) }
    requires section { section < length presentation.now.sections }
    requires track { track < length presentation.now.tracks }
    ensures { result ≡ spec.apart_at presentation.now times.now section track }
{
    closed_ends();
    let own = &times[section * presentation.tracks().len() + track];
    let runs = presentation.runs(section, track);
    let window = presentation.window(section);
    let spot = SegmentSpot {
        section,
        track,
        segment: 0,
    };
    let told = FileClock {
        offset: runs.offset(),
        scale: own.scale,
    };
    let walk = runs.walk(&runs.seek(&window), &window);
    told.first_apart(spot, walk, own.starts.as_slice())
}

/// The media time of a Period's start, and the timescale of a file's media.
#[derive(Clone, Copy)]
struct FileClock {
    offset: Tick,
    scale: u32,
}

impl FileClock {
    /// The first of some segments whose time isn't the one in `starts`. `spot` is that of the first segment.
    fn first_apart(
        self,
        spot: SegmentSpot,
        mut walk: TimeWalk<'_>,
        starts: &[u64],
    ) -> Option<SegmentSpot>
        requires room { spot.segment + length starts.now < 2 ^ 64 }
        requires offset { IsNotNegative (time_of self.offset) }
        ensures { result ≡ spec.apart_from spot (time_of self.offset) self.scale walk.entry starts.now }
    {
        let mut at = spot;
        for start in starts {
            let span = walk.next()?;
            if !self.is_same(span.start, *start) {
                return Some(at);
            }
            at = at.next();
        }
        None
    }

    /// Whether a start, relative to the Period's start, is this media time.
    fn is_same(self, start: Tick, time: u64) -> bool
        requires { IsNotNegative (time_of self.offset) }
        ensures { result ≡ is_same_time (spec.sum_of (time_of start) (time_of self.offset)) (in_units self.scale time) }
    {
        let scale = u128::from(self.scale);
        let starts = u128::from(start.scale);
        let offsets = u128::from(self.offset.scale);
        // three times over the product of the scales
        let stated = u128::from(time) * starts * offsets;
        let period = magnitude(self.offset) * starts * scale;
        let behind = magnitude(start) * offsets * scale;
        if start.n < 0 {
            is_sum(period, stated, behind)
        } else {
            is_sum(stated, period, behind)
        }
    }
}

/// How many ticks a time is away from the origin.
fn magnitude(tick: Tick) -> u128
    ensures value { result ≡ unsigned_abs tick.n }
    ensures bounded { result < 2 ^ 64 }
{
    tick.n.unsigned_abs()
}

/// Whether a number is the sum of two others.
fn is_sum(sum: u128, one: u128, other: u128) -> bool
    ensures { result ≡ (sum == one + other) }
{
    one <= sum && sum - one == other
}
