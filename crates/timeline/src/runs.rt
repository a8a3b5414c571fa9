// The segments of a Representation in one Period.
ghost use Rattle.std.specs.Prelude.{◌≡◌, ◌-◌, ◌<◌, ◌^◌, ◌+ℤ◌, pos, min, MatchOption, option_map, length, All};

use crate::bound::Bound;
use crate::builder::RunsBuilder;
use crate::run::{Endless, Run};
use crate::run_slice::Test;
use crate::run_table::RunTable;
use crate::{Cursor, Listing, Names, Scale, TimeFault, TimeWalk, Window};
use exact_time::Tick;
use std::marker::Model;

/// The segments of a Representation in one Period, with their names.
///
/// In a contract it is what its segments are at every time, their numbers and their names.
#[derive(Drop)]
pub struct Runs {
    pub(crate) table: RunTable,
    /// The segments after them that continue to an open end.
    pub(crate) endless: Option<Endless>,
    /// How many segments the runs have.
    pub(crate) total: u64,
    pub(crate) scale: Scale,
    /// The media time of the Period's start: `@presentationTimeOffset` in a timeline, otherwise 0.
    pub(crate) origin: u64,
    pub(crate) names: Names,
}

impl Model for Runs {
    ghost use Rattle.timeline.specs.Expansions.{SegmentTimeline};

    ghost Value = { SegmentTimeline };

    ghost use Rattle.timeline.specs.Kept.{timeline_of, IsKept};

    ghost view = { timeline_of };

    ghost invariant = { IsKept };
}

impl Runs {
    ghost use Rattle.exact_time.specs.Tick.{time_of};
    ghost use Rattle.bridge_io.specs.Answer.{Gives};
    ghost use Rattle.timeline.specs.SegmentTimelines.{timeline_from, timeline_if_paired};
    ghost use Rattle.timeline.specs.Faults.{refusal};
    ghost use Rattle.timeline.specs.Steady.{AreKept, ArePaced, IsWithinLimits};
    ghost use Rattle.timeline.specs.Building.{IsLaidOut, members_so_far};
    ghost use Rattle.timeline.specs.Listed.{IsWindowOf, IsReached, IsFirstListed, IsPlaceAfter, answered_count, is_out_of_range, expansion};
    ghost use Rattle.timeline.specs.Listed.{listed_from, offset_of};
    ghost use Rattle.timeline.specs.declared.window.Window.{Window};
    ghost use Rattle.timeline.specs.Bounds.{low_of, time_of_bound};
    ghost use Rattle.timeline.specs.Expansions.{is_open};
    ghost use Rattle.timeline.specs.Places.{IsLastBegun, closed_count, closed_total, reached_count, count_until, open_extents};
    ghost use Rattle.timeline.specs.Ratios.{natural};
    ghost use Rattle.timeline.specs.RunSegments.{IsTail, extents_of_some, timed};

    /// How many segments are listed in a window. The error is `Range`, exactly where segments that continue to an
    /// open end reach one, by the window's `until`, that breaks the limits of a segment. It allocates nothing.
    ///
    /// Requires that `until` is given where the Period's end is open.
    pub fn count(&self, window: &Window) -> Result<u64, TimeFault>
        requires { IsWindowOf self.now window.now }
        ensures { result ≡ answered_count self.now window.now }
    {
        let _ = &self.table; // opens the value, for its invariant
        if self.is_broken(window) {
            return Err(TimeFault::Range);
        }
        let finish = self.finish(window);
        Ok(finish.saturating_sub(self.place(window.low())))
    }

    /// Whether the segments continue to an end that isn't known yet. Then a window needs its `until`. It allocates
    /// nothing.
    pub fn is_open(&self) -> bool
        ensures { result ≡ is_open self.now.members }
    {
        self.endless.is_some()
    }

    /// `@presentationTimeOffset` in seconds (ISO/IEC 23009-1, 5.3.9.2), the media time of the Period's start. It
    /// allocates nothing.
    pub fn offset(&self) -> Tick
        ensures { time_of result ≡ offset_of self.now }
    {
        let _ = &self.table; // opens the value, for its invariant
        Tick {
            n: i128::from(self.scale.offset),
            scale: self.scale.ticks,
        }
    }

    /// The index of the first listed segment: it is after all segments that end by the Period's start or by the
    /// window's `after`, and before all others, also before those that only a later `until` lists. It allocates
    /// nothing.
    ///
    /// Requires that `until` is given where the Period's end is open, and that `count` doesn't return `Range`.
    pub fn seek(&self, window: &Window) -> Cursor
        requires window { IsWindowOf self.now window.now }
        requires reached { IsReached self.now window.now }
        ensures first { IsFirstListed window.now (expansion self.now window.now) result }
        ensures place { (other : Window) → IsWindowOf self.now other → IsReached self.now other →
            IsPlaceAfter (low_of window.now) (expansion self.now other) result }
    {
        let _ = &self.table; // opens the value, for its invariant
        Cursor::at(self.place(window.low()))
    }

    /// The index of the first segment that ends after a time, relative to the Period's start. All segments before it end
    /// by that time, and all from it on end later. Where there are none of these, the index is that of the end or after
    /// it. Where the end is open, this holds for every window for which `count` doesn't return `Range`. It allocates
    /// nothing.
    pub fn seek_end(&self, end: Tick) -> Cursor
        ensures { (window : Window) → IsWindowOf self.now window → IsReached self.now window →
            IsPlaceAfter (time_of end) (expansion self.now window) result }
    {
        let _ = &self.table; // opens the value, for its invariant
        Cursor::at(self.place(Bound::tick(end)))
    }

    /// How many segments are listed from an index on. It divides, however many they are, and allocates nothing.
    ///
    /// Requires that `until` is given where the Period's end is open, and that `count` doesn't return `Range`.
    pub fn count_from(&self, from: &Cursor, window: &Window) -> u64
        requires window { IsWindowOf self.now window.now }
        requires reached { IsReached self.now window.now }
        ensures { result ≡ length (listed_from from.now self.now window.now) }
    {
        let _ = &self.table; // opens the value, for its invariant
        let begin = from.place().max(self.place(window.low()));
        self.finish(window).saturating_sub(begin)
    }

    /// The times and numbers of the listed segments from an index on. Their ends are valid arguments for a `Rounder`
    /// that begins at the first one's start. It allocates nothing.
    ///
    /// Requires that `until` is given where the Period's end is open, and that `count` doesn't return `Range`.
    pub fn walk(&self, from: &Cursor, window: &Window) -> TimeWalk<'_>
        requires window { IsWindowOf self.now window.now }
        requires reached { IsReached self.now window.now }
        ensures listed { result ≡ listed_from from.now self.now window.now }
        ensures paced { ArePaced result }
        ensures limits { All IsWithinLimits result }
    {
        let begin = from.place().max(self.place(window.low()));
        let left = self.finish(window).saturating_sub(begin);
        let tail = self.tail(window);
        TimeWalk::from(
            self.table.as_slice(self.scale, self.origin),
            tail,
            begin,
            left,
            self.scale.start_number,
        )
    }

    /// The listed segments from an index on, each with its URL. It allocates nothing.
    ///
    /// Requires that `until` is given where the Period's end is open, and that `count` doesn't return `Range`.
    pub fn resume(&self, from: &Cursor, window: &Window) -> Listing<'_>
        requires window { IsWindowOf self.now window.now }
        requires reached { IsReached self.now window.now }
        ensures segments { result.left ≡ listed_from from.now self.now window.now }
        ensures paced { ArePaced result.left }
        ensures limits { All IsWithinLimits result.left }
        ensures timeline { result.timeline ≡ self.now }
    {
        let _ = &self.table; // opens the value, for its invariant
        Listing::over(self, self.walk(from, window))
    }

    pub(crate) fn of(builder: RunsBuilder, scale: Scale, origin: u64, names: Names) -> Runs
        requires laid { IsLaidOut builder }
        requires ticks { builder.limits.ticks ≡ scale.ticks }
        requires origin { builder.limits.origin ≡ origin }
        requires kept { AreKept (members_so_far builder) }
        ensures { result ≡ timeline_from scale origin names (members_so_far builder) }
    {
        let mut table = builder.table;
        table.own.shrink_to_fit(); // most have one or two runs, and a list begins with room for four
        Runs {
            table,
            endless: builder.endless,
            total: builder.total,
            scale,
            origin,
            names,
        }
    }

    /// The segments with their names, unless these are a list of another length.
    pub(crate) fn paired(
        builder: RunsBuilder,
        scale: Scale,
        origin: u64,
        names: Names,
    ) -> Result<Runs, TimeFault>
        requires laid { IsLaidOut builder }
        requires ticks { builder.limits.ticks ≡ scale.ticks }
        requires origin { builder.limits.origin ≡ origin }
        requires kept { AreKept (members_so_far builder) }
        ensures { Gives (λ runs. runs) refusal result (timeline_if_paired scale origin names (members_so_far builder)) }
    {
        if !builder.is_paired(names.len()) {
            return Err(TimeFault::ListLength);
        }
        Ok(Runs::of(builder, scale, origin, names))
    }

    /// The segment's media time, for `$Time$`.
    pub(crate) fn media_time(&self, start: Tick) -> u64
        requires { natural (start.n +ℤ pos self.now.origin) < 2 ^ 64 }
        ensures { result ≡ natural (start.n +ℤ pos self.now.origin) }
    {
        u64::try_from(start.n + i128::from(self.origin)).unwrap_or(0)
    }

    /// How many segments end at or before a bound, including those that continue to an open end, capped at the most
    /// that can ever be listed.
    fn place(&self, bound: Bound) -> u64
        ensures { result ≡ min (2 ^ 64 - 1) (reached_count self.now (time_of_bound bound)) }
    {
        let endless = self.endless.map_or(0, |endless| endless.ended_by(bound));
        let place = u128::from(self.ended_by(bound)).saturating_add(endless);
        place.min(u128::from(u64::MAX)) as u64
    }

    /// How many segments of the runs end at or before a bound.
    fn ended_by(&self, bound: Bound) -> u64
        ensures { result ≡ closed_count self.now (time_of_bound bound) }
    {
        match self.last_begun(bound) {
            Some(begun) => begun.before + begun.ended_by(bound),
            None => 0,
        }
    }

    /// The last run with a segment that ends at or before a bound. As ends rise, all runs before it have one, too.
    fn last_begun(&self, bound: Bound) -> Option<Run>
        ensures { MatchOption result (closed_count self.now (time_of_bound bound) ≡ 0)
            (λ s. IsLastBegun self.now (time_of_bound bound) (timed s)) }
    {
        let runs = self.table.as_slice(self.scale, self.origin);
        let begun = runs.count_front(Test::BeginsBy(bound));
        if begun == 0 {
            return None;
        }
        Some(runs.get(begun - 1))
    }

    /// The index after the last listed segment.
    fn finish(&self, window: &Window) -> u64
        requires window { IsWindowOf self.now window.now }
        requires reached { IsReached self.now window.now }
        ensures { result ≡ count_until self.now window.now }
    {
        match window.high() {
            Some(high) => self.place(high),
            None => self.total,
        }
    }

    /// The reached segments of those that continue to an open end.
    fn tail(&self, window: &Window) -> Option<Run>
        requires window { IsWindowOf self.now window.now }
        requires reached { IsReached self.now window.now }
        ensures extents { extents_of_some (option_map timed result) ≡ open_extents self.now window.now }
        ensures tail { IsTail (closed_total self.now) (option_map timed result) }
    {
        let (Some(endless), Some(high)) = (self.endless, window.high()) else {
            return None;
        };
        endless.until(high)
    }

    /// Whether the segments that continue to an open end reach one that breaks the limits. As they are equally long,
    /// checking the last one is enough.
    fn is_broken(&self, window: &Window) -> bool
        requires { IsWindowOf self.now window.now }
        ensures { result ≡ is_out_of_range self.now window.now }
    {
        let (Some(endless), Some(high)) = (self.endless, window.high()) else {
            return false;
        };
        let count = endless.ended_by(high);
        let limits = self.scale.limits(self.origin);
        count > 0 && limits.are_broken(endless.media_end(count, self.origin), endless.step)
    }
}
