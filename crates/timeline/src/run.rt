// Segments of equal duration that follow one another.
ghost use Rattle.std.specs.Prelude.{◌≡◌, ◌+◌, ◌-◌, ◌<◌, ◌≤◌, ◌*◌, ◌^◌, pos, ◌+ℤ◌, ◌≤ℤ◌, ◌<ℤ◌, true, ◌↔◌};
ghost use Rattle.exact_time.specs.Tick.{time_of};

use crate::bound::Bound;
use exact_time::Tick;

/// Segments of equal duration, each beginning where the one before it ends.
///
/// Where there are several, the first one's start and end are ticks of one scale.
#[derive(Clone, Copy)]
pub struct Run {
    /// Where the first one begins and ends.
    pub start: Tick,
    pub end: Tick,
    /// How long each one lasts, in ticks.
    pub step: u64,
    /// How many there are.
    pub count: u64,
    /// How many segments are before them.
    pub before: u64,
}

impl Run {
    ghost use Rattle.std.specs.Prelude.{MatchOption};
    ghost use Rattle.timeline.specs.Bounds.{time_of_bound};
    ghost use Rattle.exact_time.specs.Time.{at_most};
    ghost use Rattle.timeline.specs.RunSegments.{GoesOnAs, IsLonger, IsOne, IsRun, IsRestOf, extents_of, count_ended, one_extent, timed};

    /// One segment. Others may follow it in ticks of its scale.
    pub fn one(start: Tick, end: Tick, before: u64) -> Run
        requires near { end.n <ℤ pos (2 ^ 64 - 1) }
        requires countable { before < 2 ^ 63 }
        ensures { IsOne before (one_extent start end) (timed result) }
    {
        Run {
            start,
            end,
            step: ticks_between(start, end),
            count: 1,
            before,
        }
    }

    /// The segments with one more after them, where that one begins at their end and is as long as each of them, in ticks
    /// of one scale.
    pub fn longer(self, start: Tick, end: Tick) -> Option<Run>
        requires is { IsRun (timed self) }
        requires countable { self.before + self.count ≤ 2 ^ 63 }
        ensures { MatchOption result (GoesOnAs (timed self) (one_extent start end)
            → ⊥) (λ run. IsLonger (timed self) (one_extent start end) (timed run)) }
    {
        let step = i128::from(self.step);
        if self.start.scale != self.end.scale || self.end.n != self.start.n + step {
            return None;
        }
        let ticks = u128::from(self.count) * u128::from(self.step);
        let begins = is_same(later(self.start, ticks), start);
        let ends = is_same(later(self.end, ticks), end);
        if !begins || !ends || (1 << 64) <= end.n + step {
            return None;
        }
        Some(Run {
            count: self.count + 1,
            ..self
        })
    }

    /// Whether the first of the segments ends at or before a bound.
    pub fn first_ends_by(&self, bound: Bound) -> bool
        ensures { result ≡ at_most (time_of self.now.end) (time_of_bound bound) }
    {
        self.end.n <= bound.ticks(self.end.scale)
    }

    /// How many of the segments end at or before a bound.
    pub fn ended_by(&self, bound: Bound) -> u64
        requires { IsRun (timed self.now) }
        ensures { result ≡ count_ended (time_of_bound bound) (extents_of (timed self.now)) }
    {
        let last = bound.ticks(self.end.scale);
        if last < self.end.n {
            return 0;
        }
        let ended = last.abs_diff(self.end.n) / u128::from(self.step) + 1;
        ended.min(u128::from(self.count)) as u64
    }

    /// The segments from an index on.
    pub fn from(self, place: u64) -> Run
        requires is { IsRun (timed self) }
        requires low { self.before ≤ place }
        requires high { place < self.before + self.count }
        ensures { IsRestOf (timed self) place (timed result) }
    {
        let count = place - self.before;
        if count == 0 {
            return self;
        }
        let ticks = u128::from(count) * u128::from(self.step);
        Run {
            start: later(self.start, ticks),
            end: later(self.end, ticks),
            step: self.step,
            count: self.count - count,
            before: place,
        }
    }

    /// The segments after the first one, where there are any.
    pub fn behind_first(self) -> Option<Run>
        requires { IsRun (timed self) }
        ensures { MatchOption result (self.count ≤ 1) (λ rest. IsRestOf (timed self) (self.before + 1) (timed rest)) }
    {
        if self.count <= 1 {
            return None;
        }
        Some(Run {
            start: self.end,
            end: later(self.end, u128::from(self.step)),
            step: self.step,
            count: self.count - 1,
            before: self.before + 1,
        })
    }
}

/// Segments of equal duration that repeat without end.
#[derive(Clone, Copy)]
pub struct Endless {
    pub start: Tick,
    pub step: u64,
    /// How many segments are before them.
    pub before: u64,
}

impl Endless {
    ghost use Rattle.std.specs.Prelude.{option_map};
    ghost use Rattle.timeline.specs.RunSegments.{endless_count, IsEndless, HasRoom, IsTail, extents_of_some, endless_extents, timed};
    ghost use Rattle.timeline.specs.Bounds.{time_of_bound};

    /// How many of the segments end at or before a bound.
    pub fn ended_by(&self, bound: Bound) -> u128
        requires { IsEndless self.now }
        ensures count { result ≡ endless_count self.now (time_of_bound bound) }
        ensures reached { result * self.now.step < 2 ^ 127 + 2 ^ 64 }
    {
        let last = bound.ticks(self.start.scale);
        if last < self.start.n {
            return 0;
        }
        last.abs_diff(self.start.n) / u128::from(self.step)
    }

    /// The media time at which the first `count` segments end, where the Period's start has the media time `origin`.
    pub fn media_end(&self, count: u128, origin: u64) -> u128
        requires placed { pos 0 ≤ℤ (self.now.start.n +ℤ pos origin) }
        requires reached { count * self.now.step < 2 ^ 127 + 2 ^ 64 }
        ensures { pos result ≡ self.now.start.n +ℤ pos origin +ℤ pos (count * self.now.step) }
    {
        let start = (self.start.n + i128::from(origin)) as u128;
        start + count * u128::from(self.step)
    }

    /// The segments that end at or before a bound, where there are any.
    pub fn until(&self, bound: Bound) -> Option<Run>
        requires is { IsEndless self.now }
        requires room { HasRoom self.now (endless_count self.now (time_of_bound bound)) }
        ensures extents { extents_of_some (option_map timed result) ≡ endless_extents self.now (time_of_bound bound) }
        ensures tail { IsTail self.now.before (option_map timed result) }
    {
        let count = self.ended_by(bound);
        if count == 0 {
            return None;
        }
        Some(Run {
            start: self.start,
            end: later(self.start, u128::from(self.step)),
            step: self.step,
            count: count as u64,
            before: self.before,
        })
    }
}

/// Whether two times have the same ticks and scale.
fn is_same(first: Tick, second: Tick) -> bool
    ensures { result ≡ true ↔ time_of first ≡ time_of second }
{
    first.n == second.n && first.scale == second.scale
}

/// The ticks from a segment's start to its end, where one more segment of that length fits after it, and otherwise 1.
fn ticks_between(start: Tick, end: Tick) -> u64
    requires { end.n <ℤ pos (2 ^ 64 - 1) }
    ensures lasting { 0 < result }
    ensures near { (end.n +ℤ pos result) <ℤ pos (2 ^ 64) }
{
    match u64::try_from(end.n - start.n) {
        Ok(ticks) if 0 < ticks && end.n + i128::from(ticks) < 1 << 64 => ticks,
        _ => 1,
    }
}

fn later(time: Tick, ticks: u128) -> Tick
    requires { (time.n +ℤ pos ticks) <ℤ pos (2 ^ 64) }
    ensures ticks { result.n ≡ time.n +ℤ pos ticks }
    ensures scale { result.scale ≡ time.scale }
{
    Tick {
        n: time.n + ticks as i128,
        scale: time.scale,
    }
}
