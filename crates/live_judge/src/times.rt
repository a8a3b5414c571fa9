// The printed durations of new segments, run by run.
ghost use Rattle.std.specs.Prelude.{◌≡◌, ◌≤◌, ◌<◌, ◌^◌, [], pos, ◌+ℤ◌, ◌<ℤ◌, MatchOption, length, sum};
ghost use Rattle.exact_time.specs.Equal.{ticks_after};
ghost use Rattle.exact_time.specs.Time.{IsAtMost};
ghost use Rattle.exact_time.specs.Tick.{time_of};
ghost use Rattle.exact_time.specs.Rounding.{rounding_behind};
ghost use Rattle.presentation.specs.Kept.{ArePacedBehind, durations_behind};
ghost use Rattle.live_judge.specs.Coming.{IsJoined, IsTrackNext, c_of, p_of, t_of};
ghost use Rattle.live_judge.specs.New.{durations_in};
ghost use Rattle.live_judge.specs.Seconds.{IsSecond, IsSecondNear, capped};
ghost use Rattle.live_meaning.specs.States.{new_durations};

use crate::TrackNext;
use exact_time::{Equal, Rounder, Tick};
use timeline::{SpanRun, TimeWalk};

/// The times of segments that continue after others, with the values for printing their durations.
#[derive(Drop)]
pub(crate) struct NewTimes<'a> {
    pub(crate) walk: TimeWalk<'a>,
    pub(crate) rounder: Rounder,
    /// When the first segment of their section begins.
    pub(crate) first: Tick,
    pub(crate) unit: u32,
    pub(crate) ghost low: { 1 ≤ unit },
    pub(crate) ghost high: { unit ≤ 10 ^ 9 },
}

/// The printed durations of equally long segments.
#[derive(Clone, Copy)]
pub(crate) struct NewRun {
    /// That of the first one, which may follow a gap.
    pub(crate) first: u64,
    /// That of the second one. It has no meaning where there is only one.
    pub(crate) second: u64,
    /// Those of all but the first one.
    pub(crate) others: Equal,
}

impl<'a> NewTimes<'a> {
    ghost use Rattle.live_judge.specs.Times.{IsNextRun, IsPaced, left_of};

    fn behind(walk: TimeWalk<'a>, first: Tick, former: Tick, unit: u32) -> NewTimes<'a>
        requires low { 1 ≤ unit }
        requires high { unit ≤ 10 ^ 9 }
        requires begun { IsAtMost (time_of first) (time_of former) }
        requires paced { ArePacedBehind walk (rounding_behind (time_of first) unit (time_of former)) }
        ensures paced { IsPaced result }
        ensures left { left_of result ≡ durations_behind (rounding_behind (time_of first) unit (time_of former)) walk.entry }
    {
        NewTimes {
            walk,
            rounder: Rounder::resume(first, former, unit),
            first,
            unit,
        }
    }

    /// Moves past the next segments of equal length; `None` exactly at the end.
    pub(crate) fn next_run(&mut self) -> Option<NewRun>
        requires { IsPaced self.old }
        ensures { MatchOption result (left_of self.old ≡ []) (λ run. IsNextRun self.old run self.new) }
    {
        let spans = self.walk.next_run()?;
        let second = second_of(&spans, self.first, self.unit);
        let first = self.rounder.next(spans.first.end);
        let others = self.rounder.next_equal(spans.step, spans.count - 1);
        Some(NewRun {
            first,
            second,
            others,
        })
    }
}

/// The printed duration of the second of equally long segments, and 0 where there is only one.
fn second_of(spans: &SpanRun, first: Tick, unit: u32) -> u64
    requires low { 1 ≤ unit }
    requires high { unit ≤ 10 ^ 9 }
    requires begun { IsAtMost (time_of first) (time_of spans.now.first.end) }
    requires near { 1 < spans.now.count → IsSecondNear spans.now }
    ensures { 1 < spans.now.count → IsSecond (time_of first) unit spans.now result }
{
    if spans.count <= 1 {
        return 0;
    }
    let former = spans.first.end;
    Rounder::resume(first, former, unit).next(later(former, spans.step))
}

/// The time `ticks` ticks later.
fn later(time: Tick, ticks: u64) -> Tick
    requires { (time.n +ℤ pos ticks) <ℤ pos (2 ^ 64) }
    ensures { time_of result ≡ ticks_after (time_of time) ticks }
{
    Tick {
        n: time.n + i128::from(ticks),
        scale: time.scale,
    }
}

impl<'a> TrackNext<'a> {
    ghost use Rattle.live_judge.specs.Times.{IsPaced, left_of};

    /// The printed durations of a section's new segments; `None` where there are none.
    pub(crate) fn times(&self, section: usize) -> Option<NewTimes<'a>>
        requires next { IsTrackNext self.now }
        requires section { section < length (p_of self.now.next.now).sections }
        requires joined { IsJoined self.now.next.now }
        ensures { MatchOption result (durations_in (c_of self.entry.now) self.entry.now.next.now.place
            (t_of self.entry.now) self.entry.now.index section ≡ [])
            (λ times. IsPaced times × (left_of times ≡ durations_in (c_of self.entry.now) self.entry.now.next.now.place
            (t_of self.entry.now) self.entry.now.index section)) }
    {
        let walk = self.walk(section)?;
        let start = self.first_new_in(section)?.start;
        let unit = self.next.standing.digits.unit();
        let last = self.track.last();
        if self.next.number(section) == last.section {
            Some(NewTimes::behind(walk, last.begin, last.end, unit))
        } else {
            Some(NewTimes::behind(walk, start, start, unit))
        }
    }

    /// The total printed duration of a section's new segments, in units.
    fn total_in(&self, section: usize) -> u128
        requires next { IsTrackNext self.now }
        requires section { section < length (p_of self.now.next.now).sections }
        requires joined { IsJoined self.now.next.now }
        ensures { result ≡ capped (sum (durations_in (c_of self.entry.now) self.entry.now.next.now.place
            (t_of self.entry.now) self.entry.now.index section)) }
    {
        let Some(mut times) = self.times(section) else {
            return 0;
        };
        let mut total: u128 = 0;
        while let Some(run) = times.next_run() {
            total = total.saturating_add(run.total());
        }
        total
    }

    /// The total printed duration of the new segments, in units. It stops at the last value of a counter.
    #[tactic(auto, using(crate::proofs::Walks::in_order))]
    pub(crate) fn total(&self) -> u128
        requires next { IsTrackNext self.now }
        requires joined { IsJoined self.now.next.now }
        ensures { result ≡ capped (sum (new_durations (c_of self.entry.now) self.entry.now.index (t_of self.entry.now))) }
    {
        let mut total: u128 = 0;
        for section in 0..self.next.force.sections().len() {
            total = total.saturating_add(self.total_in(section));
        }
        total
    }
}

impl NewRun {
    ghost use Rattle.std.specs.Prelude.{List, ℕ};
    ghost use Rattle.live_judge.specs.Times.{IsRun};

    /// Their total printed duration, in units.
    fn total(&self) -> u128
        ensures { (ds : List ℕ) → IsRun ds self.now → result ≡ capped (sum ds) }
    {
        self.others.total.saturating_add(u128::from(self.first))
    }
}
