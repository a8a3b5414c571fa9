// Times of segments one by one.
ghost use Rattle.std.specs.Prelude.{◌≡◌, ◌+◌, ◌<◌, ◌^◌, ◌++◌, option_map};
ghost use Rattle.timeline.specs.RunSegments.{IsSplit, timed};
ghost use Rattle.timeline.specs.RunTables.{slice_runs};

use crate::limits::Limits;
use crate::run::Run;
use crate::run_slice::{RunSlice, Test};
use crate::{Span, SpanRun};
use std::marker::Model;

/// An iterator over the times and numbers of segments in order. Each step takes a few additions, and no division.
///
/// In a contract it is the times of the segments that are left.
#[derive(Drop)]
pub struct TimeWalk<'a> {
    /// The rest of the run of the next segment.
    now: Option<Run>,
    later: RunSlice<'a>,
    /// The segments after those of the runs.
    tail: Option<Run>,
    /// How many segments are left in all.
    left: u64,
    first_number: u64,
}

impl<'a> Model for TimeWalk<'a> {
    ghost use Rattle.std.specs.Prelude.{List};
    ghost use Rattle.timeline.specs.Expansions.{Timing};

    ghost Value = { List Timing };

    ghost use Rattle.timeline.specs.Walks.{timings_left, IsWalk};

    ghost view = { timings_left };

    ghost invariant = { IsWalk };
}

impl<'a> TimeWalk<'a> {
    ghost use Rattle.std.specs.Prelude.{[], Some, slice_get, IfSome, MatchOption, take, drop};
    ghost use Rattle.timeline.specs.Expansions.{numbered};
    ghost use Rattle.timeline.specs.Listed.{timing_of};
    ghost use Rattle.timeline.specs.SpanRuns.{IsNextRun};
    ghost use Rattle.timeline.specs.RunSegments.{extents_of_some, AreLaidWith, all_extents};

    /// `left` segments from an index on.
    pub(crate) fn from(
        runs: RunSlice<'a>,
        tail: Option<Run>,
        place: u64,
        left: u64,
        first_number: u64,
    ) -> TimeWalk<'a>
        requires laid { 0 < left → AreLaidWith (slice_runs runs) (option_map timed tail) (place + left) }
        requires countable { 0 < left → first_number + (place + left) < 2 ^ 64 }
        ensures { result ≡ numbered (first_number + place)
            (take left (drop place (all_extents (slice_runs runs.entry) ++ extents_of_some (option_map timed tail)))) }
    {
        if left == 0 {
            return TimeWalk::at_end(first_number);
        }
        let passed = runs.count_front(Test::EndsBy(place));
        match split(runs.skip(passed), tail) {
            (Some(first), later, tail) => TimeWalk {
                now: Some(first.from(place)),
                later,
                tail,
                left,
                first_number,
            },
            (None, ..) => TimeWalk::at_end(first_number),
        }
    }

    /// No segment.
    fn at_end(first_number: u64) -> TimeWalk<'a>
        ensures { result ≡ [] }
    {
        TimeWalk {
            now: None,
            later: RunSlice::of(&[], Limits::NONE, &[]),
            tail: None,
            left: 0,
            first_number,
        }
    }

    /// The next segment, without moving past it.
    #[inline(always)]
    pub(crate) fn peek(&self) -> Option<Span>
        ensures next { MatchOption result (self.entry.now ≡ []) (λ span. slice_get self.entry.now 0 ≡ Some (timing_of span)) }
        ensures countable { IfSome result (λ span. span.number < 2 ^ 64) }
    {
        if self.left == 0 {
            return None;
        }
        let current = self.now?;
        Some(Span {
            start: current.start,
            end: current.end,
            number: self.first_number + current.before,
        })
    }

    /// Moves past the next segments of equal length, and returns them at once, in a few additions, however many they are.
    /// An S element or a given time takes at most one call, a duration two. `None` exactly at the end.
    pub fn next_run(&mut self) -> Option<SpanRun>
        ensures { MatchOption result ((self.old ≡ []) × (self.new ≡ [])) (λ run. IsNextRun self.old run self.new) }
    {
        let current = self.now?;
        if self.left == 0 {
            return None;
        }
        let run = SpanRun {
            first: Span {
                start: current.start,
                end: current.end,
                number: self.first_number + current.before,
            },
            step: current.step,
            count: current.count.min(self.left),
        };
        self.left -= run.count;
        if self.left == 0 {
            return Some(run);
        }
        go_on(&mut self.now, &mut self.later, &mut self.tail);
        Some(run)
    }

    /// Moves past the next segment.
    pub(crate) fn advance(&mut self)
        ensures { self.new ≡ drop 1 self.old }
    {
        let Some(current) = self.now else {
            return;
        };
        self.left = self.left.saturating_sub(1);
        match current.behind_first() {
            Some(rest) => self.now = Some(rest),
            None => go_on(&mut self.now, &mut self.later, &mut self.tail),
        }
    }
}

/// The first run, and those after it.
fn split(runs: RunSlice<'_>, tail: Option<Run>) -> (Option<Run>, RunSlice<'_>, Option<Run>)
    ensures { IsSplit (slice_runs runs.entry) (option_map timed tail) (option_map timed result.0) (slice_runs result.1)
        (option_map timed result.2) }
{
    match runs.split_first() {
        Some((first, later)) => (Some(first), later, tail),
        None => (tail, runs, None),
    }
}

/// Moves to the first of the later runs, and at their end to the tail.
#[inline(always)]
fn go_on(now: &mut Option<Run>, later: &mut RunSlice<'_>, tail: &mut Option<Run>)
    ensures { IsSplit (slice_runs later.old) (option_map timed tail.old) (option_map timed now.new) (slice_runs later.new)
        (option_map timed tail.new) }
{
    match later.split_first() {
        Some((first, others)) => {
            *now = Some(first);
            *later = others;
        }
        None => *now = tail.take(),
    }
}

impl Iterator for TimeWalk<'_> {
    ghost use Rattle.std.specs.Iterator.{YieldsFirstBy, item_count};
    ghost use Rattle.timeline.specs.Listed.{timing_of};

    type Item = Span;

    ghost next_gives = { YieldsFirstBy timing_of (λ walk. walk) };

    ghost remaining = { item_count (λ walk. walk) };

    fn next(&mut self) -> Option<Span> {
        let span = self.peek()?;
        self.advance();
        Some(span)
    }
}
