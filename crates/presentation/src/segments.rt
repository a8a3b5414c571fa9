// Segments one by one, with their printed durations (EXTINF).
ghost use Rattle.std.specs.Prelude.{◌≡◌, ◌+◌, ◌^◌, ◌<◌, length, true, IfOk, IfSome, MatchOption, MatchResult};
ghost use Rattle.exact_time.specs.Rounding.{rounding_from};
ghost use Rattle.presentation.specs.Kept.{rounding_at};
ghost use Rattle.presentation.specs.Presented.{listed_at, listed_in, looked_at};
ghost use Rattle.timeline.specs.FileNames.{AreInFolder};
ghost use Rattle.timeline.specs.Listed.{IsWindowOf, IsReached, listed_from, timing_of};
ghost use Rattle.exact_time.specs.Tick.{time_of};
ghost use Rattle.presentation.specs.Printing as spec;

use crate::Presentation;
use bridge_io::{Ledger, NoMemory, Steps};
use exact_time::{Digits, Equal, Rounder, Tick};
use iso_time::Instant;
use std::alloc::Global;
use std::marker::Model;
use timeline::{
    AddressWriter, Cursor, ListFault, Listing, Runs, Segment, Span, SpanRun, TimeWalk, Window,
};
use url_parts::Spelling;

/// An iterator over the listed segments of a track in a section, with their printed durations. Printed durations never
/// drift: up to each segment they sum to the exact time from the first one's start to that segment's end, rounded down.
///
/// In a contract it is the segments with their names, and the times and printed durations of those that are left.
#[derive(Drop)]
pub struct PrintedSegments<'a> {
    listing: Listing<'a>,
    rounder: Rounder,
}

impl<'a> Model for PrintedSegments<'a> {
    ghost use Rattle.presentation.specs.Printing.{PrintedRest};

    ghost Value = { PrintedRest };

    ghost use Rattle.presentation.specs.Kept.{printed_rest, IsPaced};

    ghost view = { λ s. printed_rest s.listing s.rounder };

    ghost invariant = { λ s. IsPaced s.listing s.rounder };
}

/// Segments that were printed before, after which others continue.
#[derive(Clone, Copy, PartialEq, Eq)]
pub struct Behind {
    /// When the first one began, relative to the Period's start.
    pub first: Tick,
    /// When the last one ended.
    pub former: Tick,
}

/// Segments that follow one another, each as long as the first one, with their printed durations in units of the last
/// decimal.
#[derive(Clone, Copy, PartialEq, Eq)]
pub struct PrintedRun {
    /// Their times.
    pub spans: SpanRun,
    /// The duration of the first one, which may follow a gap.
    pub first: u64,
    /// The durations of the others.
    pub others: Equal,
}

/// An iterator over the times of listed segments in order, with their printed durations in units of the last decimal.
///
/// In a contract it is the times and printed durations of those that are left.
#[derive(Drop)]
pub struct PrintedTimes<'a> {
    walk: TimeWalk<'a>,
    rounder: Rounder,
}

impl<'a> Model for PrintedTimes<'a> {
    ghost use Rattle.std.specs.Prelude.{List};
    ghost use Rattle.presentation.specs.Printing.{PrintedTiming};

    ghost Value = { List PrintedTiming };

    ghost use Rattle.presentation.specs.Kept.{printed_left, ArePacedBehind};

    ghost view = { λ t. printed_left t.walk t.rounder };

    ghost invariant = { λ t. ArePacedBehind t.walk t.rounder };
}

impl<'a> PrintedTimes<'a> {
    ghost use Rattle.std.specs.Prelude.{[]};

    /// Moves past the next segments of equal length, and returns them at once with their printed durations, in a few
    /// divisions, however many they are. `None` exactly at the end.
    pub fn next_run(&mut self) -> Option<PrintedRun>
        ensures { MatchOption result ((self.old ≡ []) × (self.new ≡ [])) (λ run. spec.IsNextRun self.old run self.new) }
    {
        let spans = self.walk.next_run()?;
        let first = self.rounder.next(spans.first.end);
        let others = self.rounder.next_equal(spans.step, spans.count - 1);
        Some(PrintedRun {
            spans,
            first,
            others,
        })
    }

    fn of(
        runs: &'a Runs,
        window: &Window,
        behind: Option<Behind>,
        digits: Digits,
    ) -> PrintedTimes<'a>
        requires window { IsWindowOf runs.now window.now }
        requires reached { IsReached runs.now window.now }
        requires goes_on { IfSome behind (spec.GoesOn (listed_in window.now runs.now)) }
        ensures { result ≡ spec.printed_behind behind (10 ^ digits) (listed_in window.now runs.now) }
    {
        let begun = Begun::at(runs, window, behind, digits);
        PrintedTimes {
            walk: runs.walk(&begun.cursor, window),
            rounder: begun.rounder,
        }
    }
}

impl Iterator for PrintedTimes<'_> {
    ghost use Rattle.std.specs.Iterator.{YieldsFirstBy, item_count};

    type Item = (Span, u64);

    ghost next_gives = { YieldsFirstBy spec.timed (λ times. times) };

    ghost remaining = { item_count (λ times. times) };

    fn next(&mut self) -> Option<(Span, u64)> {
        let span = self.walk.next()?;
        let duration = self.rounder.next(span.end);
        Some((span, duration))
    }
}

impl<'a> PrintedSegments<'a> {
    /// The listed segments in a window, after others or all of them.
    fn of(
        runs: &'a Runs,
        window: &Window,
        behind: Option<Behind>,
        digits: Digits,
    ) -> PrintedSegments<'a>
        requires window { IsWindowOf runs.now window.now }
        requires reached { IsReached runs.now window.now }
        requires goes_on { IfSome behind (spec.GoesOn (listed_in window.now runs.now)) }
        ensures { result ≡ spec.rest_behind behind runs.now (listed_in window.now runs.now) (10 ^ digits) }
    {
        let begun = Begun::at(runs, window, behind, digits);
        PrintedSegments {
            listing: runs.resume(&begun.cursor, window),
            rounder: begun.rounder,
        }
    }

    /// Makes the next segment, counts it, and returns its printed duration in units of the last decimal. `None`
    /// exactly at the end. After an error the same segment is the next one, and nothing is counted.
    #[inline(always)]
    pub fn next<L: Ledger>(
        &mut self,
        alloc: Global,
        steps: &mut Steps<L>,
    ) -> Result<Option<(Segment, u64)>, ListFault>
        ensures segment { MatchResult result
            (λ next. MatchOption next (spec.IsAtEnd self.old self.new) (λ made. spec.IsNext self.old made.0 made.1 self.new))
            (λ fault. spec.IsHeld self.old fault self.new) }
        ensures counted { steps.new ≡ steps.old + spec.made_count result }
    {
        match self.listing.next(alloc, steps) {
            Err(fault) => Err(fault),
            Ok(None) => Ok(None),
            Ok(Some(segment)) => {
                let duration = self.rounder.next(segment.span().end);
                Ok(Some((segment, duration)))
            }
        }
    }

    /// Skips the next segment without making its URL, counts it, and returns its times and its printed duration in units of
    /// the last decimal. `None` exactly at the end.
    #[inline(always)]
    pub fn pass<L: Ledger>(&mut self, steps: &mut Steps<L>) -> Option<(Span, u64)>
        ensures segment { MatchOption result (spec.IsAtEnd self.old self.new)
            (λ passed. spec.IsPassed self.old (timing_of passed.0) passed.1 self.new) }
        ensures counted { steps.new ≡ steps.old + spec.passed_count result }
    {
        let span = self.listing.pass(steps)?;
        let duration = self.rounder.next(span.end);
        Some((span, duration))
    }

    /// A writer of the segments' URLs, spelled so.
    pub fn addresses(
        &self,
        alloc: Global,
        spelling: &'a Spelling,
    ) -> Result<AddressWriter<'a>, NoMemory>
        ensures timeline { IfOk result (λ addresses. addresses.timeline ≡ self.now.timeline) }
        ensures place { IfOk result (λ addresses. addresses.place ≡ spelling.now) }
    {
        self.listing.addresses(alloc, spelling)
    }

    /// Whether each segment's name is a valid file name in one folder, so that no URL is rejected.
    pub(crate) fn are_files(&self, alloc: Global) -> Result<bool, NoMemory>
        ensures { IfOk result (λ files. files ≡ true → AreInFolder self.now.timeline.names) }
    {
        self.listing.are_files(alloc)
    }

    /// Moves past the next segment, counts it, and returns its printed duration. Its URL is made where it may be rejected.
    #[inline(always)]
    pub(crate) fn step<L: Ledger>(
        &mut self,
        alloc: Global,
        files: bool,
        steps: &mut Steps<L>,
    ) -> Result<Option<u64>, ListFault>
        requires { files ≡ true → AreInFolder self.old.timeline.names }
        ensures segment { MatchResult result
            (λ next. MatchOption next (spec.IsAtEnd self.old self.new) (λ duration. spec.IsStep self.old duration self.new))
            (λ fault. spec.IsHeld self.old fault self.new) }
        ensures counted { steps.new ≡ steps.old + spec.step_count result }
    {
        if !files {
            return Ok(self.next(alloc, steps)?.map(|(_, duration)| duration));
        }
        match self.pass(steps) {
            None => Ok(None),
            Some((_, duration)) => Ok(Some(duration)),
        }
    }
}

/// The start of printed segments.
#[derive(Drop)]
struct Begun {
    cursor: Cursor,
    rounder: Rounder,
}

impl Begun {
    fn at(runs: &Runs, window: &Window, behind: Option<Behind>, digits: Digits) -> Begun
        requires window { IsWindowOf runs.now window.now }
        requires reached { IsReached runs.now window.now }
        requires goes_on { IfSome behind (spec.GoesOn (listed_in window.now runs.now)) }
        ensures from { listed_from result.cursor runs.now window.now ≡ spec.listed_behind behind (listed_in window.now runs.now) }
        ensures rounder { result.rounder ≡ rounding_at behind (10 ^ digits) (listed_in window.now runs.now) }
    {
        match behind {
            None => Begun::new(runs, window, digits),
            Some(behind) => Begun {
                cursor: runs.seek_end(behind.former),
                rounder: Rounder::resume(behind.first, behind.former, digits.unit()),
            },
        }
    }

    fn new(runs: &Runs, window: &Window, digits: Digits) -> Begun
        requires window { IsWindowOf runs.now window.now }
        requires reached { IsReached runs.now window.now }
        ensures from { listed_from result.cursor runs.now window.now ≡ listed_in window.now runs.now }
        ensures rounder { result.rounder ≡ rounding_from (spec.begin_of (listed_in window.now runs.now)) (10 ^ digits) }
    {
        let cursor = runs.seek(window);
        let begin = first_start(runs, &cursor, window);
        Begun {
            cursor,
            rounder: Rounder::new(begin, digits.unit()),
        }
    }
}

/// The start of the first segment that is listed from an index on.
fn first_start(runs: &Runs, from: &Cursor, window: &Window) -> Tick
    requires window { IsWindowOf runs.now window.now }
    requires reached { IsReached runs.now window.now }
    ensures { time_of result ≡ spec.begin_of (listed_from from.now runs.now window.now) }
{
    match runs.walk(from, window).next() {
        Some(span) => span.start,
        None => Tick { n: 0, scale: 1 },
    }
}

impl Presentation {
    /// The listed segments of a track in a section with their printed durations. It allocates nothing.
    ///
    /// Requires that both are in range, and that `count` doesn't fail because the section's segments are out of
    /// range.
    pub fn segments(&self, section: usize, track: usize, digits: Digits) -> PrintedSegments<'_>
        requires section { section < length self.now.sections }
        requires track { track < length self.now.tracks }
        requires reached { spec.IsCounted self.now section track }
        ensures { spec.IsPrintedOf self.now section track (10 ^ digits) result }
    {
        let window = self.window(section);
        PrintedSegments::of(&self.content(section, track).runs, &window, None, digits)
    }

    /// The segments of a track in a section that are listed at another time and end after others that were printed before. Their
    /// printed durations continue theirs, so that the sum of all never drifts. Where there were no others it is all listed
    /// segments, as in `segments`. It allocates nothing.
    ///
    /// Requires that both are in range, that `check_ends` doesn't fail because the section's segments are out of range, that the
    /// others don't end before they begin, and that there is no gap or overlap of more than half the first segment's duration.
    pub fn segments_behind(
        &self,
        section: usize,
        track: usize,
        now: Instant,
        behind: Option<Behind>,
        digits: Digits,
    ) -> PrintedSegments<'_>
        requires section { section < length self.now.sections }
        requires track { track < length self.now.tracks }
        requires reached { spec.IsCounted (looked_at now self.now) section track }
        requires goes_on { IfSome behind (spec.GoesOn (listed_at (looked_at now self.now) section track)) }
        ensures { spec.IsPrintedBehind (looked_at now self.now) section track behind (10 ^ digits) result }
    {
        let window = self.window_from(self.start_of(section), now);
        PrintedSegments::of(&self.content(section, track).runs, &window, behind, digits)
    }

    /// The same segments without their URLs: none of them is made or counted.
    pub fn times_behind(
        &self,
        section: usize,
        track: usize,
        now: Instant,
        behind: Option<Behind>,
        digits: Digits,
    ) -> PrintedTimes<'_>
        requires section { section < length self.now.sections }
        requires track { track < length self.now.tracks }
        requires reached { spec.IsCounted (looked_at now self.now) section track }
        requires goes_on { IfSome behind (spec.GoesOn (listed_at (looked_at now self.now) section track)) }
        ensures { result ≡ spec.printed_behind behind (10 ^ digits) (listed_at (looked_at now self.now) section track) }
    {
        let window = self.window_from(self.start_of(section), now);
        PrintedTimes::of(&self.content(section, track).runs, &window, behind, digits)
    }
}
