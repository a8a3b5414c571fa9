// The new segments of a section one by one, with their printed durations.
ghost use Rattle.std.specs.Prelude.{◌≡◌, ◌+◌, ◌^◌, IfOk, IfSome, MatchOption, MatchResult, Some};
ghost use Rattle.exact_time.specs.Tick.{time_of};
ghost use Rattle.timeline.specs.Listed.{IsReached, IsWindowOf, listed_from};
ghost use Rattle.presentation.specs.Kept.{rounding_at};
ghost use Rattle.presentation.specs.Presented.{listed_in};
ghost use Rattle.presentation.specs.Printing.{GoesOn, IsAtEnd, IsHeld, IsNext, begin_of, made_count};
ghost use Rattle.live_session.specs.New.{later_listed, left_to_make};
ghost use Rattle.live_session.specs.Paced.{IsDatable};

use bridge_io::{Ledger, Steps};
use exact_time::{Digits, Rounder, Tick};
use presentation::Behind;
use std::alloc::Global;
use std::marker::Model;
use timeline::{Cursor, ListFault, Listing, Runs, Segment, Window};

/// An iterator over the new segments of a track in a section, with their printed durations.
///
/// In a contract it is the segments with their names, and the times and printed durations of those that are left.
#[derive(Drop)]
pub(crate) struct NewSegments<'a> {
    listing: Listing<'a>,
    rounder: Rounder,
}

impl<'a> Model for NewSegments<'a> {
    ghost use Rattle.presentation.specs.Printing.{PrintedRest};

    ghost Value = { PrintedRest };

    ghost use Rattle.presentation.specs.Kept.{printed_rest};
    ghost use Rattle.live_session.specs.Paced.{ArePacedWithin};

    ghost view = { λ s. printed_rest s.listing s.rounder };

    ghost invariant = { λ s. ArePacedWithin s.listing s.rounder };
}

impl<'a> NewSegments<'a> {
    /// Those that are listed in a window, or those of them that end after a time. After the last segment of their section their
    /// durations continue its; otherwise they begin anew.
    pub(crate) fn of(
        runs: &'a Runs,
        window: &Window,
        end: Option<Tick>,
        behind: Option<Behind>,
        digits: Digits,
    ) -> NewSegments<'a>
        requires window { IsWindowOf runs.now window.now }
        requires reached { IsReached runs.now window.now }
        requires goes_on { IfSome behind (λ b. (end ≡ Some b.former) × GoesOn (listed_in window.now runs.now) b) }
        ensures { result ≡ left_to_make behind (10 ^ digits) runs.now (later_listed end (listed_in window.now runs.now)) }
    {
        let cursor = begin_at(runs, window, end);
        NewSegments {
            listing: runs.resume(&cursor, window),
            rounder: rounder_at(runs, window, &cursor, behind, digits),
        }
    }

    /// Makes the next segment, counts it, and returns its printed duration in units of the last decimal. `None` exactly at
    /// the end. After an error the same segment is the next one, and nothing is counted.
    pub(crate) fn next<L: Ledger>(
        &mut self,
        alloc: Global,
        steps: &mut Steps<L>,
    ) -> Result<Option<(Segment, u64)>, ListFault>
        ensures segment { MatchResult result
            (λ next. MatchOption next (IsAtEnd self.old self.new) (λ made. IsNext self.old made.0 made.1 self.new))
            (λ fault. IsHeld self.old fault self.new) }
        ensures datable { IfOk result (λ next. IfSome next (λ made. IsDatable made.0.times)) }
        ensures counted { steps.new ≡ steps.old + made_count result }
    {
        match self.listing.next(alloc, steps) {
            Err(fault) => Err(fault),
            Ok(None) => Ok(None),
            Ok(Some(segment)) => {
                let duration = self.rounder.next(segment.span().end);
                Ok(Some((segment, duration)))
            }
        }
    }
}

/// The index of the first listed segment, or of the first one that ends after a time.
#[tactic(auto, using(presentation::proofs::GoingOn::listed_later, presentation::proofs::Printing::all_listed))]
pub(crate) fn begin_at(runs: &Runs, window: &Window, end: Option<Tick>) -> Cursor
    requires window { IsWindowOf runs.now window.now }
    requires reached { IsReached runs.now window.now }
    ensures { listed_from result runs.now window.now ≡ later_listed end (listed_in window.now runs.now) }
{
    match end {
        Some(end) => runs.seek_end(end),
        None => runs.seek(window),
    }
}

/// The rounder for the durations of the segments that are listed from an index on.
fn rounder_at(
    runs: &Runs,
    window: &Window,
    from: &Cursor,
    behind: Option<Behind>,
    digits: Digits,
) -> Rounder
    requires window { IsWindowOf runs.now window.now }
    requires reached { IsReached runs.now window.now }
    requires goes_on { IfSome behind (GoesOn (listed_in window.now runs.now)) }
    ensures { result ≡ rounding_at behind (10 ^ digits) (listed_from from.now runs.now window.now) }
{
    match behind {
        Some(behind) => Rounder::resume(behind.first, behind.former, digits.unit()),
        None => Rounder::new(first_start(runs, from, window), digits.unit()),
    }
}

/// The start of the first segment that is listed from an index on.
fn first_start(runs: &Runs, from: &Cursor, window: &Window) -> Tick
    requires window { IsWindowOf runs.now window.now }
    requires reached { IsReached runs.now window.now }
    ensures { time_of result ≡ begin_of (listed_from from.now runs.now window.now) }
{
    match runs.walk(from, window).next() {
        Some(span) => span.start,
        None => Tick { n: 0, scale: 1 },
    }
}
