// Checks of an MPD before its Representations.
ghost use Rattle.std.specs.Prelude.{◌≡◌, ◌&&◌, not, length, map, nat_lt};
ghost use Rattle.bridge_io.specs.Answer.{Gives};
ghost use Rattle.mpd_rules.specs.Views.{segments_mpd};
ghost use Rattle.presentation.specs.Counting.{refusal, unless_any};
ghost use Rattle.mpd_presentation.specs.Rows.{row_of, period_of, rows_left, all_left, first_rows};
ghost use Rattle.mpd_presentation.specs.Told as spec;

use crate::lineup::{are_alike, rows_in_order};
use mpd_rules::{Mpd, PeriodView, PeriodWalk, RepView, RepWalk, SegmentRow};
use presentation::PresentationFault;
use std::alloc::Global;

/// The most sections.
const SECTION_LIMIT: u64 = 1000;

/// The most tracks.
const TRACK_LIMIT: u64 = 200;

/// Checks that a current time is given where it is needed, no limit is exceeded, and each Period has the tracks of the
/// first one.
pub(crate) fn check(alloc: Global, mpd: &Mpd, has_now: bool) -> Result<(), PresentationFault>
    ensures { Gives (λ done. done) refusal result
        (unless_any (spec.told_before (segments_mpd mpd.now).facts.live has_now (segments_mpd mpd.now).periods) tt) }
{
    if needs_now(mpd, has_now) {
        return Err(PresentationFault::NeedsNow);
    }
    if is_over(mpd) {
        return Err(PresentationFault::Limit);
    }
    check_tracks(alloc, mpd.periods())
}

fn needs_now(mpd: &Mpd, has_now: bool) -> bool
    ensures { result ≡ ((segments_mpd mpd.now).facts.live && not has_now) }
{
    mpd.live() && !has_now
}

/// Whether there are too many Periods or tracks.
fn is_over(mpd: &Mpd) -> bool
    ensures { result ≡ spec.is_over (segments_mpd mpd.now).periods }
{
    has_more_periods(mpd.periods()) || has_more_tracks(mpd.periods())
}

fn check_tracks(
    alloc: Global,
    mut periods: PeriodWalk<'_, SegmentRow>,
) -> Result<(), PresentationFault>
    ensures { Gives (λ done. done) refusal result (unless_any (spec.differ_told (all_left periods.entry)) tt) }
{
    let Some(first) = periods.next() else {
        return Ok(());
    };
    let first = rows_in_order(alloc, &first)?;
    for period in periods {
        check_period(alloc, &first, &period)?;
    }
    Ok(())
}

fn check_period(
    alloc: Global,
    first: &[RepView<'_>],
    period: &PeriodView<'_>,
) -> Result<(), PresentationFault>
    ensures { Gives (λ done. done) refusal result (unless_any (spec.differs_told (map row_of first.now) (period_of period.now)) tt) }
{
    let rows = rows_in_order(alloc, period)?;
    if are_alike(first, &rows) {
        return Ok(());
    }
    Err(PresentationFault::PeriodsDiffer(period.place()))
}

/// Whether there are more Periods than the limit of sections.
fn has_more_periods(mut periods: PeriodWalk<'_, SegmentRow>) -> bool
    ensures { result ≡ nat_lt 1000 (length (all_left periods.entry)) }
{
    for _passed in 0..SECTION_LIMIT {
        if periods.next().is_none() {
            return false;
        }
    }
    periods.next().is_some()
}

/// Whether the first Period has more Representations than the limit of tracks.
fn has_more_tracks(mut periods: PeriodWalk<'_, SegmentRow>) -> bool
    ensures { result ≡ nat_lt 200 (length (first_rows (all_left periods.entry))) }
{
    match periods.next() {
        Some(first) => has_more_rows(first.tracks()),
        None => false,
    }
}

fn has_more_rows(mut rows: RepWalk<'_, SegmentRow>) -> bool
    ensures { result ≡ nat_lt 200 (length (rows_left rows.entry)) }
{
    for _passed in 0..TRACK_LIMIT {
        if rows.next().is_none() {
            return false;
        }
    }
    rows.next().is_some()
}
