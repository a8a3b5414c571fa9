// When Periods begin and end.
ghost use Rattle.std.specs.Prelude.{◌≡◌, Some, map};
ghost use Rattle.std.specs.List.{All};
ghost use Rattle.bridge_io.specs.Answer.{Gives};
ghost use Rattle.mpd_tree.specs.Nodes.{element_of};
ghost use Rattle.mpd_profile.specs.Refusals.{refusal};
ghost use Rattle.mpd_rules.specs.Fits.{FitsMpd, FitsPeriod};
ghost use Rattle.mpd_rules.specs.Kept.{periods_of};
ghost use Rattle.mpd_rules.specs.Periods as spec;
ghost use Rattle.mpd_rules.specs.Rules.{unless_refused};

use crate::readings::duration;
use bridge_io::{Place, Sequence};
use exact_time::Nanos;
use mpd_profile::{RuleFault, is_dynamic};
use mpd_tree::Node;
use std::alloc::Global;

/// The first time that is too late, in nanoseconds.
const LATE: u128 = 10_000_000_000_000_000_000;

/// When a Period begins and ends; an open one has no end.
#[derive(Clone, Copy)]
pub(crate) struct Bounds {
    pub(crate) start: Nanos,
    pub(crate) end: Option<Nanos>,
}

/// The bounds of all Periods, or the first Period without a start or out of order.
pub(crate) fn read_bounds(
    alloc: Global,
    mpd: Node<'_>,
    periods: &[Node<'_>],
) -> Result<Sequence<Bounds>, RuleFault>
    requires these { map element_of periods.now ≡ periods_of (element_of mpd) }
    requires fits { FitsMpd (element_of mpd) }
    ensures { Gives (λ bounds. bounds) refusal result
        (unless_refused (spec.period_refusals (element_of mpd.entry)) (map spec.bounds_of (spec.period_bounds (element_of mpd.entry)))) }
{
    let total = nanos(duration(mpd, "mediaPresentationDuration"));
    let mut former = None;
    let mut default = first_start(mpd);
    let mut bounds = Sequence::new(alloc);
    for (place, period) in periods.iter().enumerate() {
        let one = one_bounds(total, former, default, *period, &periods[place + 1..])?;
        former = nanos(Some(one.start));
        default = end_said(one.start, *period);
        bounds.push(one)?;
    }
    Ok(bounds)
}

/// The default start of the first Period: 0 in a static MPD.
fn first_start(mpd: Node<'_>) -> Option<u128>
    ensures { result ≡ spec.first_start (element_of mpd.entry).head }
{
    if is_dynamic(mpd) { None } else { Some(0) }
}

/// The bounds of a Period, in nanoseconds. `total` is the end of the MPD, `former` the start of the Period before it,
/// `default` its start without `@start`, and `later` the Periods after it.
fn one_bounds(
    total: Option<u128>,
    former: Option<u128>,
    default: Option<u128>,
    period: Node<'_>,
    later: &[Node<'_>],
) -> Result<Bounds, RuleFault>
    requires one { FitsPeriod (element_of period) }
    requires behind { All FitsPeriod (map element_of later.now) }
    ensures { let said = spec.said_of total default (element_of period.entry) (map element_of later.now) in
        result ≡ unless_refused (spec.said_told former said) (spec.bounds_of said) }
{
    let place = period.place();
    let start = judged_start(place, former, start_of(period, default))?;
    let after = end_said(start, period);
    let end = judged_end(place, start, end_of(total, after, later))?;
    Ok(Bounds { start, end })
}

fn start_of(period: Node<'_>, default: Option<u128>) -> Option<u128>
    requires { FitsPeriod (element_of period) }
    ensures { result ≡ spec.start_of default (element_of period.entry) }
{
    nanos(duration(period, "start")).or(default)
}

fn end_said(start: Nanos, period: Node<'_>) -> Option<u128>
    requires { FitsPeriod (element_of period) }
    ensures { result ≡ spec.end_said (Some start) (element_of period.entry) }
{
    let duration = duration(period, "duration")?;
    Some(u128::from(start.0) + u128::from(duration.0))
}

fn end_of(total: Option<u128>, after: Option<u128>, later: &[Node<'_>]) -> Option<u128>
    requires { All FitsPeriod (map element_of later.now) }
    ensures { result ≡ spec.end_of total after (map element_of later.now) }
{
    match later.first() {
        Some(next) => start_of(*next, after),
        None => after.or(total),
    }
}

fn nanos(duration: Option<Nanos>) -> Option<u128>
    ensures { result ≡ duration }
{
    match duration {
        Some(nanos) => Some(u128::from(nanos.0)),
        None => None,
    }
}

fn judged_start(place: Place, former: Option<u128>, start: Option<u128>) -> Result<Nanos, RuleFault>
    ensures { result ≡ spec.judged_start place former start }
{
    let Some(start) = start else {
        return Err(RuleFault::NoStart(place));
    };
    if start >= LATE || is_not_after(former, start) {
        return Err(RuleFault::PeriodOrder(place));
    }
    Ok(Nanos(start as u64))
}

fn is_not_after(former: Option<u128>, start: u128) -> bool
    ensures { result ≡ spec.is_not_after former start }
{
    match former {
        Some(former) => start <= former,
        None => false,
    }
}

fn judged_end(place: Place, start: Nanos, end: Option<u128>) -> Result<Option<Nanos>, RuleFault>
    ensures { result ≡ spec.judged_end place start end }
{
    let Some(end) = end else {
        return Ok(None);
    };
    if end <= u128::from(start.0) || end >= LATE {
        return Err(RuleFault::PeriodOrder(place));
    }
    Ok(Some(Nanos(end as u64)))
}
