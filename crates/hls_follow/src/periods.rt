// The Periods of a snapshot.
ghost use Rattle.std.specs.Prelude.{[], ◌≡◌, ◌<◌, ◌^◌, All, length, unwrap_or, IfOk};
ghost use Rattle.std.specs.Option.{option_copied};
ghost use Rattle.bridge_io.specs.Answer.{Gives};
ghost use Rattle.hls_follow.specs.Faults.{told};
ghost use Rattle.hls_follow.specs.Groups.{row_at};
ghost use Rattle.hls_follow.specs.Kept.{HasScale, HasScales};
ghost use Rattle.hls_follow.specs.Periods as spec;

use crate::LiveFault;
use crate::groups::{Group, Groups, row_end};
use crate::state::TimedSegment;
use bridge_io::NoMemory;
use dash_writer::{LivePeriod, LivePeriodList, LiveRun, LiveRunList, LiveSegment, LiveSegmentList};
use exact_time::Nanos;
use std::alloc::Global;
use url_parts::Part;

/// When a section begins, and when its longest track ends, relative to its start.
#[derive(Clone, Copy)]
pub(crate) struct Extent {
    pub(crate) start: Nanos,
    pub(crate) longest: Nanos,
}

/// The Periods of sections; the tracks have one section at each index. `known` are the Periods of the last accepted
/// snapshot.
pub(crate) fn periods_of(
    alloc: Global,
    known: &[LivePeriod],
    tracks: &[Groups<'_, '_>],
    sections: &[u64],
) -> Result<LivePeriodList, LiveFault>
    ensures periods { Gives (λ periods. periods) told result
        (spec.periods_from known.now tracks.now (spec.last_end known.now) 0 sections.now) }
    ensures filled { IfOk result (λ periods. All (λ p. length p.runs ≡ length tracks.now) periods) }
    ensures scaled { IfOk result (All HasScales) }
{
    let mut periods = LivePeriodList::new(alloc);
    let mut former = last_end(known);
    let mut place = 0;
    for number in sections {
        let period = period_of(alloc, known, former, *number, tracks, place)?;
        former = end_of(&period);
        periods.push(period)?;
        place += 1;
    }
    Ok(periods)
}

/// The Period of the section at an index, after what ends at `former`.
fn period_of(
    alloc: Global,
    known: &[LivePeriod],
    former: u128,
    number: u64,
    tracks: &[Groups<'_, '_>],
    place: usize,
) -> Result<LivePeriod, LiveFault>
    requires { former < 2 ^ 66 }
    ensures period { Gives (λ period. period) told result (spec.period_of known.now former number (row_at tracks.now place)) }
    ensures filled { IfOk result (λ period. length period.runs ≡ length tracks.now) }
    ensures scaled { IfOk result HasScales }
{
    let extent = extent_of(known_in(number, known), former, row_end(tracks, place))?;
    let runs = runs_of(alloc, tracks, place)?;
    Ok(LivePeriod {
        number,
        start: extent.start,
        longest: extent.longest,
        runs,
    })
}

/// What is known of a section.
pub(crate) fn known_in(number: u64, periods: &[LivePeriod]) -> Option<Extent>
    ensures { result ≡ spec.known_in number periods.now }
{
    for period in periods {
        if period.number == number {
            return Some(Extent {
                start: period.start,
                longest: period.longest,
            });
        }
    }
    None
}

/// When a section begins and ends, after what ends at `former`, where its longest track now ends at `longest`.
pub(crate) fn extent_of(
    known: Option<Extent>,
    former: u128,
    longest: u128,
) -> Result<Extent, LiveFault>
    requires former { former < 2 ^ 66 }
    requires longest { longest < 2 ^ 95 }
    ensures { result ≡ spec.extent_of known former longest }
{
    match known {
        Some(known) => within_limit(
            u128::from(known.start.0),
            u128::from(known.longest.0).max(longest),
        ),
        None => within_limit(former, longest),
    }
}

fn within_limit(start: u128, longest: u128) -> Result<Extent, LiveFault>
    requires start { start < 2 ^ 66 }
    requires longest { longest < 2 ^ 95 }
    ensures { result ≡ spec.within_limit start longest }
{
    if 10_000_000_000_000_000_000 <= start + longest {
        return Err(LiveFault::Limit);
    }
    Ok(Extent {
        start: Nanos(start as u64),
        longest: Nanos(longest as u64),
    })
}

/// When the last section ends.
pub(crate) fn last_end(periods: &[LivePeriod]) -> u128
    ensures end { result ≡ spec.last_end periods.now }
    ensures near { result < 2 ^ 65 }
{
    match periods.last() {
        Some(period) => end_of(period),
        None => 0,
    }
}

pub(crate) fn end_of(period: &LivePeriod) -> u128
    ensures end { result ≡ spec.end_of period.now }
    ensures near { result < 2 ^ 65 }
{
    u128::from(period.start.0) + u128::from(period.longest.0)
}

/// The contents of the tracks in the section at an index.
fn runs_of(alloc: Global, tracks: &[Groups<'_, '_>], place: usize) -> Result<LiveRunList, LiveFault>
    ensures runs { Gives (λ runs. runs) told result (spec.runs_of (row_at tracks.now place)) }
    ensures filled { IfOk result (λ runs. length runs ≡ length tracks.now) }
    ensures scaled { IfOk result (All HasScale) }
{
    let mut runs = LiveRunList::new(alloc);
    for track in tracks {
        runs.push(run_of(alloc, track.at(place))?)?;
    }
    Ok(runs)
}

fn run_of(alloc: Global, group: Option<Group<'_, '_>>) -> Result<LiveRun, LiveFault>
    ensures run { Gives (λ run. run) told result (spec.run_of (unwrap_or (option_copied group.entry) [])) }
    ensures scaled { IfOk result HasScale }
{
    let Some(group) = group else {
        return Err(LiveFault::NoMap);
    };
    let initialization = initialization_of(alloc, group)?;
    let segments = segments_of(alloc, group)?;
    Ok(LiveRun {
        initialization,
        scale: 1_000_000_000,
        offset: None,
        segments,
    })
}

/// The map of the first segment.
fn initialization_of(alloc: Global, group: Group<'_, '_>) -> Result<Part, LiveFault>
    ensures { Gives (λ part. part) told result (spec.initialization_of group.now) }
{
    let Some(first) = group.first() else {
        return Err(LiveFault::NoMap);
    };
    match &first.segment().map {
        Some(map) => Ok(map.copy(alloc)?),
        None => Err(LiveFault::NoMap),
    }
}

fn segments_of(alloc: Global, group: Group<'_, '_>) -> Result<LiveSegmentList, NoMemory>
    ensures { IfOk result (λ segments. segments ≡ spec.live_segments group.now) }
{
    let mut segments = Vec::with_capacity(alloc, group.len())?;
    for timed in group {
        segments.push(segment_of(alloc, timed)?)?;
    }
    Ok(LiveSegmentList::from(segments))
}

fn segment_of(alloc: Global, timed: &TimedSegment<'_>) -> Result<LiveSegment, NoMemory>
    ensures { IfOk result (λ segment. segment ≡ spec.live_segment timed.now) }
{
    let segment = timed.segment();
    let address = segment.address.copy(alloc)?;
    Ok(LiveSegment {
        address,
        range: segment.range,
        time: timed.time(),
        duration: segment.duration.0,
    })
}
