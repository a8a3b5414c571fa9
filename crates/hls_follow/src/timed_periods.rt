// The Periods of a snapshot whose segments have their files' times.
ghost use Rattle.std.specs.Prelude.{◌≡◌, ◌<◌, ◌*◌, ◌^◌, All, IfOk, length};
ghost use Rattle.bridge_io.specs.Answer.{Gives};
ghost use Rattle.hls_follow.specs.Faults.{told};
ghost use Rattle.hls_follow.specs.Kept.{HasScale, HasScales};
ghost use Rattle.hls_follow.specs.OwnTimes.{snapshot_of};
ghost use Rattle.hls_follow.specs.Ticks.{IsWhole};
ghost use Rattle.hls_follow.specs.Stretches.{stretch_of};
ghost use Rattle.hls_follow.specs.TimedPeriods as spec;

use crate::LiveFault;
use crate::periods::{end_of, extent_of, known_in, last_end};
use crate::reading::map_of;
use crate::snapshot::Snapshot;
use crate::stretches::Stretch;
use bridge_io::NoMemory;
use dash_writer::{
    LivePeriod, LivePeriodList, LiveRun, LiveRunList, LiveSegment, LiveSegmentList, TickRun,
};
use std::alloc::Global;

impl Snapshot<'_> {
    /// The Periods of the sections, given the segments of all tracks in ticks, by section, then by track. A section keeps its start, and
    /// the latest end that it ever had; a new one begins where the one before it ends.
    pub(crate) fn periods_of(
        &self,
        alloc: Global,
        runs: &[TickRun],
    ) -> Result<LivePeriodList, LiveFault>
        requires filled { length runs.now ≡ length self.now.sections.now * length self.now.tracks.now }
        requires whole { All IsWhole runs.now }
        ensures periods { Gives (λ periods. periods) told result (spec.periods_of (snapshot_of self.now) runs.now) }
        ensures filled { IfOk result (λ periods. All (λ p. length p.runs ≡ length self.now.tracks.now) periods) }
        ensures scaled { IfOk result (All HasScales) }
    {
        let mut periods = LivePeriodList::new(alloc);
        let mut former = last_end(self.periods);
        let mut rest = runs;
        for place in 0..self.sections.len() {
            let (row, later) = rest.split_at(self.tracks.len());
            let period = self.period_at(alloc, former, place, row)?;
            former = end_of(&period);
            periods.push(period)?;
            rest = later;
        }
        Ok(periods)
    }

    /// The Period of the section at an index, after what ends at `former`.
    fn period_at(
        &self,
        alloc: Global,
        former: u128,
        place: usize,
        row: &[TickRun],
    ) -> Result<LivePeriod, LiveFault>
        requires former { former < 2 ^ 66 }
        requires section { place < length self.now.sections.now }
        requires filled { length row.now ≡ length self.now.tracks.now }
        requires whole { All IsWhole row.now }
        ensures period { Gives (λ period. period) told result (spec.period_at (snapshot_of self.now) former place row.now) }
        ensures filled { IfOk result (λ period. length period.runs ≡ length self.now.tracks.now) }
        ensures scaled { IfOk result HasScales }
    {
        let number = self.sections[place];
        let extent = extent_of(known_in(number, self.periods), former, longest_of(row))?;
        let runs = self.runs_at(alloc, place, row)?;
        Ok(LivePeriod {
            number,
            start: extent.start,
            longest: extent.longest,
            runs,
        })
    }

    /// The contents of the tracks in the section at an index.
    fn runs_at(
        &self,
        alloc: Global,
        place: usize,
        row: &[TickRun],
    ) -> Result<LiveRunList, LiveFault>
        requires filled { length row.now ≡ length self.now.tracks.now }
        requires whole { All IsWhole row.now }
        ensures runs { Gives (λ runs. runs) told result (spec.runs_at (snapshot_of self.now) place row.now) }
        ensures filled { IfOk result (λ runs. length runs ≡ length row.now) }
        ensures scaled { IfOk result (All HasScale) }
    {
        let mut runs = LiveRunList::new(alloc);
        for track in 0..row.len() {
            runs.push(live_run(alloc, self.tracks[track].at(place), &row[track])?)?;
        }
        Ok(runs)
    }
}

/// The content of a track in a section.
fn live_run(alloc: Global, stretch: Stretch<'_>, run: &TickRun) -> Result<LiveRun, LiveFault>
    requires { IsWhole run.now }
    ensures { Gives (λ run. run) told result (spec.live_run (stretch_of stretch.entry) run.now) }
{
    let initialization = map_of(stretch.segments)?.copy(alloc)?;
    let segments = live_segments(alloc, stretch, run)?;
    Ok(LiveRun {
        initialization,
        scale: run.scale,
        offset: Some(run.offset),
        segments,
    })
}

/// The segments, each of which begins where the one before it ends.
fn live_segments(
    alloc: Global,
    stretch: Stretch<'_>,
    run: &TickRun,
) -> Result<LiveSegmentList, NoMemory>
    requires { IsWhole run.now }
    ensures { IfOk result (λ segments. segments ≡ spec.live_segments (stretch_of stretch.entry) run.now) }
{
    let mut segments = LiveSegmentList::new(alloc);
    let mut time = run.first;
    let mut left = run.durations.as_slice();
    for segment in stretch.segments {
        let Some((duration, later)) = left.split_first() else {
            return Ok(segments);
        };
        segments.push(LiveSegment {
            address: segment.address.copy(alloc)?,
            range: segment.range,
            time,
            duration: *duration,
        })?;
        time += *duration;
        left = later;
    }
    Ok(segments)
}

/// When the longest of some tracks ends, in nanoseconds relative to their section's start, rounded up.
fn longest_of(row: &[TickRun]) -> u128
    requires { All IsWhole row.now }
    ensures longest { result ≡ spec.longest_of row.now }
    ensures near { result < 2 ^ 95 }
{
    let mut longest = 0;
    for run in row {
        longest = longest.max(nanos_of(run));
    }
    longest
}

/// When the last segment of a track ends, in nanoseconds relative to its section's start, rounded up.
fn nanos_of(run: &TickRun) -> u128
    requires { IsWhole run.now }
    ensures nanos { result ≡ spec.nanos_of run.now }
    ensures near { result < 2 ^ 95 }
{
    let mut end = u128::from(run.first);
    for duration in run.durations.as_slice() {
        end += u128::from(*duration);
    }
    let ticks = end.saturating_sub(u128::from(run.offset));
    (ticks * 1_000_000_000).div_ceil(u128::from(run.scale))
}
