// The durations of a snapshot's segments, by the times of their files.
ghost use Rattle.std.specs.Prelude.{◌≡◌, ◌≢◌, ◌+◌, ◌*◌, ◌<◌, All, IfOk, IfSome, length};
ghost use Rattle.std.specs.Option.{option_copied};
ghost use Rattle.bridge_io.specs.Answer.{Gives};
ghost use Rattle.hls_media.specs.Laws.{IsBoundedSegment};
ghost use Rattle.fragment_times.specs.declared.fault.TimesFault.TheVariants.{Fault};
ghost use Rattle.fragment_times.specs.Origins.{IsBeginning};
ghost use Rattle.fragment_times.specs.Times.{IsScaled};
ghost use Rattle.hls_follow.specs.OwnTimes as spec;
ghost use Rattle.hls_follow.specs.Ticks as ticks;

use crate::TimedFault;
use crate::snapshot::{Snapshot, period_in, run_at};
use crate::times::last_of;
use dash_writer::{LiveRun, TickList, TickRun};
use fragment_times::{
    Clock, FileFault, Origin, PeriodStart, SegmentSpot, SegmentTimes, TimesFault, nearest_ticks,
    ticks_of,
};
use hls_media::MediaSegment;
use segment_forms::Form;
use std::alloc::Global;
use url_parts::local_name;

impl Snapshot<'_> {
    /// The segments of all tracks in ticks by these times, by section, then by track. A segment lasts until the next one of its section
    /// begins, and the last one as long as in the playlist, to the nearest tick, halves up, and at least one. A section keeps the
    /// presentation time offsets with which it began: one time for all its tracks.
    ///
    /// The errors of a segment name its file, and are tried by section, by track, and segment by segment: `Order` where it doesn't begin
    /// after the one before it in its section, also after the last one that the last accepted snapshot listed there; `Range` as by
    /// `fragment_times::durations` for players.
    pub(crate) fn runs(&self, alloc: Global, times: &[SegmentTimes]) -> Result<TickList, TimedFault>
        requires filled { length times.now ≡ length self.now.sections.now * length self.now.tracks.now }
        requires scaled { All IsScaled times.now }
        requires bounded { ticks.HasBounded (spec.snapshot_of self.now) }
        ensures runs { Gives (λ runs. runs) spec.timed_told result (ticks.runs_of (spec.snapshot_of self.now) times.now) }
        ensures filled { IfOk result (λ runs. length runs ≡ length times.now) }
        ensures whole { IfOk result (λ runs. All ticks.IsWhole runs) }
        ensures no_fault { spec.IsNoFault result }
    {
        let mut rest = times;
        let mut runs = TickList::new(alloc);
        for place in 0..self.sections.len() {
            let (row, later) = rest.split_at(self.tracks.len());
            runs = self.with_row(alloc, place, row, runs)?;
            rest = later;
        }
        Ok(runs)
    }

    /// Adds those of the section at an index.
    fn with_row(
        &self,
        alloc: Global,
        place: usize,
        row: &[SegmentTimes],
        former: TickList,
    ) -> Result<TickList, TimedFault>
        requires filled { length row.now ≡ length self.now.tracks.now }
        requires scaled { All IsScaled row.now }
        requires section { place < length self.now.sections.now }
        requires bounded { ticks.HasBounded (spec.snapshot_of self.now) }
        requires whole { All ticks.IsWhole former }
        ensures runs { Gives (λ runs. runs) spec.timed_told result
            (spec.behind former (ticks.section_runs (spec.snapshot_of self.now) place row.now)) }
        ensures filled { IfOk result (λ runs. length runs ≡ length former + length row.now) }
        ensures whole { IfOk result (λ runs. All ticks.IsWhole runs) }
        ensures no_fault { spec.IsNoFault result }
    {
        let known = period_in(self.sections[place], self.periods);
        let origin = Origin::of(row);
        let mut runs = former;
        for track in 0..row.len() {
            let at = SegmentSpot {
                section: place,
                track,
                segment: 0,
            };
            let offset = offset_of(run_at(known, track), origin, &row[track]);
            runs.push(self.track_run(alloc, at, offset, &row[track])?)?;
        }
        Ok(runs)
    }

    /// The segments of a track in a section, the first of which is at a spot.
    fn track_run(
        &self,
        alloc: Global,
        at: SegmentSpot,
        offset: u64,
        times: &SegmentTimes,
    ) -> Result<TickRun, TimedFault>
        requires scaled { IsScaled times.now }
        requires at { ticks.IsSpot (spec.snapshot_of self.now) at }
        requires first { at.segment ≡ 0 }
        requires bounded { ticks.HasBounded (spec.snapshot_of self.now) }
        ensures run { Gives (λ run. run) spec.timed_told result (ticks.track_run (spec.snapshot_of self.now) at offset times.now) }
        ensures whole { IfOk result ticks.IsWhole }
        ensures no_fault { spec.IsNoFault result }
    {
        if self.is_out_of_order(at, offset, times) {
            return Err(self.named(alloc, at, FileFault::Order));
        }
        let scale = times.scale;
        let clock = Clock {
            form: Form::Players,
            scale,
            offset,
        };
        let last = last_ticks(self.tracks[at.track].at(at.section).segments, scale);
        match ticks_of(alloc, at, clock, last, times.starts.as_slice()) {
            Ok(durations) => Ok(TickRun {
                scale,
                offset,
                first: times.first(),
                durations,
            }),
            Err(fault) => Err(self.told_of(alloc, fault)),
        }
    }

    /// Whether the first segment of a track in a section doesn't follow what was before it there.
    fn is_out_of_order(&self, at: SegmentSpot, offset: u64, times: &SegmentTimes) -> bool
        requires { ticks.IsSpot (spec.snapshot_of self.now) at }
        ensures { result ≡ ticks.is_out_of_order (spec.snapshot_of self.now) at offset times.now }
    {
        self.is_back(at, times) || times.first() < offset
    }

    /// Whether the first segment of a track in a section is new, and doesn't begin after the last one that was listed there.
    fn is_back(&self, at: SegmentSpot, times: &SegmentTimes) -> bool
        requires { ticks.IsSpot (spec.snapshot_of self.now) at }
        ensures { result ≡ ticks.is_back (spec.snapshot_of self.now) at times.now }
    {
        if !self.tracks[at.track].at(at.section).known.is_empty() {
            return false;
        }
        match last_of(self.formers.get(at.track)) {
            Some(last) => last.section == self.sections[at.section] && times.first() <= last.time,
            None => false,
        }
    }

    /// An error of times, with the name of the file where it is one of a segment.
    fn told_of(&self, alloc: Global, fault: TimesFault) -> TimedFault
        requires spot { ticks.IsFaultOf (spec.snapshot_of self.now) fault }
        requires no_fault { fault ≢ Fault }
        ensures told { IfSome (spec.timed_told result) (λ told. told ≡ ticks.told_at (spec.snapshot_of self.now) fault) }
        ensures no_fault { result ≢ spec.unread }
    {
        match fault {
            TimesFault::Segment(at, fault) => self.named(alloc, at, fault),
            fault => TimedFault::Times(fault),
        }
    }

    /// An error of the segment at a spot, with the name of its file.
    fn named(&self, alloc: Global, at: SegmentSpot, fault: FileFault) -> TimedFault
        requires { ticks.IsSpot (spec.snapshot_of self.now) at }
        ensures told { IfSome (spec.timed_told result) (λ told. told ≡ ticks.fault_at (spec.snapshot_of self.now) at fault) }
        ensures no_fault { result ≢ spec.unread }
    {
        let Some(segment) = self.tracks[at.track]
            .at(at.section)
            .segments
            .get(at.segment)
        else {
            return TimedFault::Times(TimesFault::OutsideBase);
        };
        match local_name(alloc, self.folder, &segment.address) {
            Ok(Some(file)) => TimedFault::Times(TimesFault::File(file, fault)),
            Ok(None) => TimedFault::Times(TimesFault::OutsideBase),
            Err(fault) => fault.into(),
        }
    }
}

/// The presentation time offset of a track, in its ticks: the known one, or the origin of a section that begins.
fn offset_of(known: Option<&LiveRun>, origin: Origin, times: &SegmentTimes) -> u64
    requires { IsBeginning origin times.now }
    ensures { result ≡ ticks.offset_of (option_copied known.entry) origin times.now }
{
    match known {
        Some(run) => run.offset.unwrap_or(0),
        None => PeriodStart::Shared(origin).offset(times),
    }
}

/// How many ticks the last of some segments lasts, by its playlist.
fn last_ticks(segments: &[MediaSegment], scale: u32) -> u64
    requires { All IsBoundedSegment segments.now }
    ensures { result ≡ ticks.last_ticks segments.now scale }
{
    match segments.last() {
        Some(last) => nearest_ticks(last.duration, scale),
        None => 1,
    }
}
