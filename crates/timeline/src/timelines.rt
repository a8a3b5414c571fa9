// The segments of a SegmentTimeline.
ghost use Rattle.std.specs.Prelude.{◌≡◌, ◌<◌, ◌^◌, ◌==◌, ◌⊎◌, ◌&&◌, not, [], false, IsNone, MatchResult, OnOk};
ghost use Rattle.std.specs.List.{list_any};
ghost use Rattle.bridge_io.specs.Answer.{Gives};
ghost use Rattle.timeline.specs.Faults.{ends_open, is_unbounded};
ghost use Rattle.timeline.specs.Building.{AreAdded, IsFaultOf, IsInTime, IsLaidOut};
ghost use Rattle.timeline.specs.Limits.{breaks_limits};
ghost use Rattle.timeline.specs.Reaches.{AreLaidOut, AreLimitsOf, GoesOn, IsReach, IsTheirFault, IsUpTo, members_of_entry, next_of};
ghost use Rattle.timeline.specs.Reaches.{start_of};
ghost use Rattle.timeline.specs.MediaTimelines.{expansion_of_laid};
ghost use Rattle.timeline.specs.Timelines.{extent_from, reach_of};

use crate::builder::RunsBuilder;
use crate::{End, Names, Runs, SEntry, SList, Scale, SharedTimeline, TimeFault};
use exact_time::ceil_count;
use std::alloc::Global;

/// How far the segments of an S continue.
#[derive(Clone, Copy)]
pub enum Reach {
    /// This many segments.
    Count(u128),
    /// To an end that isn't known yet.
    Open,
    /// To a time that isn't after their start, or to no time.
    Nowhere,
}

impl Runs {
    ghost use Rattle.timeline.specs.Faults.{refusal};
    ghost use Rattle.timeline.specs.MediaTimelines.{timeline_of_laid};
    ghost use Rattle.timeline.specs.SegmentTimelines.{timeline_of_entries};

    /// The segments of a SegmentTimeline (ISO/IEC 23009-1, 5.3.9.6).
    ///
    /// `live` says that the MPD is dynamic, so that segments that continue to the end of an open Period are those that
    /// end by the current time. The faults are tried in this order: `ZeroDuration` where an S has `@d` 0; `NoEnd`
    /// where the last S continues to the end of an open Period of a static MPD; `Range` and `Step`, by the first
    /// segment concerned; `ListLength` where the names are a list and aren't as many as the segments.
    pub fn from_timeline(
        alloc: Global,
        list: &SList,
        end: End,
        live: bool,
        scale: Scale,
        names: Names,
    ) -> Result<Runs, TimeFault>
        ensures { Gives (λ runs. runs) refusal result (timeline_of_entries list.now end live scale names) }
    {
        let timeline = SharedTimeline::of(alloc, list.as_slice())?;
        Runs::from_shared(alloc, &timeline, end, live, scale, names)
    }

    /// The segments of a shared SegmentTimeline. The result is that of `from_timeline` for the S elements that were laid
    /// out, but it allocates nothing per S element.
    pub fn from_shared(
        alloc: Global,
        timeline: &SharedTimeline,
        end: End,
        live: bool,
        scale: Scale,
        names: Names,
    ) -> Result<Runs, TimeFault>
        ensures { Gives (λ runs. runs) refusal result (timeline_of_laid timeline.now end live scale names) }
    {
        if timeline.has_no_time() {
            return Err(TimeFault::ZeroDuration);
        }
        if lack_end(timeline.rest(), end, live) {
            return Err(TimeFault::NoEnd);
        }
        let builder = laid_out(alloc, timeline, &end, scale)?;
        Runs::paired(builder, scale, scale.offset, names)
    }
}

/// Whether some S has duration 0.
pub fn have_no_time(entries: &[SEntry]) -> bool
    ensures { result ≡ list_any (λ s. s.d == 0) entries.now }
{
    entries.iter().any(|entry| entry.d == 0)
}

/// Whether the S elements of a static MPD continue to the end of a Period that has none.
fn lack_end(entries: &[SEntry], end: End, live: bool) -> bool
    ensures { result ≡ (not live && is_unbounded end && ends_open entries.now) }
{
    !live && end == End::Unbounded && goes_on(entries)
}

/// Whether the last S continues to the Period's end.
fn goes_on(entries: &[SEntry]) -> bool
    ensures { result ≡ ends_open entries.now }
{
    match entries.last() {
        None => false,
        Some(entry) => entry.r < 0,
    }
}

/// The segments of the S elements in order.
fn laid_out(
    alloc: Global,
    timeline: &SharedTimeline,
    end: &End,
    scale: Scale,
) -> Result<RunsBuilder, TimeFault>
    requires { timeline.now.no_time ≡ false }
    ensures { let members = expansion_of_laid scale end.now timeline.now in
        MatchResult result (AreLaidOut scale members) (IsTheirFault (breaks_limits scale.ticks scale.offset) members) }
{
    let (mut builder, mut rest) = timeline.begin(alloc, scale)?;
    while let Some((entry, later)) = rest.split_first() {
        add_entry(&mut builder, entry, later, end, scale)?;
        rest = later;
    }
    Ok(builder)
}

/// Adds the segments of an S, followed by others.
fn add_entry(
    builder: &mut RunsBuilder,
    entry: &SEntry,
    later: &[SEntry],
    end: &End,
    scale: Scale,
) -> Result<(), TimeFault>
    requires lasting { 0 < entry.now.d }
    requires closed { IsNone builder.old.endless }
    requires laid { IsInTime builder.old }
    requires limits { AreLimitsOf scale builder.old.limits }
    ensures members { let members = members_of_entry scale end.now builder.old.former entry.now later.now in
        MatchResult result (λ _. AreAdded builder.old members builder.new) (λ fault. IsFaultOf builder.old members fault) }
    ensures limits { builder.new.limits ≡ builder.old.limits }
    ensures laid { OnOk result (IsLaidOut builder.new) }
    ensures goes_on { OnOk result (GoesOn builder.new later.now) }
    ensures former { OnOk result ((builder.new.former ≡ next_of scale end.now builder.old.former entry.now later.now) ⊎ (later.now ≡ [])) }
{
    let start = start_of(entry, builder.former());
    match reach_of(entry, start, later, end, scale) {
        Reach::Count(count) => builder.add(start, entry.d, count),
        Reach::Open => builder.go_on(start, entry.d),
        Reach::Nowhere => {
            builder.judge(start, entry.d)?;
            Err(TimeFault::Step)
        }
    }
}

/// Where the first segment of an S begins, given the end of the segment before it.
fn start_of(entry: &SEntry, former: u128) -> u128
    requires { former < 2 ^ 64 }
    ensures value { result ≡ start_of former entry.now }
    ensures near { result < 2 ^ 64 }
{
    match entry.t {
        None => former,
        Some(start) => u128::from(start),
    }
}

/// How far the segments of an S continue, the first of which begins at `start`.
pub fn reach_of(entry: &SEntry, start: u128, later: &[SEntry], end: &End, scale: Scale) -> Reach
    requires start { start < 2 ^ 64 }
    requires lasting { 0 < entry.now.d }
    ensures { IsReach (reach_of scale end.now entry.now.r later.now) (extent_from scale start entry.now.d) result }
{
    if let Ok(repeats) = u64::try_from(entry.r) {
        return Reach::Count(u128::from(repeats) + 1);
    }
    match later.first() {
        Some(next) => match next.t {
            None => Reach::Nowhere,
            Some(bound) => up_to(u128::from(bound), start, u128::from(entry.d)),
        },
        None => match end {
            End::Unbounded => Reach::Open,
            End::At(length) => {
                let bound = u128::from(length.0) * u128::from(scale.ticks)
                    + u128::from(scale.offset) * SECOND;
                up_to(bound, start * SECOND, u128::from(entry.d) * SECOND)
            }
        },
    }
}

/// How many nanoseconds a second has.
pub const SECOND: u128 = 1_000_000_000;

/// How many segments of `step` it takes from `start` up to a bound, rounded up.
fn up_to(bound: u128, start: u128, step: u128) -> Reach
    requires { 0 < step }
    ensures { IsUpTo bound start step result }
{
    if bound <= start {
        return Reach::Nowhere;
    }
    Reach::Count(ceil_count(bound - start, step))
}
