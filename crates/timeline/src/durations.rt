// The segments of a Representation with `@duration`.
ghost use Rattle.std.specs.Prelude.{◌≡◌, ◌+◌, ◌*◌, ◌<◌, ◌≤◌, pos, Some, None, IsNone, MatchResult};
ghost use Rattle.std.specs.List.{list_any};
ghost use Rattle.bridge_io.specs.Answer.{Gives};
ghost use Rattle.exact_time.specs.Time.{in_units, nanoseconds};
ghost use Rattle.timeline.specs.Durations.{expansion_of_names};
ghost use Rattle.timeline.specs.declared.entry.End.TheVariants.{At};
ghost use Rattle.timeline.specs.Faults.{lacks_end, members_by};
ghost use Rattle.timeline.specs.Building.{IsInTime, breaks_in};
ghost use Rattle.timeline.specs.Limits.{breaks_limits};
ghost use Rattle.timeline.specs.Rows.{AreCounted, IsCountedFault, IsFresh, IsLast, IsRange, IsRow, count_until, counted_fault, cut_fault};
ghost use Rattle.timeline.specs.Rows.{last_extent, row_of};

use crate::builder::RunsBuilder;
use crate::limits::{LONGEST, Limits};
use crate::timelines::SECOND;
use crate::{End, Names, Runs, Scale, TimeFault};
use exact_time::{Nanos, Tick, ceil_count};
use std::alloc::Global;

impl Runs {
    ghost use Rattle.timeline.specs.Faults.{refusal};
    ghost use Rattle.timeline.specs.SegmentTimelines.{timeline_of_duration};

    /// The segments of a Representation with `@duration` and without a SegmentTimeline (ISO/IEC 23009-1, 5.3.9.5.2).
    ///
    /// A list has as many segments as names. With a template they continue to the Period's end, which may be open with
    /// `live`; they are then those that end by the current time. The faults are tried in this order:
    /// `TimeWithoutTimeline` where the template has `$Time$`; `ZeroDuration` where the duration is 0; `NoEnd` where the
    /// Period of a static MPD is open and the names are a template; `Range`; `ListLength` where a list's last segment
    /// begins at or after the Period's end.
    pub fn from_duration(
        alloc: Global,
        duration: u64,
        end: End,
        live: bool,
        scale: Scale,
        names: Names,
    ) -> Result<Runs, TimeFault>
        ensures { Gives (λ runs. runs) refusal result (timeline_of_duration duration end live scale names) }
    {
        if names.uses_time() {
            return Err(TimeFault::TimeWithoutTimeline);
        }
        if duration == 0 {
            return Err(TimeFault::ZeroDuration);
        }
        if lacks_end(&end, names.len(), live) {
            return Err(TimeFault::NoEnd);
        }
        let builder = counted(alloc, duration, &end, scale.ticks, names.len())?;
        Ok(Runs::of(builder, scale, 0, names))
    }
}

/// Whether segments of a static MPD continue to the end of a Period that has none.
fn lacks_end(end: &End, names: Option<u64>, live: bool) -> bool
    ensures { result ≡ lacks_end live end.now names }
{
    match names {
        None => !live && *end == End::Unbounded,
        Some(_) => false,
    }
}

/// The segments in order, by the number of names where they are listed.
fn counted(
    alloc: Global,
    duration: u64,
    end: &End,
    ticks: u32,
    names: Option<u64>,
) -> Result<RunsBuilder, TimeFault>
    requires lasting { 0 < duration }
    requires positive { 0 < ticks }
    ensures { let fault = counted_fault ticks end.now duration names in
        MatchResult result (AreCounted ticks (members_by ticks end.now duration names) fault) (IsCountedFault fault) }
{
    let mut builder = RunsBuilder::new(alloc, Limits { ticks, origin: 0 });
    match end {
        End::Unbounded => match names {
            None => {
                builder.go_on(0, duration)?;
                Ok(builder)
            }
            Some(count) => {
                add_some(&mut builder, duration, u128::from(count))?;
                Ok(builder)
            }
        },
        End::At(length) => {
            let count = count_until(*length, ticks, duration, names);
            add_until(&mut builder, duration, count, *length, ticks)?;
            Ok(builder)
        }
    }
}

/// How many segments there are up to the Period's end: as many as names, where they are listed.
fn count_until(length: Nanos, ticks: u32, duration: u64, names: Option<u64>) -> u128
    requires lasting { 0 < duration }
    ensures { result ≡ count_until ticks length duration names }
{
    match names {
        None => ceil_count(
            u128::from(length.0) * u128::from(ticks),
            u128::from(duration) * SECOND,
        ),
        Some(count) => u128::from(count),
    }
}

/// Adds the first segments.
fn add_some(builder: &mut RunsBuilder, duration: u64, count: u128) -> Result<(), TimeFault>
    requires lasting { 0 < duration }
    requires fresh { IsFresh builder.old }
    ensures { let limits = builder.old.limits in
        MatchResult result (λ _. IsRow limits duration count builder.new)
        (IsRange (list_any (breaks_in limits) (row_of limits duration count))) }
{
    if count == 0 {
        return Ok(());
    }
    builder.add(0, duration, count)
}

/// Adds the first segments, of which the last one ends at the Period's end, where that is earlier.
fn add_until(
    builder: &mut RunsBuilder,
    duration: u64,
    count: u128,
    length: Nanos,
    ticks: u32,
) -> Result<(), TimeFault>
    requires lasting { 0 < duration }
    requires fresh { IsFresh builder.old }
    requires scale { builder.old.limits.ticks ≡ ticks }
    ensures { let fault = cut_fault ticks length duration count in
        MatchResult result (λ _. AreCounted ticks (expansion_of_names ticks (At length) duration count) fault builder.new)
        (IsCountedFault fault) }
{
    let Some(whole) = count.checked_sub(1) else {
        return Ok(());
    };
    add_some(builder, duration, whole)?;
    if u128::from(length.0) * u128::from(ticks) <= builder.former() * SECOND {
        return Err(TimeFault::ListLength);
    }
    add_last(builder, duration, length, ticks)
}

/// Adds a segment after the others. It ends at the Period's end, where that is earlier.
fn add_last(
    builder: &mut RunsBuilder,
    duration: u64,
    length: Nanos,
    ticks: u32,
) -> Result<(), TimeFault>
    requires lasting { 0 < duration }
    requires laid { IsInTime builder.old }
    requires closed { IsNone builder.old.endless }
    requires scale { builder.old.limits.ticks ≡ ticks }
    requires origin { builder.old.limits.origin ≡ 0 }
    requires begins { builder.old.former * 1000000000 < length * ticks }
    ensures { let x = last_extent ticks length builder.old.former duration in
        MatchResult result (λ _. IsLast builder.old x builder.new) (IsRange (breaks_in builder.old.limits x)) }
{
    let start = builder.former();
    let bound = u128::from(length.0) * u128::from(ticks);
    if (start + u128::from(duration)) * SECOND <= bound {
        return builder.add(start, duration, 1);
    }
    if is_broken(length, start, ticks) {
        return Err(TimeFault::Range);
    }
    let start = Tick {
        n: start as i128,
        scale: ticks,
    };
    let end = Tick {
        n: i128::from(length.0),
        scale: 1_000_000_000,
    };
    builder.add_one(start, end)
}

/// Whether a segment that begins at a media time and ends at the Period's end breaks the limits.
fn is_broken(length: Nanos, start: u128, ticks: u32) -> bool
    requires begins { start * 1000000000 < length * ticks }
    requires positive { 0 < ticks }
    ensures { result ≡ breaks_limits ticks 0 (record { start = in_units ticks start; end = nanoseconds (pos length) }) }
{
    let end = u128::from(length.0) * u128::from(ticks);
    if (SECOND << 63) <= end {
        return true;
    }
    u128::from(LONGEST) * u128::from(ticks) * SECOND < end - start * SECOND
}
