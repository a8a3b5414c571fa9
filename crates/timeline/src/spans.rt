// Segments with given times.
ghost use Rattle.std.specs.Prelude.{◌≡◌, ◌<◌, ◌^◌, ◌*◌, pos, ◌*ℤ◌, false, Some, None, MatchResult, unsigned_abs};
ghost use Rattle.bridge_io.specs.Answer.{Gives};
ghost use Rattle.exact_time.specs.Tick.{time_of};
ghost use Rattle.exact_time.specs.Time.{difference, seconds, before};
ghost use Rattle.timeline.specs.Durations.{expansion_of_list, extent_of};
ghost use Rattle.timeline.specs.Expansions.{lasting};
ghost use Rattle.timeline.specs.Faults.{is_apart, lasts_no_time};
ghost use Rattle.timeline.specs.Limits.{span_breaks_limits, too_long};
ghost use Rattle.timeline.specs.Reaches.{IsTheirFault};
ghost use Rattle.timeline.specs.RunSegments.{one_extent};
ghost use Rattle.timeline.specs.Spans.{AreInRow, fault_of_span, have_no_time};

use crate::builder::RunsBuilder;
use crate::limits::{FARTHEST, LONGEST, Limits};
use crate::{Names, Runs, Scale, Span, SpanList, TimeFault};
use exact_time::Tick;
use std::alloc::Global;

impl Runs {
    ghost use Rattle.timeline.specs.Faults.{refusal};
    ghost use Rattle.timeline.specs.SegmentTimelines.{timeline_of_spans, IsList};

    /// Segments with these times, each with its name of a list. They are numbered by the scale, and the spans' own
    /// numbers aren't read.
    ///
    /// The faults are tried in this order: `ZeroDuration` where a span's end isn't after its start; `Range` and
    /// `Step`, by the first segment concerned; `ListLength` where the number of spans isn't that of the names.
    pub fn from_list(
        alloc: Global,
        times: &SpanList,
        scale: Scale,
        names: Names,
    ) -> Result<Runs, TimeFault>
        requires { IsList names }
        ensures { Gives (λ runs. runs) refusal result (timeline_of_spans times.now scale names) }
    {
        let spans = times.as_slice();
        if have_no_time(spans) {
            return Err(TimeFault::ZeroDuration);
        }
        let builder = in_row(alloc, spans, scale.ticks)?;
        Runs::paired(builder, scale, 0, names)
    }
}

/// Whether some span has duration 0.
fn have_no_time(spans: &[Span]) -> bool
    ensures { result ≡ have_no_time spans.now }
{
    spans.iter().any(lasts_no_time)
}

fn lasts_no_time(span: &Span) -> bool
    ensures { result ≡ lasts_no_time (extent_of span.now) }
{
    span.end <= span.start
}

/// The segments in order.
fn in_row(alloc: Global, spans: &[Span], ticks: u32) -> Result<RunsBuilder, TimeFault>
    requires lasting { have_no_time spans.now ≡ false }
    requires positive { 0 < ticks }
    ensures { let members = expansion_of_list spans.now in
        MatchResult result (AreInRow ticks members) (IsTheirFault span_breaks_limits members) }
{
    let limits = Limits { ticks, origin: 0 };
    let mut builder = RunsBuilder::new(alloc, limits);
    let mut former = None;
    let mut rest = spans;
    while let Some((span, later)) = rest.split_first() {
        judge(span, former)?;
        builder.add_one(span.start, span.end)?;
        former = Some(span.end);
        rest = later;
    }
    Ok(builder)
}

/// Checks a span's limits and its distance from the end of the one before it.
fn judge(span: &Span, former: Option<Tick>) -> Result<(), TimeFault>
    requires { lasts_no_time (extent_of span.now) ≡ false }
    ensures { MatchResult result (λ _. fault_of_span former span.now ≡ None) (λ fault. fault_of_span former span.now ≡ Some fault) }
{
    if is_broken(span.start, span.end) {
        return Err(TimeFault::Range);
    }
    match former {
        Some(former) if is_apart(span.start, span.end, former) => Err(TimeFault::Step),
        _ => Ok(()),
    }
}

fn is_broken(start: Tick, end: Tick) -> bool
    requires { lasts_no_time (one_extent start end) ≡ false }
    ensures { result ≡ span_breaks_limits (one_extent start end) }
{
    if (1 << 63) <= end.n {
        return true;
    }
    if u128::from(LONGEST) * scales(start, end) < lasting(start, end) {
        return true;
    }
    ends_late(end)
}

fn ends_late(end: Tick) -> bool
    ensures { result ≡ before (seconds 100000000000) (time_of end) }
{
    let farthest = Tick {
        n: i128::from(FARTHEST),
        scale: 1,
    };
    farthest < end
}

/// Whether a segment begins more than half its duration before or after a time. It lasts at most 1,000,000 s, so a
/// time that is farther from its start needs no further arithmetic.
pub(crate) fn is_apart(start: Tick, end: Tick, former: Tick) -> bool
    requires lasting { lasts_no_time (one_extent start end) ≡ false }
    requires short { too_long (one_extent start end) ≡ false }
    ensures { result ≡ is_apart (Some (time_of former)) (one_extent start end) }
{
    let lasts = lasting(start, end);
    let gap = between(former, start).unsigned_abs();
    if u128::from(LONGEST) * scales(former, start) < gap {
        return true;
    }
    lasts * u128::from(former.scale) < 2 * gap * u128::from(end.scale)
}

/// How many ticks a segment lasts; the product of its two scales makes a second.
fn lasting(start: Tick, end: Tick) -> u128
    requires { lasts_no_time (one_extent start end) ≡ false }
    ensures value { (lasting (one_extent start end)).ticks ≡ pos result }
    ensures bounded { result < 2 ^ 97 }
{
    between(start, end) as u128
}

/// How many ticks a time is after another one; the product of their scales makes a second.
fn between(first: Tick, end: Tick) -> i128
    ensures value { result ≡ (difference (time_of end) (time_of first)).ticks }
    ensures bounded { unsigned_abs result < 2 ^ 97 }
{
    product(end, first.scale) - product(first, end.scale)
}

fn product(time: Tick, scale: u32) -> i128
    ensures value { result ≡ time.n *ℤ pos scale }
    ensures bounded { unsigned_abs result < 2 ^ 96 }
{
    time.n * i128::from(scale)
}

fn scales(first: Tick, end: Tick) -> u128
    ensures value { result ≡ first.scale * end.scale }
    ensures bounded { result < 2 ^ 64 }
{
    u128::from(first.scale) * u128::from(end.scale)
}
