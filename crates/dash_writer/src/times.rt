// The times of segments, run by run.
ghost use Rattle.std.specs.Prelude.{◌≡◌, ◌∷◌, ◌+◌, ◌<◌, ◌^◌, ℕ, List, [], codes, length, decimal, option_map, IfOk, MatchOption};
ghost use Rattle.bridge_io.specs.Adding.{Adds};
ghost use Rattle.timeline.specs.Listed.{timing_of};
ghost use Rattle.dash_writer.specs.Elements.{node};
ghost use Rattle.dash_writer.specs.Lists.{timeline_with};
ghost use Rattle.dash_writer.specs.Segments as spec;
ghost use Rattle.dash_writer.specs.SegmentRuns.{IsAlone, begun, ended, gone_on, runs_left};
ghost use Rattle.dash_writer.specs.Written.{element_text, elements_text, value_text};

use crate::attribute::Value;
use crate::element::{push_end, push_leaf, push_start};
use bridge_io::{Fail, Sheet, Store};
use timeline::{Span, TimeWalk};

/// The durations of segments, in order.
pub(crate) trait Durations {
    /// The durations that are left, in ticks.
    ghost durations: { Self → List ℕ };

    /// The next one.
    fn next_duration(&mut self) -> Option<u128>
        ensures { MatchOption result (durations self.old ≡ []) (λ duration. durations self.old ≡ duration ∷ durations self.new) };
}

impl Durations for TimeWalk<'_> {
    ghost use Rattle.std.specs.Prelude.{map};
    ghost use Rattle.dash_writer.specs.Segments.{duration_of};

    ghost durations = { λ walk. map duration_of walk };

    fn next_duration(&mut self) -> Option<u128> {
        Some(duration_of(&self.next()?))
    }
}

/// How long a segment lasts, in ticks.
fn duration_of(span: &Span) -> u128
    ensures { result ≡ spec.duration_of (timing_of span.now) }
{
    (span.end.n - span.start.n).max(0) as u128
}

/// Durations that are given one by one.
#[derive(Drop)]
pub(crate) struct Ticks<'a> {
    pub(crate) left: &'a [u64],
}

impl Durations for Ticks<'_> {
    ghost durations = { λ ticks. ticks.left.now };

    fn next_duration(&mut self) -> Option<u128> {
        let (first, others) = self.left.split_first()?;
        self.left = others;
        Some(u128::from(*first))
    }
}

/// Consecutive segments of equal duration: S (ISO/IEC 23009-1, 5.3.9.6).
#[derive(Clone, Copy)]
struct SegmentRun {
    /// When the first one begins, in ticks, where it is written.
    time: Option<u64>,
    /// How long each one lasts, in ticks.
    duration: u128,
    /// How many follow the first one.
    repeats: u64,
}

impl SegmentRun {
    /// A run of one segment.
    fn of(time: Option<u64>, duration: u128) -> SegmentRun
        ensures { result ≡ begun time duration }
    {
        SegmentRun {
            time,
            duration,
            repeats: 0,
        }
    }

    /// Adds a segment of this duration. Where it doesn't fit the run, or segments aren't joined, the run is written, and a new one
    /// begins.
    fn go_on<F: Store>(
        self,
        joined: bool,
        duration: u128,
        sheet: &mut Sheet<F>,
    ) -> Result<SegmentRun, Fail>
        requires { self.repeats + 1 < 2 ^ 64 }
        ensures adds { Adds F.Store (elements_text (ended joined self duration)) sheet.old sheet.new result }
        ensures run { IfOk result (λ run. run ≡ gone_on joined self duration) }
    {
        if joined && duration == self.duration {
            let repeats = self.repeats + 1;
            return Ok(SegmentRun { repeats, ..self });
        }
        self.push_to(sheet)?;
        Ok(SegmentRun::of(None, duration))
    }

    fn push_to<F: Store>(self, sheet: &mut Sheet<F>) -> Result<(), Fail>
        ensures { Adds F.Store (element_text (spec.s_element self.time self.duration self.repeats)) sheet.old sheet.new result }
    {
        push_leaf(
            sheet,
            "S",
            &[
                ("t", number(self.time)),
                ("d", Some(Value::Wide(self.duration))),
                ("r", number((self.repeats > 0).then_some(self.repeats))),
            ],
        )
    }
}

/// A number as a value, where there is one.
pub(crate) fn number<'a>(number: Option<u64>) -> Option<Value<'a>>
    ensures { option_map value_text result ≡ option_map decimal number }
{
    Some(Value::Number(number?))
}

/// Writes the SegmentTimeline (5.3.9.6) of segments, the first of which begins at a time: where they are joined, with an S for
/// each longest run of equal durations, otherwise for each segment.
pub(crate) fn push_timeline<D: Durations, F: Store>(
    joined: bool,
    time: u64,
    durations: &mut D,
    sheet: &mut Sheet<F>,
) -> Result<(), Fail>
    requires { length (D.durations durations.old) < 2 ^ 64 }
    ensures { Adds F.Store (element_text (timeline_with joined time (D.durations durations.old))) sheet.old sheet.new result }
{
    match durations.next_duration() {
        None => push_leaf(sheet, "SegmentTimeline", &[]),
        Some(first) => push_runs(joined, SegmentRun::of(Some(time), first), durations, sheet),
    }
}

/// Writes the SegmentTimeline of a run and the segments after it.
fn push_runs<D: Durations, F: Store>(
    joined: bool,
    first: SegmentRun,
    durations: &mut D,
    sheet: &mut Sheet<F>,
) -> Result<(), Fail>
    requires few { first.repeats + length (D.durations durations.old) < 2 ^ 64 }
    requires alone { IsAlone joined first }
    ensures { Adds F.Store (element_text (node (codes "SegmentTimeline") [] (runs_left joined first (D.durations durations.old))))
        sheet.old sheet.new result }
{
    push_start(sheet, "SegmentTimeline", &[], false)?;
    let mut run = first;
    while let Some(duration) = durations.next_duration() {
        run = run.go_on(joined, duration, sheet)?;
    }
    run.push_to(sheet)?;
    push_end(sheet, "SegmentTimeline", false)
}
