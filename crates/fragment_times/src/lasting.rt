// The durations of segments, by the decode times of their files.
ghost use Rattle.std.specs.Prelude.{◌≡◌, ◌+◌, ◌-◌, ◌*◌, ◌/◌, ◌<◌, ◌≤◌, ◌^◌, All, IfOk, IfSome, get_or, length, pos, sum};
ghost use Rattle.std.specs.Prelude.{option_map, unsigned_abs};
ghost use Rattle.bridge_io.specs.Answer.{Gives};
ghost use Rattle.exact_time.specs.Floor.{floor_in};
ghost use Rattle.exact_time.specs.Tick.{time_of};
ghost use Rattle.exact_time.specs.Time.{cross};
ghost use Rattle.timeline.specs.Listed.{timing_of};
ghost use Rattle.timeline.specs.Steady.{IsWithinLimits};
ghost use Rattle.presentation.specs.Presented.{IsEnded, listed_at};
ghost use Rattle.fragment_times.specs.Durations as spec;
ghost use Rattle.fragment_times.specs.PeriodStarts.{IsStartOf, start_in, times_in};
ghost use Rattle.fragment_times.specs.Refusals.{IsNoFault, refusal};
ghost use Rattle.fragment_times.specs.Times.{FillPlaces, IsScaled, behind};

use crate::{FileFault, PeriodStart, SegmentSpot, SegmentTimes, TimesFault, TimesList};
use bridge_io::{NoMemory, Sequence};
use exact_time::{Nanos, Tick};
use presentation::Presentation;
use segment_forms::Form;
use std::alloc::Global;
use timeline::{Span, closed_ends};

/// The longest duration of a segment, in seconds.
const MOST_SECONDS: u64 = 1_000_000;

/// The latest end of a segment in the players' form, in seconds after its Period's start.
const MOST_END_SECONDS: u128 = 100_000_000_000;

/// The exclusive upper bound of the total duration of all Periods, in nanoseconds.
const MOST_NANOS: u128 = 10_000_000_000_000_000_000;

/// Numbers of ticks, one for each segment.
pub type TickSeq = Sequence<u64>;

/// The durations of all segments: by section, then by track.
pub type DurationsList = Sequence<TickSeq>;

/// How many ticks each segment lasts, by the decode times of the files: up to the next one's start, and the last one of a
/// section as long as in the presentation, in whole ticks, at least one: rounded down, and in the players' form to the nearest
/// one, halves up.
///
/// A Period starts as [`PeriodStart`] has it: in the plain form each track's own first segment begins with it. It lasts until the
/// last of its tracks ends, rounded up to nanoseconds.
///
/// The faults of a segment are: `Order` where it doesn't begin after the one before it, and `Range` where it begins more than
/// 1,000,000 s after that one, or is the last one and doesn't end below 2^63 ticks, or, in the players' form, ends more than 10^11 s
/// after its Period's start. They are tried by section, by track, and segment by segment. At the end, `Range` is returned for all
/// Periods together, where they last 10^19 ns or more.
///
/// Requires that no segments continue to an open end, and that there are times for each section and track, by section, then by
/// track, with at least one tick per second.
#[tactic(auto, unfolding(crate::specs::Durations::durations_of))]
pub fn durations(
    alloc: Global,
    form: Form,
    presentation: &Presentation,
    times: &TimesList,
) -> Result<DurationsList, TimesFault>
    requires ended { All IsEnded presentation.now.contents }
    requires filled { FillPlaces presentation.now (length times.now) }
    requires scaled { All IsScaled times.now }
    ensures durations { Gives (λ durations. durations) refusal result (spec.durations_of form presentation.now times.now) }
    ensures no_fault { IsNoFault result }
{
    let lasting = Lasting {
        form,
        presentation,
        times: times.as_slice(),
    };
    let durations = lasting.all(alloc)?;
    if lasting.is_too_long(durations.as_slice()) {
        return Err(TimesFault::Range);
    }
    Ok(durations)
}

/// A presentation and the times of its segments' files, for a form of MPD.
#[derive(Clone, Copy)]
struct Lasting<'a> {
    form: Form,
    presentation: &'a Presentation,
    times: &'a [SegmentTimes],
}

impl Lasting<'_> {
    /// The durations of all segments.
    fn all(&self, alloc: Global) -> Result<DurationsList, TimesFault>
        requires ended { All IsEnded self.now.presentation.now.contents }
        requires filled { FillPlaces self.now.presentation.now (length self.now.times.now) }
        requires scaled { All IsScaled self.now.times.now }
        ensures durations { Gives (λ durations. durations) refusal result
            (spec.all_ticks self.now.form self.now.presentation.now self.now.times.now) }
        ensures filled { IfOk result (λ durations. length durations ≡ length self.now.times.now) }
        ensures short { IfOk result (λ durations. All spec.IsShort durations) }
        ensures no_fault { IsNoFault result }
    {
        let mut durations = DurationsList::new(alloc);
        for section in 0..self.presentation.sections().len() {
            durations = self.with_section(alloc, section, durations)?;
        }
        Ok(durations)
    }

    /// Adds the durations of a section's segments, track by track.
    fn with_section(
        &self,
        alloc: Global,
        section: usize,
        former: DurationsList,
    ) -> Result<DurationsList, TimesFault>
        requires ended { All IsEnded self.now.presentation.now.contents }
        requires filled { FillPlaces self.now.presentation.now (length self.now.times.now) }
        requires scaled { All IsScaled self.now.times.now }
        requires section { section < length self.now.presentation.now.sections }
        requires short { All spec.IsShort former }
        ensures durations { Gives (λ durations. durations) refusal result
            (behind former (spec.section_ticks self.now.form self.now.presentation.now self.now.times.now section)) }
        ensures filled { IfOk result (λ durations. length durations ≡ length former + length self.now.presentation.now.tracks) }
        ensures short { IfOk result (λ durations. All spec.IsShort durations) }
        ensures no_fault { IsNoFault result }
    {
        let start = PeriodStart::of(self.form, self.times_in(section));
        let mut durations = former;
        for track in 0..self.presentation.tracks().len() {
            let own = self.track_ticks(alloc, start, section, track)?;
            durations.push(own)?;
        }
        Ok(durations)
    }

    /// The times of a section's tracks.
    fn times_in(&self, section: usize) -> &[SegmentTimes]
        requires filled { FillPlaces self.now.presentation.now (length self.now.times.now) }
        requires section { section < length self.now.presentation.now.sections }
        ensures { result.now ≡ times_in self.now.presentation.now self.now.times.now section }
    {
        let tracks = self.presentation.tracks().len();
        &self.times[section * tracks..][..tracks]
    }

    /// The durations of a track's segments in a section that starts then.
    #[tactic(auto, unfolding(crate::specs::Durations::ticks_at))]
    fn track_ticks(
        &self,
        alloc: Global,
        start: PeriodStart,
        section: usize,
        track: usize,
    ) -> Result<TickSeq, TimesFault>
        requires ended { All IsEnded self.now.presentation.now.contents }
        requires filled { FillPlaces self.now.presentation.now (length self.now.times.now) }
        requires section { section < length self.now.presentation.now.sections }
        requires track { track < length self.now.presentation.now.tracks }
        requires start { start ≡ start_in self.now.form self.now.presentation.now self.now.times.now section }
        requires begins { All (IsStartOf start) (times_in self.now.presentation.now self.now.times.now section) }
        ensures ticks { Gives (λ ticks. ticks) refusal result
            (spec.ticks_at self.now.form self.now.presentation.now self.now.times.now section track) }
        ensures short { IfOk result spec.IsShort }
        ensures no_fault { IsNoFault result }
    {
        let own = &self.times[section * self.presentation.tracks().len() + track];
        let clock = Clock {
            form: self.form,
            scale: own.scale,
            offset: start.offset(own),
        };
        let last = self.last_ticks(section, track, own.scale);
        let at = SegmentSpot {
            section,
            track,
            segment: 0,
        };
        ticks_of(alloc, at, clock, last, own.starts.as_slice())
    }

    /// How many ticks the last listed segment of a track in a section lasts, by the presentation.
    fn last_ticks(&self, section: usize, track: usize, scale: u32) -> u64
        requires ended { All IsEnded self.now.presentation.now.contents }
        requires section { section < length self.now.presentation.now.sections }
        requires track { track < length self.now.presentation.now.tracks }
        ensures { result ≡ spec.last_ticks self.now.form scale (spec.last_of (listed_at self.now.presentation.now section track)) }
    {
        match self.last_span(section, track) {
            Some(span) => ticks_in(self.form, &span, scale),
            None => 1,
        }
    }

    /// The times of the last listed segment of a track in a section.
    fn last_span(&self, section: usize, track: usize) -> Option<Span>
        requires ended { All IsEnded self.now.presentation.now.contents }
        requires section { section < length self.now.presentation.now.sections }
        requires track { track < length self.now.presentation.now.tracks }
        ensures last { option_map timing_of result ≡ spec.last_of (listed_at self.now.presentation.now section track) }
        ensures limits { IfSome result (λ span. IsWithinLimits (timing_of span)) }
    {
        closed_ends();
        let runs = self.presentation.runs(section, track);
        let window = self.presentation.window(section);
        let mut last = None;
        for span in runs.walk(&runs.seek(&window), &window) {
            last = Some(span);
        }
        last
    }

    /// Whether all Periods together last 10^19 ns or more.
    fn is_too_long(&self, durations: &[TickSeq]) -> bool
        requires filled { FillPlaces self.now.presentation.now (length self.now.times.now) }
        requires as_many { length durations.now ≡ length self.now.times.now }
        requires scaled { All IsScaled self.now.times.now }
        requires short { All spec.IsShort durations.now }
        ensures { result ≡ spec.is_too_long self.now.form self.now.presentation.now self.now.times.now durations.now }
    {
        let tracks = self.presentation.tracks().len();
        let mut times = self.times;
        let mut rows = durations;
        let mut total = 0;
        for _section in 0..self.presentation.sections().len() {
            let (own_times, later_times) = times.split_at(tracks);
            let (own_rows, later_rows) = rows.split_at(tracks);
            total += longest(PeriodStart::of(self.form, own_times), own_times, own_rows);
            if total >= MOST_NANOS {
                return true;
            }
            times = later_times;
            rows = later_rows;
        }
        false
    }
}

/// When the last of some tracks ends, in nanoseconds after the Period's start.
fn longest(start: PeriodStart, times: &[SegmentTimes], durations: &[TickSeq]) -> u128
    requires as_many { length durations.now ≡ length times.now }
    requires begins { All (IsStartOf start) times.now }
    requires scaled { All IsScaled times.now }
    requires short { All spec.IsShort durations.now }
    ensures longest { result ≡ spec.longest start times.now durations.now }
    ensures bounded { result < 2 ^ 95 }
{
    let mut longest = 0;
    for place in 0..times.len() {
        let ticks = durations[place].as_slice();
        longest = longest.max(nanos_of(start, &times[place], ticks));
    }
    longest
}

/// When a track's last segment ends, in nanoseconds after the Period's start, rounded up.
fn nanos_of(start: PeriodStart, times: &SegmentTimes, ticks: &[u64]) -> u128
    requires begins { IsStartOf start times.now }
    requires scaled { IsScaled times.now }
    requires short { spec.IsShort ticks.now }
    ensures nanos { result ≡ spec.nanos_of start times.now ticks.now }
    ensures bounded { result < 2 ^ 95 }
{
    let until_first = times.first() - start.offset(times);
    let ticks = u128::from(until_first) + u128::from(total(ticks));
    (ticks * 1_000_000_000).div_ceil(u128::from(times.scale))
}

/// The total duration of segments in ticks.
fn total(ticks: &[u64]) -> u64
    requires { spec.IsShort ticks.now }
    ensures { result ≡ sum ticks.now }
{
    ticks.iter().sum()
}

/// How a track's segments in a Period are counted.
#[derive(Clone, Copy)]
pub struct Clock {
    /// The form of MPD.
    pub form: Form,
    /// How many ticks make a second.
    pub scale: u32,
    /// When the Period starts, in ticks.
    pub offset: u64,
}

impl Clock {
    /// Whether no segment can end at a time, in ticks.
    fn is_late(self, end: u128) -> bool
        ensures { result ≡ spec.is_late self end }
    {
        end >= 1 << 63 || self.is_far(end.saturating_sub(u128::from(self.offset)))
    }

    /// Whether so many ticks after the Period's start are too many for the form.
    fn is_far(self, after: u128) -> bool
        ensures { result ≡ spec.is_far self.form self.scale after }
    {
        match self.form {
            Form::Plain => false,
            Form::Players => after > MOST_END_SECONDS * u128::from(self.scale),
        }
    }
}

/// How many ticks each segment of a track in a Period lasts, where they begin at these times and the last one lasts `last` ticks. `at` is
/// the spot of the first one.
///
/// The errors are those of a segment by [`durations`], tried segment by segment.
pub fn ticks_of(
    alloc: Global,
    at: SegmentSpot,
    clock: Clock,
    last: u64,
    starts: &[u64],
) -> Result<TickSeq, TimesFault>
    requires { at.segment + length starts.now < 2 ^ 64 }
    ensures ticks { Gives (λ ticks. ticks) refusal result (spec.ticks_of at clock last starts.now) }
    ensures short { IfOk result spec.IsShort }
    ensures ends { IfOk result (λ ticks. get_or starts.now 0 0 + sum ticks < 2 ^ 63) }
    ensures no_fault { IsNoFault result }
{
    let Some((first, later)) = starts.split_first() else {
        return Ok(TickSeq::new(alloc));
    };
    let begun = Begun { at, start: *first };
    begun.ticks_up_to(alloc, clock, last, later)
}

/// A segment that begins at a time.
#[derive(Clone, Copy)]
struct Begun {
    at: SegmentSpot,
    start: u64,
}

impl Begun {
    /// The durations of it and of those after it, which begin at these times.
    fn ticks_up_to(
        self,
        alloc: Global,
        clock: Clock,
        last: u64,
        later: &[u64],
    ) -> Result<TickSeq, TimesFault>
        requires { self.at.segment + length later.now < 2 ^ 64 - 1 }
        ensures ticks { Gives (λ ticks. ticks) refusal result (spec.ticks_from clock last self later.now) }
        ensures short { IfOk result spec.IsShort }
        ensures ends { IfOk result (λ ticks. self.start + sum ticks < 2 ^ 63) }
        ensures no_fault { IsNoFault result }
    {
        let mut ticks = TickSeq::new(alloc);
        let mut begun = self;
        for start in later {
            let next = begun.next(*start);
            ticks.push(next.ticks_behind(begun.start, clock.scale)?)?;
            begun = next;
        }
        ticks.push(begun.last_ticks(clock, last)?)?;
        Ok(ticks)
    }

    /// The next segment.
    fn next(self, start: u64) -> Begun
        requires { self.at.segment + 1 < 2 ^ 64 }
        ensures { result ≡ spec.next_begun self start }
    {
        Begun {
            at: self.at.next(),
            start,
        }
    }

    /// The duration of the segment before it.
    fn ticks_behind(self, former: u64, scale: u32) -> Result<u64, TimesFault>
        ensures ticks { result ≡ spec.ticks_behind scale former self }
        ensures rises { IfOk result (λ ticks. former + ticks ≡ self.start) }
        ensures no_fault { IsNoFault result }
    {
        if self.start <= former {
            return Err(TimesFault::Segment(self.at, FileFault::Order));
        }
        let ticks = self.start - former;
        if ticks > MOST_SECONDS * u64::from(scale) {
            return Err(TimesFault::Segment(self.at, FileFault::Range));
        }
        Ok(ticks)
    }

    /// Its duration as the last one, unless it ends too late.
    fn last_ticks(self, clock: Clock, last: u64) -> Result<u64, TimesFault>
        ensures ticks { result ≡ spec.last_ticks_of clock last self }
        ensures ends { IfOk result (λ ticks. self.start + ticks < 2 ^ 63) }
        ensures no_fault { IsNoFault result }
    {
        if clock.is_late(u128::from(self.start) + u128::from(last)) {
            return Err(TimesFault::Segment(self.at, FileFault::Range));
        }
        Ok(last)
    }
}

/// How many ticks of a timescale a listed segment lasts, rounded as the form has it, at least one.
fn ticks_in(form: Form, span: &Span, scale: u32) -> u64
    requires { IsWithinLimits (timing_of span.now) }
    ensures { result ≡ spec.ticks_in form scale (timing_of span.now) }
{
    rounded_in(form, span, scale).max(1)
}

/// How many ticks a listed segment lasts: rounded down, and in the players' form to the nearest one, halves up.
fn rounded_in(form: Form, span: &Span, scale: u32) -> u64
    requires { IsWithinLimits (timing_of span.now) }
    ensures { result ≡ spec.rounded_in form scale (spec.lasting_of (timing_of span.now)) }
{
    match form {
        Form::Plain => floor_in(span, u64::from(scale)),
        Form::Players => floor_in(span, 2 * u64::from(scale)).div_ceil(2),
    }
}

/// A duration in ticks of which `scale` make a second, to the nearest one, halves up, and at least one.
///
/// Requires that it is at most 1,000,000 s.
pub fn nearest_ticks(duration: Nanos, scale: u32) -> u64
    requires { duration ≤ 10 ^ 15 }
    ensures { result ≡ spec.nearest_ticks scale duration }
{
    floor(u128::from(duration.0), 1_000_000_000, 2 * u64::from(scale))
        .div_ceil(2)
        .max(1)
}

/// The duration of a listed segment in units of which `unit` make a second, rounded down.
fn floor_in(span: &Span, unit: u64) -> u64
    requires limits { IsWithinLimits (timing_of span.now) }
    requires unit { unit < 2 ^ 33 }
    ensures { result ≡ floor_in unit (spec.lasting_of (timing_of span.now)) }
{
    let second = u64::from(span.end.scale) * u64::from(span.start.scale);
    floor(elapsed(span), second, unit)
}

/// `elapsed / second` seconds in units of which `unit` make a second, rounded down.
fn floor(elapsed: u128, second: u64, unit: u64) -> u64
    requires some { 0 < second }
    requires bounded { elapsed ≤ 1000000 * second }
    requires unit { unit < 2 ^ 33 }
    ensures { result ≡ elapsed * unit / second }
{
    (elapsed * u128::from(unit) / u128::from(second)) as u64
}

/// The duration of a listed segment, over the product of the scales of its end and its start.
fn elapsed(span: &Span) -> u128
    requires { IsWithinLimits (timing_of span.now) }
    ensures exact { (spec.lasting_of (timing_of span.now)).ticks ≡ pos result }
    ensures bounded { result ≤ 1000000 * (span.now.end.scale * span.now.start.scale) }
{
    (numerator(span.end, span.start) - numerator(span.start, span.end)) as u128
}

/// The numerator of a time over the product of its scale and another one's.
fn numerator(time: Tick, other: Tick) -> i128
    ensures exact { result ≡ cross (time_of time) (time_of other) }
    ensures bounded { unsigned_abs result < 2 ^ 96 }
{
    time.n * i128::from(other.scale)
}
