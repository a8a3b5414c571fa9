// When a segment begins and ends.
ghost use Rattle.std.specs.Prelude.{◌≡◌, Some};
ghost use Rattle.exact_time.specs.Tick.{time_of};
ghost use Rattle.exact_time.specs.Time.{IsAtMost, IsBefore, seconds};
ghost use Rattle.timeline.specs.Durations.{extent_of};
ghost use Rattle.timeline.specs.Expansions.{lasting};
ghost use Rattle.timeline.specs.Faults.{is_apart};

use crate::spans::is_apart;
use exact_time::Tick;

/// When a segment begins and ends, relative to the Period's start, and its number. A segment that begins before its
/// Period has a negative start.
#[derive(Clone, Copy, Debug, PartialEq, Eq)]
pub struct Span {
    pub start: Tick,
    pub end: Tick,
    pub number: u64,
}

impl Span {
    /// Whether it begins more than half its duration before or after a time, the end of the segment before it. It
    /// allocates nothing.
    ///
    /// Requires that it begins before it ends, and lasts at most 1,000,000 s, as each listed segment does.
    pub fn is_apart_from(&self, former: Tick) -> bool
        requires begins { IsBefore (time_of self.now.start) (time_of self.now.end) }
        requires lasts { IsAtMost (lasting (extent_of self.now)) (seconds 1000000) }
        ensures { result ≡ is_apart (Some (time_of former)) (extent_of self.now) }
    {
        is_apart(self.start, self.end, former)
    }
}

/// Segments that follow one another, each as long as the first one and beginning where the one before it ends.
#[derive(Clone, Copy, PartialEq, Eq)]
pub struct SpanRun {
    pub first: Span,
    /// How long each one lasts, in ticks of the first one's scale. It has no meaning where there is only one.
    pub step: u64,
    /// How many there are.
    pub count: u64,
}
