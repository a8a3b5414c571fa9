// Segments of equal duration in media time.
ghost use Rattle.std.specs.Prelude.{◌≡◌, ◌+◌, ◌<◌, ◌^◌};

use crate::builder::placed;
use crate::limits::Limits;
use crate::run::Run;

/// Segments of equal duration in media ticks, each beginning where the one before it ends. The timescale isn't stored,
/// so that Representations of different timescales share them.
#[derive(Clone, Copy)]
pub struct MediaRun {
    /// The media time at which the first one begins.
    pub start: u64,
    /// How long each one lasts.
    pub step: u64,
    /// How many there are.
    pub count: u64,
    /// How many segments are before them.
    pub before: u64,
    pub ghost near: { start + step < 2 ^ 64 },
}

impl MediaRun {
    ghost use Rattle.timeline.specs.RunSegments.{placed_run, timed};

    /// The run with times relative to the Period's start.
    #[inline(always)]
    pub fn at(&self, limits: Limits) -> Run
        ensures { timed result ≡ placed_run limits.ticks limits.origin self.now }
    {
        let start = u128::from(self.start);
        Run {
            start: placed(start, limits),
            end: placed(start + u128::from(self.step), limits),
            step: self.step,
            count: self.count,
            before: self.before,
        }
    }
}
