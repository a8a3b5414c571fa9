// The duration of a track in a section.
ghost use Rattle.std.specs.Prelude.{◌≡◌, ◌^◌, ◌<◌, length};
ghost use Rattle.presentation.specs.Presented.{listed_at};
ghost use Rattle.presentation.specs.Printing.{IsCounted};
ghost use Rattle.presentation.specs.Verifying.{last_end, length_of};
ghost use Rattle.presentation.specs.Printing.{ends_of};
ghost use Rattle.exact_time.specs.Tick.{time_of};
ghost use Rattle.exact_time.specs.Time.{IsAtMost};
ghost use Rattle.exact_time.specs.Rounding.{IsRising};

use crate::Presentation;
use exact_time::{Digits, Tick, floor_unit};
use timeline::{Span, TimeWalk};

/// The number and the total duration of a track's segments in a section.
#[derive(Clone, Copy, PartialEq, Eq)]
pub struct Extent {
    /// How many segments are listed.
    pub segments: u64,
    /// From the first one's start to the last one's end, in units of the last printed decimal of a second, rounded down;
    /// 0 where there is none.
    pub units: u128,
}

impl Presentation {
    /// The number and the total duration of a track's listed segments in a section. It allocates nothing.
    ///
    /// Requires that both are in range, and that `count` succeeded.
    pub fn extent(&self, section: usize, track: usize, digits: Digits) -> Extent
        requires section { section < length self.now.sections }
        requires track { track < length self.now.tracks }
        requires counted { IsCounted self.now section track }
        ensures segments { result.segments ≡ length (listed_at self.now section track) }
        ensures units { result.units ≡ length_of (10 ^ digits) (listed_at self.now section track) }
    {
        let window = self.window(section);
        let runs = &self.content(section, track).runs;
        let mut walk = runs.walk(&runs.seek(&window), &window);
        let Some(first) = walk.next() else {
            return Extent {
                segments: 0,
                units: 0,
            };
        };
        Extent {
            segments: runs.count(&window).unwrap_or(0),
            units: floor_unit(last_end(walk, first), first.start, digits.unit()),
        }
    }
}

/// The end of the last of some segments that follow a first one.
fn last_end(walk: TimeWalk<'_>, first: Span) -> Tick
    requires rising { IsRising (time_of first.end) (ends_of walk) }
    requires lasts { IsAtMost (time_of first.start) (time_of first.end) }
    ensures last { time_of result ≡ last_end (time_of first.end) walk.entry }
    ensures not_before { IsAtMost (time_of first.start) (time_of result) }
{
    let mut last = first.end;
    for span in walk {
        last = span.end;
    }
    last
}
