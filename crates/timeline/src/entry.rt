// How an MPD gives the times of its segments.
ghost use Rattle.std.specs.Prelude.{◌<◌, ◌^◌};

use crate::limits::Limits;
use exact_time::Nanos;

/// Where a Period ends.
#[derive(Clone, Copy, PartialEq, Eq)]
pub enum End {
    /// After this length.
    At(Nanos),
    /// Not known yet.
    Unbounded,
}

/// How media times are counted, and how segments are numbered.
#[derive(Clone, Copy)]
pub struct Scale {
    /// How many ticks make a second.
    pub ticks: u32,
    /// The media time of the Period's start, in ticks (`@presentationTimeOffset`).
    pub offset: u64,
    /// The first segment's number (`@startNumber`).
    pub start_number: u64,
    pub ghost positive: { 0 < ticks },
    pub ghost countable: { start_number < 2 ^ 63 },
}

impl Scale {
    ghost use Rattle.std.specs.Prelude.{◌≡◌, ◌<◌, ◌^◌};

    /// The limits of segments whose media times are counted from `origin`.
    pub(crate) fn limits(self, origin: u64) -> Limits
        ensures ticks { result.ticks ≡ self.ticks }
        ensures origin { result.origin ≡ origin }
        ensures near { result.origin < 2 ^ 64 }
    {
        Limits {
            ticks: self.ticks,
            origin,
        }
    }
}
