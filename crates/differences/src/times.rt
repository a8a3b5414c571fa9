// Two times of segments at one place.
ghost use Rattle.std.specs.Prelude.{◌≡◌};
ghost use Rattle.differences.specs.Pairs as spec;

use crate::Apart;
use crate::apart::{Gap, gap_between};
use comparison::{Stretch, is_same_or_rounded};
use exact_time::Digits;

/// How far the times of the playlists may be apart from those of the MPD.
#[derive(Clone, Copy)]
pub(crate) struct Tolerance {
    /// The decimals that they may be rounded down to.
    pub(crate) digits: Digits,
    /// How many nanoseconds.
    pub(crate) within: u64,
}

/// A time of each presentation, relative to the start of the entry.
#[derive(Clone, Copy)]
pub(crate) struct Times {
    pub(crate) mine: Stretch,
    pub(crate) theirs: Stretch,
}

impl Times {
    /// How far they are apart.
    pub(crate) fn gap(self) -> Gap
        ensures { result ≡ spec.gap_of self }
    {
        gap_between(self.mine.elapsed(), self.theirs.elapsed())
    }

    /// Whether they are alike, where they are that far apart.
    pub(crate) fn are_alike(self, gap: Gap, tolerance: Tolerance) -> bool
        requires { gap ≡ spec.gap_of self }
        ensures { result ≡ spec.are_alike tolerance self }
    {
        gap.size <= u128::from(tolerance.within)
            || is_same_or_rounded(self.mine, self.theirs, tolerance.digits.unit())
    }
}

impl Gap {
    /// The same with at most `u64::MAX` nanoseconds.
    pub(crate) fn apart(self) -> Apart
        ensures { result ≡ spec.capped_apart self }
    {
        Apart {
            later: self.later,
            nanoseconds: u64::try_from(self.size).unwrap_or(u64::MAX),
        }
    }
}
