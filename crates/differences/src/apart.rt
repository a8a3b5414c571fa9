// How far two times are apart.
ghost use Rattle.std.specs.Prelude.{◌≡◌, ◌*◌, pos, ◌+ℤ◌, ◌*ℤ◌};
ghost use Rattle.exact_time.specs.Time.{before};
ghost use Rattle.comparison.specs.Elapsed.{time_since};
ghost use Rattle.differences.specs.Sizes.{size_of};
ghost use Rattle.differences.specs.Rounded as spec;

use crate::rounded::Rounded;
use comparison::Elapsed;

/// How far two times are apart.
#[derive(Clone, Copy)]
pub(crate) struct Gap {
    /// Whether the second one is later.
    pub(crate) later: bool,
    /// In nanoseconds, rounded up.
    pub(crate) size: u128,
}

impl Rounded {
    /// The nanoseconds of a time.
    fn of(time: Elapsed) -> Rounded
        ensures value { time.ticks *ℤ pos 1000000000 ≡ result.whole *ℤ pos result.scale +ℤ pos result.rest }
        ensures scale { result.scale ≡ time.scale }
    {
        let nanoseconds = time.ticks * 1_000_000_000;
        let scale = i128::from(time.scale);
        Rounded {
            whole: nanoseconds.div_euclid(scale),
            rest: nanoseconds.rem_euclid(scale) as u64,
            scale: time.scale,
        }
    }

    /// What is left, over the common scale of both.
    fn rest_over(self, other: Rounded) -> u128
        ensures { result ≡ self.rest * other.scale }
    {
        u128::from(self.rest) * u128::from(other.scale)
    }

    /// Whether it is the earlier one.
    fn is_before(self, other: Rounded) -> bool
        ensures { result ≡ spec.is_before self other }
    {
        self.whole < other.whole
            || self.whole == other.whole && self.rest_over(other) < other.rest_over(self)
    }

    /// How many nanoseconds, rounded up, the other one is later, which isn't the earlier one.
    fn until(self, other: Rounded) -> u128
        ensures { result ≡ spec.until self other }
    {
        let is_more = self.rest_over(other) < other.rest_over(self);
        self.whole.abs_diff(other.whole) + u128::from(is_more)
    }
}

/// How far two times are apart. Whole nanoseconds and what is left are compared separately, so that no product exceeds 128
/// bits.
pub(crate) fn gap_between(mine: Elapsed, theirs: Elapsed) -> Gap
    ensures later { result.later ≡ before (time_since mine) (time_since theirs) }
    ensures size { result.size ≡ size_of (time_since mine) (time_since theirs) }
{
    let (mine, theirs) = (Rounded::of(mine), Rounded::of(theirs));
    let later = mine.is_before(theirs);
    let size = if later {
        mine.until(theirs)
    } else {
        theirs.until(mine)
    };
    Gap { later, size }
}
