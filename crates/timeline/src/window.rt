// Which segments are listed.
use crate::bound::Bound;

/// Which segments are listed: those that end after the Period's start, after `after`, and at or before `until`. Both
/// are nanoseconds from the Period's start.
///
/// Segments that continue to an open end of their Period are those that end by `until`.
#[derive(Clone, Copy, PartialEq, Eq)]
pub struct Window {
    pub after: Option<i128>,
    pub until: Option<i128>,
}

impl Window {
    ghost use Rattle.timeline.specs.Bounds.{StandsFor, StandsForSome, low_of, high_of};

    /// The exclusive lower bound of a listed segment's end.
    pub(crate) fn low(&self) -> Bound
        ensures { StandsFor result (low_of self.now) }
    {
        Bound::nanos(self.after.unwrap_or(0).max(0))
    }

    /// The inclusive upper bound of a listed segment's end.
    pub(crate) fn high(&self) -> Option<Bound>
        ensures { StandsForSome result (high_of self.now) }
    {
        self.until.map(Bound::nanos)
    }
}
