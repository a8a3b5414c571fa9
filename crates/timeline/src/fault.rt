// Why there are no segments, or no URL of a segment.
use bridge_io::NoMemory;
use std::alloc::{AllocError, AllocFailed};
use thiserror::Error;
use url_parts::UrlFault;

/// Why the times of a Representation give no segments.
#[derive(Clone, Copy, Debug, PartialEq, Eq, Error)]
pub enum TimeFault {
    /// A segment doesn't end after its start.
    #[error("a segment lasts no time")]
    ZeroDuration,
    /// A segment ends at 2^63 ticks or later, lasts longer than 1,000,000 s, or ends more than 10^11 s after its
    /// Period's start.
    #[error("a segment is too long or too late")]
    Range,
    /// The segments of a static MPD continue to the end of a Period that has none.
    #[error("the segments have no end")]
    NoEnd,
    /// A gap or an overlap between two segments is larger than half the later one's duration, or segments continue to
    /// a time that isn't after their start.
    #[error("a gap or an overlap is too large")]
    Step,
    /// The number of segments isn't that of the names.
    #[error("the segments and their names differ in number")]
    ListLength,
    /// A template uses `$Time$` without a SegmentTimeline.
    #[error("the template needs a timeline")]
    TimeWithoutTimeline,
    /// Out of memory.
    #[error("out of memory")]
    Memory,
}

impl From<AllocError> for TimeFault {
    ghost use Rattle.std.specs.Prelude.{◌≡◌};
    ghost use Rattle.timeline.specs.declared.fault.TimeFault.TheVariants.{Memory};

    ghost from_gives = { λ _ fault. fault ≡ Memory };

    fn from(_: AllocError) -> TimeFault {
        TimeFault::Memory
    }
}

impl<T: Drop> From<AllocFailed<T>> for TimeFault {
    ghost use Rattle.std.specs.Prelude.{◌≡◌};
    ghost use Rattle.timeline.specs.declared.fault.TimeFault.TheVariants.{Memory};

    ghost from_gives = { λ _ fault. fault ≡ Memory };

    fn from(_: AllocFailed<T>) -> TimeFault {
        TimeFault::Memory
    }
}

impl From<NoMemory> for TimeFault {
    ghost use Rattle.std.specs.Prelude.{◌≡◌};
    ghost use Rattle.timeline.specs.declared.fault.TimeFault.TheVariants.{Memory};

    ghost from_gives = { λ _ fault. fault ≡ Memory };

    fn from(_: NoMemory) -> TimeFault {
        TimeFault::Memory
    }
}

/// Why a segment isn't made.
#[derive(Clone, Copy, Debug, PartialEq, Eq, Error)]
pub enum ListFault {
    /// Its URL is rejected.
    #[error("the segment has no address")]
    Url(UrlFault),
    /// Out of memory.
    #[error("out of memory")]
    Memory,
}

impl From<NoMemory> for ListFault {
    ghost use Rattle.std.specs.Prelude.{◌≡◌};
    ghost use Rattle.timeline.specs.declared.fault.ListFault.TheVariants.{Memory};

    ghost from_gives = { λ _ fault. fault ≡ Memory };

    fn from(_: NoMemory) -> ListFault {
        ListFault::Memory
    }
}

impl From<UrlFault> for ListFault {
    ghost use Rattle.timeline.specs.Names.{list_fault_of};
    ghost use Rattle.std.specs.Prelude.{◌≡◌};

    ghost from_gives = { λ error fault. fault ≡ list_fault_of error };

    fn from(error: UrlFault) -> ListFault {
        match error {
            UrlFault::Memory => ListFault::Memory,
            _ => ListFault::Url(error),
        }
    }
}
