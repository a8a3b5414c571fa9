// Why an update is rejected.
ghost use Rattle.live_judge.specs.declared.fault.RefreshFault.TheVariants.{Memory};

use bridge_io::NoMemory;
use exact_time::Tick;
use iso_time::Instant;
use presentation::PresentationFault;
use std::alloc::{AllocError, AllocFailed};
use thiserror::Error;
use timeline::Span;

/// Why an update can't follow what was accepted. The first broken rule is returned; values are those of the first
/// track, then section, then index.
#[derive(Clone, Copy, Debug, Error)]
pub enum RefreshFault {
    /// It is earlier than the last accepted one.
    #[error("the clock goes back")]
    ClockBack {
        /// The time of the last accepted one.
        former: Instant,
        /// The time of this one.
        now: Instant,
    },
    /// Its MPD was published before the one in force (ISO/IEC 23009-1, 5.3.1.2).
    #[error("an older MPD")]
    Older {
        /// When the MPD in force was published.
        former: Instant,
        /// When this one was.
        new: Instant,
    },
    /// It changes what is the same in all versions of an MPD: availabilityStartTime, its Periods' ids and their order,
    /// its tracks, or the attributes of a known Period (ISO/IEC 23009-1, 5.4).
    #[error("the MPD changes what stays")]
    Changed,
    /// A known Period begins at another time (ISO/IEC 23009-1, 5.3.2.1).
    #[error("a Period is moved")]
    Moved {
        /// The index of the Period's id in the order in which ids were first seen.
        section: u64,
    },
    /// Kept segments have different times (ISO/IEC 23009-1, 5.4).
    #[error("kept segments are rewritten")]
    Rewritten {
        /// The track's index.
        track: usize,
        /// The kept segment; `None` where the new MPD has more of them.
        kept: Option<Span>,
        /// The segment of the new MPD instead of it.
        new: Span,
    },
    /// The gap or overlap between the last segment and the first new one is more than half the latter's duration.
    #[error("a gap or an overlap between segments")]
    Step {
        /// The track's index.
        track: usize,
        /// When its last segment ends.
        end: Tick,
        /// When the new one begins.
        start: Tick,
    },
    /// A new segment is longer than the target duration (RFC 8216, 4.3.3.1).
    #[error("a segment is longer than the target duration")]
    LongSegment {
        /// The target duration in seconds.
        target: u64,
        /// The segment's printed duration, in units of the last printed decimal of a second.
        printed: u64,
    },
    /// The first MPD is static.
    #[error("the first MPD isn't dynamic")]
    NotDynamic,
    /// A static MPD was accepted before (ISO/IEC 23009-1, 5.4).
    #[error("the presentation has ended")]
    Ended,
    /// Too many segments would be kept.
    #[error("too many segments to keep")]
    Window {
        /// The first track with more than 20,000, or the first at which all tracks so far have more than 500,000.
        track: usize,
        /// How many there would be.
        count: u128,
    },
    /// The MPD's presentation is rejected.
    #[error("the presentation is refused")]
    Presentation(PresentationFault),
    /// Out of memory.
    #[error("out of memory")]
    Memory,
    /// Before a reset the last segments of two tracks are in different Periods.
    #[error("the tracks end in different Periods")]
    Uneven {
        /// The first track that differs from track 0.
        track: usize,
        /// The index of track 0's Period.
        first: u64,
        /// The index of its own.
        last: u64,
    },
}

impl From<PresentationFault> for RefreshFault {
    ghost use Rattle.std.specs.Prelude.{◌≡◌};
    ghost use Rattle.live_judge.specs.Faults.{of_presentation};

    ghost from_gives = { λ fault told. told ≡ of_presentation fault };

    fn from(fault: PresentationFault) -> RefreshFault {
        match fault {
            PresentationFault::Memory => RefreshFault::Memory,
            fault => RefreshFault::Presentation(fault),
        }
    }
}

impl From<NoMemory> for RefreshFault {
    ghost use Rattle.std.specs.Prelude.{◌≡◌};

    ghost from_gives = { λ _ fault. fault ≡ Memory };

    fn from(_: NoMemory) -> RefreshFault {
        RefreshFault::Memory
    }
}

impl From<AllocError> for RefreshFault {
    ghost use Rattle.std.specs.Prelude.{◌≡◌};

    ghost from_gives = { λ _ fault. fault ≡ Memory };

    fn from(_: AllocError) -> RefreshFault {
        RefreshFault::Memory
    }
}

impl<T: Drop> From<AllocFailed<T>> for RefreshFault {
    ghost use Rattle.std.specs.Prelude.{◌≡◌};

    ghost from_gives = { λ _ fault. fault ≡ Memory };

    fn from(_: AllocFailed<T>) -> RefreshFault {
        RefreshFault::Memory
    }
}
