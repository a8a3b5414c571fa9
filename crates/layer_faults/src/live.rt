// Why a snapshot of playlists is rejected.
ghost use Rattle.std.specs.Prelude.{◌≡◌};
ghost use Rattle.layer_faults.specs.declared.live.LiveFault.TheVariants.{Memory};

use bridge_io::NoMemory;
use iso_time::Instant;
use reload_law::Unlawful;
use thiserror::Error;

/// Why a snapshot of playlists can't follow those that were accepted. They are checked in this order; the third to the fifth
/// track by track, and for one track in this order. A track is reported by its index among the kept ones.
#[derive(Clone, Copy, Debug, PartialEq, Eq, Error)]
pub enum LiveFault {
    /// In the last accepted snapshot every playlist had EXT-X-ENDLIST (RFC 8216 4.3.3.4).
    #[error("the presentation has ended")]
    Ended,
    /// It is earlier than the last accepted snapshot.
    #[error("the clock goes back")]
    ClockBack {
        /// The timestamp of the last accepted one.
        former: Instant,
        /// The timestamp of this one.
        now: Instant,
    },
    /// A segment without EXT-X-MAP (RFC 8216 4.3.2.5), which isn't a CMAF file.
    #[error("a segment without a map")]
    NoMap,
    /// Two maps in one section.
    #[error("two maps in a section")]
    MapChanged,
    /// A segment with duration 0.
    #[error("a segment that lasts no time")]
    ZeroDuration,
    /// Two tracks have different discontinuity sequence numbers (RFC 8216 4.3.3.3).
    #[error("the tracks differ in their sections")]
    SectionsDiffer,
    /// There is no segment of any track.
    #[error("no segments")]
    NoTracks,
    /// A playlist is an invalid update of the one before (RFC 8216 6.2). That less than three target durations are left doesn't
    /// count here.
    #[error("{rule}")]
    Unlawful {
        /// The track's index.
        track: usize,
        /// The first rule that is broken.
        rule: Unlawful,
    },
    /// After the last accepted playlist a track continues in a section before the one where that playlist ended.
    #[error("a section goes back")]
    SectionBack {
        /// The track's index.
        track: usize,
        /// Where the last accepted playlist ended.
        former: u64,
        /// Where this one continues.
        new: u64,
    },
    /// A segment ends 2^63 nanoseconds or more after its section's start, a section ends 10^19 or more after the presentation's, the
    /// presentation begins before 1583, or there are more than 1,000 sections or 500,000 segments.
    #[error("too many sections or segments, or too long ones")]
    Limit,
    /// Out of memory.
    #[error("out of memory")]
    Memory,
}

/// Every error that only means out of memory.
impl<E: Drop> From<E> for LiveFault
where
    NoMemory: From<E>,
{
    ghost use Rattle.std.specs.Prelude.{◌≡◌};

    ghost from_gives = { λ _ fault. fault ≡ Memory };

    fn from(_: E) -> LiveFault {
        LiveFault::Memory
    }
}
