// What differs, where, and how.
ghost use Rattle.std.specs.Prelude.{◌≡◌};
ghost use Rattle.meaning.specs.Differences.{in_entry};
ghost use Rattle.differences.specs.Deviating.{deviation};

use bridge_io::Sequence;
use comparison::Spot;
use meaning::{Aspect, Difference};

/// A difference of two presentations.
#[derive(Clone, Copy, PartialEq, Eq)]
pub struct Deviation {
    /// What differs, and where.
    pub at: Difference,
    /// How it differs.
    pub how: How,
}

impl Deviation {
    /// What differs at a spot, and how.
    pub(crate) fn found_at(spot: Spot, what: Aspect, how: How) -> Deviation
        ensures { result ≡ deviation (in_entry spot.track spot.section spot.segment what) how }
    {
        Deviation {
            at: spot.of(what),
            how,
        }
    }
}

/// How something differs.
#[derive(Clone, Copy, PartialEq, Eq)]
pub enum How {
    /// How many sections, tracks, or segments of a track in a section there are.
    Counts {
        /// In the MPD.
        mpd: usize,
        /// In the playlists.
        playlists: usize,
    },
    /// The kind of a track, its language, or both.
    Head {
        /// Whether the kind differs.
        kind: bool,
        /// Whether the language differs.
        language: bool,
    },
    /// Only the MPD has it.
    Missing,
    /// Only the playlists have it.
    Extra,
    /// The value: an init segment, a URL, a byte range.
    Value,
    /// The times of a segment, relative to the start of the track's first segment in the section.
    Times {
        /// By how much the starts differ.
        start: Apart,
        /// By how much the ends differ.
        end: Apart,
    },
}

/// The difference of a time of the playlists from one of the MPD.
#[derive(Clone, Copy, PartialEq, Eq)]
pub struct Apart {
    /// Whether the playlists' time is the later one.
    pub later: bool,
    /// The size in nanoseconds, rounded up, so that it is 0 only where the times are equal; at most `u64::MAX`.
    pub nanoseconds: u64,
}

/// The differences of two presentations.
#[derive(Drop)]
pub struct Deviations {
    /// The first ones in order, at most as many as asked for.
    pub first: Sequence<Deviation>,
    /// How many there are in all, at most `u64::MAX`.
    pub count: u64,
    /// For each track that both have, in order: the greatest difference of the ends of two segments at one place, in
    /// nanoseconds, rounded up, at most `u64::MAX`.
    pub greatest: Sequence<u64>,
}
