// Why playlists give no presentation.
ghost use Rattle.std.specs.Prelude.{◌≡◌};
ghost use Rattle.layer_faults.specs.declared.hls.HlsFault.TheVariants.{Memory};

use bridge_io::NoMemory;
use thiserror::Error;

/// Why a master playlist and its media playlists give no presentation. The first four are checked track by track in the
/// order of the master's tracks, and for one track in this order; then the others, over all kept tracks.
#[derive(Clone, Copy, Debug, PartialEq, Eq, Error)]
pub enum HlsFault {
    /// A media playlist without EXT-X-ENDLIST (RFC 8216 4.3.3.4): it is live.
    #[error("a playlist that isn't ended")]
    NotEnded,
    /// A segment of video or audio without EXT-X-MAP (RFC 8216 4.3.2.5), which isn't a CMAF file.
    #[error("a segment without a map")]
    NoMap,
    /// Two maps in one section.
    #[error("two maps in a section")]
    MapChanged,
    /// A segment with duration 0.
    #[error("a segment that lasts no time")]
    ZeroDuration,
    /// Two tracks have different discontinuity sequence numbers (RFC 8216 4.3.3.3).
    #[error("the tracks differ in their sections")]
    SectionsDiffer,
    /// A track lasts 2^63 nanoseconds or more in a section, or the longest tracks of all sections together last 10^19 or
    /// more, or there are more than 1,000 sections.
    #[error("too many sections, or too long ones")]
    Limit,
    /// There is no segment of any track.
    #[error("no segments")]
    NoTracks,
    /// Out of memory.
    #[error("out of memory")]
    Memory,
}

/// Every error that only means out of memory.
impl<E: Drop> From<E> for HlsFault
where
    NoMemory: From<E>,
{
    ghost use Rattle.std.specs.Prelude.{◌≡◌};

    ghost from_gives = { λ _ fault. fault ≡ Memory };

    fn from(_: E) -> HlsFault {
        HlsFault::Memory
    }
}
