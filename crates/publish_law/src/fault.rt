// Why nothing is published.
ghost use Rattle.std.specs.Prelude.{◌≡◌};
ghost use Rattle.publish_law.specs.declared.fault.PublishFault.TheVariants.{Memory};

use bridge_io::NoMemory;
use thiserror::Error;

/// Why the served playlists stay as they are. The first that holds is reported.
#[derive(Clone, Copy, Debug, PartialEq, Eq, Error)]
pub enum PublishFault {
    /// The two playlists of a track have durations of other numbers of decimals: the first such track's place.
    #[error("another number of decimals in track {0}")]
    Digits(usize),
    /// All served playlists are ended (RFC 8216, 4.3.3.4).
    #[error("all served playlists are ended")]
    Ended,
    /// No new segment is served, and none is dated after a served one: an old version, or a clock that was set back.
    #[error("nothing is newer than what is served")]
    Back,
    /// A segment that comes new to a served playlist is longer than its target duration, to the nearest second with halves up
    /// (RFC 8216, 4.3.3.1): the places of its track and in the track's new playlist, of the first one.
    #[error("a segment that is above the served target duration")]
    LongSegment(usize, usize),
    /// Out of memory, which says nothing about the playlists.
    #[error("out of memory")]
    Memory,
}

impl From<NoMemory> for PublishFault {
    ghost from_gives = { λ _ fault. fault ≡ Memory };

    fn from(_: NoMemory) -> PublishFault {
        PublishFault::Memory
    }
}
