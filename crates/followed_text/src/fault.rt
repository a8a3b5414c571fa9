// Why a text is no playlist that follows a presentation.
ghost use Rattle.std.specs.Prelude.{◌≡◌};
ghost use Rattle.followed_text.specs.declared.fault.FollowedFault.TheVariants.{Memory};

use bridge_io::NoMemory;
use hls_media::MediaFault;
use thiserror::Error;

/// Why a text isn't one of a playlist that follows a presentation. The first that holds is reported.
#[derive(Clone, Copy, Debug, PartialEq, Eq, Error)]
pub enum FollowedFault {
    /// It is no media playlist of the profile (RFC 8216, 4.3.2 and 4.3.3).
    #[error("no media playlist")]
    Media(MediaFault),
    /// It is a media playlist, but not spelled as one that follows a presentation is written, or without segments.
    #[error("not written as a playlist that follows a presentation")]
    Form,
    /// Out of memory, which says nothing about the text.
    #[error("out of memory")]
    Memory,
}

impl From<NoMemory> for FollowedFault {
    ghost from_gives = { λ _ fault. fault ≡ Memory };

    fn from(_: NoMemory) -> FollowedFault {
        FollowedFault::Memory
    }
}
