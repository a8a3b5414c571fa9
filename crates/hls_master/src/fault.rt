// Why a master playlist is rejected.
ghost use Rattle.std.specs.Prelude.{◌≡◌};
ghost use Rattle.hls_master.specs.declared.fault.MasterFault.TheVariants.{Memory};
ghost use Rattle.hls_master.specs.Addresses.{of_url};
ghost use Rattle.hls_master.specs.Faults.{of_line};

use bridge_io::{NoMemory, Place};
use hls_lines::LineFault;
use std::alloc::{AllocError, AllocFailed};
use thiserror::Error;
use url_parts::UrlFault;

/// Why a text can't be read as a master playlist. The faults of lines are tried in the order of the lines; then, after
/// all lines, `GroupUnknown`, `Muxed` of a variant, `NoTracks` and `Limit` in this order.
#[derive(Clone, Copy, Debug, PartialEq, Eq, Error)]
pub enum MasterFault {
    /// The text has no valid lines (RFC 8216 4.1), or a tag no valid attribute list (4.2), at the position in the
    /// fault.
    #[error("{0}")]
    Line(LineFault),
    /// A required attribute is missing, or the URI of a subtitle rendition (RFC 8216 4.3.4.1 and 4.3.4.2): the tag.
    #[error("a required attribute is missing")]
    Missing(Place),
    /// An attribute's value is malformed or out of its bounds: the tag.
    #[error("a malformed value")]
    Value(Place),
    /// A tag that isn't read in a master, a URI line without EXT-X-STREAM-INF, or EXT-X-STREAM-INF without a URI line
    /// (RFC 8216 4.3.4.2): the line.
    #[error("a misplaced line")]
    Misplaced(Place),
    /// A URI gives no valid URL: the line of the EXT-X-MEDIA, or the URI line.
    #[error("{0}")]
    Url(UrlFault, Place),
    /// Muxed audio: EXT-X-MEDIA of audio without URI, or a variant with audio and other media in its files. The tag.
    #[error("audio and other media in one file")]
    Muxed(Place),
    /// A variant names a rendition group that doesn't exist (RFC 8216 4.3.4.2): its EXT-X-STREAM-INF.
    #[error("an unknown group of renditions")]
    GroupUnknown(Place),
    /// Two renditions of the same type and group have the same name (RFC 8216 4.3.4.1.1): the second.
    #[error("a name that stands twice in a group")]
    SameName(Place),
    /// Encrypted media (RFC 8216 4.3.4.4): the tag.
    #[error("encrypted media")]
    Encryption(Place),
    /// Video renditions, and variables: the tag.
    #[error("an unsupported feature")]
    Unsupported(Place),
    /// There is no variant: the file's end.
    #[error("no variant")]
    NoTracks(Place),
    /// There are more than 200 tracks: the file's end.
    #[error("too many tracks")]
    Limit(Place),
    /// Out of memory, which says nothing about the file.
    #[error("out of memory")]
    Memory,
}

impl MasterFault {
    /// The fault of a URI, reported at a position.
    pub(crate) fn of_url(fault: UrlFault, place: Place) -> MasterFault
        ensures { result ≡ of_url place fault }
    {
        match fault {
            UrlFault::Memory => MasterFault::Memory,
            fault => MasterFault::Url(fault, place),
        }
    }
}

impl From<LineFault> for MasterFault {
    ghost from_gives = { λ line fault. fault ≡ of_line line };

    fn from(fault: LineFault) -> MasterFault {
        match fault {
            LineFault::Memory => MasterFault::Memory,
            fault => MasterFault::Line(fault),
        }
    }
}

impl From<NoMemory> for MasterFault {
    ghost from_gives = { λ _ fault. fault ≡ Memory };

    fn from(_: NoMemory) -> MasterFault {
        MasterFault::Memory
    }
}

impl From<AllocError> for MasterFault {
    ghost from_gives = { λ _ fault. fault ≡ Memory };

    fn from(_: AllocError) -> MasterFault {
        MasterFault::Memory
    }
}

impl<T: Drop> From<AllocFailed<T>> for MasterFault {
    ghost from_gives = { λ _ fault. fault ≡ Memory };

    fn from(_: AllocFailed<T>) -> MasterFault {
        MasterFault::Memory
    }
}
