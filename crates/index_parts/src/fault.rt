// Why files with a `sidx` give no presentation.
ghost use Rattle.std.specs.Prelude.{◌≡◌};
ghost use Rattle.index_parts.specs.declared.fault.IndexFault.TheVariants.{Memory};
ghost use Rattle.index_parts.specs.Refusals as spec;

use crate::FileFault;
use bridge_io::{Name, NoMemory, Place};
use presentation::{PresentationFault, Spot};
use thiserror::Error;
use timeline::TimeFault;
use url_parts::UrlFault;

/// Why an MPD and its media files give no presentation.
///
/// The faults are tried in this order: `Presentation` with `Limit` where there are more than 200 tracks; then track by track,
/// video before audio before text, `Presentation` with `Url` of the BaseURLs and of the init segment, `OutsideBase`, `TooLong`,
/// the file's own in the order of [`FileFault`], and `Presentation` with `Timeline`; at the end `Presentation` with `Limit`
/// where there are more than 500,000 segments.
#[derive(Debug, Drop, Error)]
pub enum IndexFault {
    /// An error that MPDs without SegmentBase have, too: `Limit`, or `Url` or `Timeline` at a Representation.
    #[error("the MPD gives no presentation")]
    Presentation(PresentationFault),
    /// A media file's URL isn't that of a file in the store's folder.
    #[error("a media file lies in another place")]
    OutsideBase,
    /// An index range has more than 8,388,608 bytes.
    #[error("an index range is too long")]
    TooLong,
    /// The media file of this name is rejected.
    #[error("a media file is refused")]
    File(Name, FileFault),
    /// A read failed.
    #[error("a media file can't be read")]
    Fault,
    /// Out of memory.
    #[error("out of memory")]
    Memory,
}

impl From<NoMemory> for IndexFault {
    ghost from_gives = { λ _ fault. fault ≡ Memory };

    fn from(_: NoMemory) -> IndexFault {
        IndexFault::Memory
    }
}

/// A fault of a URL of the Representation at a position.
pub(crate) fn at_url(fault: UrlFault, place: Place) -> IndexFault
    ensures { result ≡ spec.url_told place fault }
{
    match fault {
        UrlFault::Memory => IndexFault::Memory,
        _ => IndexFault::Presentation(PresentationFault::Url(fault, Spot::At(place))),
    }
}

/// A fault of the times of the Representation at a position.
pub(crate) fn at_times(fault: TimeFault, place: Place) -> IndexFault
    ensures { result ≡ spec.times_told place fault }
{
    match fault {
        TimeFault::Memory => IndexFault::Memory,
        _ => IndexFault::Presentation(PresentationFault::Timeline(fault, place)),
    }
}
