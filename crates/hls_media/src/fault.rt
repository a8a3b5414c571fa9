// Why a playlist is rejected.
ghost use Rattle.std.specs.Prelude.{◌≡◌};
ghost use Rattle.hls_media.specs.declared.fault.MediaFault.TheVariants.{Memory};

use bridge_io::{NoMemory, Place};
use hls_lines::LineFault;
use thiserror::Error;
use url_parts::UrlFault;

/// Why a file can't be read as a media playlist, and where: at a line's first byte, unless noted otherwise. Lines are
/// checked in order, and then the playlist as a whole.
#[derive(Clone, Copy, Debug, PartialEq, Eq, Error)]
pub enum MediaFault {
    /// The file doesn't have the lines of a playlist, or a tag's attributes can't be read.
    #[error("no lines of a playlist")]
    Line(LineFault),
    /// There is no EXT-X-TARGETDURATION (RFC 8216 4.3.3.1): the end of the file.
    #[error("no target duration")]
    NoTarget(Place),
    /// An EXTINF of more than 1,000,000 seconds.
    #[error("a segment of more than 1,000,000 seconds")]
    Duration(Place),
    /// An EXTINF of more than half a second above the target duration (RFC 8216 4.3.3.1).
    #[error("a segment longer than the target duration")]
    LongSegment(Place),
    /// A byte range without offset where the segment before it has no byte range of the same URL (RFC 8216 4.3.2.2),
    /// or one that would end at 2^63 or later: its EXT-X-BYTERANGE.
    #[error("a range without a beginning")]
    RangeStart(Place),
    /// More than 100,000 segments: the first URI beyond that.
    #[error("too many segments")]
    Limit(Place),
    /// Encrypted segments (RFC 8216 4.3.2.4 and 4.3.4.5).
    #[error("encryption")]
    Encryption(Place),
    /// An EXT-X-DATERANGE (RFC 8216 4.3.2.7).
    #[error("a date range")]
    Events(Place),
    /// A tag of Low-Latency HLS.
    #[error("low latency")]
    LowLatency(Place),
    /// A tag that isn't supported: EXT-X-GAP, EXT-X-DEFINE or EXT-X-I-FRAMES-ONLY.
    #[error("a tag that isn't supported")]
    Unsupported(Place),
    /// A URI of a segment or of an EXT-X-MAP that gives no valid URL.
    #[error("a URI that gives no address")]
    Url(UrlFault, Place),
    /// An invalid value, or a missing attribute.
    #[error("a value that can't be read")]
    Value(Place),
    /// A line that isn't allowed there.
    #[error("a line that may not stand there")]
    Misplaced(Place),
    /// Out of memory, which says nothing about the playlist.
    #[error("out of memory")]
    Memory,
}

/// Every error that only means out of memory.
impl<E: Drop> From<E> for MediaFault
where
    NoMemory: From<E>,
{
    ghost from_gives = { λ _ fault. fault ≡ Memory };

    fn from(_: E) -> MediaFault {
        MediaFault::Memory
    }
}
