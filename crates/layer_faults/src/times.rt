// Why a media file gives no decode time.
use box_reader::BoxFault;
use thiserror::Error;

/// Why a media file gives no decode time. The variants are tried in their order.
#[derive(Clone, Copy, Debug, PartialEq, Eq, Error)]
pub enum FileFault {
    /// The store has no such file.
    #[error("there is no such file")]
    Absent,
    /// The bytes end inside a box, before what is searched for, or a box is shorter than its header or than its fields.
    /// The former is tried first, and of each the one at the least offset.
    #[error("the bytes are no boxes up to a time")]
    Boxes(BoxFault),
    /// A box is missing, or has a version above 1.
    #[error("a box is missing")]
    Missing,
    /// There isn't exactly one track.
    #[error("not exactly one track")]
    Tracks,
    /// The timescale is 0.
    #[error("the timescale is 0")]
    Scale,
    /// A segment doesn't begin after the one before it.
    #[error("a segment begins before the one before it")]
    Order,
    /// A time is 2^63 or later, or a segment lasts more than 1,000,000 s.
    #[error("a time is out of range")]
    Range,
}
