// Tracks and sections.
use bridge_io::{Kind, Ratio, Size, Text};
use exact_time::Nanos;

/// One Representation through all Periods (ISO/IEC 23009-1, 5.3.5), or one media playlist (RFC 8216, 4.3.4).
#[derive(Drop)]
pub struct Track {
    /// Its kind.
    pub kind: Kind,
    /// Its AdaptationSet, or its rendition's name and language. Only equality of these numbers has a meaning.
    pub set: usize,
    /// Its language, where it is known.
    pub language: Option<Text>,
    /// Its codecs, joined by `,` without spaces, where they are known (RFC 6381).
    pub codecs: Option<Text>,
    /// Bits per second.
    pub bandwidth: u64,
    /// Its width and height, where they are known.
    pub size: Option<Size>,
    /// Its frame rate, where it is known.
    pub frame_rate: Option<Ratio>,
}

/// A Period (ISO/IEC 23009-1, 5.3.2), or the segments of one discontinuity sequence number (RFC 8216, 4.3.3.3).
#[derive(Drop)]
pub struct Section {
    /// The Period's id. Where it has none, any text.
    pub id: Text,
    /// When it begins, from the presentation's start.
    pub start: Nanos,
    /// How long it lasts; `None` where the Period's end is open.
    pub length: Option<Nanos>,
}
