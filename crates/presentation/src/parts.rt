// The parts of a presentation.
use crate::{ContentList, SectionList, TrackList};
use timeline::Runs;
use url_parts::Part;

/// The content of a track in a section.
#[derive(Drop)]
pub struct Content {
    /// The init segment (ISO/IEC 23009-1, 5.3.9.2; EXT-X-MAP of RFC 8216, 4.3.2.5).
    pub initialization: Part,
    /// The segments in order.
    pub runs: Runs,
}

/// The parts of a VOD presentation.
#[derive(Drop)]
pub struct Parts {
    /// The tracks: video, then audio, then text.
    pub tracks: TrackList,
    /// The sections in order.
    pub sections: SectionList,
    /// One content for each section and track, by section, then by track.
    pub contents: ContentList,
    /// How many sets and tracks were dropped.
    pub left_out: u64,
}
