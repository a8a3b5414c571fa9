//! Media playlists of HLS: RFC 8216, 4.3.2 and 4.3.3.
#![tactic(auto)]

mod copies;
mod fault;
mod laws;
mod media;
mod reader;
mod shared;
mod state;
mod tag;
mod value;

pub use fault::MediaFault;
pub use laws::{
    playlists_are_told_by_their_lines, segments_are_told_by_the_lines_before,
    what_is_read_is_bounded, what_is_read_is_meant,
};
pub use media::{Media, MediaList, MediaSegment, read_media, read_update};
