//! The presentation of HLS VOD: a master playlist's tracks with their media playlists (RFC 8216, 4.3).
#![tactic(auto)]

mod checks;
mod contents;
mod groups;
mod kept;
mod laws;
mod playlists;
mod tracks;

pub use checks::{check_segments, check_so_far, is_same_part};
pub use groups::{Groups, Segments, groups_of_all};
pub use kept::{Source, is_left_out, kept_of, lacks_maps, left_out_of, sources_of};
pub use laws::{
    only_faults_are_refused, playlists_are_counted, presented_are_laid_out, what_is_read_is_silent,
};
pub use layer_faults::HlsFault;
pub use playlists::{MediaFiles, from_hls};
pub use tracks::{track_of, tracks_of};
