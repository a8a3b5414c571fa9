//! The playlists that are written for an MPD are read back as what they were written from, and mean the same; also where its
//! files have a `sidx`. Laws: the functions do nothing, and what they ensure is the law.
#![tactic(auto)]

mod indexes;
mod lines;
mod master;
mod media;
mod origins;
mod players;
mod same;

pub use indexes::{
    indexed_parts_can_be_written, indexes_mean_what_they_list, what_is_written_means_the_indexes,
};
pub use lines::written_lines_are_read;
pub use master::written_masters_are_read;
pub use media::{
    playlists_are_read_again, track_playlists_are_read_again, written_values_are_read,
};
pub use origins::{
    counted_segments_are_in_pace, indexed_tracks_are_writable, indexes_are_told, parts_are_located,
    read_trees_are_of_bytes, static_parts_are_located, static_segments_are_in_pace,
    static_tracks_are_writable, tracks_are_writable,
};
pub use players::{
    defaults_are_single, groups_are_of_one_family, no_track_is_missing, targets_are_shared,
    variants_tell_their_codes,
};
pub use same::{
    read_playlists_mean_the_same, tracks_mean_the_same, written_means_the_same,
    written_playlists_mean_the_same,
};
