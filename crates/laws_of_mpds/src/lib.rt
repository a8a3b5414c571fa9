//! The MPD that is written for playlists is read back as what it was written from, and means the same; so does the
//! presentation of playlists. Laws: the functions do nothing, and what they ensure is the law.
#![tactic(auto)]

mod from_playlists;
mod presented;
mod written;

pub use from_playlists::{
    read_tracks_can_be_written, what_is_read_has_addresses, written_playlists_mean_the_same,
};
pub use presented::{
    listed_mean_their_files, presented_mean_their_files, presented_mean_what_is_told,
};
pub use written::{
    forms_give_the_same, forms_mean_the_same, live_texts_are_read, timed_contents_mean_the_same,
    timed_lists_are_read, timed_presentations_keep_their_files, timed_texts_are_read,
    timed_texts_mean_their_times, written_contents_mean_the_same, written_lists_are_read,
    written_texts_mean_the_same, written_trees_mean_the_same,
};
