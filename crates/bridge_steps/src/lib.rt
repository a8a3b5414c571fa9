//! The steps of commands: the locations of a command's files, the presentation of an MPD, the files that are written for one,
//! its report lines, and how a command ends; and the run of following, frame by frame.
#![tactic(auto)]

mod done;
mod ending;
mod frames;
mod listing;
mod manifest;
mod players;
mod playlists;
mod run;
mod seconds;

pub use done::{count_of, done_line, mpd_and_line, push_counts};
pub use ending::{place_in, told, written};
pub use frames::Follow;
pub use listing::push_shown;
pub use manifest::{Ready, checked, mpd_at, mpd_in, ready_of, tree_of, values_for, values_of};
pub use players::players_of;
pub use playlists::{Output, file_in, write_playlists, write_the_master};
pub use run::follow;
pub use seconds::push_seconds;
