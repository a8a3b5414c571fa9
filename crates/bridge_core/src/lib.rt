//! The commands of the manifest bridge and its top call.
#![tactic(auto)]

mod dash;
mod follow;
mod hls;
mod laws;
mod make;
mod run;
mod show;
mod source;

pub use bridge_courses::Status;
pub use laws::{
    comparing_is_checking, forms_end_alike, what_agrees_begins_as_its_files_state,
    what_is_checked_agrees, what_is_compared_is_all_that_differs,
    what_is_timed_has_the_files_times, what_is_written_means_the_indexes,
    what_is_written_means_the_mpd, what_is_written_means_the_playlists,
};
pub use run::bridge;
