//! The program `bridge_publish`: from the playlists that a run wrote to those that a server serves, which go on for ever.
#![tactic(auto)]

mod decision;
mod first;
mod job;
mod laws;
mod limits;
mod names;
mod next;
mod placed_master;
mod refusal;
mod report;
mod same;
mod side;
mod top;
mod words;
mod written;

pub use bridge_courses::Status;
pub use laws::{
    a_first_publication_again_is_unchanged, calm_runs_are_decided, first_folders_are_read,
    jobs_are_proper, publications_again_are_unchanged, publications_are_served,
    publications_write_lists, runs_again_change_nothing, served_folders_are_read,
};
pub use top::publish;
