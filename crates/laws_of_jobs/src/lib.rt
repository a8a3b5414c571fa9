//! The files after whole runs: those of `follow` by its update frames, the MPDs of `dash-times`, `follow-hls` and
//! `follow-hls-times`. Laws: the functions do nothing, and what they ensure is the law.
#![tactic(auto)]

mod follow;
mod mpds;
mod rounds;
mod timed_rounds;

pub use follow::{
    a_followed_execution_counts_its_segments, a_followed_execution_leaves_its_history,
    a_followed_execution_reads_no_further, followed_durations_never_drift,
    followed_files_are_lawful, followed_files_are_of_the_history, followed_files_reload,
    frames_are_judged_by_the_history,
};
pub use mpds::{
    both_forms_mean_the_same, followed_mpds_are_read, timed_mpds_mean_their_times,
    what_is_timed_means_the_playlists,
};
pub use rounds::{
    a_followed_hls_execution_leaves_its_history, a_followed_hls_execution_reads_no_further,
    both_forms_of_a_run_mean_the_same, followed_mpd_files_are_of_the_history,
    followed_runs_are_read, last_playlists_are_meant, listed_segments_stay,
};
pub use timed_rounds::{
    a_timed_execution_leaves_its_history, a_timed_execution_reads_no_further,
    both_forms_of_a_timed_run_mean_the_same, timed_listed_segments_stay,
    timed_mpd_files_are_of_the_history, timed_runs_are_read, timed_runs_list_their_playlists,
};
