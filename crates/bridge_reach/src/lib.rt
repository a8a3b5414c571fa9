//! Commands that read more of a presentation than its manifest: the `sidx` of its media files, their decode times, and
//! snapshots of its live playlists.
#![tactic(auto)]

mod agree;
mod dash_times;
mod file_times;
mod follow_hls;
mod index;
mod laws;
mod round_laws;
mod rounds;
mod segment_file;
mod timed_rounds;

pub use agree::run_agree;
pub use dash_times::run_dash_times;
pub use follow_hls::{run_follow_hls, run_follow_hls_times};
pub use index::{run_hls_index, values_of};
pub use laws::{what_agrees_has_the_files_times, what_is_written_has_the_files_times};
pub use round_laws::{the_mpd_is_of_the_accepted_rounds, the_timed_mpd_is_of_the_accepted_rounds};
