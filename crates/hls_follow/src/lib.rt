//! Following live playlists, and their MPD (RFC 8216, 6.2; ISO/IEC 23009-1, 5.3).
#![tactic(auto)]

mod follow;
mod formers;
mod groups;
mod kept;
mod laws;
mod maps;
mod periods;
mod reading;
mod round;
mod rules;
mod snapshot;
mod state;
mod stretches;
mod ticks;
mod timed_fault;
mod timed_laws;
mod timed_periods;
mod timed_round;
mod times;

pub use follow::{Appended, Follow};
pub use formers::FormerMedias;
pub use laws::{
    last_playlists_are_listed, numbers_keep_their_times, runs_go_on, sections_keep_their_starts,
    segments_stay, starts_stay, starts_stay_over_rounds, times_are_contiguous,
    times_are_contiguous_from_the_first,
};
pub use layer_faults::LiveFault;
pub use timed_fault::TimedFault;
pub use timed_laws::{
    first_lists_are_available, timed_periods_are_in_step, timed_playlists_are_listed,
    timed_runs_go_on, timed_segments_stay, timed_starts_stay, times_are_own,
};
