//! The presentation of an MPD, or its first error, and what an MPD means.
#![tactic(auto)]

mod by_length;
mod checks;
mod described;
mod former;
mod initializations;
mod laws;
mod lineup;
mod manifest;
mod shared;
mod told;

pub use described::{section_in, tracks_in};
pub use laws::{
    presentations_mean_their_mpd, presentations_show_their_mpd, static_mpds_are_finished,
    verified_mpds_can_be_listed,
};
pub use manifest::from_mpd;
