//! The reader of playlists finds no fault in what is written. Laws: the functions do nothing, and what they ensure is the law.
#![tactic(auto)]

mod playlists;

pub use playlists::written_playlists_are_taken;
