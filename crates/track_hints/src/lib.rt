//! What an MPD says of its tracks for the menus and the choices of players, beside what is needed to play them.
#![tactic(auto)]

mod hints;

pub use hints::{HintList, Hints, TrackHints};
