//! What an MPD says of its tracks for the menus and the choices of players: labels, roles, channels, access points and captions
//! (ISO/IEC 23009-1, 5.3 and 5.8).
#![tactic(auto)]

mod captions;
mod descriptors;
mod elements;
mod labels;
pub mod laws;
mod manifest;
mod starts;
mod tracks;

pub use manifest::hints;
pub use starts::Sap;
