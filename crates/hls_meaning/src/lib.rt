//! What a multivariant playlist (master) and its media playlists mean (RFC 8216, 4.3), as a value that the MPD of the same
//! presentation also has.
//!
//! The definition is in `specs/`. It has no limits and no bounds: it says what playlists mean, whether a reader with
//! limits accepts them or not.
#![tactic(auto)]

mod laws;

pub use laws::sections_rise;
