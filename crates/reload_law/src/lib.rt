//! Whether a media playlist is a valid update of an older one: seven rules after RFC 8216, 6.2.
#![tactic(auto)]

mod laws;
mod segments;
mod unlawful;

pub use laws::{a_playlist_reloads_itself, rules_are_sentences};
pub use unlawful::{Unlawful, lawful};
