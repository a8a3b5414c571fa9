//! Where a presentation of playlists first differs from that of an MPD.
//!
//! The listed segments of both are visited in parallel, one of each at a time, up to the first difference, and none is
//! stored.
#![tactic(auto)]

mod contents;
mod elapsed;
mod heads;
mod presentations;
mod segments;
mod spot;
mod stretch;
mod walk;

pub use elapsed::Elapsed;
pub use heads::{is_same_kind, is_same_language, language_of};
pub use presentations::compare;
pub use spot::Spot;
pub use stretch::{Stretch, is_same_or_rounded};
pub use walk::Walk;
