//! A presentation: tracks over sections, with their segments, from either kind of manifest.
#![tactic(auto)]

mod count;
mod ends;
mod extent;
mod fault;
mod laws;
mod longest;
mod parts;
mod presentation;
mod segments;
mod track;
mod verify;

use bridge_io::Sequence;
pub use extent::Extent;
pub use fault::{PresentationFault, Spot};
pub use laws::{
    answers_allow_listings, playlists_can_be_listed, presentations_mean_what_they_list,
};
pub use longest::Longest;
pub use parts::{Content, Parts};
pub use presentation::{Following, Presentation};
pub use segments::{Behind, PrintedRun, PrintedSegments, PrintedTimes};
pub use track::{Section, Track};

/// Tracks in order.
pub type TrackList = Sequence<Track>;

/// Sections in order.
pub type SectionList = Sequence<Section>;

/// The contents of the tracks in the sections: by section, then by track.
pub type ContentList = Sequence<Content>;
