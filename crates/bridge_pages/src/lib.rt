//! The files that the bridge writes for a manifest, made in memory from what was read for it: the pages of a
//! [`page_server`].
#![tactic(auto)]

mod ends;
mod made;
mod media;
mod needs;
mod page;
mod playlists;
mod sources;
mod verb;
mod words;

pub use made::Made;
pub use page::pages;
pub use playlists::Playlists;
