//! The texts of playlists (RFC 8216), written line by line to a file.
#![tactic(auto)]

mod attribute;
mod entry;
mod finished;
mod items;
pub mod laws;
mod line;
mod master;
mod menus;
mod renditions;
mod variants;

pub use bridge_io::OutFault;
pub use finished::{Targets, write_media};
pub use items::{ItemList, MediaHead, MediaItem, write_item_slices, write_items};
pub use master::write_master;
