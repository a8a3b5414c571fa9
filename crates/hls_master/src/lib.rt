//! Multivariant (master) playlists (RFC 8216, 4.3.4): their lines, and their tracks.
#![tactic(auto)]

mod address;
mod attribute;
mod codes;
mod entry;
mod fault;
mod master;
mod mention;
mod mentions;
mod names;
mod rendition;
mod texts;
mod track;
mod value;
mod variant;
mod whole;

pub use entry::{Entry, next_entry};
pub use fault::MasterFault;
pub use master::{Master, read_master};
pub use rendition::{Rendition, read_rendition};
pub use track::{MasterTrack, MasterTracks};
pub use variant::{Shown, Variant, read_variant};
