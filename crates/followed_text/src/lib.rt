//! The texts of playlists that follow a presentation (RFC 8216), read back as what they were written from.
#![tactic(auto)]

mod fault;
mod followed;
mod marks;
mod text;

pub use fault::FollowedFault;
pub use followed::{FollowedText, read_followed};
pub use text::text_of;
