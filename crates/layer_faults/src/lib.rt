//! Why playlists and media files are rejected, for the layers that check them and for those that report it.
#![tactic(auto)]

mod hls;
pub mod index;
mod live;
pub mod times;

pub use hls::HlsFault;
pub use live::LiveFault;
