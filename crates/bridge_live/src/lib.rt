//! A followed MPD: the session that its first version begins, what each further update frame appends, and the playlists that are
//! written after it.
#![tactic(auto)]

mod channel;
mod live_files;
mod live_frame;
mod live_mpd;

pub use channel::Channel;
pub use live_files::write_live_files;
pub use live_frame::begin_session;
pub use live_mpd::LiveMpd;
