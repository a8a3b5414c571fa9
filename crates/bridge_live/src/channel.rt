// A channel.

use live_session::Session;
use track_hints::Hints;

/// A followed MPD, and what its playlists need of the first accepted version.
#[derive(Drop)]
pub struct Channel {
    /// The session of its updates.
    pub session: Session,
    /// What the first accepted version says for players; `None`: what is written is plain.
    pub players: Option<Hints>,
}
