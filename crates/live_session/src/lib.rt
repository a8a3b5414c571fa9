//! The session of a followed presentation: its state, and its updates.
#![tactic(auto)]

mod begin;
mod change;
mod growth;
mod kept;
mod longest;
mod made;
mod maker;
mod new_segments;
mod playlist;
mod session;

pub use live_judge::RefreshFault;
pub use playlist::LivePlaylist;
pub use session::{Appended, Session};
