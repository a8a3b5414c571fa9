//! What playlists that are served become when a run wrote further ones: they go on, each by the segments that are new (RFC 8216,
//! 6.2.1 and 6.2.2).
#![tactic(auto)]

mod fault;
mod joint;
mod listed;
mod plan;
mod track;

pub use fault::PublishFault;
pub use joint::{Joint, Shift, joint_of};
pub use plan::{ChangeList, Course, Options, Publication, published};
pub use track::{Change, Track};
