//! The groups of the audio renditions of a master playlist (RFC 8216, 4.3.4.1.1): by codecs, or by families of codecs.
#![tactic(auto)]

mod families;
mod groups;
mod keys;
pub mod laws;

use bridge_io::Sequence;
pub use families::in_families;
pub use groups::{Filling, groups_of};
pub use keys::{Key, keys_of, own_group};

/// Audio groups: by group, then by audio set.
pub type GroupList = Sequence<Group>;

/// The tracks of an audio group: for each audio set the index of its track, if it has one there.
pub type Group = Sequence<Option<usize>>;
