//! What a manifest means, by whichever standard it is written, and when two manifests mean the same.
//!
//! An MPD and a multivariant playlist (master) with its media playlists denote one kind of value: tracks with their
//! kinds and languages, and the content of each track in each section, that is, an init segment and segments with
//! their times. The definitions are in `specs/`; this crate has their laws.
#![tactic(auto)]

mod difference;
mod laws;

pub use difference::{Aspect, Difference};
pub use laws::{
    a_meaning_is_the_same_as_itself, agreeing_has_no_difference, the_same_agrees,
    the_same_differ_alike,
};
