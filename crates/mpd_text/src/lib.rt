//! Reads the text of an MPD into the tree that it spells, or finds its one fault.
#![tactic(auto)]

mod attributes;
mod class;
mod clean;
mod content;
mod kept;
mod many_names;
mod marked;
mod markup;
mod places;
mod prolog;
mod read;
mod references;
mod text;

pub use read::{read_tree, tree_from_bytes};
