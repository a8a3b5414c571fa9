//! Lists of texts that are identified by number, so that many of them can be merged in linear time.
#![tactic(auto)]

mod found;
mod lists;
mod table;

pub use lists::TextLists;
