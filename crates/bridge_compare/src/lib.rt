//! The commands that compare an MPD with a master playlist: the first difference, and all of them.
#![tactic(auto)]

mod check;
mod compare;
mod lines;

pub use check::run_check;
pub use compare::run_compare;
