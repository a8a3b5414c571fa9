//! Runs of the program with `--explain`: what a command does and reports without it, and behind that lines that explain each refusal
//! and what was dropped.
#![tactic(auto)]

mod dropped;
mod heard;
mod notes;
mod overheard;
mod run;
mod words;

pub use overheard::Overheard;
pub use run::explained_bridge;
