//! How a run of the program ends, and what it leaves: the statuses, the last line of the report, and the definition of
//! a run as a course of steps, for the contract of the top call.
#![tactic(auto)]

mod ending;
mod laws;
mod status;

pub use ending::{Ending, tell};
pub use laws::{
    a_calm_execution_is_complete, a_fault_has_a_cause, a_read_fault_keeps_the_files,
    a_verdict_keeps_the_steps, an_execution_leaves_its_steps,
    an_execution_makes_the_segments_of_its_steps, an_execution_reads_no_further,
    an_execution_tells_its_steps, done_is_whole, other_files_stay,
};
pub use status::{Status, Verdict};
