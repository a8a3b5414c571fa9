//! Which part of ISO/IEC 23009-1 is read, and what is rejected wherever it occurs in an MPD: the elements and
//! attributes with their values, the features that are rejected with an error code, and what is dropped and ignored.
#![tactic(auto)]

mod fault;
mod feature;
mod heads;
mod left_out;
mod listed;
mod parent;
mod refusal;
mod siblings;
mod tables;
mod value;
mod visit;

pub use fault::RuleFault;
pub use heads::{has_child, is_dynamic, value_named};
pub use left_out::{is_left_out, is_representation_left_out, is_set_left_out};
pub use listed::{Addressing, Listed};
pub use refusal::check;
pub use value::Value;
