//! Scans of bytes, 32 lanes at a time: the first byte that a text may not contain, the first byte of a set, and the
//! number of line feeds. No call allocates.
#![tactic(auto)]

mod class;
mod lanes;
mod lines;
mod scan;
mod set;

pub use class::{Class, first_outside};
pub use lines::count_lf;
pub use set::{ByteSet, first_of_set};
