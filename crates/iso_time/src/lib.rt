//! Durations and timestamps as manifests write them: `xs:duration` and `xs:dateTime` of XML Schema part 2, read to
//! whole nanoseconds, and written.
//!
//! Nothing here allocates, and every call returns for every argument that its contract allows.
#![tactic(auto)]

mod digits;
mod duration;
mod instant;
pub mod laws;

pub use duration::{DurationFault, DurationText, read_duration, write_duration};
pub use instant::{Instant, InstantFault, read_instant, write_instant_ms};
