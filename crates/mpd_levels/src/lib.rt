//! How the segments of a Representation are addressed, by its levels: the Period, the AdaptationSet and the
//! Representation itself (ISO/IEC 23009-1, 5.3.9).
#![tactic(auto)]

mod addressing;
mod indexed;
mod initialization;
mod level;
mod readings;
mod shared_text;
mod tables;
mod values;

pub use addressing::{Addressing, SegmentRow};
pub use indexed::{IndexRow, InitView};
pub use level::Level;
pub use shared_text::{SharedText, share_text};
pub use tables::Tables;
