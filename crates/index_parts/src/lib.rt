//! The presentation of an MPD whose media files have a `sidx` (ISO/IEC 23009-1, 5.3.9.2; ISO/IEC 14496-12, 8.16.3).
//!
//! Only the bytes of its `sidx` are read of a media file. Each of its references is a segment.
#![tactic(auto)]

mod fault;
mod index;
mod laws;
mod located;
mod parts;
mod segments;

pub use fault::IndexFault;
pub use laws::segments_tile;
pub use layer_faults::index::FileFault;
pub use located::{address_of, deepest};
pub use parts::index_parts;
