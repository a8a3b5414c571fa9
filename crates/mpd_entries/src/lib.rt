//! The segments as an MPD lists them: the entries of a SegmentTimeline, and the names of a SegmentList.
#![tactic(auto)]

mod entry;
mod ref_part;
mod shared_names;

use bridge_io::Sequence;
pub use entry::SEntry;
pub use ref_part::RefPart;
pub use shared_names::SharedNames;

/// The S elements of a SegmentTimeline.
pub type SList = Sequence<SEntry>;

/// The names of a list's segments.
pub type RefList = Sequence<RefPart>;
