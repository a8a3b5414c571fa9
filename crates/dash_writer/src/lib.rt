//! The MPD of a presentation that came from playlists (ISO/IEC 23009-1), written element by element to a file.
#![tactic(auto)]

mod attribute;
mod element;
mod escape;
mod listed;
mod live;
mod manifest;
mod outline;
mod segments;
mod sets;
mod template;
mod timed;
mod times;

pub use bridge_io::OutFault;
pub use live::{
    LiveMpd, LivePeriod, LivePeriodList, LiveRun, LiveRunList, LiveSegment, LiveSegmentList,
    write_live_mpd,
};
pub use manifest::write_mpd;
pub use segment_forms::Form;
pub use timed::{TickList, TickRun, TickSeq, write_mpd_timed};
