//! Segments in order: the start, the end, the number and the URL of each one.
//!
//! The segments of a Representation are stored as runs of equal segments, never one by one: a position among them is
//! found by division, and a walk from a position only adds.
#![tactic(auto)]

mod address_writer;
mod bound;
mod builder;
mod cursor;
mod durations;
mod entry;
mod fault;
mod filled_names;
mod laws;
mod limits;
mod listing;
mod maker;
mod media_run;
mod media_runs;
mod media_template;
mod names;
mod run;
mod run_slice;
mod run_table;
mod runs;
mod shared_timeline;
mod short_names;
mod shorter_template;
mod span;
mod spans;
mod time_walk;
mod timelines;
mod window;

pub use address_writer::AddressWriter;
use bridge_io::Sequence;
pub use cursor::Cursor;
pub use entry::{End, Scale};
pub use fault::{ListFault, TimeFault};
pub use laws::{
    closed_ends, ends_rise, open_ends, own_addresses, own_addresses_made, starts_in_ticks,
};
pub use listing::{Listing, Segment};
pub use media_template::MediaTemplate;
pub use mpd_entries::{RefList, RefPart, SEntry, SList, SharedNames};
pub use names::Names;
pub use runs::Runs;
pub use shared_timeline::SharedTimeline;
pub use span::{Span, SpanRun};
pub use time_walk::TimeWalk;
use url_parts::Part;
pub use window::Window;

/// Times of segments.
pub type SpanList = Sequence<Span>;

/// The URLs of segments, with their byte ranges.
pub type PartList = Sequence<Part>;
