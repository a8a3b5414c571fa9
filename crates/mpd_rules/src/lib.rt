//! The rules of an MPD: its effective values for each Representation, or the first error (ISO/IEC 23009-1, 5.3).
#![tactic(auto)]

mod build;
mod children;
mod common;
mod facts;
mod file_index;
mod frame_rate;
mod from_levels;
pub mod laws;
mod passes;
mod periods;
mod readings;
mod rows;
mod typed;
mod view;

pub use file_index::FileIndex;
pub use mpd_levels::{Addressing, InitView, SegmentRow, Tables};
pub use mpd_profile::RuleFault;
pub use passes::{rules, rules_indexed};
pub use typed::TypedMpd;
pub use view::{BaseWalk, PeriodWalk, RepWalk, TrackView, TypedPeriod};

/// An MPD with SegmentTemplate or SegmentList.
pub type Mpd = TypedMpd<SegmentRow>;

/// A Period of it.
pub type PeriodView<'a> = TypedPeriod<'a, SegmentRow>;

/// A Representation of it.
pub type RepView<'a> = TrackView<'a, SegmentRow>;

/// An MPD with SegmentBase, whose files have a `sidx`.
pub type IndexedMpd = TypedMpd<FileIndex>;

/// A Period of it.
pub type IndexedPeriod<'a> = TypedPeriod<'a, FileIndex>;

/// The Periods of it, in order.
pub type IndexedPeriodWalk<'a> = PeriodWalk<'a, FileIndex>;

/// The kept Representations of a Period, in document order.
pub type IndexedWalk<'a> = RepWalk<'a, FileIndex>;

/// A Representation of it.
pub type IndexedRep<'a> = TrackView<'a, FileIndex>;
