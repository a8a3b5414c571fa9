//! The decode times of media files (ISO/IEC 14496-12, 8.4.2 and 8.8.12), compared with the times of a presentation.
//!
//! Of a part of a file only the first bytes are read: those up to the end of the one box that has its time.
#![tactic(auto)]

mod agreement;
mod fault;
mod lasting;
mod laws;
mod listing;
mod origin;
mod part;
mod period_start;
mod times;
mod told;

pub use agreement::first_apart;
pub use fault::{SegmentSpot, TimesFault};
pub use lasting::{Clock, DurationsList, TickSeq, durations, nearest_ticks, ticks_of};
pub use laws::{
    last_durations_are_the_nearest, offsets_are_one_time, periods_start_before_their_segments,
    times_are_scaled, tracks_in_step_begin_at_their_offsets,
};
pub use layer_faults::times::FileFault;
pub use listing::listing_at;
pub use origin::Origin;
pub use part::{part_scale, part_start};
pub use period_start::PeriodStart;
pub use times::{SegmentTimes, StartList, TimesList, fragment_times};
pub use told::Stated;
