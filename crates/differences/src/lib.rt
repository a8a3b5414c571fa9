//! Every difference of a presentation of playlists from that of an MPD, with a tolerance of time.
//!
//! The listed segments of both are visited in parallel, one of each at a time. Each is made once and none is stored; of the
//! differences the first ones are kept, and all are counted.
#![tactic(auto)]

mod apart;
mod collected;
mod contents;
mod deviation;
mod heads;
mod laws;
mod presentations;
mod rounded;
mod segments;
mod side;
mod times;

pub use deviation::{Apart, Deviation, Deviations, How};
pub use laws::{
    none_where_they_agree, presentations_have_sections, the_first_is_the_first_difference,
    the_same_deviate_alike,
};
pub use presentations::differences;
