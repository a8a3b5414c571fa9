//! How an MPD gives the segments of its tracks, and the pattern of their addresses, for a SegmentTemplate with `$Number$`
//! (ISO/IEC 23009-1, 5.3.9.4).
//!
//! There is one where each address is a prefix, a number and a suffix, and the number counts up by one from segment to segment.
//! The first number is a run of digits of the first address: the one that holds the first place where the second address differs,
//! or, of a lone address, the last digit of its file name before the name's last `.`. The run has at most 20 digits, and each
//! number is below 2^32. Numbers are padded with zeros to the length of the run where it begins with a zero that it doesn't need.
#![tactic(auto)]

mod address_log;
mod finder;
mod form;
pub mod laws;
mod media;
mod number;
mod pattern;
mod place;
mod progress;
mod run;
mod steps;

pub use finder::PatternFinder;
pub use form::Form;
pub use media::push_literal;
pub use pattern::Pattern;
