//! Values of an MPD's attributes that no other standard defines: numbers, frame rates, lists of codecs, languages and
//! the kinds of media types (ISO/IEC 23009-1, 5.3). Durations and timestamps are read by `iso_time`, ranges by
//! `url_parts`.
#![tactic(auto)]

mod blank;
mod codecs;
mod frame_rate;
mod language;
mod media_type;
mod number;

pub use blank::{Blank, trimmed};
pub use codecs::{are_codes, has_foreign_code};
pub use frame_rate::read_frame_rate;
pub use language::is_language;
pub use media_type::{is_alike, kind_of};
pub use number::{read_number, read_signed};
