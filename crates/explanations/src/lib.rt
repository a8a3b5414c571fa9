//! What is behind a refusal in the report: the source around its place, what is asked there, and where the documents say
//! more. And what is dropped of a manifest, and why. What the texts say is tested, not proved.
#![tactic(auto)]

mod asked;
mod attribute;
mod element;
mod excerpt;
mod explain;
mod feature;
mod left_out;
mod left_out_tracks;
mod line;
mod lines;
mod missing;
mod rows;
mod shape;
mod shown;
mod tag;
mod template;
mod value;

pub use explain::explanation;
pub use left_out::left_out_of_mpd;
pub use left_out_tracks::left_out_of_master;
pub use line::{is_refusal, left_out_count, refused_file};
