//! The lines of HLS playlists, and the attribute lists of their tags: RFC 8216, 4.1 and 4.2.
#![tactic(auto)]

mod attributes;
mod clean;
mod fault;
mod laws;
mod lines;
mod marks;

pub use attributes::{Attributes, read_attributes};
pub use fault::LineFault;
pub use laws::{
    attribute_faults_are_sentences, attributes_are_as_written, attributes_are_written_one_way,
    file_faults_are_in_order, lines_are_as_written,
};
pub use lines::{Line, Lines};
pub use marks::cut_at;
