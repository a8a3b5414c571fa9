//! What every part of the manifest bridge shares: texts, names, lists, positions in files, and the three I/O traits.
#![tactic(auto)]

mod file_writer;
mod media;
mod name;
mod no_memory;
mod out_fault;
mod outside;
mod piece;
mod place;
mod read_error;
mod sequence;
mod sheet;
mod steps;
mod text;
mod whole_file;

pub use file_writer::FileWriter;
pub use media::{Kind, Ratio, Size};
pub use name::{Name, NameFault, is_name};
pub use no_memory::NoMemory;
pub use out_fault::OutFault;
pub use outside::{Fail, Sink, Source, Store};
pub use piece::Piece;
pub use place::Place;
pub use read_error::Slurp;
pub use sequence::Sequence;
pub use sheet::Sheet;
pub use std::sync::ledger::Ledger;
pub use steps::Steps;
pub use text::Text;
pub use whole_file::slurp;

/// The bytes of a file.
pub type Bytes = Sequence<u8>;
