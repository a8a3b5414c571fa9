//! Implementations of the I/O traits: the operating system's files and streams, and their counterparts in memory,
//! whose calls fail where a list says so.
#![tactic(auto)]

mod fault;
mod fill;
mod folder_store;
mod mem_sink;
mod mem_source;
mod mem_store;
mod process;
mod schedule;
mod shelf;
mod std_sink;
mod std_source;

use bridge_io::Sequence;
pub use folder_store::FolderStore;
pub use mem_sink::MemSink;
pub use mem_source::MemSource;
pub use mem_store::MemStore;
pub use process::{held_descriptors, words};
pub use shelf::Shelf;
pub use std_sink::StdSink;
pub use std_source::StdSource;

/// Call numbers, counted from 0.
pub type CallList = Sequence<u64>;
