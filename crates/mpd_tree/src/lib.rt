//! The tree of an MPD's text: the grammar that determines which tree spells a text, or its one fault; the rows that store
//! a tree; and how element trees are written.
#![tactic(auto)]

mod attr;
mod element_table;
mod escape;
mod fault;
mod laws;
mod lines;
mod node;
mod printed;
mod stop;
mod tree;

pub use attr::Attr;
pub use element_table::{ElementTable, count};
pub use escape::escaped;
pub use fault::TextFault;
pub use laws::{no_memory, one_reading, reads_back};
pub use node::{AttrWalk, Node, NodeWalk};
pub use printed::printed_trees_are_read;
pub use stop::{Fault, Stop, Wrong, decided, syntax};
pub use tree::{AttributeRow, ElementRow, KeptSpan, Rows, Tree};
