//! Segment templates of an MPD, and the names that they generate: ISO/IEC 23009-1, 5.3.9.4.4.
#![tactic(auto)]

mod fault;
mod filled;
mod identifier;
mod ids;
pub mod laws;
mod long;
mod piece;
mod slot;
mod template;

pub use fault::TemplateFault;
pub use filled::Filled;
pub use ids::{BorrowedIds, Ids};
pub use slot::{Counter, Slot};
pub use template::Template;
