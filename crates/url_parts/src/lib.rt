//! URLs of media files, their byte ranges, and the classes of their codecs.
#![tactic(auto)]

mod address;
mod alike;
mod base;
mod code;
mod fault;
pub mod laws;
mod range;
mod resolver;
mod roots;
mod spelling;

pub use address::{Address, Part};
pub use alike::{has_detours, has_line_bytes, in_line, shorter, without_detours};
pub use base::{Base, local_name};
pub use code::{CodeClass, code_class};
pub use fault::UrlFault;
pub use range::{Range, read_range};
pub use resolver::Resolver;
pub use spelling::{Front, Reference, Spelling};
