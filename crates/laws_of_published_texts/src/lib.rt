//! Laws of the texts of published playlists.
#![tactic(auto)]

mod texts;

pub use texts::{published_texts_are_read, published_texts_reload, read_texts_are_told};
