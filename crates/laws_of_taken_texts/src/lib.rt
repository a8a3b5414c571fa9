//! Published playlists are taken by the reader that takes served ones. Laws: the functions do nothing, and what they ensure is the
//! law.
#![tactic(auto)]

mod texts;

pub use texts::{published_texts_are_taken, read_texts_are_taken};
