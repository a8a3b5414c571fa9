//! Each written playlist of a followed presentation is read back as what it was written from, and is a valid update of the
//! one before it. Laws: the functions do nothing, and what they ensure is the law.
#![tactic(auto)]

mod reloads;

pub use reloads::{first_files_mean_the_same, followed_texts_are_read, followed_texts_reload};
