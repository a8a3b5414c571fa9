//! Playlists in the files of a store: a master playlist with its media playlists as a presentation, and one media playlist as
//! an update of another.
#![tactic(auto)]

mod medias;
mod place;
mod presented;
mod reload;

pub use medias::{Medias, base_at};
pub use place::{StorePlace, store_place_of};
pub use presented::{master_at, presented_at, presented_in, presented_so_far};
pub use reload::run_reload;
