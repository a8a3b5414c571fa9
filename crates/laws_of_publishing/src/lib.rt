//! Laws of what is published.
#![tactic(auto)]

mod lists;

pub use lists::{
    a_publication_again_changes_nothing, a_run_is_served_as_it_is, no_gap_is_silent,
    nothing_is_published_twice, published_lists_go_on, published_lists_reload,
    sections_rise_evenly, what_is_published_can_be_written,
};
