//! The rules by which an update of a followed presentation is checked against the state of a session: in order, with
//! the values that they report, and without allocating.
#![tactic(auto)]

mod block;
mod changed;
mod coming;
mod fault;
mod known;
mod laws;
mod long;
mod order;
mod removal;
mod rewritten;
mod room;
mod standing;
mod steps;
mod times;
mod track;
mod track_next;
mod walk;

pub use changed::place_of;
pub use coming::{Coming, Next};
pub use fault::RefreshFault;
pub use known::{KeptAttributes, KnownPeriod, KnownPeriods, Source, periods_from};
pub use laws::{accepted_states_stay_sound, first_states_are_sound};
pub use removal::removed_of;
pub use standing::Standing;
pub use track::{Fact, LastKept, LiveTrack};
pub use track_next::TrackNext;
