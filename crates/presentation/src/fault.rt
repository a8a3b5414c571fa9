// Why a presentation is rejected.
ghost use Rattle.presentation.specs.declared.fault.PresentationFault.TheVariants.{Memory};

use bridge_io::{NoMemory, Place};
use template_ids::TemplateFault;
use thiserror::Error;
use timeline::TimeFault;
use url_parts::UrlFault;

/// Where a URL is rejected.
#[derive(Clone, Copy, PartialEq, Eq, Debug)]
pub enum Spot {
    /// At a Representation.
    At(Place),
    /// At a listed segment, counted from 0.
    Segment {
        /// The section's index.
        section: usize,
        /// The track's index.
        track: usize,
        /// The segment's index among those that are listed there.
        segment: u64,
    },
}

/// Why there is no presentation.
#[derive(Clone, Copy, PartialEq, Eq, Debug, Error)]
pub enum PresentationFault {
    /// A Period doesn't have the tracks of the first one: the Period.
    #[error("the Periods differ in their tracks")]
    PeriodsDiffer(Place),
    /// There are more than 1,000 sections, 200 tracks, 100,000 segments of a track, or 500,000 in all.
    #[error("too many sections, tracks or segments")]
    Limit,
    /// A track without segments in a section; of a followed presentation, a track without any.
    #[error("a track has no segments")]
    NoSegments {
        /// The section's index, from 0; 0 for a track without any.
        section: usize,
        /// The track's index, from 0.
        track: usize,
    },
    /// A URL is rejected.
    #[error("an address is refused")]
    Url(UrlFault, Spot),
    /// A template is rejected: its Representation.
    #[error("a template is refused")]
    Template(TemplateFault, Place),
    /// Segment times are rejected: their Representation.
    #[error("times are refused")]
    Timeline(TimeFault, Place),
    /// A live MPD is read without a current time.
    #[error("an instant is needed")]
    NeedsNow,
    /// Out of memory.
    #[error("out of memory")]
    Memory,
}

/// Every error that only means out of memory.
impl<E: Drop> From<E> for PresentationFault
where
    NoMemory: From<E>,
{
    ghost use Rattle.std.specs.Prelude.{◌≡◌};

    ghost from_gives = { λ _ fault. fault ≡ Memory };

    fn from(_: E) -> PresentationFault {
        PresentationFault::Memory
    }
}
