// Why an MPD is rejected.
ghost use Rattle.std.specs.Prelude.{◌≡◌};
ghost use Rattle.mpd_profile.specs.declared.fault.RuleFault.TheVariants.{Memory};

use bridge_io::{NoMemory, Place};
use thiserror::Error;

/// Why an MPD is rejected, and where: at the `<` of an element, or at the first byte of an attribute's name.
#[derive(Clone, Copy, PartialEq, Eq, Debug, Error)]
pub enum RuleFault {
    /// The root isn't an MPD.
    #[error("the root is not an MPD")]
    Root(Place),
    /// The root doesn't have the MPD namespace (ISO/IEC 23009-1, 5.3.1.2).
    #[error("not the namespace of an MPD")]
    Namespace(Place),
    /// A required attribute or element is missing.
    #[error("an attribute or element is missing")]
    Missing(Place),
    /// An attribute with an invalid value, or a repeated Period id.
    #[error("not such a value")]
    Value(Place),
    /// A Period whose start isn't known (5.3.2.1).
    #[error("a Period without a start")]
    NoStart(Place),
    /// A Period that doesn't begin after the previous one, or doesn't end after its start, or ends too late.
    #[error("a Period out of order")]
    PeriodOrder(Place),
    /// Encrypted segments (5.8.4.1).
    #[error("encrypted segments")]
    Encryption(Place),
    /// Events (5.10).
    #[error("events")]
    Events(Place),
    /// Segments that are available before they are complete (5.3.9.2).
    #[error("segments of low latency")]
    LowLatency(Place),
    /// An element in another document (5.5).
    #[error("a remote element")]
    Remote(Place),
    /// An EssentialProperty of the MPD or a Period (5.8.4.8).
    #[error("an essential property")]
    Essential(Place),
    /// An unsupported feature, for no other reason of these.
    #[error("a feature that is not supported")]
    Unsupported(Place),
    /// A Representation whose segments are known only from a `sidx` (5.3.9.2.2).
    #[error("segments that an index tells")]
    IndexNeeded(Place),
    /// No Period, or one with no video and no audio.
    #[error("no tracks")]
    NoTracks(Place),
    /// Out of memory, which says nothing about the MPD.
    #[error("out of memory")]
    Memory,
}

/// Every error that only means out of memory.
impl<E: Drop> From<E> for RuleFault
where
    NoMemory: From<E>,
{
    ghost from_gives = { λ _ fault. fault ≡ Memory };

    fn from(_: E) -> RuleFault {
        RuleFault::Memory
    }
}
