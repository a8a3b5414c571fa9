// Why a playlist's text is rejected.
ghost use Rattle.std.specs.Prelude.{◌≡◌};
ghost use Rattle.hls_lines.specs.declared.fault.LineFault.TheVariants.{Memory};

use bridge_io::{NoMemory, Place};
use thiserror::Error;

/// Why bytes aren't the lines of a playlist, or a text isn't an attribute list. The first three are tried in this
/// order over the whole file.
#[derive(Clone, Copy, Debug, PartialEq, Eq, Error)]
pub enum LineFault {
    /// The file is not UTF-8 (RFC 8216 4.1): the first byte of the first bad sequence.
    #[error("not UTF-8")]
    NotUtf8(Place),
    /// A control character other than tab, LF and CR (RFC 8216 4.1, which doesn't allow a tab either): its first byte.
    #[error("a control character")]
    BadChar(Place),
    /// The first line is not `#EXTM3U` (RFC 8216 4.3.1.1): the file's first byte.
    #[error("no playlist")]
    Header(Place),
    /// A text that isn't an attribute list (RFC 8216 4.2): the position that was passed in.
    #[error("not a list of attributes")]
    Attribute(Place),
    /// An attribute list with a repeated name (RFC 8216 4.2): the position that was passed in.
    #[error("an attribute that stands twice")]
    DoubleAttribute(Place),
    /// Out of memory, which says nothing about the text.
    #[error("out of memory")]
    Memory,
}

/// Every error that only means out of memory.
impl<E: Drop> From<E> for LineFault
where
    NoMemory: From<E>,
{
    ghost from_gives = { λ _ fault. fault ≡ Memory };

    fn from(_: E) -> LineFault {
        LineFault::Memory
    }
}
