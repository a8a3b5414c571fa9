// Why a text is rejected.
ghost use Rattle.std.specs.Prelude.{◌≡◌};
ghost use Rattle.mpd_tree.specs.declared.fault.TextFault.TheVariants.{Memory};

use bridge_io::{NoMemory, Place};
use std::alloc::{AllocError, AllocFailed};
use thiserror::Error;

/// Why bytes aren't the text of a readable MPD, and where. The first of several faults in this order is reported:
/// [`TextFault::NotUtf8`] anywhere, [`TextFault::BadChar`] anywhere, and then the leftmost one, by the byte that
/// decides it.
#[derive(Clone, Copy, Debug, PartialEq, Eq, Error)]
pub enum TextFault {
    /// The bytes are not UTF-8: the first byte of the first bad sequence.
    #[error("not UTF-8")]
    NotUtf8(Place),
    /// A character that XML 1.0 2.2 forbids in every text.
    #[error("a character that no text may have")]
    BadChar(Place),
    /// The bytes end before the root does, or inside markup: the end of the bytes.
    #[error("the text is cut")]
    Cut(Place),
    /// A byte that isn't allowed there, for no other reason of these.
    #[error("a byte that may not stand there")]
    Syntax(Place),
    /// An end tag whose name isn't that of the open element: its `<`.
    #[error("the end tag of another element")]
    TagMismatch(Place),
    /// A repeated attribute name in a tag: its second occurrence.
    #[error("an attribute that stands twice")]
    DoubleAttribute(Place),
    /// A `&` that doesn't begin a valid reference.
    #[error("no reference to a character")]
    Entity(Place),
    /// `<!D`, which begins a document type: the `<`.
    #[error("a document type")]
    Doctype(Place),
    /// `<![`, which begins a CDATA section: the `<`.
    #[error("a CDATA section")]
    Cdata(Place),
    /// `<?` that isn't the declaration at the start of the text: the `<`.
    #[error("a processing instruction")]
    Instruction(Place),
    /// An element nested inside 32 others: its `<`.
    #[error("elements too deep")]
    Depth(Place),
    /// Out of memory, which says nothing about the text.
    #[error("out of memory")]
    Memory,
}

impl From<NoMemory> for TextFault {
    ghost from_gives = { λ _ fault. fault ≡ Memory };

    fn from(_: NoMemory) -> TextFault {
        TextFault::Memory
    }
}

impl From<AllocError> for TextFault {
    ghost from_gives = { λ _ fault. fault ≡ Memory };

    fn from(_: AllocError) -> TextFault {
        TextFault::Memory
    }
}

impl<T: Drop> From<AllocFailed<T>> for TextFault {
    ghost from_gives = { λ _ fault. fault ≡ Memory };

    fn from(_: AllocFailed<T>) -> TextFault {
        TextFault::Memory
    }
}
