// Why reading stops.
ghost use Rattle.std.specs.Prelude.{◌≡◌, length};
ghost use Rattle.mpd_tree.specs.Positions as spec;
ghost use Rattle.mpd_tree.specs.Reading.{stopped};
ghost use Rattle.mpd_tree.specs.declared.stop.Stop.TheVariants.{Memory};

use std::alloc::{AllocError, AllocFailed};

/// What is wrong with a text.
#[derive(Clone, Copy)]
pub enum Wrong {
    /// A byte that isn't allowed there.
    Syntax,
    /// The end tag of another element.
    TagMismatch,
    /// A repeated attribute name in a tag.
    DoubleAttribute,
    /// A `&` that doesn't begin a valid reference.
    Entity,
    /// A document type.
    Doctype,
    /// A CDATA section.
    Cdata,
    /// A processing instruction.
    Instruction,
    /// An element nested inside 32 others.
    Depth,
}

/// What is wrong, with the number of bytes left from the position where it is reported, and from the byte that decides
/// it. Where no byte is left there the text is truncated.
#[derive(Clone, Copy)]
pub struct Fault {
    /// What is wrong.
    pub wrong: Wrong,
    /// How many bytes are left from the position where it is reported.
    pub told: usize,
    /// How many bytes are left from the byte that decides it.
    pub decided: usize,
}

/// No byte is left.
const CUT: Fault = Fault {
    wrong: Wrong::Syntax,
    told: 0,
    decided: 0,
};

/// Why reading stops.
#[derive(Drop)]
pub enum Stop {
    /// Out of memory, or a position or a count isn't below 2^32.
    Memory,
    /// What is wrong with the text.
    Fault(Fault),
}

/// The first byte isn't allowed there.
#[cold]
pub fn syntax(bytes: &[u8]) -> Stop
    ensures { result ≡ stopped (spec.syntax bytes.now) }
{
    decided(Wrong::Syntax, bytes.len(), bytes)
}

/// The first byte decides a fault that is reported where `told` bytes are left. Where there is no byte the text is
/// truncated.
#[cold]
pub fn decided(wrong: Wrong, told: usize, bytes: &[u8]) -> Stop
    ensures { result ≡ stopped (spec.fault wrong told bytes.now) }
{
    if bytes.is_empty() {
        return Stop::Fault(CUT);
    }
    Stop::Fault(Fault {
        wrong,
        told,
        decided: bytes.len(),
    })
}

impl From<AllocError> for Stop {
    ghost from_gives = { λ _ e. e ≡ Memory };

    fn from(_: AllocError) -> Stop {
        Stop::Memory
    }
}

impl<T: Drop> From<AllocFailed<T>> for Stop {
    ghost from_gives = { λ _ e. e ≡ Memory };

    fn from(_: AllocFailed<T>) -> Stop {
        Stop::Memory
    }
}
