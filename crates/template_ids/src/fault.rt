// Why a text isn't a template.
use bridge_io::NoMemory;
use thiserror::Error;

/// Why a text isn't a template. `LoneDollar` is tried first, then the first identifier at fault, then `Both`.
#[derive(Clone, Copy, Debug, PartialEq, Eq, Error)]
pub enum TemplateFault {
    /// The text has an odd number of `$`.
    #[error("a `$` without its other one")]
    LoneDollar,
    /// An identifier is neither empty nor one of those that a template may have.
    #[error("an unknown identifier")]
    Unknown,
    /// What follows an identifier's name isn't a format that is allowed there.
    #[error("a bad format of an identifier")]
    Width,
    /// The text has `$Number$` and `$Time$`.
    #[error("`$Number$` with `$Time$`")]
    Both,
    /// The text has `$SubNumber$`.
    #[error("`$SubNumber$`")]
    SubNumber,
    /// Out of memory.
    #[error("out of memory")]
    Memory,
}

impl From<NoMemory> for TemplateFault {
    ghost use Rattle.std.specs.Prelude.{◌≡◌};
    ghost use Rattle.template_ids.specs.declared.fault.TemplateFault.TheVariants.{Memory};

    ghost from_gives = { λ _ fault. fault ≡ Memory };

    fn from(_: NoMemory) -> TemplateFault {
        TemplateFault::Memory
    }
}
