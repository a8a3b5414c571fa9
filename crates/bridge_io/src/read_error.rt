// Why a file wasn't read whole.
ghost use Rattle.std.specs.Prelude.{◌≡◌};
ghost use Rattle.bridge_io.specs.declared.read_error.Slurp.TheVariants.{Memory};

use crate::{Fail, NoMemory, Place};
use thiserror::Error;

/// Why a file wasn't read whole.
#[derive(Clone, Copy, Debug, PartialEq, Eq, Error)]
pub enum Slurp {
    /// The file is longer than the limit; the position is that of the first byte past it.
    #[error("more bytes than the limit")]
    TooLong(Place),
    /// The store has no file of this name.
    #[error("no such file")]
    Absent,
    /// A read failed.
    #[error("a read failed")]
    Fault,
    /// Out of memory.
    #[error("out of memory")]
    Memory,
}

impl From<Fail> for Slurp {
    ghost use Rattle.bridge_io.specs.Slurped.{slurp_of};

    ghost from_gives = { λ fail e. e ≡ slurp_of fail };

    fn from(fail: Fail) -> Slurp {
        match fail {
            Fail::Failed => Slurp::Fault,
            Fail::Memory => Slurp::Memory,
        }
    }
}

impl From<NoMemory> for Slurp {
    ghost from_gives = { λ _ e. e ≡ Memory };

    fn from(_: NoMemory) -> Slurp {
        Slurp::Memory
    }
}
