// Why a file wasn't written.
use crate::outside::Fail;
use thiserror::Error;

/// Why a file wasn't written.
#[derive(Clone, Copy, Debug, PartialEq, Eq, Error)]
pub enum OutFault {
    /// A write failed, and the store's count of failed writes rose.
    #[error("a write failed")]
    WriteFault,
    /// Out of memory.
    #[error("out of memory")]
    Memory,
}

impl From<Fail> for OutFault {
    ghost use Rattle.std.specs.Prelude.{◌≡◌};
    ghost use Rattle.bridge_io.specs.OutFaults.{out_fault_of};

    ghost from_gives = { λ fail fault. fault ≡ out_fault_of fail };

    fn from(fail: Fail) -> OutFault {
        match fail {
            Fail::Failed => OutFault::WriteFault,
            Fail::Memory => OutFault::Memory,
        }
    }
}
