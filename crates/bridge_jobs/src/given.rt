// Why a command line isn't valid.
ghost use Rattle.std.specs.Prelude.{◌≡◌};

use bridge_io::{NameFault, NoMemory};
use std::alloc::AllocError;

/// Why a command line isn't valid.
#[derive(Clone, Copy)]
pub(crate) enum WordsFault {
    /// A usage error.
    NoJob,
    /// Out of memory.
    Memory,
}

impl From<NameFault> for WordsFault {
    ghost use Rattle.bridge_jobs.specs.Given.{fault_of_name};

    ghost from_gives = { λ name fault. fault ≡ fault_of_name name };

    fn from(fault: NameFault) -> WordsFault {
        match fault {
            NameFault::Shape => WordsFault::NoJob,
            NameFault::Memory => WordsFault::Memory,
        }
    }
}

impl From<NoMemory> for WordsFault {
    ghost use Rattle.bridge_jobs.specs.declared.given.WordsFault.TheVariants.{Memory};

    ghost from_gives = { λ _ fault. fault ≡ Memory };

    fn from(_: NoMemory) -> WordsFault {
        WordsFault::Memory
    }
}

impl From<AllocError> for WordsFault {
    ghost use Rattle.bridge_jobs.specs.declared.given.WordsFault.TheVariants.{Memory};

    ghost from_gives = { λ _ fault. fault ≡ Memory };

    fn from(_: AllocError) -> WordsFault {
        WordsFault::Memory
    }
}
