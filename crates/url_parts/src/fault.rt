// Why a reference gives no URL.
use bridge_io::NoMemory;
use std::alloc::AllocError;
use thiserror::Error;
use url::ParseError;

/// Why a reference gives no URL. The variants are tried in their order.
#[derive(Clone, Copy, Debug, PartialEq, Eq, Error)]
pub enum UrlFault {
    /// The URL Standard rejects the reference, or the result contains a `"` or a byte outside 0x21 to 0x7E.
    #[error("the reference is refused")]
    Refused,
    /// The result isn't http or https.
    #[error("the scheme isn't http or https")]
    Scheme,
    /// The result has more than 2,048 bytes.
    #[error("the address is too long")]
    TooLong,
    /// Out of memory.
    #[error("out of memory")]
    Memory,
}

impl From<NoMemory> for UrlFault {
    ghost use Rattle.std.specs.Prelude.{◌≡◌};
    ghost use Rattle.url_parts.specs.declared.fault.UrlFault.TheVariants.{Memory};

    ghost from_gives = { λ _ fault. fault ≡ Memory };

    fn from(_: NoMemory) -> UrlFault {
        UrlFault::Memory
    }
}

impl From<AllocError> for UrlFault {
    ghost use Rattle.std.specs.Prelude.{◌≡◌};
    ghost use Rattle.url_parts.specs.declared.fault.UrlFault.TheVariants.{Memory};

    ghost from_gives = { λ _ fault. fault ≡ Memory };

    fn from(_: AllocError) -> UrlFault {
        UrlFault::Memory
    }
}

impl From<ParseError> for UrlFault {
    ghost use Rattle.url_parts.specs.Addresses.{fault_of};
    ghost use Rattle.std.specs.Prelude.{◌≡◌};

    ghost from_gives = { λ error fault. fault ≡ fault_of error };

    fn from(error: ParseError) -> UrlFault {
        match error {
            ParseError::OutOfMemory | ParseError::Overflow => UrlFault::Memory,
            _ => UrlFault::Refused,
        }
    }
}
