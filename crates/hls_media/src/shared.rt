// URLs whose texts are shared.
ghost use Rattle.std.specs.Prelude.{◌≡◌, IfOk};

use bridge_io::NoMemory;
use std::alloc::Global;
use std::collections::BTreeMap;
use url_parts::{Address, Part};

/// The URLs of maps, by the references that gave them.
#[derive(Drop)]
pub(crate) struct MapTexts<'a> {
    texts: BTreeMap<&'a str, Address>,
}

impl<'a> MapTexts<'a> {
    pub(crate) fn new(alloc: Global) -> MapTexts<'a> {
        MapTexts {
            texts: BTreeMap::new(alloc),
        }
    }

    /// The same URL, which shares the text of the one that the reference gave first, if they are equal.
    pub(crate) fn shared(
        &mut self,
        alloc: Global,
        reference: &'a str,
        address: Address,
    ) -> Result<Address, NoMemory>
        ensures { IfOk result (λ shared. shared ≡ address) }
    {
        if let Some(known) = self.texts.get(reference) {
            return shared(alloc, address, known);
        }
        self.texts.insert(reference, address.copy(alloc)?)?;
        Ok(address)
    }
}

/// The same URL, which shares the text of a known one, if they are equal.
pub(crate) fn shared(alloc: Global, address: Address, known: &Address) -> Result<Address, NoMemory>
    ensures { IfOk result (λ shared. shared ≡ address) }
{
    if known.as_str() == address.as_str() {
        known.copy(alloc)
    } else {
        Ok(address)
    }
}

/// The same map, which shares the text of a known one's URL, if they are equal.
pub(crate) fn shared_part(alloc: Global, part: Part, known: &Option<Part>) -> Result<Part, NoMemory>
    ensures { IfOk result (λ shared. shared ≡ part) }
{
    let Some(known) = known else {
        return Ok(part);
    };
    let Part { address, range } = part;
    let address = shared(alloc, address, &known.address)?;
    Ok(Part { address, range })
}
