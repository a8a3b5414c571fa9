// The URLs of a master playlist's URIs.
ghost use Rattle.bridge_io.specs.Answer.{Gives};
ghost use Rattle.url_parts.specs.Addresses.{refusal as url_refusal};
ghost use Rattle.hls_master.specs.Addresses.{address_of, address_fault, address_value};
ghost use Rattle.hls_master.specs.Faults.{answer, refusal};

use crate::MasterFault;
use bridge_io::{Name, NameFault, Place};
use std::alloc::Global;
use url_parts::{Address, Base, UrlFault};

/// The URL of a URI: a name is appended to the master's folder. A fault is reported at the position.
pub(crate) fn read_address(
    alloc: Global,
    base: &Base,
    uri: &str,
    place: Place,
) -> Result<Address, MasterFault>
    ensures { Gives (λ address. address) refusal result (answer (address_fault base.now place uri.now) (address_value base.now uri.now)) }
{
    match resolve(alloc, base, uri) {
        Ok(address) => Ok(address),
        Err(fault) => Err(MasterFault::of_url(fault, place)),
    }
}

#[tactic(auto, unfolding(crate::specs::Addresses::address_of))]
fn resolve(alloc: Global, base: &Base, uri: &str) -> Result<Address, UrlFault>
    ensures { Gives (λ address. address) url_refusal result (address_of base.now uri.now) }
{
    match Name::read(alloc, uri) {
        Ok(name) => base.beside(alloc, &name),
        Err(NameFault::Shape) => base.join(alloc, uri),
        Err(NameFault::Memory) => Err(UrlFault::Memory),
    }
}
