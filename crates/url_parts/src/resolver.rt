// References that are resolved one after another.
ghost use Rattle.std.specs.Prelude.{◌≡◌, ℕ, List};
ghost use Rattle.bridge_io.specs.Answer.{Gives};
ghost use Rattle.url_parts.specs.Addresses.{resolve, refusal, folder_of, is_name_in, IsFolder};

use crate::base::{folder_of, is_absolute, unless_long};
use crate::{Address, Base, UrlFault};
use bridge_io::is_name;
use std::alloc::Global;
use std::marker::Model;

/// Resolves references one after another. It caches the folder of a URL that it returned: absolute references to files
/// in that folder aren't parsed.
#[derive(Drop)]
pub struct Resolver {
    folder: Option<Folder>,
}

impl Resolver {
    /// No reference was resolved yet.
    pub fn new() -> Resolver {
        Resolver { folder: None }
    }

    /// The URL that a reference resolves to against the base, as with `Base::join`.
    ///
    /// The base may be another one at each call. A name isn't parsed, and neither is a reference that is the cached folder
    /// followed by a name (`laws::name_in_folder`). `Refused`, `Scheme` and `TooLong` come exactly where they apply to the
    /// reference against this base, the first of them in this order.
    #[tactic(auto, using(crate::proofs::Neighbours::in_folder, crate::proofs::Neighbours::is_address_in_folder))]
    pub fn join(&mut self, alloc: Global, base: &Base, reference: &str) -> Result<Address, UrlFault>
        ensures { Gives (λ address. address) refusal result (resolve base.now reference.now) }
    {
        if let Some(folder) = &self.folder {
            if folder.has(reference) {
                return unless_long(alloc, String::from_str(alloc, reference)?);
            }
        }
        let address = base.join(alloc, reference)?;
        if is_absolute(reference) {
            self.folder = Some(Folder::of(address.copy(alloc)?));
        }
        Ok(address)
    }
}

/// The folder of a URL.
#[derive(Drop)]
struct Folder {
    address: Address,
    /// How many bytes of the URL it takes.
    len: usize,
}

impl Model for Folder {
    ghost use Rattle.std.specs.Prelude.{◌≡◌, ℕ, List, length};
    ghost use Rattle.url_parts.specs.Addresses.{folder_of};

    ghost Value = { List ℕ };

    ghost view = { λ f. folder_of f.address };

    ghost invariant = { λ f. f.len ≡ length (folder_of f.address) };
}

impl Folder {
    fn of(address: Address) -> Folder
        ensures { result ≡ folder_of address }
    {
        let len = folder_of(address.as_str()).len();
        Folder { address, len }
    }

    /// The URL up to and with the last `/` of its path.
    fn as_bytes(&self) -> &[u8]
        ensures text { result.now ≡ self.now }
        ensures folder { IsFolder self.now }
    {
        &self.address.as_str().as_bytes()[..self.len]
    }

    /// Whether a text is the folder followed by a name.
    fn has(&self, text: &str) -> bool
        ensures value { result ≡ is_name_in self.now text.now }
        ensures folder { IsFolder self.now }
    {
        let folder = self.as_bytes();
        let text = text.as_bytes();
        text.starts_with(folder) && is_name(&text[folder.len()..])
    }
}
