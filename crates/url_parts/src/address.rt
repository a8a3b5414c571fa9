// URLs of files, and of byte ranges.
ghost use Rattle.std.specs.Prelude.{◌≡◌, ℕ, List, IfOk};

use crate::Range;
use bridge_io::{NoMemory, Text};
use std::alloc::Global;
use std::marker::Model;
use std::rc::Rc;

/// The URL of a file: absolute, http or https, at most 2,048 bytes, serialized as in the URL Standard, section 4.5.
/// Its bytes are 0x21 to 0x7E without `"`.
///
/// Copies share one text.
#[derive(Drop)]
pub struct Address {
    text: Rc<Text>,
}

impl Model for Address {
    ghost use Rattle.std.specs.Prelude.{ℕ, List};
    ghost use Rattle.url_parts.specs.Addresses.{IsAddress};

    ghost Value = { List ℕ };

    ghost view = { λ a. a.text.value };

    ghost invariant = { λ a. IsAddress a.text.value };
}

impl Address {
    ghost use Rattle.url_parts.specs.Addresses.{IsAddress};

    pub(crate) fn of(alloc: Global, text: Text) -> Result<Address, NoMemory>
        requires { IsAddress text }
        ensures { IfOk result (λ address. address ≡ text) }
    {
        let text = Rc::new(alloc, text)?;
        Ok(Address { text })
    }

    /// The URL's text.
    pub fn as_str(&self) -> &str
        ensures text { result.now ≡ self.now }
        ensures address { IsAddress self.now }
    {
        self.text.as_str()
    }

    /// The same URL again. It shares the text, and allocates nothing.
    pub fn copy(&self, alloc: Global) -> Result<Address, NoMemory>
        ensures { IfOk result (λ copy. copy ≡ self.now) }
    {
        let _ = alloc;
        let text = self.text.clone()?;
        Ok(Address { text })
    }
}

/// A file, or a byte range of it (ISO/IEC 23009-1, 5.3.9.2.2; RFC 8216, 4.3.2.2).
#[derive(Drop)]
pub struct Part {
    /// The URL of the file.
    pub address: Address,
    /// Its byte range; `None` is the whole file.
    pub range: Option<Range>,
}

impl Part {
    /// The same part again.
    pub fn copy(&self, alloc: Global) -> Result<Part, NoMemory>
        ensures { IfOk result (λ copy. copy ≡ self.now) }
    {
        let address = self.address.copy(alloc)?;
        let range = self.range;
        Ok(Part { address, range })
    }
}
