// What a template's identifiers stand for.
ghost use Rattle.std.specs.Prelude.{◌≡◌};

use crate::identifier::Quantity;
use bridge_io::Text;

/// What the identifiers of a template stand for.
#[derive(Drop)]
pub struct Ids {
    /// The id of the Representation.
    pub id: Text,
    /// The Representation's `@bandwidth`, in bits per second.
    pub bandwidth: u64,
    /// The segment's number.
    pub number: u64,
    /// The segment's start in media time, in ticks.
    pub time: u64,
}

impl Ids {
    ghost use Rattle.template_ids.specs.Templates.{ids_of};

    /// The same, with the id borrowed.
    pub fn borrowed(&self) -> BorrowedIds<'_>
        ensures { ids_of result ≡ self.now }
    {
        BorrowedIds {
            id: self.id.as_str(),
            bandwidth: self.bandwidth,
            number: self.number,
            time: self.time,
        }
    }
}

/// What the identifiers of a template stand for, with the id borrowed: many segments share it.
#[derive(Clone, Copy)]
pub struct BorrowedIds<'a> {
    /// The id of the Representation.
    pub id: &'a str,
    /// The Representation's `@bandwidth`, in bits per second.
    pub bandwidth: u64,
    /// The segment's number.
    pub number: u64,
    /// The segment's start in media time, in ticks.
    pub time: u64,
}

impl BorrowedIds<'_> {
    ghost use Rattle.template_ids.specs.Templates.{ids_of, quantity};

    pub(crate) fn number_of(&self, wanted: Quantity) -> u64
        ensures { result ≡ quantity (ids_of self.now) wanted }
    {
        match wanted {
            Quantity::Number => self.number,
            Quantity::Time => self.time,
            Quantity::Bandwidth => self.bandwidth,
        }
    }
}
