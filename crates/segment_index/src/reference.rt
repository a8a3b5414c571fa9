// The references of a segment index.
ghost use Rattle.std.specs.Prelude.{◌≡◌, ◌≤◌, ◌*◌, ◌+◌, ◌^◌, length};
ghost use Rattle.segment_index.specs.Index as spec;

use box_reader::u32_at;
use std::marker::Model;

/// A reference: to a subsegment, or to another `sidx` (ISO/IEC 14496-12, 8.16.3.3).
#[derive(Clone, Copy, PartialEq, Eq)]
pub struct Reference {
    /// Its byte offset in the file.
    pub at: u64,
    /// Whether it is to another `sidx`, and not to media.
    pub is_index: bool,
    /// How many bytes it covers.
    pub size: u32,
    /// How long it lasts, in ticks.
    pub duration: u32,
}

/// The references that are left: in a contract the list of them.
#[derive(Drop)]
pub struct References<'a> {
    rest: &'a [u8],
    at: u64,
    count: u16,
}

impl<'a> Model for References<'a> {
    ghost use Rattle.std.specs.Prelude.{List, ◌≤◌, ◌+◌, ◌*◌, ◌^◌, length};
    ghost use Rattle.segment_index.specs.Index.{references_at, reference_len};
    ghost use Rattle.segment_index.specs.declared.reference.Reference.{Reference};

    ghost Value = { List Reference };

    ghost view = { λ r. references_at r.count r.at r.rest.now };

    ghost invariant = { λ r. (reference_len * r.count ≤ length r.rest.now) × (r.at + length r.rest.now ≤ 2 ^ 63) };
}

impl<'a> References<'a> {
    /// `count` references, the first of which the bytes begin with.
    pub(crate) fn of(rest: &'a [u8], at: u64, count: u16) -> References<'a>
        requires there { spec.reference_len * count ≤ length rest.now }
        requires placed { at + length rest.now ≤ 2 ^ 63 }
        ensures { result ≡ spec.references_at count at rest.now }
    {
        References { rest, at, count }
    }

    /// How many there are.
    #[tactic(auto, using(crate::proofs::Tables::as_many_references))]
    pub fn len(&self) -> u16
        ensures { result ≡ length self.now }
    {
        self.count
    }
}

impl<'a> Iterator for References<'a> {
    ghost use Rattle.std.specs.Iterator.{YieldsFirst, item_count};

    type Item = Reference;

    ghost next_gives = { YieldsFirst (λ references. references) };

    ghost remaining = { item_count (λ references. references) };

    #[tactic(auto, using(crate::proofs::Tables::no_references))]
    fn next(&mut self) -> Option<Reference> {
        if self.count == 0 {
            return None;
        }
        let reference = reference_at(self.at, self.rest);
        let (_, rest) = self.rest.split_at(12);
        self.rest = rest;
        self.at += 12;
        self.count -= 1;
        Some(reference)
    }
}

/// The reference that bytes begin with.
fn reference_at(at: u64, bytes: &[u8]) -> Reference
    requires { spec.reference_len ≤ length bytes.now }
    ensures { result ≡ spec.reference_at at bytes.now }
{
    let word = u32_at(bytes, 0);
    Reference {
        at,
        is_index: word >= 1 << 31,
        size: word % (1 << 31),
        duration: u32_at(bytes, 4),
    }
}
