// The rows of a tree's elements, most of which take 12 bytes.
ghost use Rattle.std.specs.Prelude.{◌≡◌, ◌+◌, ◌<◌, ◌^◌, [], ◌∷◌, ◌++◌, IfErr, IfOk, IfSome, OnErr, OnOk, Some, length, set, slice_get};
ghost use Rattle.mpd_tree.specs.Packed.{IsNarrow, IsPackedAs, IsWithin, narrow_row};
ghost use Rattle.mpd_tree.specs.declared.stop.Stop.TheVariants.{Memory};

use crate::stop::Stop;
use crate::tree::{ElementRow, KeptSpan};
use std::alloc::Global;
use std::marker::Model;

/// Codes from this one on refer to wide rows.
const FIRST_WIDE: u32 = 65_536;

/// A compact row. Below [`FIRST_WIDE`] the code is the length of the name plus 256 times the number of attributes, and
/// the element has no children. From there on it counts the wide rows, and the other fields are unused.
#[derive(Clone, Copy)]
pub(crate) struct PackedRow {
    name_start: u32,
    attributes: u32,
    code: u32,
}

/// The rows of elements, in document order.
///
/// In a contract it is their list.
#[derive(Drop)]
pub struct ElementTable {
    rows: Vec<PackedRow>,
    // The rows that don't fit a packed one, each for one of those above.
    wide: Vec<ElementRow>,
}

impl Model for ElementTable {
    ghost use Rattle.std.specs.Prelude.{List};
    ghost use Rattle.mpd_tree.specs.declared.tree.ElementRow.{ElementRow};

    ghost Value = { List ElementRow };

    ghost use Rattle.mpd_tree.specs.Packed.{ArePacked, rows_of};

    ghost view = { λ table. rows_of table.wide.items 1 table.rows.items };

    ghost invariant = { λ table. ArePacked table.wide.items table.rows.items };
}

/// A number of rows as `u32`. An error from 2 ^ 32 on.
#[inline(always)]
pub fn count(rows: usize) -> Result<u32, Stop>
    ensures ok { IfOk result (λ count. count ≡ rows) }
    ensures fault { IfErr result (λ e. e ≡ Memory) }
{
    match u32::try_from(rows) {
        Ok(count) => Ok(count),
        Err(_) => Err(Stop::Memory),
    }
}

/// `end - start`, where it is below 256.
#[inline(always)]
fn short(start: u32, end: u32) -> Option<u32>
    ensures { IfSome result (λ length. (length < 256) × (start + length ≡ end)) }
{
    match end.checked_sub(start) {
        Some(length) if length < 256 => Some(length),
        _ => None,
    }
}

/// The packed row of a row that fits one. The row after it has the number `next`.
#[inline(always)]
fn narrowed(row: ElementRow, next: u32) -> Option<PackedRow>
    ensures { IfSome result (IsNarrow next row) }
{
    let name = short(row.name.start, row.name.end)?;
    let attributes = short(row.attributes, row.attributes_end)?;
    if row.text.start != 0 || row.text.end != 0 || row.next != next {
        return None;
    }
    Some(PackedRow {
        name_start: row.name.start,
        attributes: row.attributes,
        code: attributes * 256 + name,
    })
}

/// Unpacks a row. The row after it has the number `next`.
#[inline(always)]
fn widened(packed: PackedRow, next: u32) -> ElementRow
    requires { IsWithin packed }
    ensures { result ≡ narrow_row next packed }
{
    ElementRow {
        name: KeptSpan {
            start: packed.name_start,
            end: packed.name_start + packed.code % 256,
        },
        text: KeptSpan::NOTHING,
        attributes: packed.attributes,
        attributes_end: packed.attributes + packed.code / 256,
        next,
    }
}

/// Packs a row, which is appended to the wide ones where it doesn't fit.
#[inline(always)]
fn pack(wide: &mut Vec<ElementRow>, row: ElementRow, next: u32) -> Result<PackedRow, Stop>
    ensures ok { IfOk result (IsPackedAs next row wide.old.items wide.new.items) }
    ensures stays { OnErr result (wide.new.items ≡ wide.old.items) }
    ensures fault { IfErr result (λ e. e ≡ Memory) }
{
    if let Some(packed) = narrowed(row, next) {
        return Ok(packed);
    }
    let code = count(FIRST_WIDE as usize + wide.len())?;
    wide.push(row)?;
    Ok(PackedRow {
        name_start: 0,
        attributes: 0,
        code,
    })
}

impl ElementTable {
    /// An empty table.
    pub fn new(alloc: Global) -> ElementTable
        ensures { result ≡ [] }
    {
        ElementTable {
            rows: Vec::new(alloc),
            wide: Vec::new(alloc),
        }
    }

    /// How many rows there are.
    #[inline(always)]
    #[tactic(auto, using(crate::proofs::PackedLemmas::packed_rows))]
    pub fn len(&self) -> usize
        ensures length { result ≡ length self.now }
        ensures bound { result < 2 ^ 32 }
    {
        self.rows.len()
    }

    /// The row with that number.
    #[inline(always)]
    #[tactic(auto, using(crate::proofs::PackedLemmas::packed_rows))]
    pub fn get(&self, index: usize) -> ElementRow
        requires { index < length self.now }
        ensures { slice_get self.now index ≡ Some result }
    {
        let packed = self.rows[index];
        if packed.code < FIRST_WIDE {
            widened(packed, (index + 1) as u32)
        } else {
            self.wide[(packed.code - FIRST_WIDE) as usize]
        }
    }

    /// Appends a row.
    #[inline(always)]
    #[tactic(auto, using(crate::proofs::PackedLemmas::packed_rows))]
    pub fn push(&mut self, row: ElementRow) -> Result<(), Stop>
        ensures ok { OnOk result (self.new ≡ self.old ++ row ∷ []) }
        ensures stays { OnErr result (self.new ≡ self.old) }
        ensures fault { IfErr result (λ e. e ≡ Memory) }
    {
        let next = count(self.rows.len() + 1)?;
        let packed = pack(&mut self.wide, row, next)?;
        self.rows.push(packed)?;
        Ok(())
    }

    /// Replaces the row with that number. Its old wide row stays, unread.
    #[inline(always)]
    #[tactic(auto, using(crate::proofs::PackedLemmas::packed_rows))]
    pub fn set(&mut self, index: usize, row: ElementRow) -> Result<(), Stop>
        requires { index < length self.old }
        ensures ok { OnOk result (self.new ≡ set self.old index row) }
        ensures stays { OnErr result (self.new ≡ self.old) }
        ensures fault { IfErr result (λ e. e ≡ Memory) }
    {
        let packed = pack(&mut self.wide, row, (index + 1) as u32)?;
        self.rows[index] = packed;
        Ok(())
    }
}
