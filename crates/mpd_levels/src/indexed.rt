// Files with a `sidx`.
ghost use Rattle.std.specs.Prelude.{◌≡◌, IfOk, option_map};
ghost use Rattle.mpd_tree.specs.Nodes.{element_of};
ghost use Rattle.mpd_profile.specs.Heads.{or_else};
ghost use Rattle.mpd_levels.specs.Indexed as spec;

use crate::initialization::{Initialization, initialization_in, share_initialization};
use crate::readings::range;
use bridge_io::NoMemory;
use mpd_tree::Node;
use std::alloc::Global;
use url_parts::Range;

/// The byte ranges of a file's `sidx` and init segment: a SegmentBase (ISO/IEC 23009-1, 5.3.9.2).
#[derive(Drop)]
pub struct IndexRow {
    pub(crate) range: Option<Range>,
    pub(crate) initialization: Option<Initialization>,
}

/// An Initialization.
#[derive(Clone, Copy)]
pub struct InitView<'a> {
    initialization: &'a Initialization,
}

impl IndexRow {
    ghost use Rattle.mpd_levels.specs.Shown.{initialization_shown};

    pub(crate) fn of(alloc: Global, base: Node<'_>) -> Result<IndexRow, NoMemory>
        ensures { IfOk result (λ row. row ≡ spec.index_in (element_of base.entry)) }
    {
        let initialization = initialization_in(alloc, base)?;
        Ok(IndexRow {
            range: range(base, "indexRange"),
            initialization,
        })
    }

    /// The same again. It shares the text.
    pub fn share(&self) -> Result<IndexRow, NoMemory>
        ensures { IfOk result (λ row. row ≡ self.now) }
    {
        let initialization = share_initialization(&self.initialization)?;
        Ok(IndexRow {
            range: self.range,
            initialization,
        })
    }

    /// The byte range of the `sidx`, where it is given.
    pub fn range(&self) -> Option<Range>
        ensures { result ≡ self.now.range }
    {
        self.range
    }

    /// Its Initialization; `None` exactly where the SegmentBase has no such element.
    pub fn initialization(&self) -> Option<InitView<'_>>
        ensures { option_map initialization_shown result ≡ self.now.initialization }
    {
        match &self.initialization {
            Some(initialization) => Some(InitView { initialization }),
            None => None,
        }
    }

    /// Whether the range of the `sidx` is missing, or the init segment is given neither by an Initialization nor by
    /// bytes before the `sidx`.
    pub fn lacks_index(&self) -> bool
        ensures { result ≡ spec.lacks_index self.now }
    {
        match self.range {
            Some(range) => self.initialization.is_none() && range.first == 0,
            None => true,
        }
    }
}

impl<'a> InitView<'a> {
    ghost use Rattle.mpd_levels.specs.Shown.{initialization_shown};

    /// Its URL, where it has one of its own.
    pub fn reference(&self) -> Option<&'a str>
        ensures { option_map (λ text. text.now) result ≡ (initialization_shown self.now).reference }
    {
        match &self.initialization.reference {
            Some(text) => Some(text.as_str()),
            None => None,
        }
    }

    /// Its byte range, where it has one.
    pub fn range(&self) -> Option<Range>
        ensures { result ≡ (initialization_shown self.now).range }
    {
        self.initialization.range
    }
}

/// The same again, if there is one.
pub(crate) fn share_index(row: &Option<IndexRow>) -> Result<Option<IndexRow>, NoMemory>
    ensures { IfOk result (λ shared. shared ≡ row.now) }
{
    match row {
        Some(row) => Ok(Some(row.share()?)),
        None => Ok(None),
    }
}

/// A SegmentBase as a whole, or where there is none, that of the levels above.
pub(crate) fn index_below(
    alloc: Global,
    base: Option<Node<'_>>,
    above: &Option<IndexRow>,
) -> Result<Option<IndexRow>, NoMemory>
    ensures { IfOk result (λ row. row ≡ or_else (option_map spec.index_in (option_map element_of base.entry)) above.now) }
{
    match base {
        Some(base) => Ok(Some(IndexRow::of(alloc, base)?)),
        None => share_index(above),
    }
}
