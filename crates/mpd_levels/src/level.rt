// The segment information of the levels of an MPD: Period, AdaptationSet and Representation.
ghost use Rattle.std.specs.Prelude.{◌≡◌, ◌∷◌, [], IfOk, List, is_some, option_map};
ghost use Rattle.mpd_tree.specs.Nodes.{element_of};
ghost use Rattle.mpd_tree.specs.Trees.{Element};
ghost use Rattle.mpd_levels.specs.Fits.{FitsLevel};
ghost use Rattle.mpd_levels.specs.Indexed.{index_of};
ghost use Rattle.mpd_levels.specs.Levels.{means_by};
ghost use Rattle.mpd_levels.specs.Segments.{segments_of};
ghost use Rattle.mpd_levels.specs.Shown.{Grows, IsTold, Says};
ghost use Rattle.mpd_levels.specs.declared.tables.Tables.{Tables};

use crate::addressing::SegmentRow;
use crate::indexed::{IndexRow, index_below, share_index};
use crate::readings::child_named;
use crate::tables::Tables;
use crate::values::ValueRow;
use bridge_io::NoMemory;
use mpd_tree::Node;
use std::alloc::Global;

/// How segments are addressed.
#[derive(Clone, Copy, PartialEq, Eq)]
pub(crate) enum Means {
    Template,
    List,
    Base,
}

/// The segment information of a Period, AdaptationSet or Representation, merged with the levels above it.
#[derive(Drop)]
pub struct Level {
    /// The addressing of the lowest level that has one.
    means: Option<Means>,
    template: ValueRow,
    list: ValueRow,
    base: Option<IndexRow>,
}

impl Level {
    /// The empty level above all Periods.
    pub fn top() -> Level
        ensures { (tables : Tables) → Says tables result [] }
    {
        Level {
            means: None,
            template: ValueRow::nothing(),
            list: ValueRow::nothing(),
            base: None,
        }
    }

    /// Merges an element directly below this level with it. The element's timelines and lists are added to the tables.
    pub fn below(
        &self,
        alloc: Global,
        tables: &mut Tables,
        node: Node<'_>,
    ) -> Result<Level, NoMemory>
        requires { FitsLevel (element_of node) }
        ensures says { (above : List Element) → Says tables.old self.now above
            → IfOk result (λ level. Says tables.new level (element_of node.entry ∷ above)) }
        ensures grows { Grows tables.old tables.new }
    {
        let template_node = child_named(node, "SegmentTemplate");
        let list_node = child_named(node, "SegmentList");
        let base_node = child_named(node, "SegmentBase");
        let means = means_of(template_node, list_node, base_node);
        let template = self.template.below(alloc, tables, template_node, false)?;
        let list = self.list.below(alloc, tables, list_node, true)?;
        let base = index_below(alloc, base_node, &self.base)?;
        Ok(Level {
            means: means.or(self.means),
            template,
            list,
            base,
        })
    }

    /// The addressing of a Representation's segments at this level, one by one; `None` exactly where neither
    /// SegmentTemplate nor SegmentList is used.
    pub fn segments(&self) -> Result<Option<SegmentRow>, NoMemory>
        ensures { (tables : Tables) (levels : List Element) → Says tables self.now levels
            → IfOk result (λ row. IsTold tables row (segments_of levels)) }
    {
        match self.means {
            Some(Means::Template) => Ok(Some(SegmentRow::of(false, &self.template)?)),
            Some(Means::List) => Ok(Some(SegmentRow::of(true, &self.list)?)),
            Some(Means::Base) => Ok(None),
            None => Ok(None),
        }
    }

    /// The `sidx` of a Representation at this level; `None` exactly where SegmentBase isn't used.
    pub fn index(&self) -> Result<Option<IndexRow>, NoMemory>
        ensures { (tables : Tables) (levels : List Element) → Says tables self.now levels → IfOk result (λ row. row ≡ index_of levels) }
    {
        match self.means {
            Some(Means::Base) => share_index(&self.base),
            Some(Means::Template) => Ok(None),
            Some(Means::List) => Ok(None),
            None => Ok(None),
        }
    }
}

/// How segments are addressed at a level that has some of the three elements.
fn means_of(
    template: Option<Node<'_>>,
    list: Option<Node<'_>>,
    base: Option<Node<'_>>,
) -> Option<Means>
    ensures { result ≡ means_by (is_some (option_map element_of template.entry)) (is_some (option_map element_of list.entry))
        (is_some (option_map element_of base.entry)) }
{
    if template.is_some() {
        Some(Means::Template)
    } else if list.is_some() {
        Some(Means::List)
    } else if base.is_some() {
        Some(Means::Base)
    } else {
        None
    }
}
