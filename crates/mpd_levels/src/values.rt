// The values of a SegmentTemplate or SegmentList, merged with those above it.
ghost use Rattle.std.specs.Prelude.{◌≡◌, IfOk, IfSome, List, codes, option_map};
ghost use Rattle.std.specs.List.{cons_option};
ghost use Rattle.mpd_tree.specs.Nodes.{element_of};
ghost use Rattle.mpd_tree.specs.Trees.{Element};
ghost use Rattle.mpd_profile.specs.Heads.{or_else, value_named};
ghost use Rattle.mpd_levels.specs.Fits.{FitsNumbers, FitsSegments};
ghost use Rattle.mpd_levels.specs.Merged.{attributes_over, no_row, row_over};
ghost use Rattle.mpd_levels.specs.Readings.{number_named};
ghost use Rattle.mpd_levels.specs.Segments.{attributes_by, of_template, timeline_in, urls_by, values_by, values_in};
ghost use Rattle.mpd_levels.specs.Shown.{Grows, IsKey, Shows, lists_in, timelines_in};

use crate::initialization::{Initialization, initialization_in, initialization_over};
use crate::readings::{child_named, number, text};
use crate::shared_text::{SharedText, text_over};
use crate::tables::{Tables, read_timeline, read_urls};
use bridge_io::NoMemory;
use mpd_entries::SharedNames;
use mpd_tree::Node;
use std::alloc::Global;

/// Attributes (ISO/IEC 23009-1, 5.3.9.2 to 5.3.9.4). A SegmentList has only the numbers.
#[derive(Drop)]
pub(crate) struct Attributes {
    pub(crate) media: Option<SharedText>,
    pub(crate) initialization: Option<SharedText>,
    pub(crate) timescale: Option<u32>,
    pub(crate) duration: Option<u64>,
    pub(crate) start_number: Option<u64>,
    pub(crate) time_offset: Option<u64>,
}

/// The merged values of elements of one kind. Timeline and list are keys of the tables.
#[derive(Drop)]
pub(crate) struct ValueRow {
    pub(crate) attributes: Attributes,
    pub(crate) initialization: Option<Initialization>,
    pub(crate) timeline: Option<usize>,
    pub(crate) urls: Option<usize>,
}

impl Attributes {
    pub(crate) const NOTHING: Attributes = Attributes {
        media: None,
        initialization: None,
        timescale: None,
        duration: None,
        start_number: None,
        time_offset: None,
    };

    fn of(alloc: Global, node: Node<'_>, is_list: bool) -> Result<Attributes, NoMemory>
        requires { FitsNumbers (element_of node).head }
        ensures { IfOk result (λ attributes. attributes ≡ attributes_by is_list (element_of node.entry).head) }
    {
        let media = template_text(alloc, node, "media", is_list)?;
        let initialization = template_text(alloc, node, "initialization", is_list)?;
        Ok(Attributes {
            media,
            initialization,
            timescale: timescale(node),
            duration: number(node, "duration", 0, 1 << 63),
            start_number: number(node, "startNumber", 0, 1 << 63),
            time_offset: number(node, "presentationTimeOffset", 0, 1 << 63),
        })
    }

    /// The values of a lower level, and where it has none, those of the levels above.
    fn over(self, higher: &Attributes) -> Result<Attributes, NoMemory>
        ensures { IfOk result (λ attributes. attributes ≡ attributes_over self higher.now) }
    {
        let media = text_over(self.media, &higher.media)?;
        let initialization = text_over(self.initialization, &higher.initialization)?;
        Ok(Attributes {
            media,
            initialization,
            timescale: self.timescale.or(higher.timescale),
            duration: self.duration.or(higher.duration),
            start_number: self.start_number.or(higher.start_number),
            time_offset: self.time_offset.or(higher.time_offset),
        })
    }
}

/// A text that only a SegmentTemplate has.
fn template_text(
    alloc: Global,
    node: Node<'_>,
    name: &str,
    is_list: bool,
) -> Result<Option<SharedText>, NoMemory>
    ensures { IfOk result (λ text. text ≡ of_template is_list (value_named name.now (element_of node.entry).head)) }
{
    if is_list {
        Ok(None)
    } else {
        text(alloc, node, name)
    }
}

fn timescale(node: Node<'_>) -> Option<u32>
    requires { FitsNumbers (element_of node).head }
    ensures { result ≡ number_named (codes "timescale") (element_of node.entry).head }
{
    u32::try_from(number(node, "timescale", 1, 1 << 32)?).ok()
}

impl ValueRow {
    /// The empty row.
    pub(crate) fn nothing() -> ValueRow
        ensures { result ≡ no_row }
    {
        ValueRow {
            attributes: Attributes::NOTHING,
            initialization: None,
            timeline: None,
            urls: None,
        }
    }

    /// The merged values of an element and those above it.
    pub(crate) fn below(
        &self,
        alloc: Global,
        tables: &mut Tables,
        element: Option<Node<'_>>,
        is_list: bool,
    ) -> Result<ValueRow, NoMemory>
        requires { IfSome (option_map element_of element) FitsSegments }
        ensures shows { (above : List Element) → Shows tables.old self.now (values_in is_list above)
            → IfOk result (λ row. Shows tables.new row (values_in is_list (cons_option (option_map element_of element.entry) above))) }
        ensures grows { Grows tables.old tables.new }
    {
        match element {
            Some(node) => ValueRow::of(alloc, tables, node, is_list)?.over(self),
            None => self.share(),
        }
    }

    fn of(
        alloc: Global,
        tables: &mut Tables,
        node: Node<'_>,
        is_list: bool,
    ) -> Result<ValueRow, NoMemory>
        requires { FitsSegments (element_of node) }
        ensures shows { IfOk result (λ row. Shows tables.new row (values_by is_list (element_of node.entry))) }
        ensures grows { Grows tables.old tables.new }
    {
        let attributes = Attributes::of(alloc, node, is_list)?;
        let initialization = initialization_in(alloc, node)?;
        let timeline = keep_timeline(alloc, tables, node)?;
        let urls = keep_urls(alloc, tables, node, is_list)?;
        Ok(ValueRow {
            attributes,
            initialization,
            timeline,
            urls,
        })
    }

    fn over(self, higher: &ValueRow) -> Result<ValueRow, NoMemory>
        ensures { IfOk result (λ row. row ≡ row_over self higher.now) }
    {
        let attributes = self.attributes.over(&higher.attributes)?;
        let initialization = initialization_over(self.initialization, &higher.initialization)?;
        Ok(ValueRow {
            attributes,
            initialization,
            timeline: self.timeline.or(higher.timeline),
            urls: self.urls.or(higher.urls),
        })
    }

    /// The same again.
    pub(crate) fn share(&self) -> Result<ValueRow, NoMemory>
        ensures { IfOk result (λ row. row ≡ self.now) }
    {
        ValueRow::nothing().over(self)
    }
}

/// Stores the timeline of an element, and returns its key.
fn keep_timeline(
    alloc: Global,
    tables: &mut Tables,
    node: Node<'_>,
) -> Result<Option<usize>, NoMemory>
    requires { FitsSegments (element_of node) }
    ensures key { IfOk result (λ key. IsKey (timelines_in tables.new) key (timeline_in (element_of node.entry))) }
    ensures lists { lists_in tables.new ≡ lists_in tables.old }
    ensures grows { Grows tables.old tables.new }
{
    match child_named(node, "SegmentTimeline") {
        Some(timeline) => Ok(Some(tables.keep_timeline(read_timeline(alloc, timeline)?)?)),
        None => Ok(None),
    }
}

/// Stores the SegmentURLs of a SegmentList, where it has any, and returns their key.
fn keep_urls(
    alloc: Global,
    tables: &mut Tables,
    node: Node<'_>,
    is_list: bool,
) -> Result<Option<usize>, NoMemory>
    ensures key { IfOk result (λ key. IsKey (lists_in tables.new) key (urls_by is_list (element_of node.entry))) }
    ensures timelines { timelines_in tables.new ≡ timelines_in tables.old }
    ensures grows { Grows tables.old tables.new }
{
    if !is_list {
        return Ok(None);
    }
    match read_urls(alloc, node)? {
        Some(urls) => Ok(Some(tables.keep_list(SharedNames::of(alloc, urls)?)?)),
        None => Ok(None),
    }
}
