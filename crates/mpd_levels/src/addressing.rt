// Segments addressed one by one.
ghost use Rattle.std.specs.Prelude.{◌≡◌, IfOk, option_and_then, option_map, slice_get};
ghost use Rattle.mpd_levels.specs.Segments as spec;
ghost use Rattle.mpd_levels.specs.Shown.{Shows, Tells, addressed, segments_shown, timelines_in};
ghost use Rattle.mpd_levels.specs.declared.tables.Tables.{Tables};
ghost use Rattle.mpd_levels.specs.Segments.{Segments, Values};

use crate::initialization::Initialization;
use crate::shared_text::SharedText;
use crate::tables::Tables;
use crate::values::ValueRow;
use bridge_io::NoMemory;
use mpd_entries::SharedNames;
use url_parts::Range;

/// The effective values of the used element, SegmentTemplate or SegmentList (ISO/IEC 23009-1, 5.3.9.1). Timeline and
/// list are in tables.
#[derive(Drop)]
pub struct SegmentRow {
    pub(crate) is_list: bool,
    pub(crate) values: ValueRow,
}

impl SegmentRow {
    pub(crate) fn of(is_list: bool, values: &ValueRow) -> Result<SegmentRow, NoMemory>
        ensures { IfOk result (λ row. (row.is_list ≡ is_list) × (row.values ≡ values.now)) }
    {
        Ok(SegmentRow {
            is_list,
            values: values.share()?,
        })
    }

    /// Whether something required for segments is missing: the init segment, the template, the URLs of a list, or all
    /// times.
    pub fn is_incomplete(&self) -> bool
        ensures { (tables : Tables) (segments : Segments) → Tells tables self.now segments → result ≡ spec.is_incomplete segments }
    {
        let values = &self.values;
        let lacks_init = values.attributes.initialization.is_none()
            && values.initialization.is_none();
        let lacks_names = if self.is_list {
            values.urls.is_none()
        } else {
            values.attributes.media.is_none()
        };
        let lacks_times = values.timeline.is_none() && values.attributes.duration.is_none();
        lacks_init || lacks_names || lacks_times
    }
}

/// A view of the effective values of the used element.
#[derive(Clone, Copy)]
pub struct Addressing<'a> {
    tables: &'a Tables,
    row: &'a SegmentRow,
}

#[tactic(auto, unfolding(crate::specs::Shown::segments_shown))]
impl<'a> Addressing<'a> {
    /// The view of a row whose timelines and lists are in these tables.
    pub fn of(tables: &'a Tables, row: &'a SegmentRow) -> Addressing<'a>
        ensures segments { addressed result ≡ segments_shown tables.now row.now }
        ensures tables { result.tables.now ≡ tables.now }
    {
        Addressing { tables, row }
    }

    /// Whether it is a SegmentList, not a SegmentTemplate.
    pub fn is_list(&self) -> bool
        ensures { result ≡ (addressed self.now).is_list }
    {
        self.row.is_list
    }

    /// The template of the segment URLs. A list has none.
    pub fn media(&self) -> Option<&'a str>
        ensures { option_map (λ text. text.now) result ≡ (addressed self.now).media }
    {
        text_of(&self.row.values.attributes.media)
    }

    /// How many ticks make a second.
    pub fn timescale(&self) -> u32
        ensures { result ≡ (addressed self.now).timescale }
    {
        self.row.values.attributes.timescale.unwrap_or(1)
    }

    /// How long each segment is, in ticks, where `@duration` is present.
    pub fn duration(&self) -> Option<u64>
        ensures { result ≡ (addressed self.now).duration }
    {
        self.row.values.attributes.duration
    }

    /// The number of the first segment.
    pub fn start_number(&self) -> u64
        ensures { result ≡ (addressed self.now).start_number }
    {
        self.row.values.attributes.start_number.unwrap_or(1)
    }

    /// The media time at which the Period begins, in ticks.
    pub fn time_offset(&self) -> u64
        ensures { result ≡ (addressed self.now).time_offset }
    {
        self.row.values.attributes.time_offset.unwrap_or(0)
    }

    /// The key of its timeline in the tables. Equal keys have equal timelines.
    pub fn timeline_key(&self) -> Option<usize>
        ensures { option_and_then (slice_get (timelines_in self.now.tables.now)) result ≡ (addressed self.now).timeline }
    {
        self.row.values.timeline
    }

    /// The SegmentURLs of a list, where it has any.
    pub fn urls(&self) -> Option<&'a SharedNames>
        ensures { option_map (λ names. names.now) result ≡ (addressed self.now).urls }
    {
        self.tables.list(self.row.values.urls?)
    }

    /// The template of the init segment's URL, where the attribute gives it.
    pub fn init_template(&self) -> Option<&'a str>
        ensures { option_map (λ text. text.now) result ≡ (addressed self.now).init_template }
    {
        text_of(&self.row.values.attributes.initialization)
    }

    /// The URL of the init segment, where an Initialization element gives it and not the attribute.
    pub fn init_reference(&self) -> Option<&'a str>
        ensures { option_map (λ text. text.now) result ≡ (addressed self.now).init_reference }
    {
        text_of(&self.initialization()?.reference)
    }

    /// The byte range of the init segment, where an Initialization element gives it and not the attribute.
    pub fn init_range(&self) -> Option<Range>
        ensures { result ≡ (addressed self.now).init_range }
    {
        self.initialization()?.range
    }

    /// The Initialization element, unless the attribute is present.
    fn initialization(&self) -> Option<&'a Initialization>
        ensures { option_map (λ i. i.now) result
            ≡ spec.unless_there self.now.row.now.values.attributes.initialization self.now.row.now.values.initialization }
    {
        match (
            &self.row.values.attributes.initialization,
            &self.row.values.initialization,
        ) {
            (None, Some(initialization)) => Some(initialization),
            _ => None,
        }
    }
}

fn text_of(text: &Option<SharedText>) -> Option<&str>
    ensures { option_map (λ text. text.now) result ≡ text.now }
{
    match text {
        Some(text) => Some(text.as_str()),
        None => None,
    }
}
