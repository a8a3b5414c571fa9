// SegmentLists.
ghost use Rattle.std.specs.Prelude.{◌≡◌, ◌++◌, ◌<◌, ◌^◌, ℕ, List, length, map, option_map, IfOk, IsTrue, MatchResult};
ghost use Rattle.std.specs.List.{list_all};
ghost use Rattle.bridge_io.specs.{Adding.Adds, declared.outside.Fail.TheVariants.Memory};
ghost use Rattle.url_parts.specs.declared.address.Part.{Part};
ghost use Rattle.dash_writer.specs.Forms.{addresses_of, is_whole, segments_with};
ghost use Rattle.dash_writer.specs.Lists as lists;
ghost use Rattle.dash_writer.specs.Segments as spec;
ghost use Rattle.dash_writer.specs.Values.{range_text};
ghost use Rattle.dash_writer.specs.Written.{all_told, element_text, elements_text, value_text};

use crate::attribute::{Attribute, Value};
use crate::element::{push_end, push_leaf, push_start};
use crate::template::{push_template, template_of};
use crate::times::{Durations, number, push_timeline};
use bridge_io::{Fail, Sheet, Store};
use segment_forms::{Form, PatternFinder};
use std::alloc::Global;
use url_parts::{Part, Range};

/// The files of segments, in order. `S` counts what is made.
pub(crate) trait Files<S> {
    /// The remaining files, with byte ranges.
    ghost parts: { Self → List Part };

    /// When they can be written.
    ghost can_push: { Self → Type 0 };

    /// Writes the SegmentURLs (ISO/IEC 23009-1, 5.3.9.3.2).
    fn push_urls<F: Store>(
        &mut self,
        alloc: Global,
        sheet: &mut Sheet<F>,
        steps: &mut S,
    ) -> Result<(), Fail>
        requires { can_push self.old }
        ensures { Adds F.Store (elements_text (map spec.segment_url (parts self.old))) sheet.old sheet.new result };

    /// Gives a finder the addresses up to the first byte range. Whether there is none.
    fn push_addresses(
        &mut self,
        alloc: Global,
        finder: &mut PatternFinder,
        steps: &mut S,
    ) -> Result<bool, Fail>
        requires { can_push self.old }
        ensures whole { MatchResult result (λ whole. whole ≡ list_all is_whole (parts self.old)) (λ fail. fail ≡ Memory) }
        ensures given { IfOk result (λ whole. IsTrue whole → finder.new ≡ finder.old ++ addresses_of (parts self.old)) };
}

/// The values of a SegmentList or a SegmentTemplate for all its segments (5.3.9.2).
#[derive(Clone, Copy)]
pub(crate) struct ListHead<'a> {
    /// How many ticks make a second.
    pub(crate) ticks: u64,
    /// The media time of the Period's start, where it is written.
    pub(crate) offset: Option<u64>,
    /// The media time of the first segment.
    pub(crate) first: u64,
    pub(crate) initialization: &'a Part,
}

/// Writes the segments of a Representation in a form, given their files twice: for players they are read through once for their
/// pattern.
pub(crate) fn push_segments<S, D: Durations, P: Files<S>, F: Store>(
    alloc: Global,
    form: Form,
    head: &ListHead<'_>,
    durations: &mut D,
    files: &mut P,
    again: &mut P,
    sheet: &mut Sheet<F>,
    steps: &mut S,
) -> Result<(), Fail>
    requires few { length (D.durations durations.old) < 2 ^ 64 }
    requires can { P.can_push files.old }
    requires can_again { P.can_push again.old }
    requires same { P.parts again.old ≡ P.parts files.old }
    ensures { Adds F.Store (element_text (segments_with form head.now.ticks head.now.offset head.now.first head.now.initialization.now
        (D.durations durations.old) (P.parts files.old))) sheet.old sheet.new result }
{
    let template = match form {
        Form::Plain => return push_segment_list(alloc, true, head, durations, files, sheet, steps),
        Form::Players => template_of(alloc, head.initialization, again, steps)?,
    };
    match template {
        Some(template) => push_template(alloc, head, &template, durations, sheet),
        None => push_segment_list(alloc, false, head, durations, files, sheet, steps),
    }
}

/// Writes a SegmentList (5.3.9.3).
fn push_segment_list<S, D: Durations, P: Files<S>, F: Store>(
    alloc: Global,
    joined: bool,
    head: &ListHead<'_>,
    durations: &mut D,
    files: &mut P,
    sheet: &mut Sheet<F>,
    steps: &mut S,
) -> Result<(), Fail>
    requires few { length (D.durations durations.old) < 2 ^ 64 }
    requires can { P.can_push files.old }
    ensures { Adds F.Store (element_text (lists.list_with joined head.now.ticks head.now.offset head.now.first head.now.initialization.now
        (D.durations durations.old) (P.parts files.old))) sheet.old sheet.new result }
{
    push_start(sheet, "SegmentList", &list_attributes(head), false)?;
    push_contents(alloc, joined, head, durations, files, sheet, steps)?;
    push_end(sheet, "SegmentList", false)
}

fn list_attributes<'a>(head: &ListHead<'_>) -> [Attribute<'a>; 2]
    ensures { all_told result ≡ lists.head_attributes head.now.ticks head.now.offset }
{
    [
        ("timescale", Some(Value::Number(head.ticks))),
        ("presentationTimeOffset", number(head.offset)),
    ]
}

/// Writes the content of a SegmentList.
fn push_contents<S, D: Durations, P: Files<S>, F: Store>(
    alloc: Global,
    joined: bool,
    head: &ListHead<'_>,
    durations: &mut D,
    files: &mut P,
    sheet: &mut Sheet<F>,
    steps: &mut S,
) -> Result<(), Fail>
    requires few { length (D.durations durations.old) < 2 ^ 64 }
    requires can { P.can_push files.old }
    ensures { Adds F.Store
        (elements_text (lists.contents_with joined head.now.first head.now.initialization.now (D.durations durations.old) (P.parts files.old)))
        sheet.old sheet.new result }
{
    push_initialization(head.initialization, sheet)?;
    push_timeline(joined, head.first, durations, sheet)?;
    files.push_urls(alloc, sheet, steps)
}

/// Writes the Initialization (5.3.9.2.2).
fn push_initialization<F: Store>(part: &Part, sheet: &mut Sheet<F>) -> Result<(), Fail>
    ensures { Adds F.Store (element_text (spec.initialization part.now)) sheet.old sheet.new result }
{
    let address = Value::Text(part.address.as_str());
    let attributes = [("sourceURL", Some(address)), ("range", range(part.range))];
    push_leaf(sheet, "Initialization", &attributes)
}

/// A byte range as a value, where there is one.
fn range<'a>(range: Option<Range>) -> Option<Value<'a>>
    ensures { option_map value_text result ≡ option_map range_text range }
{
    Some(Value::Range(range?))
}

/// Writes the SegmentURL of a file, or of a byte range.
pub(crate) fn push_url<F: Store>(
    address: &str,
    bytes: Option<Range>,
    sheet: &mut Sheet<F>,
) -> Result<(), Fail>
    ensures { Adds F.Store (element_text (spec.segment_url (record { address = address.now; range = bytes }))) sheet.old sheet.new result }
{
    let attributes = [
        ("media", Some(Value::Text(address))),
        ("mediaRange", range(bytes)),
    ];
    push_leaf(sheet, "SegmentURL", &attributes)
}
