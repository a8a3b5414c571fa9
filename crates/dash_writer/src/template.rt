// SegmentTemplates.
ghost use Rattle.std.specs.Prelude.{◌≡◌, ◌<◌, ◌^◌, length, string_bytes, MatchResult};
ghost use Rattle.bridge_io.specs.{Adding.Adds, declared.outside.Fail.TheVariants.Memory};
ghost use Rattle.dash_writer.specs.Forms as spec;
ghost use Rattle.dash_writer.specs.Written.{all_told, element_text};

use crate::attribute::{Attribute, Value};
use crate::element::{push_end, push_start};
use crate::segments::{Files, ListHead};
use crate::times::{Durations, number, push_timeline};
use bridge_io::{Fail, Sheet, Store};
use segment_forms::{PatternFinder, push_literal};
use std::alloc::Global;
use url_parts::Part;

/// The URLs of a SegmentTemplate with `$Number$` (ISO/IEC 23009-1, 5.3.9.4).
#[derive(Drop)]
pub(crate) struct Template {
    /// The media text.
    media: String,
    /// The first segment's number.
    number: u32,
}

/// The template of a track's files, where they have a pattern.
pub(crate) fn template_of<S, P: Files<S>>(
    alloc: Global,
    initialization: &Part,
    files: &mut P,
    steps: &mut S,
) -> Result<Option<Template>, Fail>
    requires { P.can_push files.old }
    ensures { MatchResult result (spec.Finds initialization.now (P.parts files.old)) (λ fail. fail ≡ Memory) }
{
    if initialization.range.is_some() {
        return Ok(None);
    }
    let mut finder = PatternFinder::new(alloc);
    if !files.push_addresses(alloc, &mut finder, steps)? {
        return Ok(None);
    }
    let mut media = String::new(alloc);
    match finder.push_media(&mut media)? {
        Some(pattern) => Ok(Some(Template {
            media,
            number: pattern.first_number,
        })),
        None => Ok(None),
    }
}

/// Writes a SegmentTemplate.
pub(crate) fn push_template<D: Durations, F: Store>(
    alloc: Global,
    head: &ListHead<'_>,
    template: &Template,
    durations: &mut D,
    sheet: &mut Sheet<F>,
) -> Result<(), Fail>
    requires { length (D.durations durations.old) < 2 ^ 64 }
    ensures { Adds F.Store (element_text (spec.template_with head.now.ticks head.now.offset head.now.first
        head.now.initialization.now.address (string_bytes template.now.media) template.now.number (D.durations durations.old)))
        sheet.old sheet.new result }
{
    let mut initialization = String::new(alloc);
    push_literal(&mut initialization, head.initialization.address.as_str())?;
    let attributes = template_attributes(head, initialization.as_str(), template);
    push_start(sheet, "SegmentTemplate", &attributes, false)?;
    push_timeline(true, head.first, durations, sheet)?;
    push_end(sheet, "SegmentTemplate", false)
}

/// The attributes of a SegmentTemplate, given the template of the init segment's URL.
fn template_attributes<'a>(
    head: &ListHead<'_>,
    initialization: &'a str,
    template: &'a Template,
) -> [Attribute<'a>; 5]
    ensures { all_told result ≡ spec.template_attributes head.now.ticks head.now.offset initialization.now
        (string_bytes template.now.media) template.now.number }
{
    [
        ("timescale", Some(Value::Number(head.ticks))),
        ("presentationTimeOffset", number(head.offset)),
        ("initialization", Some(Value::Text(initialization))),
        ("media", Some(Value::Text(template.media.as_str()))),
        (
            "startNumber",
            Some(Value::Number(u64::from(template.number))),
        ),
    ]
}
