// Attributes of an MPD, with their types.

use crate::rows::words_named;
use bridge_io::NoMemory;
use mpd_profile::{Addressing, Listed, Value};
use std::fmt::Write;

/// The attributes that ISO/IEC 23009-1, 5.3.7.2 has for AdaptationSets and Representations.
const COMMON: [&str; 5] = ["mimeType", "codecs", "width", "height", "frameRate"];

/// What the values of attributes are that may be any text.
const TEXTS: [(&str, &str); 5] = [
    ("mimeType", "video/mp4, audio/mp4 or application/mp4"),
    ("media", "a template such as s$Number$.m4s, or a URL"),
    ("initialization", "a URL, or a template of one"),
    ("sourceURL", "a URL"),
    ("id", "a text"),
];

/// Adds an attribute of an element of that name: its name, its type, and the clause of the standard.
pub(crate) fn push_attribute(
    text: &mut String,
    element: &str,
    listed: Listed,
    name: &str,
) -> Result<(), NoMemory> {
    write!(text, "{name} of {element}")?;
    if let Some(value) = listed.attribute(name, Addressing::Index) {
        text.push_str(", ")?;
        push_type(text, name, value)?;
    }
    let clause = clause_of(listed, name);
    write!(text, " (ISO/IEC 23009-1, {clause})")?;
    Ok(())
}

fn push_type(text: &mut String, name: &str, value: Value) -> Result<(), NoMemory> {
    match value {
        Value::AnyText => text.push_str(words_named(&TEXTS, name).unwrap_or("a text"))?,
        Value::Number(least, bound) => {
            let most = bound.saturating_sub(1);
            write!(text, "a number from {least} to {most}")?;
        }
        _ => text.push_str(type_words(value))?,
    }
    Ok(())
}

/// What the values of a type are that has no bounds of its own.
fn type_words(value: Value) -> &'static str {
    match value {
        Value::MpdType => "static or dynamic",
        Value::Instant => "a time such as 2024-01-01T00:00:00Z",
        Value::Duration => "a duration such as PT6S, without years and months",
        Value::Signed => "a whole number of 64 bits",
        Value::FrameRate => "a frame rate such as 25 or 30000/1001",
        Value::Codes => "a list of at least one codec, of at most 255 characters",
        Value::Language => "a language such as en, of at most 64 characters",
        Value::Range => "a byte range such as 0-799",
        Value::Number(_, _) => "a number",
        Value::AnyText => "a text",
    }
}

fn clause_of(listed: Listed, name: &str) -> &'static str {
    if COMMON.contains(&name) {
        return "5.3.7.2";
    }
    match listed {
        Listed::Mpd => "5.3.1.2",
        Listed::BaseUrl => "5.6",
        Listed::Period => "5.3.2.2",
        Listed::AdaptationSet => "5.3.3.2",
        Listed::Representation => "5.3.5.2",
        Listed::SegmentTemplate => "5.3.9.4",
        Listed::SegmentList | Listed::SegmentUrl => "5.3.9.3",
        Listed::SegmentBase | Listed::Initialization => "5.3.9.2",
        Listed::SegmentTimeline | Listed::S => "5.3.9.6",
    }
}
