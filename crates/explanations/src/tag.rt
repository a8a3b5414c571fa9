// The lines of playlists, and what is asked of them.

use crate::excerpt::first_line;
use crate::feature::push_action;
use crate::rows::{How, words_named};
use crate::shape::Shape;
use crate::shown::push_value;
use bridge_io::{NoMemory, Place};
use hls_lines::{Attributes, LineFault, cut_at, read_attributes};
use std::alloc::Global;
use std::fmt::Write;

/// A line of a playlist.
#[derive(Clone, Copy)]
enum Found<'a> {
    /// A tag: its name without the `#`, and what is behind its `:`.
    Tag(&'a str, &'a str),
    /// A URI.
    Uri,
}

/// An attribute: its tag, its name, whether it is required, and its type. Those of a tag are in the order in which they
/// are read.
type Row = (&'static str, &'static str, bool, Shape);

static ATTRIBUTES: [Row; 12] = [
    ("EXT-X-MEDIA", "TYPE", true, Shape::Type),
    ("EXT-X-MEDIA", "GROUP-ID", true, Shape::Text),
    ("EXT-X-MEDIA", "NAME", true, Shape::Text),
    ("EXT-X-MEDIA", "LANGUAGE", false, Shape::Language),
    ("EXT-X-MEDIA", "URI", true, Shape::Uri),
    ("EXT-X-STREAM-INF", "BANDWIDTH", true, Shape::Bandwidth),
    ("EXT-X-STREAM-INF", "CODECS", false, Shape::Codecs),
    ("EXT-X-STREAM-INF", "RESOLUTION", false, Shape::Resolution),
    ("EXT-X-STREAM-INF", "FRAME-RATE", false, Shape::FrameRate),
    ("EXT-X-MAP", "URI", true, Shape::Uri),
    ("EXT-X-MAP", "BYTERANGE", false, Shape::Range),
    ("EXT-X-KEY", "METHOD", true, Shape::Method),
];

/// The values of tags that have no attributes.
static VALUES: [(&str, &str); 5] = [
    (
        "EXTINF",
        "seconds such as 4.004, and a comma (RFC 8216, 4.3.2.1)",
    ),
    (
        "EXT-X-BYTERANGE",
        "<length>[@<offset>] such as 800@0 (RFC 8216, 4.3.2.2)",
    ),
    (
        "EXT-X-TARGETDURATION",
        "whole seconds from 0 to 2147483647 (RFC 8216, 4.3.3.1)",
    ),
    (
        "EXT-X-MEDIA-SEQUENCE",
        "a number below 2^63 (RFC 8216, 4.3.3.2)",
    ),
    (
        "EXT-X-DISCONTINUITY-SEQUENCE",
        "a number below 2^63 (RFC 8216, 4.3.3.3)",
    ),
];

/// What is rejected of a tag that is read otherwise.
static PARTS: [(&str, &str); 2] = [
    ("EXT-X-MEDIA", "TYPE=VIDEO of EXT-X-MEDIA"),
    ("EXT-X-STREAM-INF", "VIDEO of EXT-X-STREAM-INF"),
];

/// What is asked of a media playlist's tag where it is misplaced.
static IN_MEDIA: [(&str, &str); 5] = [
    (
        "EXTINF",
        "one EXTINF before each URI, and none behind the last one",
    ),
    ("EXT-X-BYTERANGE", "a URI behind EXT-X-BYTERANGE"),
    ("EXT-X-TARGETDURATION", "EXT-X-TARGETDURATION once"),
    (
        "EXT-X-MEDIA-SEQUENCE",
        "EXT-X-MEDIA-SEQUENCE once, before the first URI",
    ),
    (
        "EXT-X-DISCONTINUITY-SEQUENCE",
        "EXT-X-DISCONTINUITY-SEQUENCE once, before the first URI",
    ),
];

/// Adds what is asked of the line that the bytes begin with, and whether that is known; `words` are what is asked where
/// it isn't.
pub(crate) fn push_line_asked(
    alloc: Global,
    text: &mut String,
    how: How,
    words: &str,
    bytes: &[u8],
) -> Result<bool, NoMemory> {
    match (how, line_in(bytes)) {
        (How::Tag, Some(Found::Tag(name, _))) => {
            write!(text, "{name} with {words}")?;
            Ok(true)
        }
        (How::Without, Some(Found::Tag(name, _))) => push_without(text, words, name),
        (How::TagValue, Some(Found::Tag(name, rest))) => push_wrong(alloc, text, name, rest),
        (How::OfMaster, Some(found)) => push_of_master(text, found),
        (How::OfMedia, Some(found)) => push_of_media(text, found),
        _ => Ok(false),
    }
}

/// The line that the bytes begin with, if it is UTF-8.
fn line_in(bytes: &[u8]) -> Option<Found<'_>> {
    let line = str::from_utf8(first_line(bytes)).ok()?.trim_end();
    let Some(tag) = line.strip_prefix('#') else {
        return Some(Found::Uri);
    };
    let (name, rest) = cut_at(tag, b':').unwrap_or((tag, ""));
    Some(Found::Tag(name, rest))
}

fn push_without(text: &mut String, words: &str, name: &str) -> Result<bool, NoMemory> {
    let part = words_named(&PARTS, name).unwrap_or(name);
    write!(text, "no {part}")?;
    push_action(text, words)?;
    Ok(true)
}

fn push_of_master(text: &mut String, found: Found<'_>) -> Result<bool, NoMemory> {
    match found {
        Found::Uri => text.push_str("EXT-X-STREAM-INF right before the URI")?,
        Found::Tag("EXT-X-STREAM-INF", _) => {
            text.push_str("a URI right behind EXT-X-STREAM-INF (RFC 8216, 4.3.4.2)")?
        }
        Found::Tag(name, _) => write!(text, "no {name} in a master: is it a media playlist?")?,
    }
    Ok(true)
}

fn push_of_media(text: &mut String, found: Found<'_>) -> Result<bool, NoMemory> {
    match found {
        Found::Uri => text.push_str("EXTINF before the URI (RFC 8216, 4.3.2.1)")?,
        Found::Tag(name, _) => match words_named(&IN_MEDIA, name) {
            Some(words) => text.push_str(words)?,
            None => write!(text, "no {name} in a media playlist: is it a master?")?,
        },
    }
    Ok(true)
}

/// Adds what a tag lacks, or what its value or that of an attribute should be, and what it is.
fn push_wrong(alloc: Global, text: &mut String, tag: &str, rest: &str) -> Result<bool, NoMemory> {
    if let Some(words) = words_named(&VALUES, tag) {
        write!(text, "{tag}, {words}, and not ")?;
        push_value(text, rest)?;
        return Ok(true);
    }
    match read_attributes(alloc, rest, Place { at: 0, line: 1 }) {
        Ok(attributes) => push_wrong_attribute(text, tag, &attributes),
        Err(LineFault::Memory) => Err(NoMemory),
        Err(_) => Ok(false),
    }
}

/// Adds the first attribute of a tag that is missing, or whose value isn't of its type.
fn push_wrong_attribute(
    text: &mut String,
    tag: &str,
    attributes: &Attributes<'_>,
) -> Result<bool, NoMemory> {
    for row in &ATTRIBUTES {
        if row.0 == tag && push_if_wrong(text, row, attributes.get(row.1))? {
            return Ok(true);
        }
    }
    Ok(false)
}

/// Adds an attribute, if it is required and missing, or its value isn't of its type; whether that is so.
fn push_if_wrong(text: &mut String, row: &Row, value: Option<&str>) -> Result<bool, NoMemory> {
    let (tag, name, is_required, shape) = *row;
    match value {
        None if is_required => push_attribute(text, tag, name, shape)?,
        Some(value) if !shape.accepts(value) => {
            push_attribute(text, tag, name, shape)?;
            text.push_str(", and not ")?;
            push_value(text, value)?;
        }
        _ => return Ok(false),
    }
    Ok(true)
}

fn push_attribute(text: &mut String, tag: &str, name: &str, shape: Shape) -> Result<(), NoMemory> {
    let words = shape.words();
    let clause = match tag {
        "EXT-X-MEDIA" => "4.3.4.1",
        "EXT-X-STREAM-INF" => "4.3.4.2",
        "EXT-X-MAP" => "4.3.2.5",
        _ => "4.3.2.4",
    };
    write!(text, "{name} of {tag}, {words} (RFC 8216, {clause})")?;
    Ok(())
}
