// What is dropped of an MPD, and why.

use crate::element::tree_of;
use crate::lines::Lines;
use crate::shown::push_short;
use bridge_io::{NoMemory, Text};
use mpd_profile::{has_child, is_representation_left_out, is_set_left_out, value_named};
use mpd_tree::Node;
use mpd_values::kind_of;
use std::alloc::Global;
use std::fmt::Write;

/// Why media types are dropped, by how they begin.
static TYPES: [(&str, &str); 7] = [
    ("text/vtt", "WebVTT in files of its own"),
    ("application/ttml+xml", "TTML in files of its own"),
    ("image/", "images"),
    ("video/webm", "WebM"),
    ("audio/webm", "WebM"),
    ("video/mp2t", "MPEG-2 TS"),
    ("audio/mpeg", "packed audio"),
];

/// For an MPD's bytes, a line for each AdaptationSet that is dropped, and for each Representation that is dropped of an
/// AdaptationSet that is kept, as many as `left-out` counts: its place, its media type, and why. Each begins with two
/// spaces, and ends with LF. From the 101st on they are counted. Bytes that aren't an MPD have none.
pub fn left_out_of_mpd(alloc: Global, bytes: &[u8]) -> Result<Text, NoMemory> {
    let mut lines = Lines::new(alloc);
    if let Some(tree) = tree_of(alloc, bytes)? {
        lines.add_mpd(tree.root())?;
    }
    lines.finish()
}

impl Lines {
    fn add_mpd(&mut self, mpd: Node<'_>) -> Result<(), NoMemory> {
        for period in mpd.children() {
            if period.name() == "Period" {
                self.add_period(period)?;
            }
        }
        Ok(())
    }

    fn add_period(&mut self, period: Node<'_>) -> Result<(), NoMemory> {
        for set in period.children() {
            if set.name() == "AdaptationSet" {
                self.add_set(set)?;
            }
        }
        Ok(())
    }

    /// Adds a set, or the Representations of a kept one.
    fn add_set(&mut self, set: Node<'_>) -> Result<(), NoMemory> {
        let media_type = value_named(set, "mimeType");
        if is_set_left_out(set) {
            return self.add_element(set, media_type.or(first_type(set)));
        }
        for child in set.children() {
            if child.name() == "Representation" && is_representation_left_out(media_type, child) {
                self.add_element(child, value_named(child, "mimeType").or(media_type))?;
            }
        }
        Ok(())
    }

    fn add_element(&mut self, node: Node<'_>, media_type: Option<&str>) -> Result<(), NoMemory> {
        if self.count_one() {
            push_element(&mut self.text, node, media_type)?;
        }
        Ok(())
    }
}

/// The media type of the first Representation.
fn first_type<'a>(set: Node<'a>) -> Option<&'a str> {
    value_named(first_representation(set)?, "mimeType")
}

fn first_representation(set: Node<'_>) -> Option<Node<'_>> {
    set.children()
        .find(|child| child.name() == "Representation")
}

fn push_element(
    text: &mut String,
    node: Node<'_>,
    media_type: Option<&str>,
) -> Result<(), NoMemory> {
    let (name, place) = (node.name(), node.place());
    let (at, line) = (place.at, place.line);
    write!(text, "  left out: {name} at {at} line {line}")?;
    if let Some(media_type) = media_type {
        text.push_str(", ")?;
        push_short(text, media_type)?;
    }
    let why = reason(node, media_type);
    write!(text, ": {why}\n")?;
    Ok(())
}

/// Why an element is dropped.
fn reason(node: Node<'_>, media_type: Option<&str>) -> &'static str {
    if has_child(node, "EssentialProperty") {
        return "an EssentialProperty, such as that of trick play";
    }
    match media_type {
        Some(media_type) if kind_of(media_type).is_none() => reason_of_type(media_type),
        _ if first_representation(node).is_none() => "no Representation",
        _ => "an EssentialProperty of each Representation",
    }
}

fn reason_of_type(media_type: &str) -> &'static str {
    for (begin, why) in &TYPES {
        if media_type.starts_with(*begin) {
            return *why;
        }
    }
    "neither video/mp4, audio/mp4 nor application/mp4"
}
