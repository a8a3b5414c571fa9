// What is rejected of an MPD: an element or an attribute, by its name.

use crate::element::Found;
use crate::rows::words_named;
use crate::shown::push_value;
use bridge_io::NoMemory;
use mpd_profile::value_named;
use mpd_tree::Node;
use mpd_values::{has_foreign_code, kind_of};
use std::fmt::Write;

/// Elements that are rejected, though they are read elsewhere: as a second one, or by `hls-index`.
const READ: [(&str, &str); 7] = [
    ("MPD", "a static MPD for hls-index"),
    ("Period", "one Period for hls-index"),
    (
        "SegmentTemplate",
        "one of SegmentTemplate, SegmentList and SegmentBase in an element",
    ),
    (
        "SegmentList",
        "one of SegmentTemplate, SegmentList and SegmentBase in an element",
    ),
    (
        "SegmentBase",
        "one of SegmentTemplate, SegmentList and SegmentBase in an element",
    ),
    ("SegmentTimeline", "one SegmentTimeline in an element"),
    ("Initialization", "one Initialization in an element"),
];

/// Adds what is asked where an element or an attribute is rejected; `words` are what is asked, `: `, and what to do.
pub(crate) fn push_feature(
    text: &mut String,
    words: &str,
    found: &Found<'_>,
) -> Result<(), NoMemory> {
    let name = found.node.name();
    match found.attribute {
        Some(attribute) => {
            write!(text, "no {} of {name}", attribute.name)?;
            push_action(text, words)
        }
        None if name == "Representation" => push_representation(text, found),
        None => match words_named(&READ, name) {
            Some(words) => {
                text.push_str(words)?;
                Ok(())
            }
            None => {
                write!(text, "no {name}")?;
                push_action(text, words)
            }
        },
    }
}

/// Adds what to do.
pub(crate) fn push_action(text: &mut String, words: &str) -> Result<(), NoMemory> {
    if let Some((_, action)) = words.split_once(": ") {
        write!(text, ": {action}")?;
    }
    Ok(())
}

/// A Representation is rejected for a codec of another kind, or by `hls-index`.
fn push_representation(text: &mut String, found: &Found<'_>) -> Result<(), NoMemory> {
    let levels = found.levels.as_slice();
    let media_type = inherited(levels, "mimeType");
    let codecs = inherited(levels, "codecs");
    match (media_type, codecs) {
        (Some(media_type), Some(codecs)) if is_foreign(media_type, codecs) => {
            text.push_str("codecs of the kind of the media type ")?;
            push_value(text, media_type)?;
            text.push_str(", and not ")?;
            push_value(text, codecs)
        }
        _ => {
            text.push_str("SegmentBase for each Representation for hls-index")?;
            Ok(())
        }
    }
}

fn is_foreign(media_type: &str, codecs: &str) -> bool {
    match kind_of(media_type) {
        Some(kind) => has_foreign_code(codecs, kind),
        None => false,
    }
}

/// The value of an attribute of the lowest level that has it.
pub(crate) fn inherited<'a>(levels: &[Node<'a>], name: &str) -> Option<&'a str> {
    for level in levels.iter().rev() {
        if let Some(value) = value_named(*level, name) {
            return Some(value);
        }
    }
    None
}
