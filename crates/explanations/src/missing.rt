// What an element of an MPD lacks, the first in the order in which it is asked.

use crate::attribute::push_attribute;
use crate::element::Found;
use crate::feature::inherited;
use bridge_io::NoMemory;
use mpd_profile::{Listed, has_child, value_named};
use mpd_tree::Node;

/// How segments are addressed; of a level the first one that it has.
const MEANS: [&str; 3] = ["SegmentTemplate", "SegmentList", "SegmentBase"];

/// What an addressing needs: an attribute or a child of its element, at some level.
type Need = (
    &'static str,
    Option<&'static str>,
    Option<&'static str>,
    &'static str,
);

static NEEDS: [Need; 8] = [
    (
        "SegmentTemplate",
        Some("initialization"),
        Some("Initialization"),
        "initialization of SegmentTemplate, or an Initialization in it (ISO/IEC 23009-1, 5.3.9.4)",
    ),
    (
        "SegmentTemplate",
        Some("media"),
        None,
        "media of SegmentTemplate, a template such as s$Number$.m4s (ISO/IEC 23009-1, 5.3.9.4)",
    ),
    (
        "SegmentTemplate",
        Some("duration"),
        Some("SegmentTimeline"),
        "duration of SegmentTemplate, or a SegmentTimeline in it (ISO/IEC 23009-1, 5.3.9.2)",
    ),
    (
        "SegmentList",
        None,
        Some("Initialization"),
        "an Initialization in SegmentList (ISO/IEC 23009-1, 5.3.9.2)",
    ),
    (
        "SegmentList",
        None,
        Some("SegmentURL"),
        "a SegmentURL in SegmentList (ISO/IEC 23009-1, 5.3.9.3)",
    ),
    (
        "SegmentList",
        Some("duration"),
        Some("SegmentTimeline"),
        "duration of SegmentList, or a SegmentTimeline in it (ISO/IEC 23009-1, 5.3.9.2)",
    ),
    (
        "SegmentBase",
        Some("indexRange"),
        None,
        "indexRange of SegmentBase, a byte range such as 800-843 (ISO/IEC 23009-1, 5.3.9.2)",
    ),
    (
        "SegmentBase",
        None,
        Some("Initialization"),
        "an Initialization in SegmentBase, or bytes before indexRange (ISO/IEC 23009-1, 5.3.9.2)",
    ),
];

/// Adds what the element lacks, and whether that is known.
pub(crate) fn push_missing(text: &mut String, found: &Found<'_>) -> Result<bool, NoMemory> {
    let Some(listed) = found.listed() else {
        return Ok(false);
    };
    if let Some(name) = attribute_lacked(listed, found) {
        push_attribute(text, found.node.name(), listed, name)?;
        return Ok(true);
    }
    match need_lacked(found.levels.as_slice()) {
        Some(words) => {
            text.push_str(words)?;
            Ok(true)
        }
        None => Ok(false),
    }
}

/// The first required attribute that the element lacks.
fn attribute_lacked(listed: Listed, found: &Found<'_>) -> Option<&'static str> {
    match listed {
        Listed::Mpd => Some("availabilityStartTime"),
        Listed::Period => Some("id"),
        Listed::S => Some("d"),
        Listed::Representation => description_lacked(found),
        _ => None,
    }
}

/// The first required attribute that a Representation lacks; its media type may be that of its AdaptationSet.
fn description_lacked(found: &Found<'_>) -> Option<&'static str> {
    if value_named(found.node, "id").is_none() {
        return Some("id");
    }
    if value_named(found.node, "bandwidth").is_none() {
        return Some("bandwidth");
    }
    if inherited(found.levels.as_slice(), "mimeType").is_some() {
        return None;
    }
    Some("mimeType")
}

/// The first need of the addressing that a Representation uses, which no level meets.
fn need_lacked(levels: &[Node<'_>]) -> Option<&'static str> {
    for level in levels.iter().rev() {
        match means_of(*level) {
            // A SegmentBase counts as a whole.
            Some("SegmentBase") => return need_of("SegmentBase", &[*level]),
            Some(element) => return need_of(element, levels),
            None => {}
        }
    }
    None
}

/// The element by which a level addresses segments.
fn means_of(level: Node<'_>) -> Option<&'static str> {
    for name in MEANS {
        if has_child(level, name) {
            return Some(name);
        }
    }
    None
}

/// The first need of an element that none of the levels meets.
fn need_of(element: &str, levels: &[Node<'_>]) -> Option<&'static str> {
    for (name, attribute, child, words) in &NEEDS {
        if *name == element && !is_met(levels, element, *attribute, *child) {
            return Some(*words);
        }
    }
    None
}

/// Whether the element has the attribute or the child at one of the levels.
fn is_met(
    levels: &[Node<'_>],
    element: &str,
    attribute: Option<&str>,
    child: Option<&str>,
) -> bool {
    for level in levels {
        for node in level.children() {
            if node.name() == element && has_either(node, attribute, child) {
                return true;
            }
        }
    }
    false
}

fn has_either(node: Node<'_>, attribute: Option<&str>, child: Option<&str>) -> bool {
    let has_attribute = match attribute {
        Some(name) => value_named(node, name).is_some(),
        None => false,
    };
    let has_named = match child {
        Some(name) => has_child(node, name),
        None => false,
    };
    has_attribute || has_named
}
