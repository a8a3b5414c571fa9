// The templates of a Representation.

use crate::element::Found;
use crate::shown::push_value;
use bridge_io::NoMemory;
use mpd_profile::value_named;
use mpd_tree::Node;
use std::fmt::Write;

/// The attributes of a SegmentTemplate that are templates.
const TEMPLATES: [&str; 2] = ["initialization", "media"];

/// Adds what is asked of templates, and those that the Representation uses.
pub(crate) fn push_templates(
    text: &mut String,
    words: &str,
    found: &Found<'_>,
) -> Result<(), NoMemory> {
    text.push_str(words)?;
    for name in TEMPLATES {
        if let Some(template) = template_named(found.levels.as_slice(), name) {
            write!(text, "; {name} is ")?;
            push_value(text, template)?;
        }
    }
    Ok(())
}

/// A template of the lowest level that has it.
fn template_named<'a>(levels: &[Node<'a>], name: &str) -> Option<&'a str> {
    for level in levels.iter().rev() {
        for node in level.children() {
            if node.name() == "SegmentTemplate" {
                if let Some(template) = value_named(node, name) {
                    return Some(template);
                }
            }
        }
    }
    None
}
