// Values of an MPD's attributes that are rejected.

use crate::attribute::push_attribute;
use crate::element::Found;
use crate::shown::push_value;
use bridge_io::NoMemory;
use mpd_profile::{Addressing, Listed};
use mpd_tree::Attr;

/// Adds what an attribute's value should be, and what it is; whether that is known.
pub(crate) fn push_wrong_value(text: &mut String, found: &Found<'_>) -> Result<bool, NoMemory> {
    let (Some(listed), Some(attribute)) = (found.listed(), found.attribute) else {
        return Ok(false);
    };
    if accepts(listed, attribute) {
        // The only value that is rejected for another one: the id of a Period.
        text.push_str("another id than those of the Periods before")?;
    } else {
        push_attribute(text, found.node.name(), listed, attribute.name)?;
    }
    text.push_str(", and not ")?;
    push_value(text, attribute.value)?;
    Ok(true)
}

fn accepts(listed: Listed, attribute: Attr<'_>) -> bool {
    match listed.attribute(attribute.name, Addressing::Index) {
        Some(value) => value.accepts(attribute.value),
        None => true,
    }
}
