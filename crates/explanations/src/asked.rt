// What is asked at a refusal.

use crate::element::{Found, tree_of};
use crate::excerpt::parts_at;
use crate::feature::push_feature;
use crate::line::{Refused, Spot};
use crate::missing::push_missing;
use crate::rows::{How, Layer, how_asked};
use crate::shown::push_value;
use crate::tag::push_line_asked;
use crate::template::push_templates;
use crate::value::push_wrong_value;
use bridge_io::NoMemory;
use std::alloc::Global;
use std::fmt::Write;

/// A place of a manifest.
#[derive(Clone, Copy)]
struct Around<'a> {
    source: &'a [u8],
    at: u64,
    /// The bytes before the place.
    before: &'a [u8],
    /// Those from it on.
    behind: &'a [u8],
}

/// Adds what is asked: by the source at the place, if it is there and shows it, otherwise by the error alone.
pub(crate) fn push_asked(
    alloc: Global,
    text: &mut String,
    refused: &Refused<'_>,
    source: Option<&[u8]>,
) -> Result<(), NoMemory> {
    let Some(layer) = Layer::named(refused.layer) else {
        return Ok(());
    };
    let Some(words) = layer.asked(refused.number) else {
        return Ok(());
    };
    let how = how_asked(refused.layer, refused.number);
    text.push_str("  asked: ")?;
    let is_known = match place_of(refused.spot, source) {
        Some(around) => push_by_source(alloc, text, how, words, around)?,
        None => false,
    };
    if !is_known {
        text.push_str(words)?;
    }
    text.push('\n')?;
    Ok(())
}

/// The place of a manifest that a spot names.
fn place_of(spot: Option<Spot>, source: Option<&[u8]>) -> Option<Around<'_>> {
    let (Some(Spot::Line { at, .. }), Some(source)) = (spot, source) else {
        return None;
    };
    let (before, behind) = parts_at(source, at)?;
    Some(Around {
        source,
        at,
        before,
        behind,
    })
}

/// Adds what is asked by the source, and whether it shows that.
fn push_by_source(
    alloc: Global,
    text: &mut String,
    how: How,
    words: &str,
    around: Around<'_>,
) -> Result<bool, NoMemory> {
    match how {
        How::Words => Ok(false),
        How::Syntax => push_syntax(text, around.before),
        How::EndTag => push_end_tag(text, words, around.behind),
        How::Root | How::Missing | How::Value | How::Feature | How::Template => {
            push_by_tree(alloc, text, how, words, around)
        }
        _ => push_line_asked(alloc, text, how, words, around.behind),
    }
}

/// Adds what is asked where a byte isn't allowed, if the bytes before it say that.
fn push_syntax(text: &mut String, before: &[u8]) -> Result<bool, NoMemory> {
    match before {
        [] => text.push_str("the < of an element or of the XML declaration: is it an MPD?")?,
        [.., b'='] => text.push_str("a quote before the attribute's value")?,
        _ => return Ok(false),
    }
    Ok(true)
}

/// Adds the name of an end tag.
fn push_end_tag(text: &mut String, words: &str, behind: &[u8]) -> Result<bool, NoMemory> {
    let [b'<', b'/', rest @ ..] = behind else {
        return Ok(false);
    };
    let len = rest.iter().take_while(|byte| is_name_byte(**byte)).count();
    let Some(name) = rest.get(..len) else {
        return Ok(false);
    };
    let Ok(name) = str::from_utf8(name) else {
        return Ok(false);
    };
    write!(text, "{words}, and not that of ")?;
    push_value(text, name)?;
    Ok(true)
}

fn is_name_byte(byte: u8) -> bool {
    !matches!(byte, b'>' | b' ' | b'\t' | b'\n' | b'\r' | b'<')
}

/// Adds what is asked by the tree of an MPD.
fn push_by_tree(
    alloc: Global,
    text: &mut String,
    how: How,
    words: &str,
    around: Around<'_>,
) -> Result<bool, NoMemory> {
    let Some(tree) = tree_of(alloc, around.source)? else {
        return Ok(false);
    };
    match Found::at(alloc, &tree, around.at)? {
        Some(found) => push_by_element(text, how, words, &found),
        None => Ok(false),
    }
}

fn push_by_element(
    text: &mut String,
    how: How,
    words: &str,
    found: &Found<'_>,
) -> Result<bool, NoMemory> {
    match how {
        How::Root => {
            write!(text, "{words}, and not ")?;
            push_value(text, found.node.name())?;
            Ok(true)
        }
        How::Missing => push_missing(text, found),
        How::Value => push_wrong_value(text, found),
        How::Template => {
            push_templates(text, words, found)?;
            Ok(true)
        }
        _ => {
            push_feature(text, words, found)?;
            Ok(true)
        }
    }
}
