// The explanation of a refusal.

use crate::asked::push_asked;
use crate::excerpt::push_excerpt;
use crate::line::Refused;
use crate::rows::Layer;
use bridge_io::{NoMemory, Text};
use std::alloc::Global;
use std::fmt::Write;

/// The lines that explain a refusal: the source around its place, what is asked there, and where the documents say more.
/// Each begins with two spaces, and ends with LF. A line that is no refusal has none.
///
/// `refusal` is the report's line without its line end, `source` the bytes of the file that it names, where they can be had.
pub fn explanation(alloc: Global, refusal: &str, source: Option<&[u8]>) -> Result<Text, NoMemory> {
    let mut text = String::new(alloc);
    if let Some(refused) = Refused::read(refusal) {
        push_source(&mut text, &refused, source)?;
        push_asked(alloc, &mut text, &refused, source)?;
        push_more(&mut text, refused.layer)?;
    }
    Ok(Text::from(text))
}

fn push_source(
    text: &mut String,
    refused: &Refused<'_>,
    source: Option<&[u8]>,
) -> Result<(), NoMemory> {
    match (refused.spot, source) {
        (Some(spot), Some(source)) => push_excerpt(text, spot, source),
        _ => Ok(()),
    }
}

/// Adds where the documents have more on the errors of a layer.
fn push_more(text: &mut String, layer: &str) -> Result<(), NoMemory> {
    if let Some(layer) = Layer::named(layer) {
        let heading = layer.heading;
        write!(text, "  more: docs/ERRORS.md, \"{heading}\"\n")?;
    }
    Ok(())
}
