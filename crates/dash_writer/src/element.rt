// Elements.
ghost use Rattle.std.specs.Prelude.{◌≡◌, codes, if◌then◌else◌};
ghost use Rattle.bridge_io.specs.Adding.{Adds};
ghost use Rattle.mpd_tree.specs.Markup.{opening};
ghost use Rattle.dash_writer.specs.Elements.{leaf, tag_of};
ghost use Rattle.dash_writer.specs.Written.{all_told, element_text, end_text, start_text};

use crate::attribute::{Attribute, push_attributes};
use bridge_io::{Fail, Piece, Sheet, Store};

/// Writes an element without children (XML 1.0, 3.1).
pub(crate) fn push_leaf<F: Store>(
    sheet: &mut Sheet<F>,
    name: &str,
    attributes: &[Attribute<'_>],
) -> Result<(), Fail>
    ensures { Adds F.Store (element_text (leaf name.now (all_told attributes.now))) sheet.old sheet.new result }
{
    push_start(sheet, name, attributes, true)
}

/// Writes what is before the children of an element, or the whole element where there are none.
pub(crate) fn push_start<F: Store>(
    sheet: &mut Sheet<F>,
    name: &str,
    attributes: &[Attribute<'_>],
    childless: bool,
) -> Result<(), Fail>
    ensures { Adds F.Store (start_text (tag_of name.now (all_told attributes.now)) childless) sheet.old sheet.new result }
{
    push_opening(sheet, name, attributes)?;
    sheet.push_pieces(&[Piece::Text(tag_end(childless))])
}

fn tag_end(childless: bool) -> &'static [u8]
    ensures { result.now ≡ (if childless then codes "/>\n" else codes ">\n") }
{
    if childless { b"/>\n" } else { b">\n" }
}

/// Writes a tag up to its end.
fn push_opening<F: Store>(
    sheet: &mut Sheet<F>,
    name: &str,
    attributes: &[Attribute<'_>],
) -> Result<(), Fail>
    ensures { Adds F.Store (opening (tag_of name.now (all_told attributes.now))) sheet.old sheet.new result }
{
    let name = Piece::Text(name.as_bytes());
    sheet.push_pieces(&[Piece::Text(b"<"), name])?;
    push_attributes(sheet, attributes)
}

/// Writes what is after the children of an element.
pub(crate) fn push_end<F: Store>(
    sheet: &mut Sheet<F>,
    name: &str,
    childless: bool,
) -> Result<(), Fail>
    ensures { Adds F.Store (end_text name.now childless) sheet.old sheet.new result }
{
    if childless {
        return Ok(());
    }
    let name = Piece::Text(name.as_bytes());
    sheet.push_pieces(&[Piece::Text(b"</"), name, Piece::Text(b">\n")])
}
