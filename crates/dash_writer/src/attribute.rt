// Attributes.
ghost use Rattle.bridge_io.specs.Adding.{Adds};
ghost use Rattle.mpd_tree.specs.Escapes.{escape_all};
ghost use Rattle.dash_writer.specs.Elements.{attributes_of};
ghost use Rattle.dash_writer.specs.Values.{range_text, rate_text};
ghost use Rattle.dash_writer.specs.Written.{all_told, attributes_text, known_text, told, value_text};

use crate::escape::push_escaped;
use bridge_io::{Fail, Piece, Ratio, Sheet, Store};
use exact_time::Nanos;
use iso_time::write_duration;
use url_parts::Range;

/// The value of an attribute.
#[derive(Clone, Copy)]
pub(crate) enum Value<'a> {
    /// A text.
    Text(&'a str),
    /// A whole number.
    Number(u64),
    /// A whole number that may need more than 64 bits.
    Wide(u128),
    /// A duration.
    Duration(Nanos),
    /// A duration in whole seconds.
    Seconds(u64),
    /// A timestamp as it is written.
    Instant(&'a [u8; 24]),
    /// The id of the track at an index.
    Id(usize),
    /// Frames per second.
    Rate(Ratio),
    /// The offsets of the first and the last byte.
    Range(Range),
}

/// An attribute by its name, which is present where it has a value.
pub(crate) type Attribute<'a> = (&'a str, Option<Value<'a>>);

impl Value<'_> {
    /// Writes the value between the quotes.
    fn push_to<F: Store>(&self, sheet: &mut Sheet<F>) -> Result<(), Fail>
        ensures { Adds F.Store (escape_all (value_text self.now)) sheet.old sheet.new result }
    {
        match *self {
            Value::Text(text) => push_escaped(sheet, text.as_bytes()),
            Value::Number(number) => sheet.push_pieces(&[Piece::Number(number)]),
            Value::Wide(number) => sheet.push_pieces(&[Piece::Wide(number)]),
            Value::Duration(nanos) => push_escaped(
                sheet,
                write_duration(nanos).as_str().as_bytes(),
            ),
            Value::Seconds(number) => sheet.push_pieces(&[
                Piece::Text(b"PT"),
                Piece::Number(number),
                Piece::Text(b"S"),
            ]),
            Value::Instant(text) => push_escaped(sheet, text),
            Value::Id(place) => {
                sheet.push_pieces(&[Piece::Text(b"t"), Piece::Number(place as u64)])
            }
            Value::Rate(ratio) => push_rate(sheet, ratio),
            Value::Range(range) => push_range(sheet, range),
        }
    }
}

/// Writes a frame rate.
fn push_rate<F: Store>(sheet: &mut Sheet<F>, ratio: Ratio) -> Result<(), Fail>
    ensures { Adds F.Store (escape_all (rate_text ratio)) sheet.old sheet.new result }
{
    if ratio.n % ratio.m == 0 {
        let whole = u64::from(ratio.n / ratio.m);
        return sheet.push_pieces(&[Piece::Number(whole)]);
    }
    let n = Piece::Number(u64::from(ratio.n));
    let m = Piece::Number(u64::from(ratio.m));
    sheet.push_pieces(&[n, Piece::Text(b"/"), m])
}

/// Writes the offsets of the first and the last byte.
fn push_range<F: Store>(sheet: &mut Sheet<F>, range: Range) -> Result<(), Fail>
    ensures { Adds F.Store (escape_all (range_text range)) sheet.old sheet.new result }
{
    let behind = u128::from(range.first) + u128::from(range.count);
    sheet.push_pieces(&[
        Piece::Number(range.first),
        Piece::Text(b"-"),
        Piece::Wide(behind.saturating_sub(1)),
    ])
}

/// Writes the attributes that have values, in order.
pub(crate) fn push_attributes<F: Store>(
    sheet: &mut Sheet<F>,
    attributes: &[Attribute<'_>],
) -> Result<(), Fail>
    ensures { Adds F.Store (attributes_text (attributes_of (all_told attributes.now))) sheet.old sheet.new result }
{
    for attribute in attributes {
        push_attribute(sheet, attribute)?;
    }
    Ok(())
}

/// Writes an attribute, if it has a value.
fn push_attribute<F: Store>(sheet: &mut Sheet<F>, attribute: &Attribute<'_>) -> Result<(), Fail>
    ensures { Adds F.Store (known_text (told attribute.now)) sheet.old sheet.new result }
{
    let (name, value) = attribute;
    let Some(value) = value else {
        return Ok(());
    };
    let name = Piece::Text(name.as_bytes());
    sheet.push_pieces(&[Piece::Text(b" "), name, Piece::Text(b"=\"")])?;
    value.push_to(sheet)?;
    sheet.push_pieces(&[Piece::Text(b"\"")])
}
