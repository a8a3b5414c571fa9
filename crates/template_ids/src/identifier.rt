// What is between two `$` of a template.
ghost use Rattle.std.specs.Prelude.{◌≡◌, ◌≤◌, if◌then◌else◌, IfOk, IfSome};
ghost use Rattle.std.specs.Str.Parse.{digits_value};
ghost use Rattle.template_ids.specs.Identifiers.{identifier_of, plain_identifier, formatted_identifier, quantity_of, width_of, is_width};
ghost use Rattle.template_ids.specs.Identifiers.{HasWidth};

use crate::TemplateFault;

/// A number that an identifier stands for.
#[derive(Clone, Copy, PartialEq, Eq)]
pub enum Quantity {
    Number,
    Time,
    Bandwidth,
}

/// What an identifier stands for.
#[derive(Clone, Copy)]
pub enum Identifier {
    /// A `$`.
    Dollar,
    /// The Representation's id.
    RepresentationId,
    /// A number, padded with zeros to a width.
    Padded(Quantity, u8),
}

impl Identifier {
    pub fn read(text: &str) -> Result<Identifier, TemplateFault>
        ensures value { result ≡ identifier_of text.now }
        ensures width { IfOk result HasWidth }
    {
        match text.split_once('%') {
            None => read_plain(text),
            Some((name, format)) => read_formatted(name, format),
        }
    }
}

fn read_plain(name: &str) -> Result<Identifier, TemplateFault>
    ensures value { result ≡ plain_identifier name.now }
    ensures width { IfOk result HasWidth }
{
    match name {
        "" => Ok(Identifier::Dollar),
        "RepresentationID" => Ok(Identifier::RepresentationId),
        "SubNumber" => Err(TemplateFault::SubNumber),
        _ => {
            let quantity = quantity_of(name).ok_or(TemplateFault::Unknown)?;
            Ok(Identifier::Padded(quantity, 1))
        }
    }
}

fn read_formatted(name: &str, format: &str) -> Result<Identifier, TemplateFault>
    ensures value { result ≡ formatted_identifier name.now format.now }
    ensures width { IfOk result HasWidth }
{
    if name == "RepresentationID" {
        return Err(TemplateFault::Width);
    }
    let quantity = quantity_of(name).ok_or(TemplateFault::Unknown)?;
    let width = width_of(format.as_bytes()).ok_or(TemplateFault::Width)?;
    Ok(Identifier::Padded(quantity, width))
}

fn quantity_of(name: &str) -> Option<Quantity>
    ensures { result ≡ quantity_of name.now }
{
    match name {
        "Number" => Some(Quantity::Number),
        "Time" => Some(Quantity::Time),
        "Bandwidth" => Some(Quantity::Bandwidth),
        _ => None,
    }
}

/// The width of a format `%0wd`, given what follows the `%`.
fn width_of(format: &[u8]) -> Option<u8>
    ensures value { result ≡ width_of format.now }
    ensures bound { IfSome result (λ width. width ≤ 20) }
{
    match format {
        [b'0', digits @ .., b'd'] => width_in(digits),
        _ => None,
    }
}

/// The value of 1 to 3 digits, where it is 1 to 20.
fn width_in(digits: &[u8]) -> Option<u8>
    ensures value { result ≡ (if is_width digits.now then Some (digits_value 10 digits.now) else None) }
    ensures bound { IfSome result (λ width. width ≤ 20) }
{
    if digits.is_empty() || digits.len() > 3 {
        return None;
    }
    let mut width = 0u16;
    for digit in digits {
        if !digit.is_ascii_digit() {
            return None;
        }
        width = width * 10 + u16::from(digit - b'0');
    }
    u8::try_from(width)
        .ok()
        .filter(|width| (1..=20).contains(width))
}
