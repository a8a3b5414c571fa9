// Shorter templates that give the same URLs.
ghost use Rattle.std.specs.Prelude.{◌≡◌, ◌∷◌, ◌++◌, [], IfOk, IfSome, OnOk, false, string_bytes, true};
ghost use Rattle.std.specs.List.{list_all, list_any};
ghost use Rattle.template_ids.specs.Templates.{is_dollar};
ghost use Rattle.timeline.specs.MediaTemplates.{IsLineOf, IsShortFor};
ghost use Rattle.timeline.specs.ShorterTemplates.{AreNamesShortened, HasLiteral, HasNoDollar};
ghost use Rattle.url_parts.specs.Paths.{IsPath, is_path_byte};

use crate::short_names::shortened_text;
use bridge_io::NoMemory;
use std::alloc::Global;
use template_ids::{Template, TemplateFault};

/// A template without tabs and line ends, where there are some.
pub fn line_of(alloc: Global, template: &Template) -> Result<Option<Template>, NoMemory>
    ensures { IfOk result (λ line. IfSome line (IsLineOf template.now)) }
{
    if !url_parts::has_line_bytes(template.as_str()) {
        return Ok(None);
    }
    let line = shortened(alloc, template, false)?;
    Ok(line)
}

/// A template that is a path without the segments that are taken back, where that has at most half its bytes.
pub fn short_of(alloc: Global, template: &Template) -> Result<Option<Template>, NoMemory>
    ensures { IfOk result (λ short. IfSome short (IsShortFor template.now)) }
{
    let text = template.as_str();
    if !url_parts::has_detours(text) || !is_path(text) {
        return Ok(None);
    }
    match shortened(alloc, template, true)? {
        Some(short) if is_path(short.as_str()) && short.as_str().len() <= text.len() / 2 => {
            Ok(Some(short))
        }
        _ => Ok(None),
    }
}

/// A template with shorter texts between its identifiers.
fn shortened(
    alloc: Global,
    template: &Template,
    in_path: bool,
) -> Result<Option<Template>, NoMemory>
    ensures { IfOk result (λ short. IfSome short (AreNamesShortened in_path template.now)) }
{
    let text = shortened_literals(alloc, template.as_str(), in_path)?;
    match Template::read(alloc, text.as_str()) {
        Ok(short) => Ok(Some(short)),
        Err(TemplateFault::Memory) => Err(NoMemory),
        Err(_) => Ok(None),
    }
}

/// A template's text with shorter texts between its identifiers.
fn shortened_literals(alloc: Global, text: &str, in_path: bool) -> Result<String, NoMemory>
    ensures { IfOk result (λ short. AreNamesShortened in_path text.now (string_bytes short)) }
{
    let mut short = String::new(alloc);
    let mut rest = text;
    while let Some((literal, after)) = rest.split_once('$') {
        let Some((identifier, after)) = after.split_once('$') else {
            return Ok(String::from_str(alloc, text)?);
        };
        push_literal(alloc, &mut short, literal, in_path)?;
        push_identifier(&mut short, identifier)?;
        rest = after;
    }
    push_literal(alloc, &mut short, rest, in_path)?;
    Ok(short)
}

/// Appends a shorter text that stands for a literal.
fn push_literal(
    alloc: Global,
    text: &mut String,
    literal: &str,
    in_path: bool,
) -> Result<(), NoMemory>
    requires { HasNoDollar literal.now }
    ensures { OnOk result (HasLiteral in_path literal.now (string_bytes text.old) (string_bytes text.new)) }
{
    let short = shortened_text(alloc, literal, in_path)?;
    if has_dollar(short.as_str()) {
        text.push_str(literal)?;
    } else {
        text.push_str(short.as_str())?;
    }
    Ok(())
}

fn push_identifier(text: &mut String, identifier: &str) -> Result<(), NoMemory>
    ensures { OnOk result (string_bytes text.new ≡ string_bytes text.old ++ 36 ∷ (identifier.now ++ 36 ∷ [])) }
{
    text.push_str("$")?;
    text.push_str(identifier)?;
    text.push_str("$")?;
    Ok(())
}

fn has_dollar(text: &str) -> bool
    ensures { result ≡ list_any is_dollar text.now }
{
    text.as_bytes().iter().any(|byte| *byte == b'$')
}

/// Whether a text is the path of a relative reference.
pub fn is_path(text: &str) -> bool
    ensures { result ≡ true → IsPath text.now }
{
    let bytes = text.as_bytes();
    have_path_bytes(bytes) && !bytes.is_empty() && bytes[0] != b'/'
}

fn have_path_bytes(bytes: &[u8]) -> bool
    ensures { result ≡ list_all is_path_byte bytes.now }
{
    bytes.iter().all(|byte| is_path_byte(*byte))
}

fn is_path_byte(byte: u8) -> bool
    ensures { result ≡ is_path_byte byte }
{
    byte.is_ascii_graphic() && !matches!(byte, b'#' | b':' | b'?' | b'\\')
}
