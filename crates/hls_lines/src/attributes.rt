// Attribute lists.
ghost use Rattle.std.specs.Prelude.{◌≡◌, [], option_map, position, IfOk};
ghost use Rattle.std.specs.List.{list_all};
ghost use Rattle.bridge_io.specs.Answer.{Gives};
ghost use Rattle.hls_lines.specs.Attributes.{is_name, is_name_byte, ends_value, value_at, plain_value, attribute_at, after_comma};
ghost use Rattle.hls_lines.specs.Attributes.{attributes_at, attributes_of, repeats_after, names_of, value_of};
ghost use Rattle.hls_lines.specs.Found.{found_of};
ghost use Rattle.hls_lines.specs.Lines.{refusal};
ghost use Rattle.hls_lines.specs.Pairs.{pair_of, pairs_of};

use crate::LineFault;
use crate::marks::{after, cut_at, without_spaces};
use bridge_io::{NoMemory, Place};
use std::alloc::Global;
use std::collections::BTreeSet;
use std::marker::Model;

/// The attributes of a tag (RFC 8216 4.2): in a contract the list of their names and values, a value without its quotes.
#[derive(Drop)]
pub struct Attributes<'a> {
    pairs: Vec<(&'a str, &'a str)>,
}

impl<'a> Model for Attributes<'a> {
    ghost use Rattle.std.specs.Prelude.{List};
    ghost use Rattle.hls_lines.specs.Attributes.{NameValue};
    ghost use Rattle.hls_lines.specs.Pairs.{pairs_of};

    ghost Value = { List NameValue };

    ghost view = { λ attributes. pairs_of attributes.pairs.items };
}

/// A leading attribute, and what follows it.
#[derive(Clone, Copy)]
struct Found<'a> {
    name: &'a str,
    value: &'a str,
    rest: &'a str,
}

/// Reads an attribute list: `NAME=value` joined by `,`, with spaces around a `,` (RFC 8216 4.2).
///
/// A name has one or more ASCII letters, digits, `-`, `.` and `_`. A value is `"`, bytes without `"`, and `"`, or one or more
/// bytes without `"`, `,`, space, tab, LF and CR. Every other text is [`LineFault::Attribute`], and a list with a repeated
/// name [`LineFault::DoubleAttribute`], each reported at the position.
#[tactic(auto, unfolding(crate::specs::Attributes::attributes_of))]
pub fn read_attributes<'a>(
    alloc: Global,
    rest: &'a str,
    place: Place,
) -> Result<Attributes<'a>, LineFault>
    ensures { Gives (λ attributes. attributes) refusal result (attributes_of rest.now place) }
{
    let Some(pairs) = read_pairs(alloc, rest)? else {
        return Err(LineFault::Attribute(place));
    };
    if repeats_a_name(alloc, pairs.as_slice())? {
        return Err(LineFault::DoubleAttribute(place));
    }
    Ok(Attributes { pairs })
}

impl<'a> Attributes<'a> {
    ghost use Rattle.hls_lines.specs.Attributes.{value_of};

    /// The value of a name, without its quotes.
    pub fn get(&self, name: &str) -> Option<&'a str>
        ensures { option_map (λ value. value.now) result ≡ value_of name.now self.now }
    {
        find_value(self.pairs.as_slice(), name)
    }
}

fn find_value<'a>(pairs: &[(&'a str, &'a str)], name: &str) -> Option<&'a str>
    ensures { option_map (λ value. value.now) result ≡ value_of name.now (pairs_of pairs.now) }
{
    for (other, value) in pairs {
        if *other == name {
            return Some(*value);
        }
    }
    None
}

/// The attributes of a whole text, if it is an attribute list.
fn read_pairs<'a>(alloc: Global, text: &'a str) -> Result<Option<Vec<(&'a str, &'a str)>>, NoMemory>
    ensures { IfOk result (λ found. option_map (λ pairs. pairs_of pairs.items) found ≡ attributes_at text.now) }
{
    let mut pairs = Vec::new(alloc);
    let mut rest = text;
    loop {
        let Some(found) = attribute_at(rest) else {
            return Ok(None);
        };
        pairs.push((found.name, found.value))?;
        if found.rest.is_empty() {
            return Ok(Some(pairs));
        }
        let Some(next) = after_comma(found.rest) else {
            return Ok(None);
        };
        rest = next;
    }
}

/// Whether a name is repeated.
fn repeats_a_name(alloc: Global, pairs: &[(&str, &str)]) -> Result<bool, NoMemory>
    ensures { IfOk result (λ repeated. repeated ≡ repeats_after [] (names_of (pairs_of pairs.now))) }
{
    let mut seen = BTreeSet::new(alloc);
    for (name, _) in pairs {
        if !seen.insert(name.as_bytes())? {
            return Ok(true);
        }
    }
    Ok(false)
}

/// The leading attribute of a text.
#[tactic(auto, unfolding(crate::specs::Attributes::attribute_at))]
fn attribute_at(text: &str) -> Option<Found<'_>>
    ensures { option_map found_of result ≡ attribute_at text.now }
{
    let (name, rest) = cut_at(text, b'=')?;
    if !is_name(name.as_bytes()) {
        return None;
    }
    let (value, rest) = value_at(rest)?;
    Some(Found { name, value, rest })
}

fn is_name(name: &[u8]) -> bool
    ensures { result ≡ is_name name.now }
{
    !name.is_empty() && has_name_bytes(name)
}

fn has_name_bytes(name: &[u8]) -> bool
    ensures { result ≡ list_all is_name_byte name.now }
{
    name.iter().all(|byte| is_name_byte(*byte))
}

fn is_name_byte(byte: u8) -> bool
    ensures { result ≡ is_name_byte byte }
{
    byte.is_ascii_alphanumeric() || matches!(byte, b'-' | b'.' | b'_')
}

/// The leading value of a text without its quotes, and what follows it.
fn value_at(text: &str) -> Option<(&str, &str)>
    ensures { option_map pair_of result ≡ value_at text.now }
{
    match after(text, '"') {
        Some(quoted) => cut_at(quoted, b'"'),
        None => plain_value(text),
    }
}

/// The leading unquoted value of a text, and what follows it.
fn plain_value(text: &str) -> Option<(&str, &str)>
    ensures { option_map pair_of result ≡ plain_value text.now }
{
    let len = value_end(text.as_bytes()).unwrap_or(text.len());
    if len == 0 {
        return None;
    }
    Some(text.split_at(len))
}

fn value_end(text: &[u8]) -> Option<usize>
    ensures { result ≡ position ends_value text.now }
{
    text.iter().position(|byte| ends_value(*byte))
}

fn ends_value(byte: u8) -> bool
    ensures { result ≡ ends_value byte }
{
    matches!(byte, b'"' | b',' | b' ' | b'\t' | b'\n' | b'\r')
}

/// Skips a comma with spaces around it.
#[tactic(auto, unfolding(crate::specs::Attributes::after_comma))]
fn after_comma(text: &str) -> Option<&str>
    ensures { option_map (λ rest. rest.now) result ≡ after_comma text.now }
{
    let rest = after(without_spaces(text), ',')?;
    Some(without_spaces(rest))
}
