// Labels.
ghost use Rattle.std.specs.Prelude.{◌≡◌, ◌&&◌, IfOk, codes, nat_le, nat_lt, option_map};
ghost use Rattle.std.specs.List.{list_all, prefix_len, suffix_len};
ghost use Rattle.mpd_tree.specs.Nodes.{element_of};
ghost use Rattle.mpd_values.specs.Blanks as blanks;
ghost use Rattle.track_hints.specs.Labels as fit;
ghost use Rattle.mpd_hints.specs.Labels as spec;
ghost use Rattle.mpd_levels.specs.Readings.{child_named};

use bridge_io::{NoMemory, Text};
use mpd_tree::Node;
use std::alloc::Global;

/// The most bytes that a label has.
const MAX_LEN: usize = 255;

/// The text of a set's first Label, blanks around it dropped, where it is fit.
pub(crate) fn label_of(alloc: Global, set: Node<'_>) -> Result<Option<Text>, NoMemory>
    ensures { IfOk result (λ label. label ≡ spec.label_of (element_of set.entry)) }
{
    match first_label(set) {
        Some(label) => if_fit(alloc, trimmed(label.text())),
        None => Ok(None),
    }
}

fn first_label(set: Node<'_>) -> Option<Node<'_>>
    ensures { option_map element_of result ≡ child_named (codes "Label") (element_of set.entry) }
{
    set.children().find(|child| child.name() == "Label")
}

fn if_fit(alloc: Global, text: &str) -> Result<Option<Text>, NoMemory>
    ensures { IfOk result (λ label. label ≡ spec.if_fit text.now) }
{
    if is_fit(text) {
        return Ok(Some(Text::copy_of(alloc, text)?));
    }
    Ok(None)
}

/// Whether a text can be the name of a rendition, and is none that is made of a language and a number.
fn is_fit(text: &str) -> bool
    ensures { result ≡ fit.is_fit text.now }
{
    are_fit(text.as_bytes())
}

fn are_fit(text: &[u8]) -> bool
    ensures { result ≡ fit.are_fit text.now }
{
    is_of_length(text.len()) && !has_quote(text) && !has_control(text) && !ends_in_number(text)
}

fn is_of_length(len: usize) -> bool
    ensures { result ≡ (nat_lt 0 len && nat_le len 255) }
{
    0 < len && len <= MAX_LEN
}

fn has_quote(text: &[u8]) -> bool
    ensures { result ≡ fit.has_quote text.now }
{
    text.iter().any(|byte| *byte == b'"')
}

/// Whether it has a character U+0000 to U+001F or U+007F to U+009F.
fn has_control(text: &[u8]) -> bool
    ensures { result ≡ fit.has_control text.now }
{
    let mut rest = text;
    for _ in 0..text.len() {
        match rest {
            [first, after @ ..] if begins_with_control(*first, after) => return true,
            [_, after @ ..] => rest = after,
            [] => {}
        }
    }
    false
}

fn begins_with_control(first: u8, after: &[u8]) -> bool
    ensures { result ≡ fit.begins_with_control first after.now }
{
    first < 0x20 || first == 0x7f || first == 0xc2 && is_high_control(after)
}

/// Whether the second byte of U+0080 to U+009F comes first.
fn is_high_control(bytes: &[u8]) -> bool
    ensures { result ≡ fit.is_high_control bytes.now }
{
    match bytes {
        [second, ..] => 0x80 <= *second && *second <= 0x9f,
        [] => false,
    }
}

/// Whether it ends in `-` and a number.
fn ends_in_number(text: &[u8]) -> bool
    ensures { result ≡ fit.ends_in_number text.now }
{
    let mut rest = text;
    for _ in 0..text.len() {
        match rest {
            [b'-', after @ ..] if is_number(after) => return true,
            [_, after @ ..] => rest = after,
            [] => {}
        }
    }
    false
}

fn is_number(bytes: &[u8]) -> bool
    ensures { result ≡ fit.is_number bytes.now }
{
    match bytes {
        [first, rest @ ..] => is_digit(*first) && are_digits(rest),
        [] => false,
    }
}

fn are_digits(bytes: &[u8]) -> bool
    ensures { result ≡ list_all fit.is_digit bytes.now }
{
    bytes.iter().all(|byte| is_digit(*byte))
}

fn is_digit(byte: u8) -> bool
    ensures { result ≡ fit.is_digit byte }
{
    b'0' <= byte && byte <= b'9'
}

// ---- blanks

fn is_blank(byte: u8) -> bool
    ensures { result ≡ spec.is_blank byte }
{
    byte == b' ' || byte == b'\t' || byte == b'\n' || byte == b'\r'
}

/// The text without the spaces, tabs, CRs and LFs around it.
fn trimmed(text: &str) -> &str
    ensures { result.now ≡ spec.trimmed text.now }
{
    without_front(without_end(text))
}

fn without_front(text: &str) -> &str
    ensures { result.now ≡ blanks.without_front spec.is_blank text.now }
{
    &text[front_len(text)..]
}

fn without_end(text: &str) -> &str
    ensures { result.now ≡ blanks.without_end spec.is_blank text.now }
{
    &text[..text.len() - end_len(text)]
}

/// How many blanks the text begins with.
fn front_len(text: &str) -> usize
    ensures { result ≡ prefix_len spec.is_blank text.now }
{
    text.as_bytes()
        .iter()
        .take_while(|byte| is_blank(**byte))
        .count()
}

/// How many blanks the text ends with.
fn end_len(text: &str) -> usize
    ensures { result ≡ suffix_len spec.is_blank text.now }
{
    text.as_bytes()
        .iter()
        .rev()
        .take_while(|byte| is_blank(**byte))
        .count()
}
