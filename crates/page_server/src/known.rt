// The ETag of a body, and the ETags that a client has (RFC 9110, 8.8.3 and 13.1.2).
ghost use Rattle.std.specs.Prelude.{◌≡◌, IfOk};
ghost use Rattle.std.specs.List.{list_all, prefix_len};
ghost use Rattle.std.specs.Option.{option_copied};
ghost use Rattle.http_header.specs.FieldValue.{plain_value};
ghost use Rattle.page_server.specs.Tags as spec;

use bridge_io::NoMemory;
use http::header::IF_NONE_MATCH;
use http::{HeaderMap, HeaderValue};
use sha2::{Digest, Sha256};
use std::alloc::Global;

/// The ETag of a body: its SHA-256 in lower case hex, in quotes.
#[tactic(auto, unfolding(crate::specs::Tags::tag_of))]
pub fn tag_of(alloc: Global, body: &[u8]) -> Result<HeaderValue, NoMemory>
    ensures { IfOk result (λ tag. tag ≡ plain_value (spec.tag_of body.now)) }
{
    let digits = hex::encode(alloc, Sha256::digest(body))?;
    let mut text = Vec::new(alloc);
    text.push(b'"')?;
    text.extend_from_slice(digits.as_bytes())?;
    text.push(b'"')?;
    HeaderValue::from_bytes(alloc, text.as_slice()).map_err(|_| NoMemory)
}

/// Whether a client, whose request may list ETags, has an ETag.
#[tactic(auto, unfolding(crate::specs::Tags::is_known))]
pub fn is_known_in(headers: Option<&HeaderMap>, tag: &[u8]) -> bool
    ensures { result ≡ spec.is_known (spec.known_in (option_copied headers.entry)) tag.now }
{
    match headers {
        Some(headers) => is_known(headers, tag),
        None => false,
    }
}

/// Whether some value of `If-None-Match` has an ETag, or is `*`.
#[tactic(auto, unfolding(crate::specs::Tags::is_known))]
fn is_known(headers: &HeaderMap, tag: &[u8]) -> bool
    ensures { result ≡ spec.is_known (spec.known_by headers.now) tag.now }
{
    let mut values = headers.get_all(IF_NONE_MATCH).iter();
    values.any(|value| names(value.as_bytes(), tag))
}

fn names(value: &[u8], tag: &[u8]) -> bool
    ensures { result ≡ spec.names tag.now value.now }
{
    value == b"*".as_slice() || lists(value, tag)
}

fn lists(value: &[u8], tag: &[u8]) -> bool
    ensures { result ≡ spec.lists tag.now value.now }
{
    value
        .split(|byte| *byte == b',')
        .any(|member| is_tag(member, tag))
}

/// Whether a member of a list is the ETag, strong or weak, surrounded by blanks.
fn is_tag(member: &[u8], tag: &[u8]) -> bool
    ensures { result ≡ spec.is_tag tag.now member.now }
{
    begins_with_tag(without_mark(after_blanks(member)), tag)
}

/// Whether the text is the ETag followed by blanks.
fn begins_with_tag(text: &[u8], tag: &[u8]) -> bool
    ensures { result ≡ spec.begins_with_tag tag.now text.now }
{
    text.starts_with(tag) && are_blanks(&text[tag.len()..])
}

fn are_blanks(text: &[u8]) -> bool
    ensures { result ≡ list_all spec.is_blank text.now }
{
    text.iter().all(|byte| is_blank(*byte))
}

/// Without the `W/` of a weak ETag.
fn without_mark(text: &[u8]) -> &[u8]
    ensures { result.now ≡ spec.without_mark text.now }
{
    if text.starts_with(b"W/") {
        &text[2..]
    } else {
        text
    }
}

fn after_blanks(text: &[u8]) -> &[u8]
    ensures { result.now ≡ spec.after_blanks text.now }
{
    &text[blanks(text)..]
}

fn blanks(text: &[u8]) -> usize
    ensures { result ≡ prefix_len spec.is_blank text.now }
{
    text.iter().take_while(|byte| is_blank(**byte)).count()
}

fn is_blank(byte: u8) -> bool
    ensures { result ≡ spec.is_blank byte }
{
    byte == b' ' || byte == b'\t'
}
