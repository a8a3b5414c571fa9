// Escaping of texts for values and content.
ghost use Rattle.std.specs.Prelude.{◌≡◌, ◌++◌, IfOk, OnOk, IfSome, IfNone, encode_utf8};
ghost use Rattle.std.specs.String.{string_bytes};
ghost use Rattle.mpd_tree.specs.Escapes.{escape_all};

use bridge_io::{NoMemory, Text};
use std::alloc::Global;

/// The reference for a character, where it isn't written as it is.
#[tactic(auto, using(crate::proofs::EscapeLemmas::escapes))]
fn reference_to(character: char) -> Option<&'static str>
    ensures some { IfSome result (λ name. name.now ≡ escape_all (encode_utf8 character)) }
    ensures none { IfNone result (escape_all (encode_utf8 character) ≡ encode_utf8 character) }
{
    if character == '&' {
        Some("&amp;")
    } else if character == '<' {
        Some("&lt;")
    } else if character == '>' {
        Some("&gt;")
    } else if character == '"' {
        Some("&quot;")
    } else {
        None
    }
}

/// Appends a character, escaped.
fn push_escaped(written: &mut String, character: char) -> Result<(), NoMemory>
    ensures { OnOk result (string_bytes written.new ≡ string_bytes written.old ++ escape_all (encode_utf8 character)) }
{
    match reference_to(character) {
        Some(name) => written.push_str(name)?,
        None => written.push(character)?,
    }
    Ok(())
}

/// The text with `&`, `<`, `>` and `"` written as `&amp;`, `&lt;`, `&gt;` and `&quot;` (XML 1.0 2.4 and 4.6), for
/// content and for values in `"`.
///
/// # Errors
///
/// [`NoMemory`] only.
pub fn escaped(alloc: Global, text: &str) -> Result<Text, NoMemory>
    ensures { IfOk result (λ written. written ≡ escape_all text.now) }
{
    let mut written = String::with_capacity(alloc, text.len())?;
    for character in text.chars() {
        push_escaped(&mut written, character)?;
    }
    Ok(Text::from(written))
}
