// Lists of codecs.
ghost use Rattle.std.specs.Prelude.{◌≡◌};
ghost use Rattle.std.specs.List.{list_all, list_any};
ghost use Rattle.mpd_values.specs.Codecs as spec;

use crate::blank::{Blank, trimmed};
use bridge_io::Kind;
use url_parts::{CodeClass, code_class};

/// The most characters of a list.
const MAX_LEN: usize = 255;

/// Whether the text is a list of codecs (RFC 6381): 1 to 255 characters from U+0020 to U+007E without `"`, split at
/// the commas into codecs, none of which is empty or only spaces.
pub fn are_codes(text: &str) -> bool
    ensures { result ≡ spec.are_read_codes text.now }
{
    text.len() <= MAX_LEN && has_code_chars(text) && has_no_empty_code(text)
}

/// Whether the text is a list of codecs and one of them is of another media type. A codec of unknown class agrees
/// with every media type.
#[tactic(auto, unfolding(crate::specs::Codecs::has_foreign_code))]
pub fn has_foreign_code(text: &str, kind: Kind) -> bool
    ensures { result ≡ spec.has_foreign_code kind text.now }
{
    are_codes(text) && has_foreign(text, kind)
}

fn has_code_chars(text: &str) -> bool
    ensures { result ≡ list_all spec.is_code_char text.now }
{
    text.as_bytes()
        .iter()
        .all(|byte| (0x20..=0x7e).contains(byte) && *byte != b'"')
}

fn has_no_empty_code(text: &str) -> bool
    ensures { result ≡ list_all spec.is_code (spec.codes_of text.now) }
{
    text.split(',')
        .all(|code| !trimmed(code, Blank::Space).is_empty())
}

fn has_foreign(text: &str, kind: Kind) -> bool
    ensures { result ≡ list_any (spec.is_foreign kind) (spec.codes_of text.now) }
{
    text.split(',')
        .any(|code| is_foreign(trimmed(code, Blank::Space), kind))
}

fn is_foreign(code: &str, kind: Kind) -> bool
    ensures { result ≡ spec.is_foreign kind code.now }
{
    match code_class(code) {
        CodeClass::Video => kind != Kind::Video,
        CodeClass::Audio => kind != Kind::Audio,
        CodeClass::Text => kind != Kind::Text,
        CodeClass::Unknown => false,
    }
}
