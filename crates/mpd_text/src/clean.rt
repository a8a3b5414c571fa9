// Checks for UTF-8, and for characters that are never allowed.
ghost use Rattle.std.specs.Prelude.{◌≡◌, ◌⊎◌, ◌<◌, ◌≤◌, ℕ, length, drop, position, false, IfOk, IfErr, IfSome, MatchOption};
ghost use Rattle.std.specs.String.{string_bytes};
ghost use Rattle.byte_scan.specs.Class.{is_low_control};
ghost use Rattle.mpd_tree.specs.Characters.{IsFirstNoncharacter, begins_with_noncharacter, first_bad_character, lesser};
ghost use Rattle.mpd_tree.specs.Faults.{HasBadCharacter, IsNotUtf8};
ghost use Rattle.mpd_tree.specs.Grammar.{IsClean};

use crate::places::place_at;
use bridge_io::Bytes;
use byte_scan::{Class, first_outside};
use memchr::memchr;
use mpd_tree::TextFault;

/// Whether the bytes begin with U+FFFE or U+FFFF.
#[tactic(auto, unfolding(mpd_tree::specs::Characters::begins_with_noncharacter))]
fn begins_with_noncharacter(bytes: &[u8]) -> bool
    ensures { result ≡ begins_with_noncharacter bytes.now }
{
    bytes.starts_with(b"\xef\xbf\xbe") || bytes.starts_with(b"\xef\xbf\xbf")
}

/// The byte that U+FFFE and U+FFFF begin with.
const LEAD: u8 = 0xef;

/// The index of its next occurrence from `from` on.
fn next_lead(bytes: &[u8], from: usize) -> Option<usize>
    requires { from ≤ length bytes.now }
    ensures { MatchOption result ((j : ℕ) → from ≤ j → begins_with_noncharacter (drop j bytes.now) ≡ false)
        (λ at. (from ≤ at) × (at < length bytes.now) × ((j : ℕ) → from ≤ j → j < at
        → begins_with_noncharacter (drop j bytes.now) ≡ false)) }
{
    let (_, rest) = bytes.split_at(from);
    match memchr(LEAD, rest) {
        Some(found) => Some(from + found),
        None => None,
    }
}

/// The index of the first U+FFFE or U+FFFF.
fn first_noncharacter(bytes: &[u8]) -> Option<usize>
    ensures { IsFirstNoncharacter bytes.now result }
{
    let mut from = 0;
    while let Some(at) = next_lead(bytes, from) {
        if begins_with_noncharacter(&bytes[at..]) {
            return Some(at);
        }
        from = at + 1;
    }
    None
}

/// The index of the first control character that is never allowed.
fn first_control(bytes: &[u8]) -> Option<usize>
    ensures { result ≡ position is_low_control bytes.now }
{
    first_outside(bytes, Class::Xml)
}

/// The lesser of two optional indices.
fn lesser(first: Option<usize>, second: Option<usize>) -> Option<usize>
    ensures { result ≡ lesser first second }
{
    match (first, second) {
        (None, other) => other,
        (first, None) => first,
        (Some(first), Some(second)) => Some(first.min(second)),
    }
}

/// The index of the first character that is never allowed.
#[tactic(auto, using(crate::proofs::BadLemmas::bad_first, crate::proofs::BadLemmas::bad_within))]
fn first_bad_character(bytes: &[u8]) -> Option<usize>
    ensures first { result ≡ first_bad_character bytes.now }
    ensures within { IfSome result (λ at. at < length bytes.now) }
{
    lesser(first_control(bytes), first_noncharacter(bytes))
}

/// The bytes, moved into a text.
#[tactic(auto, using(std::proofs::lemmas::Str::utf8_valid_len_le))]
fn text_of(bytes: Bytes) -> Result<String, TextFault>
    ensures text { IfOk result (λ text. string_bytes text ≡ bytes) }
    ensures fault { IfErr result (IsNotUtf8 bytes) }
{
    match String::from_utf8(bytes.into_vec()) {
        Ok(text) => Ok(text),
        Err(error) => {
            let valid = error.utf8_error().valid_up_to();
            Err(TextFault::NotUtf8(place_at(error.as_bytes(), valid)))
        }
    }
}

/// The bytes, moved into a text that has only allowed characters.
pub(crate) fn clean(bytes: Bytes) -> Result<String, TextFault>
    ensures text { IfOk result (λ text. string_bytes text ≡ bytes) }
    ensures clean { IfOk result (λ _. IsClean bytes) }
    ensures fault { IfErr result (λ fault. IsNotUtf8 bytes fault ⊎ HasBadCharacter bytes fault) }
{
    let text = text_of(bytes)?;
    let whole = text.as_str().as_bytes();
    match first_bad_character(whole) {
        None => Ok(text),
        Some(bad) => Err(TextFault::BadChar(place_at(whole, bad))),
    }
}
