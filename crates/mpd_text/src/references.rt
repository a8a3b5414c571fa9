// References to characters, XML 1.0 4.1.
ghost use Rattle.std.specs.Prelude.{◌≡◌, ◌≤◌, length, position};
ghost use Rattle.std.specs.List.{prefix_len};
ghost use Rattle.bridge_io.specs.Answer.{Gives};
ghost use Rattle.mpd_tree.specs.Characters.{is_digit};
ghost use Rattle.mpd_tree.specs.References.{is_hex_digit, value_of_digit, number_of, named_by_number};
ghost use Rattle.mpd_tree.specs.References.{named_by_digits, referred_to};
ghost use Rattle.mpd_tree.specs.References as spec;
ghost use Rattle.mpd_tree.specs.Grammar.{reference};
ghost use Rattle.mpd_tree.specs.Reading.{fault_in, stopped};
ghost use Rattle.mpd_tree.specs.Runs as runs;

use mpd_tree::{Stop, Wrong, decided};

const PAST_ALL: u32 = 0x11_0000;

fn is_digit(b: u8) -> bool
    ensures { result ≡ is_digit b }
{
    b.is_ascii_digit()
}

fn is_hex_digit(b: u8) -> bool
    ensures { result ≡ is_hex_digit b }
{
    is_digit(b) || (65 <= b && b <= 70) || (97 <= b && b <= 102)
}

/// The value of a digit.
fn value_of_digit(b: u8) -> u32
    ensures value { result ≡ value_of_digit b }
    ensures small { result ≤ 255 }
{
    if 97 <= b {
        u32::from(b) - 87
    } else if 65 <= b {
        u32::from(b) - 55
    } else {
        u32::from(b).saturating_sub(48)
    }
}

/// The number of these digits, capped at one past all characters.
fn number_of(base: u32, digits: &[u8]) -> u32
    requires { base ≤ 16 }
    ensures { result ≡ spec.capped_number base digits.now }
{
    let mut number = 0;
    for digit in digits {
        number = PAST_ALL.min(base * number + value_of_digit(*digit));
    }
    number
}

/// The character of that number, where it is allowed.
fn allowed(number: u32) -> Option<char>
    ensures { result ≡ spec.allowed number }
{
    let is_control = number < 0x20 && number != 0x09 && number != 0x0a && number != 0x0d;
    if is_control || number == 0xfffe || number == 0xffff {
        return None;
    }
    char::from_u32(number)
}

/// The character whose number these bytes are, where all of them are digits; `len` is the number of leading digits.
fn named_if_all(base: u32, len: usize, digits: &[u8]) -> Option<char>
    requires { base ≤ 16 }
    ensures { result ≡ spec.named_if_all base len digits.now }
{
    if len == digits.len() {
        allowed(number_of(base, digits))
    } else {
        None
    }
}

#[tactic(auto, using(crate::proofs::Numbers::named))]
fn named_by_hex(digits: &[u8]) -> Option<char>
    ensures { result ≡ named_by_number 16 is_hex_digit digits.now }
{
    named_if_all(16, hex_digits_len(digits), digits)
}

#[tactic(auto, using(crate::proofs::Numbers::named))]
fn named_by_decimal(digits: &[u8]) -> Option<char>
    ensures { result ≡ named_by_number 10 is_digit digits.now }
{
    named_if_all(10, digits_len(digits), digits)
}

fn named_by_digits(digits: &[u8]) -> Option<char>
    ensures { result ≡ named_by_digits digits.now }
{
    match digits {
        [] => None,
        [b'x', rest @ ..] => named_by_hex(rest),
        _ => named_by_decimal(digits),
    }
}

/// The character that the text between `&` and `;` refers to.
fn referred_to(name: &[u8]) -> Option<char>
    ensures { result ≡ referred_to name.now }
{
    match name {
        [] => None,
        [b'#', digits @ ..] => named_by_digits(digits),
        _ => {
            if name == b"amp".as_slice() {
                Some('&')
            } else if name == b"lt".as_slice() {
                Some('<')
            } else if name == b"gt".as_slice() {
                Some('>')
            } else if name == b"quot".as_slice() {
                Some('"')
            } else if name == b"apos".as_slice() {
                Some('\'')
            } else {
                None
            }
        }
    }
}

/// The length of the common prefix.
pub(crate) fn common(word: &[u8], bytes: &[u8]) -> usize
    ensures same { result ≡ runs.common word.now bytes.now }
    ensures within { result ≤ length bytes.now }
{
    match word {
        [] => 0,
        [a, more @ ..] => match bytes {
            [] => 0,
            [b, rest @ ..] => { if a == b { common(more, rest) + 1 } else { 0 } }
        },
    }
}

fn digits_len(digits: &[u8]) -> usize
    ensures len { result ≡ prefix_len is_digit digits.now }
    ensures within { result ≤ length digits.now }
{
    digits.iter().take_while(|b| is_digit(**b)).count()
}

fn hex_digits_len(digits: &[u8]) -> usize
    ensures len { result ≡ prefix_len is_hex_digit digits.now }
    ensures within { result ≤ length digits.now }
{
    digits.iter().take_while(|b| is_hex_digit(**b)).count()
}

/// The same after `#`.
fn front_of_digits(digits: &[u8]) -> usize
    ensures len { result ≡ spec.front_of_digits digits.now }
    ensures within { result ≤ length digits.now }
{
    match digits {
        [b'x', rest @ ..] => hex_digits_len(rest) + 1,
        _ => digits_len(digits),
    }
}

/// How many bytes after a `&` are a prefix of some valid reference.
#[cold]
fn front_len(bytes: &[u8]) -> usize
    ensures len { result ≡ spec.front_len bytes.now }
    ensures within { result ≤ length bytes.now }
{
    match bytes {
        [b'#', digits @ ..] => front_of_digits(digits) + 1,
        _ => common(b"amp", bytes)
            .max(common(b"lt", bytes))
            .max(common(b"gt", bytes))
            .max(common(b"quot", bytes))
            .max(common(b"apos", bytes)),
    }
}

#[cold]
fn entity(left: usize, bytes: &[u8]) -> Stop
    ensures { result ≡ stopped (spec.entity left bytes.now) }
{
    decided(Wrong::Entity, left, &bytes[front_len(bytes)..])
}

fn is_semicolon(b: u8) -> bool
    ensures { result ≡ spec.is_semicolon b }
{
    b == b';'
}

fn reference_end(bytes: &[u8]) -> Option<usize>
    ensures { result ≡ position spec.is_semicolon bytes.now }
{
    bytes.iter().position(|b| is_semicolon(*b))
}

fn named_of<'a>(
    left: usize,
    bytes: &[u8],
    name: &[u8],
    after: &'a [u8],
) -> Result<(char, &'a [u8]), Stop>
    ensures { Gives (λ x. (x.0, x.1.now)) fault_in result (spec.character_or (spec.entity left bytes.now) after.now
        (referred_to name.now)) }
{
    match referred_to(name) {
        Some(character) => Ok((character, after)),
        None => Err(entity(left, bytes)),
    }
}

/// Reads a reference after its `&`. `left` bytes are left from its `&`.
#[tactic(auto, unfolding(mpd_tree::specs::Grammar::reference, mpd_tree::specs::References::reference_at))]
pub(crate) fn reference_of(left: usize, bytes: &[u8]) -> Result<(char, &[u8]), Stop>
    ensures { Gives (λ x. (x.0, x.1.now)) fault_in result (reference left bytes.now).read }
{
    let len = reference_end(bytes).unwrap_or(bytes.len());
    let (name, rest) = bytes.split_at(len);
    match rest {
        [] => Err(entity(left, bytes)),
        [_, after @ ..] => named_of(left, bytes, name, after),
    }
}
