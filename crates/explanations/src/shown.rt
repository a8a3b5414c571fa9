// Bytes of a file as they are shown.

use bridge_io::NoMemory;
use std::fmt::Write;

/// The most bytes of a value that are shown.
const VALUE_LEN: usize = 60;

/// Adds bytes to a text, control characters and what isn't UTF-8 as `\xNN`. It returns how many characters were added.
pub(crate) fn push_shown(text: &mut String, bytes: &[u8]) -> Result<usize, NoMemory> {
    let mut columns: usize = 0;
    for chunk in bytes.utf8_chunks() {
        for character in chunk.valid().chars() {
            columns = columns.saturating_add(push_character(text, character)?);
        }
        for byte in chunk.invalid() {
            write!(text, "\\x{byte:02x}")?;
            columns = columns.saturating_add(4);
        }
    }
    Ok(columns)
}

/// Adds a character, and returns how many characters it is shown as.
fn push_character(text: &mut String, character: char) -> Result<usize, NoMemory> {
    let code = u32::from(character);
    match code {
        0..=0x1f | 0x7f => {
            write!(text, "\\x{code:02x}")?;
            Ok(4)
        }
        0x80..=0x9f => {
            write!(text, "\\xc2\\x{code:02x}")?;
            Ok(8)
        }
        _ => {
            text.push(character)?;
            Ok(1)
        }
    }
}

/// Adds a value in quotes, as [`push_short`] does.
pub(crate) fn push_value(text: &mut String, value: &str) -> Result<(), NoMemory> {
    text.push('"')?;
    push_short(text, value)?;
    text.push('"')?;
    Ok(())
}

/// Adds the first bytes of a value, and `..` where there are more.
pub(crate) fn push_short(text: &mut String, value: &str) -> Result<(), NoMemory> {
    let bytes = value.as_bytes();
    let first = first_of(bytes, VALUE_LEN);
    push_shown(text, first)?;
    if first.len() < bytes.len() {
        text.push_str("..")?;
    }
    Ok(())
}

/// The first bytes, at most `most`, without a part of a character at their end.
pub(crate) fn first_of(bytes: &[u8], most: usize) -> &[u8] {
    let Some(first) = bytes.get(..most) else {
        return bytes;
    };
    match str::from_utf8(first) {
        Err(fault) if fault.error_len().is_none() => first
            .get(..fault.valid_up_to())
            .unwrap_or(first),
        _ => first,
    }
}

/// The last bytes, at most `most`, without a part of a character at their begin.
pub(crate) fn last_of(bytes: &[u8], most: usize) -> &[u8] {
    if bytes.len() <= most {
        return bytes;
    }
    let (_, last) = bytes.split_at(bytes.len() - most);
    match last {
        [0x80..=0xbf, 0x80..=0xbf, 0x80..=0xbf, rest @ ..] => rest,
        [0x80..=0xbf, 0x80..=0xbf, rest @ ..] => rest,
        [0x80..=0xbf, rest @ ..] => rest,
        _ => last,
    }
}
