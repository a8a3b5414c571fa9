// The source around a place.

use crate::line::Spot;
use crate::shown::{first_of, last_of, push_shown};
use bridge_io::NoMemory;
use memchr::{memchr, memrchr};
use std::fmt::Write;

/// The most bytes that are shown of a line.
const LINE_LEN: usize = 100;

/// The most of them that are before the place.
const BEFORE_LEN: usize = 40;

/// The most bytes that are shown of a media file.
const MEDIA_LEN: usize = 16;

/// Adds the source around a place: its line with a mark under it, or the bytes of a media file. Nothing for a place that
/// the source doesn't have.
pub(crate) fn push_excerpt(text: &mut String, spot: Spot, source: &[u8]) -> Result<(), NoMemory> {
    match spot {
        Spot::Byte(at) => match parts_at(source, at) {
            Some((_, behind)) => push_bytes(text, at, behind),
            None => Ok(()),
        },
        Spot::Line { at, line } => match parts_at(source, at) {
            Some((before, behind)) => push_line(text, line, before, behind),
            None => Ok(()),
        },
    }
}

/// The bytes before a place, and those from it on.
pub(crate) fn parts_at(source: &[u8], at: u64) -> Option<(&[u8], &[u8])> {
    let at = usize::try_from(at).ok()?;
    if at > source.len() {
        return None;
    }
    Some(source.split_at(at))
}

/// Adds the first bytes of a media file from a place on.
fn push_bytes(text: &mut String, at: u64, bytes: &[u8]) -> Result<(), NoMemory> {
    write!(text, "  byte {at}")?;
    if bytes.is_empty() {
        text.push_str(", the end of the file\n")?;
        return Ok(());
    }
    text.push(':')?;
    for byte in bytes.iter().take(MEDIA_LEN) {
        write!(text, " {byte:02x}")?;
    }
    if bytes.len() > MEDIA_LEN {
        text.push_str(" ..")?;
    }
    text.push('\n')?;
    Ok(())
}

/// Adds the line of a place, by the bytes before the place and those from it on.
fn push_line(text: &mut String, line: u64, before: &[u8], behind: &[u8]) -> Result<(), NoMemory> {
    let start = text.len();
    let is_end = behind.is_empty();
    let before = last_line(before);
    let column = column_behind(before);
    write!(text, "  line {line}, column {column}")?;
    if is_end {
        text.push_str(", the end of the file")?;
        if before.is_empty() {
            text.push('\n')?;
            return Ok(());
        }
    }
    text.push_str(": ")?;
    let head = text.len().saturating_sub(start);
    let columns = push_around(text, before, first_line(behind))?;
    push_mark(text, head.saturating_add(columns))
}

/// Adds the line's bytes around the place. It returns how many characters are before the place.
fn push_around(text: &mut String, before: &[u8], behind: &[u8]) -> Result<usize, NoMemory> {
    let last = last_of(before, BEFORE_LEN);
    let mut columns = 0;
    if last.len() < before.len() {
        text.push_str("..")?;
        columns = 2;
    }
    let columns = push_shown(text, last)?.saturating_add(columns);
    let first = first_of(behind, LINE_LEN.saturating_sub(last.len()));
    push_shown(text, first)?;
    if first.len() < behind.len() {
        text.push_str("..")?;
    }
    text.push('\n')?;
    Ok(columns)
}

/// Adds a line with a `^` behind that many spaces.
fn push_mark(text: &mut String, columns: usize) -> Result<(), NoMemory> {
    for _ in 0..columns {
        text.push(' ')?;
    }
    text.push_str("^\n")?;
    Ok(())
}

/// What is behind the last line end.
fn last_line(bytes: &[u8]) -> &[u8] {
    match memrchr(b'\n', bytes) {
        Some(at) => &bytes[at + 1..],
        None => bytes,
    }
}

/// What is before the first line end, LF or CRLF.
pub(crate) fn first_line(bytes: &[u8]) -> &[u8] {
    match memchr(b'\n', bytes) {
        Some(at) => without_return(&bytes[..at]),
        None => bytes,
    }
}

fn without_return(line: &[u8]) -> &[u8] {
    match line {
        [rest @ .., b'\r'] => rest,
        _ => line,
    }
}

/// The column behind the first bytes of a line, from 1: in characters, or in bytes where they aren't UTF-8.
fn column_behind(before: &[u8]) -> usize {
    let count = match str::from_utf8(before) {
        Ok(text) => text.chars().count(),
        Err(_) => before.len(),
    };
    count.saturating_add(1)
}
