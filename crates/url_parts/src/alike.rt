// Shorter texts that stand for longer ones in references.
ghost use Rattle.std.specs.Prelude.{◌≡◌, ◌∷◌, ◌++◌, [], ◌<◌, ◌≤◌, true, length, slice_index, IfOk, IfSome, OnOk, string_bytes};
ghost use Rattle.std.specs.List.{list_all};
ghost use Rattle.url.specs.Input.{is_tab_or_new_line};
ghost use Rattle.url.specs.Path.{dot_count, dot_len};
ghost use Rattle.url_parts.specs.Alike.{IsGivenAlike, IsInLineAs, IsOpen, IsReadAs, IsTakenBack, is_inside};

use crate::base::is_path;
use bridge_io::{NoMemory, Text};
use std::alloc::Global;

/// A text without its tabs and line ends, which the URL Standard removes from a reference (4.4): against each base it
/// gives what the text gives.
pub fn in_line(alloc: Global, text: &str) -> Result<String, NoMemory>
    ensures { IfOk result (λ line. IsInLineAs text.now (string_bytes line)) }
{
    let mut kept = Vec::with_capacity(alloc, text.len())?;
    for byte in text.as_bytes() {
        keep(&mut kept, *byte)?;
    }
    match String::from_utf8(kept) {
        Ok(kept) => Ok(kept),
        Err(_) => Ok(String::from_str(alloc, text)?),
    }
}

/// Adds a byte to a text, unless it is a tab or ends a line.
fn keep(kept: &mut Vec<u8>, byte: u8) -> Result<(), NoMemory>
    ensures { OnOk result (IsInLineAs (kept.old.items ++ byte ∷ []) kept.new.items) }
{
    if !is_line_byte(byte) {
        kept.push(byte)?;
    }
    Ok(())
}

/// Whether a text has tabs or line ends.
pub fn has_line_bytes(text: &str) -> bool {
    text.as_bytes().iter().any(|byte| is_line_byte(*byte))
}

fn is_line_byte(byte: u8) -> bool
    ensures { result ≡ is_tab_or_new_line byte }
{
    matches!(byte, b'\t' | b'\n' | b'\r')
}

/// A shorter reference that gives the same URL against each base, where the text has tabs, line ends, or segments that
/// `..` takes back.
pub fn shorter(alloc: Global, reference: &str) -> Result<Text, NoMemory>
    ensures { IfOk result (IsGivenAlike reference.now) }
{
    let line = in_line(alloc, reference)?;
    if !is_path(line.as_str().as_bytes()) {
        return Ok(Text::from(line));
    }
    let short = without_detours(alloc, line.as_str())?;
    if !is_path(short.as_str().as_bytes()) {
        return Ok(Text::from(line));
    }
    Ok(Text::from(short))
}

/// A text without the segments that a `..` behind them takes back, and without those that are `.` (URL Standard, 4.4):
/// as a part of a path it is read as the text.
pub fn without_detours(alloc: Global, text: &str) -> Result<String, NoMemory>
    ensures { IfOk result (λ short. IsReadAs text.now (string_bytes short)) }
{
    let mut short = Vec::with_capacity(alloc, 0)?;
    let mut rest = text.as_bytes();
    while let Some((segment, later)) = cut(rest) {
        add_segment(&mut short, segment)?;
        rest = later;
    }
    short.extend_from_slice(rest)?;
    match String::from_utf8(short) {
        Ok(short) => Ok(short),
        Err(_) => Ok(String::from_str(alloc, text)?),
    }
}

/// Whether a text may have segments that `without_detours` leaves out.
pub fn has_detours(text: &str) -> bool {
    text.as_bytes()
        .windows(2)
        .any(|pair| matches!(pair, [b'/', b'.' | b'%']))
}

/// Adds a segment and a slash to a text.
fn add_segment(short: &mut Vec<u8>, segment: &[u8]) -> Result<(), NoMemory>
    requires { IsOpen short.old.items }
    ensures open { OnOk result (IsOpen short.new.items) }
    ensures alike { OnOk result (IsReadAs (short.old.items ++ (segment.now ++ 47 ∷ [])) short.new.items) }
{
    if is_here(short.as_slice(), segment) {
        return Ok(());
    }
    if let Some(kept) = taken_back(short.as_slice(), segment) {
        short.truncate(kept);
        return Ok(());
    }
    short.extend_from_slice(segment)?;
    short.push(b'/')?;
    Ok(())
}

/// Whether a segment behind a text changes no path.
fn is_here(text: &[u8], segment: &[u8]) -> bool
    ensures { result ≡ true → (0 < length text.now) × (list_all is_inside segment.now ≡ true) × (dot_count segment.now ≡ 1) }
{
    !text.is_empty() && dot_count(segment) == 1 && is_whole(segment)
}

/// The length of a text without its last segment, where a segment behind it takes that back.
fn taken_back(text: &[u8], segment: &[u8]) -> Option<usize>
    ensures back { IfSome result (IsTakenBack text.now) }
    ensures up { IfSome result (λ _. (list_all is_inside segment.now ≡ true) × (dot_count segment.now ≡ 2)) }
{
    if dot_count(segment) != 2 || !is_whole(segment) {
        return None;
    }
    without_last(text)
}

/// The length of a text without its last segment, where `..` takes that back.
fn without_last(text: &[u8]) -> Option<usize>
    ensures { IfSome result (IsTakenBack text.now) }
{
    let [inside @ .., b'/'] = text else {
        return None;
    };
    let slash = last_slash(inside)?;
    let last = &inside[slash + 1..];
    if dot_count(last) != 0 || !is_whole(last) {
        return None;
    }
    Some(slash + 1)
}

/// Whether a text is one segment.
fn is_whole(segment: &[u8]) -> bool
    ensures { result ≡ list_all is_inside segment.now }
{
    segment.iter().all(|byte| is_inside(*byte))
}

fn is_inside(byte: u8) -> bool
    ensures { result ≡ is_inside byte }
{
    !matches!(byte, b'/' | b'\\')
}

/// The first segment of a text, and what is behind its slash.
pub(crate) fn cut(text: &[u8]) -> Option<(&[u8], &[u8])>
    ensures { IfSome result (λ cut. text.now ≡ cut.0.now ++ 47 ∷ cut.1.now) }
{
    let slash = text.iter().position(|byte| *byte == b'/')?;
    let (segment, behind) = text.split_at(slash);
    Some((segment, &behind[1..]))
}

/// The index of the last `/`.
fn last_slash(text: &[u8]) -> Option<usize>
    ensures { IfSome result (λ slash. (slash < length text.now) × (slice_index text.now slash ≡ 47)) }
{
    let mut end = text.len();
    while end > 0 {
        end -= 1;
        if text[end] == b'/' {
            return Some(end);
        }
    }
    None
}

/// 1 for a segment that is read as `.`, 2 for one that is read as `..`, and 0 for any other.
fn dot_count(segment: &[u8]) -> usize
    ensures { result ≡ dot_count segment.now }
{
    let first = dot_len(segment);
    if first == 0 {
        return 0;
    }
    let rest = &segment[first..];
    if rest.is_empty() {
        return 1;
    }
    if dot_len(rest) == rest.len() { 2 } else { 0 }
}

/// The length of the `.` or `%2e` at the front, or 0.
fn dot_len(segment: &[u8]) -> usize
    ensures value { result ≡ dot_len segment.now }
    ensures within { result ≤ length segment.now }
{
    match segment {
        [b'.', ..] => 1,
        [b'%', b'2', b'e' | b'E', ..] => 3,
        _ => 0,
    }
}
