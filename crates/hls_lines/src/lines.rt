// The lines of a playlist.
ghost use Rattle.std.specs.Prelude.{◌≡◌, ◌+◌, ◌-◌, ◌^◌, ◌≤◌, ◌⊎◌, ◌<◌, [], length, take, slice_index, option_map, count_by, IfNone};
ghost use Rattle.std.specs.List.{suffix_len};
ghost use Rattle.hls_lines.specs.Lines.{is_blank, line_of, trimmed, marked_line, behind, has_header, text_lines, with_line, is_uri};
ghost use Rattle.hls_lines.specs.Lines.{is_uri_line};
ghost use Rattle.hls_lines.specs.Bounds.{HasRoom};
ghost use Rattle.hls_lines.specs.Said.{said};

use crate::LineFault;
use crate::clean::clean;
use crate::marks::{after, cut_at};
use bridge_io::Place;
use std::marker::Model;

/// A line of a playlist that is neither blank nor a comment (RFC 8216 4.1), without trailing spaces, tabs and CRs.
#[derive(Clone, Copy, PartialEq, Eq)]
pub enum Line<'a> {
    /// A line that begins with `#EXT`.
    Tag {
        /// What is between the `#` and the first `:`, or the end.
        name: &'a str,
        /// What follows the first `:`; empty where there is none.
        rest: &'a str,
        /// The line's first byte.
        place: Place,
    },
    /// A line that doesn't begin with `#`.
    Uri {
        /// The whole line.
        text: &'a str,
        /// The line's first byte.
        place: Place,
    },
}

/// The lines of a playlist that are left: in a contract the list of them.
///
/// Lines end with LF, CRLF or the end of the file. Blank lines and comments, which begin with `#` but not with `#EXT`,
/// are ignored. The first line is the tag `EXTM3U`.
#[derive(Drop)]
pub struct Lines<'a> {
    rest: &'a str,
    place: Place,
}

impl<'a> Model for Lines<'a> {
    ghost use Rattle.std.specs.Prelude.{List, length};
    ghost use Rattle.hls_lines.specs.Lines.{PlaylistLine, text_lines};
    ghost use Rattle.hls_lines.specs.Bounds.{HasRoom};

    ghost Value = { List PlaylistLine };

    ghost view = { λ lines. text_lines lines.place lines.rest.now };

    ghost invariant = { λ lines. HasRoom lines.place (length lines.rest.now) };
}

/// The file's first byte.
const START: Place = Place { at: 0, line: 1 };

impl<'a> Lines<'a> {
    ghost use Rattle.hls_lines.specs.Lines.{lines_of, with_line};

    /// The lines of a playlist (RFC 8216 4.1 and 4.3.1.1).
    ///
    /// The faults [`LineFault::NotUtf8`], [`LineFault::BadChar`] and [`LineFault::Header`] are tried in this order over
    /// the whole file; there are no others. It allocates nothing.
    #[tactic(auto, unfolding(crate::specs::Lines::lines_of))]
    pub fn new(bytes: &'a [u8]) -> Result<Lines<'a>, LineFault>
        ensures { result ≡ lines_of bytes.now }
    {
        let rest = clean(bytes)?;
        if !has_header(rest) {
            return Err(LineFault::Header(START));
        }
        let place = START;
        Ok(Lines { rest, place })
    }

    /// The next line; `None` where no line is left. It allocates nothing.
    pub fn next(&mut self) -> Option<Line<'a>>
        ensures line { self.old ≡ with_line (option_map said result) self.new }
        ensures end { IfNone result (self.new ≡ []) }
    {
        while !self.rest.is_empty() {
            let place = self.place;
            let first = first_line(self.rest, place);
            self.rest = first.rest;
            self.place = first.next;
            if let Some(line) = read_line(first.line, place) {
                return Some(line);
            }
        }
        None
    }
}

impl<'a> Lines<'a> {
    /// The same lines again. It allocates nothing.
    pub fn copy(&self) -> Lines<'a>
        ensures lines { result ≡ self.now }
        ensures few { length self.now ≤ 2 ^ 63 }
    {
        Lines {
            rest: self.rest,
            place: self.place,
        }
    }

    /// How many lines with a URI are left. It allocates nothing.
    pub fn count_uris(&self) -> usize
        ensures count { result ≡ count_by is_uri self.now }
        ensures few { length self.now ≤ 2 ^ 63 }
    {
        let mut rest = self.rest;
        let mut place = self.place;
        let mut count = 0;
        while !rest.is_empty() {
            let first = first_line(rest, place);
            rest = first.rest;
            place = first.next;
            if is_uri_line(first.line) {
                count += 1;
            }
        }
        count
    }
}

/// The first line of a text, what follows it, and the position of that.
#[derive(Clone, Copy)]
struct FirstLine<'a> {
    line: &'a str,
    rest: &'a str,
    next: Place,
}

fn first_line(text: &str, place: Place) -> FirstLine<'_>
    requires room { HasRoom place (length text.now) }
    ensures lines { text_lines place text.now
        ≡ with_line (line_of (trimmed result.line.now) place) (text_lines result.next result.rest.now) }
    ensures room { HasRoom result.next (length result.rest.now) }
    ensures shorter { 0 < length text.now → length result.rest.now < length text.now }
{
    match cut_at(text, b'\n') {
        Some((line, rest)) => FirstLine {
            line,
            rest,
            next: behind(line, place),
        },
        None => FirstLine {
            line: text,
            rest: "",
            next: place,
        },
    }
}

/// The position of the next line.
fn behind(line: &str, place: Place) -> Place
    requires at { place.at + length line.now + 1 < 2 ^ 64 }
    requires line { place.line + 1 < 2 ^ 64 }
    ensures { result ≡ behind line.now place }
{
    Place {
        at: place.at + line.len() as u64 + 1,
        line: place.line + 1,
    }
}

/// What a line means, if it isn't ignored.
fn read_line(line: &str, place: Place) -> Option<Line<'_>>
    ensures { option_map said result ≡ line_of (trimmed line.now) place }
{
    let text = trimmed(line);
    if text.is_empty() {
        return None;
    }
    match after(text, '#') {
        Some(marked) => marked_line(marked, place),
        None => Some(Line::Uri { text, place }),
    }
}

/// Whether a line is a URI.
#[inline(always)]
fn is_uri_line(line: &str) -> bool
    ensures { result ≡ is_uri_line (trimmed line.now) }
{
    let text = trimmed(line);
    !text.is_empty() && after(text, '#').is_none()
}

/// A line with a `#`: a tag or a comment.
fn marked_line(text: &str, place: Place) -> Option<Line<'_>>
    ensures { option_map said result ≡ marked_line text.now place }
{
    if !text.starts_with("EXT") {
        return None;
    }
    let (name, rest) = cut_at(text, b':').unwrap_or((text, ""));
    Some(Line::Tag { name, rest, place })
}

/// A line without trailing spaces, tabs and CRs.
fn trimmed(line: &str) -> &str
    ensures { result.now ≡ trimmed line.now }
{
    &line[..trimmed_len(line.as_bytes())]
}

fn trimmed_len(line: &[u8]) -> usize
    ensures len { result ≡ length line.now - suffix_len is_blank line.now }
    ensures end { (result ≡ length line.now) ⊎ (slice_index line.now result < 128) }
{
    let mut len = line.len();
    while len > 0 && is_blank(line[len - 1]) {
        len -= 1;
    }
    len
}

fn is_blank(byte: u8) -> bool
    ensures { result ≡ is_blank byte }
{
    matches!(byte, b' ' | b'\t' | b'\r')
}

/// Whether the first line is `#EXTM3U`.
fn has_header(text: &str) -> bool
    ensures { result ≡ has_header text.now }
{
    let (line, _) = cut_at(text, b'\n').unwrap_or((text, ""));
    trimmed(line) == "#EXTM3U"
}
