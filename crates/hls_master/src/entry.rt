// The lines that a master's reader knows, each variant's tag joined with its URI line.
ghost use Rattle.std.specs.Prelude.{◌≡◌, [], ◌∷◌, Some, option_map, IfNone};
ghost use Rattle.hls_lines.specs.Said.{said};
ghost use Rattle.hls_master.specs.Entries.{known_line, known_tag, refused_tag, known_lines, with_known, entries_of, IsNext, stream, uri_in};
ghost use Rattle.hls_master.specs.Seen.{line_seen, entry_seen, uri_seen};

use crate::MasterFault;
use bridge_io::Place;
use hls_lines::{Line, Lines};

/// A line that isn't ignored.
#[derive(Clone, Copy)]
enum Known<'a> {
    Media { rest: &'a str, place: Place },
    Stream { rest: &'a str, place: Place },
    Uri { text: &'a str, place: Place },
    Refused(MasterFault),
}

/// An entry of a master playlist.
#[derive(Clone, Copy)]
pub enum Entry<'a> {
    /// EXT-X-MEDIA, by its attributes.
    Rendition {
        /// The text of its attributes.
        rest: &'a str,
        /// The tag's position.
        place: Place,
    },
    /// EXT-X-STREAM-INF, by its attributes, and the URI line after it.
    Variant {
        /// The text of its attributes.
        rest: &'a str,
        /// The tag's position.
        place: Place,
        /// The URI line.
        uri: &'a str,
        /// The URI line's position.
        uri_place: Place,
    },
    /// A line that isn't allowed there.
    Stray(MasterFault),
}

/// Tags of media playlists (RFC 8216 4.3.2 and 4.3.3).
const MEDIA_TAGS: [&str; 4] = [
    "EXTINF",
    "EXT-X-TARGETDURATION",
    "EXT-X-BYTERANGE",
    "EXT-X-MAP",
];

/// The next entry; `None` where no line is left. Don't call it again after a stray line.
pub fn next_entry<'a>(lines: &mut Lines<'a>) -> Option<Entry<'a>>
    ensures { IsNext (entries_of (known_lines lines.old)) (option_map entry_seen result) (entries_of (known_lines lines.new)) }
{
    match next_known(lines)? {
        Known::Media { rest, place } => Some(Entry::Rendition { rest, place }),
        Known::Stream { rest, place } => Some(join_uri(lines, rest, place)),
        Known::Uri { place, .. } => Some(Entry::Stray(MasterFault::Misplaced(place))),
        Known::Refused(fault) => Some(Entry::Stray(fault)),
    }
}

/// The variant of an EXT-X-STREAM-INF, whose URI is the next known line.
fn join_uri<'a>(lines: &mut Lines<'a>, rest: &'a str, place: Place) -> Entry<'a>
    ensures { IsNext (entries_of (stream rest.now place ∷ known_lines lines.old)) (Some (entry_seen result))
        (entries_of (known_lines lines.new)) }
{
    let known = next_known(lines);
    match uri_in(known) {
        Some((uri, uri_place)) => Entry::Variant {
            rest,
            place,
            uri,
            uri_place,
        },
        None => Entry::Stray(MasterFault::Misplaced(place)),
    }
}

/// The URI of a known line, with its position.
fn uri_in(known: Option<Known<'_>>) -> Option<(&str, Place)>
    ensures { option_map uri_seen result ≡ uri_in (option_map line_seen known.entry) }
{
    match known {
        None => None,
        Some(Known::Media { .. }) => None,
        Some(Known::Stream { .. }) => None,
        Some(Known::Uri { text, place }) => Some((text, place)),
        Some(Known::Refused(_)) => None,
    }
}

fn next_known<'a>(lines: &mut Lines<'a>) -> Option<Known<'a>>
    ensures line { known_lines lines.old ≡ with_known (option_map line_seen result) (known_lines lines.new) }
    ensures end { IfNone result (lines.new ≡ []) }
{
    while let Some(line) = lines.next() {
        if let Some(known) = known_line(line) {
            return Some(known);
        }
    }
    None
}

#[tactic(auto, unfolding(crate::specs::Entries::known_line))]
fn known_line(line: Line<'_>) -> Option<Known<'_>>
    ensures { option_map line_seen result ≡ known_line (said line.entry) }
{
    match line {
        Line::Tag { name, rest, place } => known_tag(name, rest, place),
        Line::Uri { text, place } => Some(Known::Uri { text, place }),
    }
}

fn known_tag<'a>(name: &str, rest: &'a str, place: Place) -> Option<Known<'a>>
    ensures { option_map line_seen result ≡ known_tag name.now rest.now place }
{
    match name {
        "EXT-X-MEDIA" => Some(Known::Media { rest, place }),
        "EXT-X-STREAM-INF" => Some(Known::Stream { rest, place }),
        _ => Some(Known::Refused(refused_tag(name, place)?)),
    }
}

/// The fault of a tag that is rejected by its name alone.
fn refused_tag(name: &str, place: Place) -> Option<MasterFault>
    ensures { result ≡ refused_tag name.now place }
{
    if name == "EXT-X-SESSION-KEY" {
        Some(MasterFault::Encryption(place))
    } else if name == "EXT-X-DEFINE" {
        Some(MasterFault::Unsupported(place))
    } else if MEDIA_TAGS.contains(&name) {
        Some(MasterFault::Misplaced(place))
    } else {
        None
    }
}
