// Lines of playlists.
ghost use Rattle.std.specs.Prelude.{◌≡◌, ◌+◌, ◌/◌, ◌%◌, ◌<◌, ◌++◌, ◌∷◌, [], All, codes, decimal};
ghost use Rattle.iso_time.specs.Digits.{padded_digits};
ghost use Rattle.bridge_io.specs.Adding.{Adds};
ghost use Rattle.hls_writer.specs.Lines.{line_text, lines_text, initialization, duration, uri};
ghost use Rattle.hls_writer.specs.Rows.{written, all_written, CanBeWritten, CanBeThere};

use bridge_io::{Fail, Piece, Sheet, Store};
use exact_time::Digits;
use iso_time::{Instant, write_instant_ms};
use url_parts::{Range, Reference};

/// A line of a playlist (RFC 8216, 4.3).
#[derive(Clone, Copy)]
pub enum Tag<'a> {
    /// EXTM3U (4.3.1.1).
    Header,
    /// EXT-X-VERSION (4.3.1.2).
    Version(u64),
    /// EXT-X-INDEPENDENT-SEGMENTS (4.3.5.1).
    IndependentSegments,
    /// EXT-X-TARGETDURATION (4.3.3.1), in seconds.
    TargetDuration(u64),
    /// EXT-X-MEDIA-SEQUENCE (4.3.3.2).
    MediaSequence(u64),
    /// EXT-X-DISCONTINUITY-SEQUENCE (4.3.3.3).
    DiscontinuitySequence(u64),
    /// EXT-X-PLAYLIST-TYPE:VOD (4.3.3.5).
    OnDemand,
    /// EXT-X-DISCONTINUITY (4.3.2.3).
    Discontinuity,
    /// EXT-X-MAP (4.3.2.5).
    Map {
        /// URI, as it is written.
        address: Reference<'a>,
        /// BYTERANGE; `None` is the whole file.
        range: Option<Range>,
    },
    /// EXT-X-PROGRAM-DATE-TIME (4.3.2.6).
    ProgramDateTime(Instant),
    /// EXT-X-BYTERANGE (4.3.2.2).
    ByteRange(Range),
    /// EXT-X-ENDLIST (4.3.3.4).
    EndList,
}

impl Tag<'_> {
    /// Writes the line with its end.
    #[tactic(auto, unfolding(crate::specs::Lines::line_bytes))]
    pub fn push_to<F: Store>(&self, sheet: &mut Sheet<F>) -> Result<(), Fail>
        requires { CanBeWritten self.now }
        ensures { Adds F.Store (line_text (written self.now)) sheet.old sheet.new result }
    {
        match *self {
            Tag::Header => sheet.push_pieces(&[Piece::Text(b"#EXTM3U\n")]),
            Tag::Version(number) => push_numbered(sheet, b"#EXT-X-VERSION:", number),
            Tag::IndependentSegments => {
                sheet.push_pieces(&[Piece::Text(b"#EXT-X-INDEPENDENT-SEGMENTS\n")])
            }
            Tag::TargetDuration(seconds) => push_numbered(
                sheet,
                b"#EXT-X-TARGETDURATION:",
                seconds,
            ),
            Tag::MediaSequence(number) => push_numbered(sheet, b"#EXT-X-MEDIA-SEQUENCE:", number),
            Tag::DiscontinuitySequence(number) => push_numbered(
                sheet,
                b"#EXT-X-DISCONTINUITY-SEQUENCE:",
                number,
            ),
            Tag::OnDemand => sheet.push_pieces(&[Piece::Text(b"#EXT-X-PLAYLIST-TYPE:VOD\n")]),
            Tag::Discontinuity => sheet.push_pieces(&[Piece::Text(b"#EXT-X-DISCONTINUITY\n")]),
            Tag::Map { address, range } => push_map(sheet, address, range),
            Tag::ProgramDateTime(instant) => sheet.push_pieces(&[
                Piece::Text(b"#EXT-X-PROGRAM-DATE-TIME:"),
                Piece::Text(&write_instant_ms(instant)),
                Piece::Text(b"\n"),
            ]),
            Tag::ByteRange(range) => sheet.push_pieces(&[
                Piece::Text(b"#EXT-X-BYTERANGE:"),
                Piece::Number(range.count),
                Piece::Text(b"@"),
                Piece::Number(range.first),
                Piece::Text(b"\n"),
            ]),
            Tag::EndList => sheet.push_pieces(&[Piece::Text(b"#EXT-X-ENDLIST\n")]),
        }
    }
}

/// Writes a line of a tag with a number.
fn push_numbered<F: Store>(sheet: &mut Sheet<F>, tag: &[u8], number: u64) -> Result<(), Fail>
    ensures { Adds F.Store (tag.now ++ decimal number ++ 10 ∷ []) sheet.old sheet.new result }
{
    sheet.push_pieces(&[Piece::Text(tag), Piece::Number(number), Piece::Text(b"\n")])
}

/// Writes the line of an init segment.
#[tactic(auto, unfolding(crate::specs::Lines::line_bytes))]
fn push_map<F: Store>(
    sheet: &mut Sheet<F>,
    address: Reference<'_>,
    range: Option<Range>,
) -> Result<(), Fail>
    ensures { Adds F.Store (line_text (initialization (record { address = address.entry.up.now ++ address.entry.rest.now; range = range })))
        sheet.old sheet.new result }
{
    let tag = Piece::Text(b"#EXT-X-MAP:URI=\"");
    let up = Piece::Text(address.up.as_bytes());
    let rest = Piece::Text(address.rest.as_bytes());
    match range {
        None => sheet.push_pieces(&[tag, up, rest, Piece::Text(b"\"\n")]),
        Some(range) => sheet.push_pieces(&[
            tag,
            up,
            rest,
            Piece::Text(b"\",BYTERANGE=\""),
            Piece::Number(range.count),
            Piece::Text(b"@"),
            Piece::Number(range.first),
            Piece::Text(b"\"\n"),
        ]),
    }
}

/// Writes the line of a URL.
#[tactic(auto, unfolding(crate::specs::Lines::line_bytes))]
pub fn push_uri<F: Store>(sheet: &mut Sheet<F>, address: Reference<'_>) -> Result<(), Fail>
    ensures { Adds F.Store (line_text (uri (address.entry.up.now ++ address.entry.rest.now))) sheet.old sheet.new result }
{
    sheet.push_pieces(&[
        Piece::Text(address.up.as_bytes()),
        Piece::Text(address.rest.as_bytes()),
        Piece::Text(b"\n"),
    ])
}

/// Writes the line of a printed duration (EXTINF of RFC 8216, 4.3.2.1), in units of the last decimal.
#[tactic(auto, unfolding(crate::specs::Lines::line_bytes))]
pub fn push_duration<F: Store>(sheet: &mut Sheet<F>, digits: Digits, units: u64) -> Result<(), Fail>
    ensures { Adds F.Store (line_text (duration digits units)) sheet.old sheet.new result }
{
    let decimals = nine_decimals(units);
    let before = 9 - usize::from(digits.count());
    sheet.push_pieces(&[
        Piece::Text(b"#EXTINF:"),
        Piece::Number(units / u64::from(digits.unit())),
        Piece::Text(b"."),
        Piece::Text(&decimals[before..]),
    ])
}

/// The last nine decimal digits of a number, with leading zeros, and the end of their line.
#[tactic(auto, unfolding(iso_time::specs::Digits::padded_digits))]
fn nine_decimals(number: u64) -> [u8; 11]
    ensures { result ≡ padded_digits 9 number ++ codes ",\n" }
{
    [
        decimal_at(number, 100_000_000),
        decimal_at(number, 10_000_000),
        decimal_at(number, 1_000_000),
        decimal_at(number, 100_000),
        decimal_at(number, 10_000),
        decimal_at(number, 1_000),
        decimal_at(number, 100),
        decimal_at(number, 10),
        decimal_at(number, 1),
        b',',
        b'\n',
    ]
}

/// The decimal digit of a number with this unit.
pub(crate) fn decimal_at(number: u64, unit: u64) -> u8
    requires { 0 < unit }
    ensures { result ≡ 48 + number / unit % 10 }
{
    b'0' + (number / unit % 10) as u8
}

/// Writes lines in order, those that are present.
pub fn push_lines<F: Store>(sheet: &mut Sheet<F>, lines: &[Option<Tag<'_>>]) -> Result<(), Fail>
    requires { All CanBeThere lines.now }
    ensures { Adds F.Store (lines_text (all_written lines.now)) sheet.old sheet.new result }
{
    for line in lines {
        if let Some(line) = line {
            line.push_to(sheet)?;
        }
    }
    Ok(())
}
