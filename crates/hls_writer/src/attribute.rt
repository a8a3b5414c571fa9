// Attributes of the lines of a master playlist.
ghost use Rattle.std.specs.Prelude.{◌≡◌, ◌++◌, ◌∷◌, [], flat_map, option_map};
ghost use Rattle.bridge_io.specs.Adding.{Adds};
ghost use Rattle.hls_writer.specs.AttributeRows.{told, all_told, texts_of};
ghost use Rattle.hls_writer.specs.Attributes.{attribute_bytes, attributes_bytes, further_bytes, codecs};
ghost use Rattle.iso_time.specs.Digits.{padded_digits};
ghost use Rattle.hls_writer.specs.Attributes as spec;

use crate::line::decimal_at;
use bridge_io::{Fail, Piece, Sheet, Size, Store};

/// A group of renditions (RFC 8216, 4.3.4.1.1).
#[derive(Clone, Copy)]
pub enum RenditionGroup {
    /// An audio group by its number.
    Audio(u64),
    /// The one group of the text tracks.
    Subtitles,
}

impl RenditionGroup {
    /// TYPE of the group's renditions, and the attribute by which a variant names the group.
    fn type_name(self) -> &'static [u8]
        ensures { result.now ≡ spec.type_name self }
    {
        match self {
            RenditionGroup::Audio(_) => b"AUDIO",
            RenditionGroup::Subtitles => b"SUBTITLES",
        }
    }

    fn letter(self) -> &'static [u8]
        ensures { result.now ≡ spec.group_letter self }
    {
        match self {
            RenditionGroup::Audio(_) => b"a",
            RenditionGroup::Subtitles => b"s",
        }
    }

    fn number(self) -> u64
        ensures { result ≡ spec.group_number self }
    {
        match self {
            RenditionGroup::Audio(number) => number,
            RenditionGroup::Subtitles => 0,
        }
    }
}

/// An attribute of a line of a master playlist (RFC 8216, 4.2).
#[derive(Clone, Copy)]
pub enum Attribute<'a> {
    /// TYPE of a rendition of this group (4.3.4.1).
    MediaType(RenditionGroup),
    /// GROUP-ID (4.3.4.1).
    GroupId(RenditionGroup),
    /// NAME (4.3.4.1).
    Name {
        /// The label or the language, where one is known.
        stem: Option<&'a str>,
        /// The index among the audio sets or the text tracks.
        number: u64,
    },
    /// NAME that is a label (4.3.4.1).
    Label(&'a str),
    /// LANGUAGE (4.3.4.1).
    Language(&'a str),
    /// DEFAULT (4.3.4.1).
    Default(bool),
    /// AUTOSELECT (4.3.4.1).
    Autoselect(bool),
    /// FORCED=YES (4.3.4.1).
    Forced,
    /// CHARACTERISTICS of audio that describes the video (4.3.4.1).
    DescribesVideo,
    /// CHARACTERISTICS of text that transcribes dialogue and sound (4.3.4.1).
    TranscribesSound,
    /// CHANNELS (4.3.4.1).
    Channels(u8),
    /// URI of a track's playlist (4.3.4.1).
    Playlist(u64),
    /// BANDWIDTH in bits per second (4.3.4.2).
    Bandwidth(u128),
    /// CODECS (4.3.4.2).
    Codecs(&'a [&'a str]),
    /// RESOLUTION (4.3.4.2).
    Resolution(Size),
    /// FRAME-RATE in thousandths (4.3.4.2).
    FrameRate(u64),
    /// AUDIO or SUBTITLES (4.3.4.2).
    Renditions(RenditionGroup),
    /// CLOSED-CAPTIONS=NONE (4.3.4.2).
    NoCaptions,
}

impl Attribute<'_> {
    #[tactic(auto, unfolding(crate::specs::Attributes::attribute_bytes))]
    fn push_to<F: Store>(&self, sheet: &mut Sheet<F>) -> Result<(), Fail>
        ensures { Adds F.Store (attribute_bytes (told self.now)) sheet.old sheet.new result }
    {
        match *self {
            Attribute::MediaType(group) => {
                sheet.push_pieces(&[Piece::Text(b"TYPE="), Piece::Text(group.type_name())])
            }
            Attribute::GroupId(group) => push_group(sheet, b"GROUP-ID", group),
            Attribute::Name { stem, number } => push_name(sheet, stem, number),
            Attribute::Label(label) => push_quoted(sheet, b"NAME", label.as_bytes()),
            Attribute::Language(tag) => push_quoted(sheet, b"LANGUAGE", tag.as_bytes()),
            Attribute::Default(is) => push_choice(sheet, b"DEFAULT=", is),
            Attribute::Autoselect(is) => push_choice(sheet, b"AUTOSELECT=", is),
            Attribute::Forced => push_text(sheet, b"FORCED=YES"),
            Attribute::DescribesVideo => push_quoted(sheet, b"CHARACTERISTICS", DESCRIBES_VIDEO),
            Attribute::TranscribesSound => push_quoted(
                sheet,
                b"CHARACTERISTICS",
                TRANSCRIBES_SOUND,
            ),
            Attribute::Channels(count) => sheet.push_pieces(&[
                Piece::Text(b"CHANNELS=\""),
                Piece::Number(u64::from(count)),
                Piece::Text(b"\""),
            ]),
            Attribute::Playlist(track) => sheet.push_pieces(&[
                Piece::Text(b"URI=\"t"),
                Piece::Number(track),
                Piece::Text(b".m3u8\""),
            ]),
            Attribute::Bandwidth(bits) => {
                sheet.push_pieces(&[Piece::Text(b"BANDWIDTH="), Piece::Wide(bits)])
            }
            Attribute::Codecs(codes) => push_codes(sheet, codes),
            Attribute::Resolution(size) => push_size(sheet, size),
            Attribute::FrameRate(thousandths) => push_rate(sheet, thousandths),
            Attribute::Renditions(group) => push_group(sheet, group.type_name(), group),
            Attribute::NoCaptions => push_text(sheet, b"CLOSED-CAPTIONS=NONE"),
        }
    }
}

/// What audio for those who can't see the video does (RFC 8216, 4.3.4.1, CHARACTERISTICS).
const DESCRIBES_VIDEO: &[u8] = b"public.accessibility.describes-video";

/// What text for those who can't hear the audio does (RFC 8216, 4.3.4.1, CHARACTERISTICS).
const TRANSCRIBES_SOUND: &[u8] =
    b"public.accessibility.transcribes-spoken-dialog,public.accessibility.describes-music-and-sound";

fn push_text<F: Store>(sheet: &mut Sheet<F>, text: &[u8]) -> Result<(), Fail>
    ensures { Adds F.Store text.now sheet.old sheet.new result }
{
    sheet.push_pieces(&[Piece::Text(text)])
}

/// Writes an attribute with a quoted text.
fn push_quoted<'a, F: Store>(
    sheet: &mut Sheet<F>,
    name: &'a [u8],
    text: &'a [u8],
) -> Result<(), Fail>
    ensures { Adds F.Store (name.now ++ 61 ∷ spec.quoted text.now) sheet.old sheet.new result }
{
    sheet.push_pieces(&[
        Piece::Text(name),
        Piece::Text(b"=\""),
        Piece::Text(text),
        Piece::Text(b"\""),
    ])
}

/// Writes an attribute that is YES or NO.
fn push_choice<F: Store>(sheet: &mut Sheet<F>, name: &[u8], is: bool) -> Result<(), Fail>
    ensures { Adds F.Store (name.now ++ spec.yes_or_no is) sheet.old sheet.new result }
{
    sheet.push_pieces(&[Piece::Text(name), Piece::Text(yes_or_no(is))])
}

/// Writes NAME that is made of a label or a language and a number.
#[tactic(auto, unfolding(crate::specs::Attributes::attribute_bytes))]
fn push_name<F: Store>(sheet: &mut Sheet<F>, stem: Option<&str>, number: u64) -> Result<(), Fail>
    ensures { Adds F.Store (attribute_bytes (spec.name (option_map (λ stem. stem.now) stem.entry) number)) sheet.old sheet.new result }
{
    sheet.push_pieces(&[
        Piece::Text(b"NAME=\""),
        Piece::Text(tag_or_undetermined(stem)),
        Piece::Text(b"-"),
        Piece::Number(number),
        Piece::Text(b"\""),
    ])
}

#[tactic(auto, unfolding(crate::specs::Attributes::attribute_bytes))]
fn push_size<F: Store>(sheet: &mut Sheet<F>, size: Size) -> Result<(), Fail>
    ensures { Adds F.Store (attribute_bytes (spec.resolution size)) sheet.old sheet.new result }
{
    sheet.push_pieces(&[
        Piece::Text(b"RESOLUTION="),
        Piece::Number(u64::from(size.width)),
        Piece::Text(b"x"),
        Piece::Number(u64::from(size.height)),
    ])
}

#[tactic(auto, unfolding(crate::specs::Attributes::attribute_bytes))]
fn push_rate<F: Store>(sheet: &mut Sheet<F>, thousandths: u64) -> Result<(), Fail>
    ensures { Adds F.Store (attribute_bytes (spec.frame_rate thousandths)) sheet.old sheet.new result }
{
    sheet.push_pieces(&[
        Piece::Text(b"FRAME-RATE="),
        Piece::Number(thousandths / 1000),
        Piece::Text(b"."),
        Piece::Text(&three_decimals(thousandths)),
    ])
}

/// Writes an attribute that names a group.
fn push_group<F: Store>(
    sheet: &mut Sheet<F>,
    name: &[u8],
    group: RenditionGroup,
) -> Result<(), Fail>
    ensures { Adds F.Store (name.now ++ 61 ∷ spec.quoted (spec.group_bytes group)) sheet.old sheet.new result }
{
    sheet.push_pieces(&[
        Piece::Text(name),
        Piece::Text(b"=\""),
        Piece::Text(group.letter()),
        Piece::Number(group.number()),
        Piece::Text(b"\""),
    ])
}

fn tag_or_undetermined(stem: Option<&str>) -> &[u8]
    ensures { result.now ≡ spec.tag_or_undetermined (option_map (λ tag. tag.now) stem.entry) }
{
    match stem {
        Some(tag) => tag.as_bytes(),
        None => b"und",
    }
}

fn yes_or_no(is: bool) -> &'static [u8]
    ensures { result.now ≡ spec.yes_or_no is }
{
    if is { b"YES" } else { b"NO" }
}

/// The last three decimal digits of a number, with leading zeros.
#[tactic(auto, unfolding(iso_time::specs::Digits::padded_digits))]
fn three_decimals(number: u64) -> [u8; 3]
    ensures { result ≡ padded_digits 3 number }
{
    [
        decimal_at(number, 100),
        decimal_at(number, 10),
        decimal_at(number, 1),
    ]
}

/// Writes the attribute of a list of codecs.
#[tactic(auto, unfolding(crate::specs::Attributes::attribute_bytes))]
fn push_codes<F: Store>(sheet: &mut Sheet<F>, codes: &[&str]) -> Result<(), Fail>
    ensures { Adds F.Store (attribute_bytes (codecs (texts_of codes.now))) sheet.old sheet.new result }
{
    sheet.push_pieces(&[Piece::Text(b"CODECS=\"")])?;
    push_list(sheet, codes)?;
    sheet.push_pieces(&[Piece::Text(b"\"")])
}

/// Writes codecs joined by `,`.
fn push_list<F: Store>(sheet: &mut Sheet<F>, codes: &[&str]) -> Result<(), Fail>
    ensures { Adds F.Store (spec.codes_bytes (texts_of codes.now)) sheet.old sheet.new result }
{
    let Some((first, others)) = codes.split_first() else {
        return Ok(());
    };
    sheet.push_pieces(&[Piece::Text(first.as_bytes())])?;
    push_further_codes(sheet, others)
}

/// Writes a `,` and the codec for each of some codecs.
fn push_further_codes<F: Store>(sheet: &mut Sheet<F>, codes: &[&str]) -> Result<(), Fail>
    ensures { Adds F.Store (flat_map (λ code. 44 ∷ code) (texts_of codes.now)) sheet.old sheet.new result }
{
    for code in codes {
        sheet.push_pieces(&[Piece::Text(b","), Piece::Text(code.as_bytes())])?;
    }
    Ok(())
}

/// Writes a tag with its attributes and the line end: the first one, and those of the others that are present.
pub fn push_tag<F: Store>(
    sheet: &mut Sheet<F>,
    tag: &[u8],
    first: Attribute<'_>,
    others: &[Option<Attribute<'_>>],
) -> Result<(), Fail>
    ensures { Adds F.Store (tag.now ++ attributes_bytes (told first.entry) (all_told others.now) ++ 10 ∷ []) sheet.old sheet.new result }
{
    sheet.push_pieces(&[Piece::Text(tag)])?;
    first.push_to(sheet)?;
    push_further(sheet, others)?;
    sheet.push_pieces(&[Piece::Text(b"\n")])
}

/// Writes a `,` and an attribute for each one that is present.
fn push_further<F: Store>(
    sheet: &mut Sheet<F>,
    attributes: &[Option<Attribute<'_>>],
) -> Result<(), Fail>
    ensures { Adds F.Store (further_bytes (all_told attributes.now)) sheet.old sheet.new result }
{
    for attribute in attributes {
        if let Some(attribute) = attribute {
            push_one_further(sheet, attribute)?;
        }
    }
    Ok(())
}

fn push_one_further<F: Store>(sheet: &mut Sheet<F>, attribute: &Attribute<'_>) -> Result<(), Fail>
    ensures { Adds F.Store (44 ∷ attribute_bytes (told attribute.now)) sheet.old sheet.new result }
{
    sheet.push_pieces(&[Piece::Text(b",")])?;
    attribute.push_to(sheet)
}
