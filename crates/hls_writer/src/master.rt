// The master playlist of a presentation.
ghost use Rattle.std.specs.Prelude.{◌≡◌, ◌⊎◌, All, map, option_map, option_to_list, IfOk, OnOk, OnErr};
ghost use Rattle.std.specs.List.{flat_map};
ghost use Rattle.audio_groups.specs.Families.{in_families};
ghost use Rattle.bridge_io.specs.Fault.{HasCause};
ghost use Rattle.bridge_io.specs.Outside.{put, Changes};
ghost use Rattle.bridge_io.specs.Written.{HasFront};
ghost use Rattle.bridge_io.specs.Adding.{Adds};
ghost use Rattle.hls_writer.specs.LaidOut.{laid, laid_by, cast_text, coded_cast_text};
ghost use Rattle.hls_writer.specs.Lines.{lines_text};
ghost use Rattle.hls_writer.specs.Master.{filling_of, head_lines, independent_line, laid_with, lines_with, master_text, tracks_in};
ghost use Rattle.hls_writer.specs.Menus.{hints_in};
ghost use Rattle.hls_writer.specs.Renditions.{renditions_of, rendition_line, rendition_text};
ghost use Rattle.hls_writer.specs.Variants.{variants_of, variant_lines, variant_text};
ghost use Rattle.hls_writer.specs.AttributeRows.{texts_in};
ghost use Rattle.hls_writer.specs.Rows.{CanBeThere, all_written, written};
ghost use Rattle.bridge_io.specs.declared.out_fault.OutFault.TheVariants.{WriteFault};

use crate::OutFault;
use crate::attribute::{Attribute, push_tag};
use crate::line::{Tag, push_lines};
use crate::menus::{heads_of, hints_in};
use crate::renditions::{Layout, Rendition, places_of};
use crate::variants::{Cast, Members, Variant, code_lists, variants_of};
use audio_groups::{Filling, Group, GroupList, Key, groups_of, in_families, keys_of};
use bridge_io::{Fail, FileWriter, Kind, Name, NoMemory, Piece, Sequence, Sheet, Store};
use presentation::{Presentation, Track};
use std::alloc::Global;
use track_hints::{Hints, TrackHints};

/// Writes the multivariant (master) playlist of a presentation: a rendition for each audio track in its own group, for each
/// group and audio set whose track isn't in the group by its own codecs, and for each text track; a variant for each pair of a
/// video track and an audio group, or for each of one of them where the other is missing. The media playlist of track k is
/// `t<k>.m3u8`.
///
/// BANDWIDTH is the sum of the video track's and of the greatest ones of the group and of the text tracks. CODECS has the codecs
/// of all these tracks, each once, and is present only where each of them has some. FRAME-RATE is rounded to thousandths, halves
/// up.
///
/// Plain, where `players` is `None`, each group has a track of each audio set, and all renditions are AUTOSELECT. For players the
/// tracks of a group have one family of codecs, variants are by group, and what is told of the tracks says which names, DEFAULT,
/// AUTOSELECT, FORCED, CHARACTERISTICS and CHANNELS the renditions have (RFC 8216, 4.3.4.1), and whether the playlist has
/// EXT-X-INDEPENDENT-SEGMENTS (4.3.5.1) and CLOSED-CAPTIONS=NONE (4.3.4.2).
///
/// An error leaves the file as it was, or with a prefix of the text. [`OutFault::WriteFault`] comes only where the store's count
/// of failed writes rose.
pub fn write_master<F: Store>(
    alloc: Global,
    presentation: &Presentation,
    players: Option<&Hints>,
    store: &mut F,
    name: &Name,
) -> Result<(), OutFault>
    ensures ok { let text = master_text (option_map (λ h. h.now) players.entry) presentation.now in
        OnOk result (Changes (put name.now text) (F.files store.old) (F.files store.new)) }
    ensures err { let text = master_text (option_map (λ h. h.now) players.entry) presentation.now in
        OnErr result ((F.files store.new ≡ F.files store.old) ⊎ HasFront name.now text (F.files store.old) (F.files store.new)) }
    ensures cause { HasCause WriteFault (F.write_faults store.old) (F.write_faults store.new) result }
    ensures reads { F.read_faults store.new ≡ F.read_faults store.old }
{
    let writer = &mut FileWriter::create(alloc, store, name)?;
    push_master(alloc, presentation, players, &mut Sheet { writer, store })?;
    writer.flush(store)?;
    Ok(())
}

/// Writes the whole text.
#[tactic(auto, unfolding(crate::specs::Master::master_text))]
fn push_master<F: Store>(
    alloc: Global,
    presentation: &Presentation,
    players: Option<&Hints>,
    sheet: &mut Sheet<F>,
) -> Result<(), Fail>
    ensures { Adds F.Store (master_text (option_map (λ h. h.now) players.entry) presentation.now) sheet.old sheet.new result }
{
    let tracks = presentation.tracks().as_slice();
    match players {
        None => push_grouped(alloc, players, tracks, tracks, sheet),
        Some(_) => push_in_families(alloc, players, tracks, sheet),
    }
}

/// Writes the whole text, the tracks being grouped by the families of their codecs.
fn push_in_families<F: Store>(
    alloc: Global,
    players: Option<&Hints>,
    tracks: &[Track],
    sheet: &mut Sheet<F>,
) -> Result<(), Fail>
    ensures { let layout = laid_with (option_map (λ h. h.now) players.entry) tracks.now (in_families tracks.now) in
        Adds F.Store (lines_text (lines_with layout)) sheet.old sheet.new result }
{
    let grouped = in_families(alloc, tracks)?;
    push_grouped(alloc, players, tracks, grouped.as_slice(), sheet)
}

/// Writes the whole text, given the tracks as they are grouped.
fn push_grouped<F: Store>(
    alloc: Global,
    players: Option<&Hints>,
    tracks: &[Track],
    grouped: &[Track],
    sheet: &mut Sheet<F>,
) -> Result<(), Fail>
    ensures { let layout = laid_with (option_map (λ h. h.now) players.entry) tracks.now grouped.now in
        Adds F.Store (lines_text (lines_with layout)) sheet.old sheet.new result }
{
    let parts = parts_of(alloc, players, tracks, grouped)?;
    push_all(alloc, &parts.layout(players, tracks, grouped), sheet)
}

fn filling_of(players: Option<&Hints>) -> Filling
    ensures { result ≡ filling_of (option_map (λ h. h.now) players.entry) }
{
    match players {
        None => Filling::Filled,
        Some(_) => Filling::Pure,
    }
}

/// What a layout refers to, beside its tracks.
#[derive(Drop)]
struct Parts {
    keys: Vec<Key>,
    groups: GroupList,
    members: Sequence<Members>,
    heads: Vec<usize>,
    texts: Vec<usize>,
}

impl Parts {
    fn layout<'a>(
        &'a self,
        players: Option<&'a Hints>,
        tracks: &'a [Track],
        grouped: &'a [Track],
    ) -> Layout<'a>
        ensures { laid result ≡ laid_by (option_map (λ h. h.now) players.entry) tracks.now grouped.now self.now }
    {
        Layout {
            players,
            tracks,
            grouped,
            keys: &self.keys,
            groups: self.groups.as_slice(),
            members: self.members.as_slice(),
            heads: &self.heads,
            texts: &self.texts,
        }
    }
}

fn parts_of(
    alloc: Global,
    players: Option<&Hints>,
    tracks: &[Track],
    grouped: &[Track],
) -> Result<Parts, NoMemory>
    ensures { IfOk result (λ parts. laid_by (option_map (λ h. h.now) players.entry) tracks.now grouped.now parts
        ≡ laid_with (option_map (λ h. h.now) players.entry) tracks.now grouped.now) }
{
    let groups = groups_of(alloc, filling_of(players), grouped)?;
    Ok(Parts {
        members: tracks_in(alloc, groups.as_slice())?,
        keys: keys_of(alloc, grouped)?,
        heads: heads_of(alloc, tracks)?,
        texts: places_of(alloc, Kind::Text, tracks)?,
        groups,
    })
}

/// The tracks of each group.
fn tracks_in(alloc: Global, groups: &[Group]) -> Result<Sequence<Members>, NoMemory>
    ensures { IfOk result (λ found. found ≡ tracks_in groups.now) }
{
    let mut found = Sequence::new(alloc);
    for group in groups {
        found.push(members_of(alloc, group.as_slice())?)?;
    }
    Ok(found)
}

fn members_of(alloc: Global, group: &[Option<usize>]) -> Result<Members, NoMemory>
    ensures { IfOk result (λ found. found ≡ flat_map option_to_list group.now) }
{
    let mut found = Members::new(alloc);
    for member in group {
        if let Some(place) = *member {
            found.push(place)?;
        }
    }
    Ok(found)
}

fn push_all<F: Store>(alloc: Global, layout: &Layout<'_>, sheet: &mut Sheet<F>) -> Result<(), Fail>
    ensures { Adds F.Store (lines_text (lines_with (laid layout.now))) sheet.old sheet.new result }
{
    push_lines(sheet, &head_lines(layout.players))?;
    push_renditions(alloc, layout, sheet)?;
    push_variants(alloc, layout, sheet)
}

fn head_lines(players: Option<&Hints>) -> [Option<Tag<'static>>; 3]
    ensures written { all_written result ≡ head_lines (option_map (λ h. h.now) players.entry) }
    ensures can { All CanBeThere result }
{
    [
        Some(Tag::Header),
        Some(Tag::Version(6)),
        independent_line(players),
    ]
}

fn independent_line(players: Option<&Hints>) -> Option<Tag<'static>>
    ensures written { option_map written result ≡ independent_line (option_map (λ h. h.now) players.entry) }
    ensures can { CanBeThere result }
{
    if players?.independent {
        return Some(Tag::IndependentSegments);
    }
    None
}

/// Writes the lines of the renditions.
fn push_renditions<F: Store>(
    alloc: Global,
    layout: &Layout<'_>,
    sheet: &mut Sheet<F>,
) -> Result<(), Fail>
    ensures { let l = laid layout.now in
        Adds F.Store (lines_text (map (rendition_line l.tracks (hints_in l.players)) (renditions_of l))) sheet.old sheet.new result }
{
    let renditions = layout.renditions(alloc)?;
    push_rendition_lines(sheet, layout.tracks, hints_in(layout.players), &renditions)
}

fn push_rendition_lines<F: Store>(
    sheet: &mut Sheet<F>,
    tracks: &[Track],
    hints: &[TrackHints],
    renditions: &[Rendition],
) -> Result<(), Fail>
    ensures { Adds F.Store (flat_map (rendition_text tracks.now hints.now) renditions.now) sheet.old sheet.new result }
{
    for rendition in renditions {
        push_rendition(sheet, tracks, hints, *rendition)?;
    }
    Ok(())
}

#[tactic(auto, unfolding(crate::specs::Lines::line_bytes))]
fn push_rendition<F: Store>(
    sheet: &mut Sheet<F>,
    tracks: &[Track],
    hints: &[TrackHints],
    rendition: Rendition,
) -> Result<(), Fail>
    ensures { Adds F.Store (rendition_text tracks.now hints.now rendition) sheet.old sheet.new result }
{
    let media_type = Attribute::MediaType(rendition.group);
    push_tag(
        sheet,
        b"#EXT-X-MEDIA:",
        media_type,
        &rendition.attributes(tracks, hints),
    )
}

/// Writes the lines of the variants.
fn push_variants<F: Store>(
    alloc: Global,
    layout: &Layout<'_>,
    sheet: &mut Sheet<F>,
) -> Result<(), Fail>
    ensures { let l = laid layout.now in Adds F.Store
        (lines_text (flat_map (variant_lines l.players l.tracks l.members l.texts) (variants_of l.players l.tracks l.members)))
        sheet.old sheet.new result }
{
    let variants = variants_of(alloc, layout.players, layout.tracks, layout.members)?;
    push_told(alloc, layout, sheet, &variants)
}

/// Writes the lines of variants.
fn push_told<F: Store>(
    alloc: Global,
    layout: &Layout<'_>,
    sheet: &mut Sheet<F>,
    variants: &[Variant],
) -> Result<(), Fail>
    ensures { let l = laid layout.now in
        Adds F.Store (flat_map (variant_text l.players l.tracks l.members l.texts) variants.now) sheet.old sheet.new result }
{
    let codes = code_lists(alloc, layout.tracks)?;
    let cast = Cast {
        players: layout.players,
        tracks: layout.tracks,
        groups: layout.members,
        texts: layout.texts,
        codes: &codes,
    };
    push_variant_lines(alloc, sheet, &cast, variants)
}

fn push_variant_lines<F: Store>(
    alloc: Global,
    sheet: &mut Sheet<F>,
    cast: &Cast<'_, '_>,
    variants: &[Variant],
) -> Result<(), Fail>
    ensures { Adds F.Store (flat_map (cast_text cast.now) variants.now) sheet.old sheet.new result }
{
    for variant in variants {
        push_variant(alloc, sheet, cast, *variant)?;
    }
    Ok(())
}

/// Writes the line of a variant and the URI of its playlist.
fn push_variant<F: Store>(
    alloc: Global,
    sheet: &mut Sheet<F>,
    cast: &Cast<'_, '_>,
    variant: Variant,
) -> Result<(), Fail>
    ensures { Adds F.Store (cast_text cast.now variant) sheet.old sheet.new result }
{
    match cast.codes(alloc, variant)? {
        Some(codes) => push_coded_variant(sheet, cast, variant, Some(codes.as_slice())),
        None => push_coded_variant(sheet, cast, variant, None),
    }
}

/// The same, given the codecs of its tracks.
#[tactic(auto, unfolding(crate::specs::Lines::line_bytes))]
fn push_coded_variant<F: Store>(
    sheet: &mut Sheet<F>,
    cast: &Cast<'_, '_>,
    variant: Variant,
    codes: Option<&[&str]>,
) -> Result<(), Fail>
    ensures { Adds F.Store (coded_cast_text cast.now (option_map texts_in codes.entry) variant) sheet.old sheet.new result }
{
    push_tag(
        sheet,
        b"#EXT-X-STREAM-INF:",
        Attribute::Bandwidth(cast.bandwidth(variant)),
        &cast.attributes(variant, codes),
    )?;
    sheet.push_pieces(&[
        Piece::Text(b"t"),
        Piece::Number(variant.track as u64),
        Piece::Text(b".m3u8\n"),
    ])
}
