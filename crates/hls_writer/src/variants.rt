// The variants of a master playlist.
ghost use Rattle.std.specs.Prelude.{◌≡◌, ◌++◌, [], IfOk, OnOk, map, option_map, option_and_then};
ghost use Rattle.std.specs.List.{list_all};
ghost use Rattle.hls_writer.specs.AttributeRows.{told, all_told, texts_of, texts_in};
ghost use Rattle.hls_writer.specs.Attributes.{resolution, codecs};
ghost use Rattle.hls_writer.specs.Variants as spec;

use crate::attribute::{Attribute, RenditionGroup};
use crate::finished::rounded;
use crate::renditions::{members_in, places_of};
use bridge_io::{Kind, NoMemory, Ratio, Sequence, Size};
use presentation::Track;
use std::alloc::Global;
use text_lists::TextLists;
use track_hints::Hints;

/// The tracks of an audio group, in the order of their sets.
pub(crate) type Members = Sequence<usize>;

/// A video track with an audio group, or only one of the two (RFC 8216, 4.3.4.2).
#[derive(Clone, Copy)]
pub(crate) struct Variant {
    /// The index of the video track.
    pub(crate) video: Option<usize>,
    /// The audio group.
    pub(crate) group: Option<usize>,
    /// The index of the track whose playlist it names.
    pub(crate) track: usize,
}

/// One variant for each pair of a video track and an audio group, by video track, and for players by group. Without audio there is
/// one for each video track, and without video one for each audio group.
pub(crate) fn variants_of(
    alloc: Global,
    players: Option<&Hints>,
    tracks: &[Track],
    groups: &[Members],
) -> Result<Vec<Variant>, NoMemory>
    ensures { IfOk result (λ found. found.items ≡ spec.variants_of (option_map (λ h. h.now) players.entry) tracks.now groups.now) }
{
    let videos = places_of(alloc, Kind::Video, tracks)?;
    if videos.is_empty() {
        return sound_variants(alloc, groups);
    }
    ordered_variants(alloc, players, &videos, &choices(alloc, groups)?)
}

fn ordered_variants(
    alloc: Global,
    players: Option<&Hints>,
    videos: &[usize],
    choices: &[Option<usize>],
) -> Result<Vec<Variant>, NoMemory>
    ensures { IfOk result (λ found. found.items ≡ spec.ordered_variants (option_map (λ h. h.now) players.entry) videos.now choices.now) }
{
    match players {
        None => video_variants(alloc, videos, choices),
        Some(_) => group_variants(alloc, videos, choices),
    }
}

fn group_variants(
    alloc: Global,
    videos: &[usize],
    choices: &[Option<usize>],
) -> Result<Vec<Variant>, NoMemory>
    ensures { IfOk result (λ found. found.items ≡ spec.group_variants videos.now choices.now) }
{
    let mut found = Vec::new(alloc);
    for group in choices {
        add_group(&mut found, videos, *group)?;
    }
    Ok(found)
}

fn add_group(
    found: &mut Vec<Variant>,
    videos: &[usize],
    group: Option<usize>,
) -> Result<(), NoMemory>
    ensures { OnOk result (found.new.items ≡ found.old.items ++ map (λ place. spec.video_variant place group) videos.now) }
{
    for place in videos {
        found.push(video_variant(*place, group))?;
    }
    Ok(())
}

fn video_variants(
    alloc: Global,
    videos: &[usize],
    choices: &[Option<usize>],
) -> Result<Vec<Variant>, NoMemory>
    ensures { IfOk result (λ found. found.items ≡ spec.video_variants videos.now choices.now) }
{
    let mut found = Vec::new(alloc);
    for place in videos {
        add_variants(&mut found, *place, choices)?;
    }
    Ok(found)
}

fn add_variants(
    found: &mut Vec<Variant>,
    place: usize,
    choices: &[Option<usize>],
) -> Result<(), NoMemory>
    ensures { OnOk result (found.new.items ≡ found.old.items ++ map (spec.video_variant place) choices.now) }
{
    for group in choices {
        found.push(video_variant(place, *group))?;
    }
    Ok(())
}

fn video_variant(place: usize, group: Option<usize>) -> Variant
    ensures { result ≡ spec.video_variant place group }
{
    Variant {
        video: Some(place),
        group,
        track: place,
    }
}

/// Each group, or `None` where there are none.
fn choices(alloc: Global, groups: &[Members]) -> Result<Vec<Option<usize>>, NoMemory>
    ensures { IfOk result (λ found. found.items ≡ spec.choices groups.now) }
{
    let mut found = Vec::new(alloc);
    if groups.is_empty() {
        found.push(None)?;
        return Ok(found);
    }
    for (group, _) in groups.iter().enumerate() {
        found.push(Some(group))?;
    }
    Ok(found)
}

fn sound_variants(alloc: Global, groups: &[Members]) -> Result<Vec<Variant>, NoMemory>
    ensures { IfOk result (λ found. found.items ≡ spec.sound_variants [] 0 groups.now) }
{
    let mut found = Vec::new(alloc);
    for (group, members) in groups.iter().enumerate() {
        found.push(sound_variant(group, members.as_slice()))?;
    }
    Ok(found)
}

/// A group without video, by the member of the first audio set.
fn sound_variant(group: usize, members: &[usize]) -> Variant
    ensures { result ≡ spec.sound_variant group members.now }
{
    Variant {
        video: None,
        group: Some(group),
        track: members.first().copied().unwrap_or(0),
    }
}

/// The data for the lines of variants: what is told for players, the tracks, the audio groups, the indices of the text tracks and
/// the codecs by track.
#[derive(Clone, Copy)]
pub(crate) struct Cast<'a, 'b> {
    pub(crate) players: Option<&'a Hints>,
    pub(crate) tracks: &'a [Track],
    pub(crate) groups: &'a [Members],
    pub(crate) texts: &'a [usize],
    pub(crate) codes: &'b TextLists<'a>,
    ghost told: { codes.now ≡ spec.code_lists tracks.now },
}

impl<'a> Cast<'a, '_> {
    /// The group's tracks.
    fn members(&self, variant: Variant) -> &'a [usize]
        ensures { result.now ≡ spec.members_of self.now.groups.now variant.group }
    {
        match variant.group {
            Some(group) => members_in(self.groups, group),
            None => &[],
        }
    }

    /// The video track's, and the greatest of the group's and of the text tracks.
    pub(crate) fn bandwidth(&self, variant: Variant) -> u128
        ensures { result ≡ spec.bandwidth_of self.now.tracks.now self.now.groups.now self.now.texts.now variant }
    {
        let video = match variant.video {
            Some(place) => bandwidth_at(self.tracks, place),
            None => 0,
        };
        let sound = greatest(self.tracks, self.members(variant));
        let texts = greatest(self.tracks, self.texts);
        u128::from(video) + u128::from(sound) + u128::from(texts)
    }

    /// The codecs of the video track, of the group's tracks and of the text tracks, each once; `None` where one of the tracks
    /// has none.
    #[tactic(auto, unfolding(crate::specs::Variants::codes_of))]
    pub(crate) fn codes(
        &self,
        alloc: Global,
        variant: Variant,
    ) -> Result<Option<Vec<&'a str>>, NoMemory>
        ensures { IfOk result (λ codes. option_map (λ found. texts_of found.items) codes
            ≡ spec.codes_of self.now.tracks.now (spec.cast_of self.now.groups.now self.now.texts.now variant)) }
    {
        let places = self.places(alloc, variant)?;
        if !have_codes(self.tracks, &places) {
            return Ok(None);
        }
        Ok(Some(self.codes.merged(&places)?))
    }

    /// The indices of the video track, the group's tracks and the text tracks.
    fn places(&self, alloc: Global, variant: Variant) -> Result<Vec<usize>, NoMemory>
        ensures { IfOk result (λ places. places.items ≡ spec.cast_of self.now.groups.now self.now.texts.now variant) }
    {
        let mut places = Vec::new(alloc);
        if let Some(video) = variant.video {
            places.push(video)?;
        }
        places.extend_from_slice(self.members(variant))?;
        places.extend_from_slice(self.texts)?;
        Ok(places)
    }

    /// The attributes of a variant's line after BANDWIDTH.
    pub(crate) fn attributes<'c>(
        &self,
        variant: Variant,
        codes: Option<&'c [&'c str]>,
    ) -> [Option<Attribute<'c>>; 6]
        ensures { all_told result ≡ spec.variant_attributes (option_map (λ h. h.now) self.now.players) self.now.tracks.now
            self.now.texts.now (option_map texts_in codes.entry) variant }
    {
        [
            codecs_attribute(codes),
            size_attribute(self.tracks, variant.video),
            rate_attribute(self.tracks, variant.video),
            sound_attribute(variant.group),
            texts_attribute(self.texts),
            captions_attribute(self.players),
        ]
    }
}

fn bandwidth_at(tracks: &[Track], place: usize) -> u64
    ensures { result ≡ spec.bandwidth_at tracks.now place }
{
    match tracks.get(place) {
        Some(track) => track.bandwidth,
        None => 0,
    }
}

/// The greatest bandwidth of some tracks, and 0 where there is none.
fn greatest(tracks: &[Track], places: &[usize]) -> u64
    ensures { result ≡ spec.greatest tracks.now places.now }
{
    let mut most = 0;
    for place in places {
        most = most.max(bandwidth_at(tracks, *place));
    }
    most
}

/// The codecs of each track, and none for a track whose codecs aren't known.
pub(crate) fn code_lists(alloc: Global, tracks: &[Track]) -> Result<TextLists<'_>, NoMemory>
    ensures { IfOk result (λ lists. lists ≡ spec.code_lists tracks.now) }
{
    let mut lists = TextLists::new(alloc);
    for track in tracks {
        lists.add(codecs_of(track))?;
    }
    Ok(lists)
}

fn codecs_of(track: &Track) -> Option<&str>
    ensures { option_map (λ text. text.now) result ≡ track.now.codecs }
{
    match &track.codecs {
        Some(codecs) => Some(codecs.as_str()),
        None => None,
    }
}

fn have_codes(tracks: &[Track], places: &[usize]) -> bool
    ensures { result ≡ list_all (spec.has_codes tracks.now) places.now }
{
    places.iter().all(|place| has_codes(tracks, *place))
}

fn has_codes(tracks: &[Track], place: usize) -> bool
    ensures { result ≡ spec.has_codes tracks.now place }
{
    match tracks.get(place) {
        Some(track) => track.codecs.is_some(),
        None => false,
    }
}

fn codecs_attribute<'b>(codes: Option<&'b [&'b str]>) -> Option<Attribute<'b>>
    ensures { option_map told result ≡ option_map codecs (option_map texts_in codes.entry) }
{
    Some(Attribute::Codecs(codes?))
}

fn size_at(tracks: &[Track], place: usize) -> Option<Size>
    ensures { result ≡ spec.size_at tracks.now place }
{
    tracks.get(place)?.size
}

fn size_attribute<'b>(tracks: &[Track], video: Option<usize>) -> Option<Attribute<'b>>
    ensures { option_map told result ≡ option_map resolution (option_and_then (spec.size_at tracks.now) video) }
{
    Some(Attribute::Resolution(size_at(tracks, video?)?))
}

fn rate_at(tracks: &[Track], place: usize) -> Option<Ratio>
    ensures { result ≡ spec.frame_rate_at tracks.now place }
{
    tracks.get(place)?.frame_rate
}

fn rate_attribute<'b>(tracks: &[Track], video: Option<usize>) -> Option<Attribute<'b>>
    ensures { option_map told result ≡ option_map spec.of_rate (option_and_then (spec.frame_rate_at tracks.now) video) }
{
    let rate = rate_at(tracks, video?)?;
    Some(Attribute::FrameRate(rounded(1000 * u64::from(rate.n), u64::from(rate.m))))
}

fn sound_attribute<'b>(group: Option<usize>) -> Option<Attribute<'b>>
    ensures { option_map told result ≡ option_map spec.of_sound group }
{
    Some(Attribute::Renditions(RenditionGroup::Audio(group? as u64)))
}

fn texts_attribute<'b>(texts: &[usize]) -> Option<Attribute<'b>>
    ensures { option_map told result ≡ spec.of_texts texts.now }
{
    if texts.is_empty() {
        return None;
    }
    Some(Attribute::Renditions(RenditionGroup::Subtitles))
}

/// CLOSED-CAPTIONS=NONE, for players, where no video may contain any.
fn captions_attribute<'b>(players: Option<&Hints>) -> Option<Attribute<'b>>
    ensures { option_map told result ≡ spec.of_captions (option_map (λ h. h.now) players.entry) }
{
    if players?.captions {
        return None;
    }
    Some(Attribute::NoCaptions)
}
