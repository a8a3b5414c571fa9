// The renditions of a master playlist.
ghost use Rattle.std.specs.Prelude.{◌≡◌, [], IfOk, OnOk, position, option_map};
ghost use Rattle.presentation.specs.Order.{is_of};
ghost use Rattle.hls_writer.specs.AttributeRows.{told, all_told};
ghost use Rattle.hls_writer.specs.LaidOut.{laid};
ghost use Rattle.hls_writer.specs.Menus.{is_place};
ghost use Rattle.hls_writer.specs.Renditions as spec;

use crate::attribute::{Attribute, RenditionGroup};
use crate::menus::{
    Purpose, RenditionName, default_member, hints_in, is_choosable, is_place, label_at,
    language_at, name_at, purpose_at,
};
use crate::variants::Members;
use audio_groups::{Group, Key, own_group};
use bridge_io::{Kind, NoMemory, Sequence};
use presentation::Track;
use std::alloc::Global;
use track_hints::{Hints, TrackHints};

/// A track in a group of renditions (RFC 8216, 4.3.4.1).
#[derive(Clone, Copy)]
pub(crate) struct Rendition {
    pub(crate) group: RenditionGroup,
    pub(crate) name: RenditionName,
    pub(crate) is_default: bool,
    pub(crate) is_autoselect: bool,
    /// The index of the track.
    pub(crate) track: usize,
}

/// What renditions and variants are made of.
#[derive(Clone, Copy)]
pub(crate) struct Layout<'a> {
    /// What is told for players, where the text is for them.
    pub(crate) players: Option<&'a Hints>,
    pub(crate) tracks: &'a [Track],
    /// The tracks as they are grouped: by codecs, or by families of codecs.
    pub(crate) grouped: &'a [Track],
    /// The groups' keys.
    pub(crate) keys: &'a [Key],
    /// By group, then by audio set.
    pub(crate) groups: &'a [Group],
    /// The tracks of each group.
    pub(crate) members: &'a [Members],
    /// The first track of each audio set.
    pub(crate) heads: &'a [usize],
    /// The text tracks.
    pub(crate) texts: &'a [usize],
}

/// The indices of the tracks of a kind.
pub(crate) fn places_of(alloc: Global, kind: Kind, tracks: &[Track]) -> Result<Vec<usize>, NoMemory>
    ensures { IfOk result (λ places. places.items ≡ spec.places_of kind tracks.now) }
{
    let mut places = Vec::new(alloc);
    for (place, track) in tracks.iter().enumerate() {
        if is_of(kind, track.kind) {
            places.push(place)?;
        }
    }
    Ok(places)
}

/// Whether two kinds are the same.
fn is_of(kind: Kind, other: Kind) -> bool
    ensures { result ≡ is_of kind other }
{
    match (kind, other) {
        (Kind::Video, Kind::Video) | (Kind::Audio, Kind::Audio) | (Kind::Text, Kind::Text) => true,
        _ => false,
    }
}

fn is_default(
    players: Option<&Hints>,
    members: &[usize],
    group: RenditionGroup,
    number: usize,
    place: usize,
) -> bool
    ensures { result ≡ spec.is_default (option_map (λ h. h.now) players.entry) members.now group number place }
{
    match players {
        None => is_first_of(group, number),
        Some(hints) => {
            let default = default_member(group, hints.tracks.as_slice(), members);
            is_place(place, default)
        }
    }
}

/// Plain, the tracks of the first audio set are DEFAULT.
fn is_first_of(group: RenditionGroup, number: usize) -> bool
    ensures { result ≡ spec.is_first_of group number }
{
    matches!(group, RenditionGroup::Audio(_)) && number == 0
}

fn is_autoselect(
    players: Option<&Hints>,
    tracks: &[Track],
    members: &[usize],
    group: RenditionGroup,
    place: usize,
) -> bool
    ensures { result ≡ spec.is_autoselect (option_map (λ h. h.now) players.entry) tracks.now members.now group place }
{
    match players {
        None => true,
        Some(hints) => {
            let hints = hints.tracks.as_slice();
            let default = default_member(group, hints, members);
            is_choosable(tracks, hints, members, default, place)
        }
    }
}

/// The members of a group.
pub(crate) fn members_in<X>(groups: &[Sequence<X>], group: usize) -> &[X]
    ensures { result.now ≡ spec.members_in groups.now group }
{
    match groups.get(group) {
        Some(members) => members.as_slice(),
        None => &[],
    }
}

impl<'a> Layout<'a> {
    /// The audio tracks, each in its own group; then by group and set the tracks that fill a group that isn't their own; then the
    /// text tracks.
    pub(crate) fn renditions(&self, alloc: Global) -> Result<Vec<Rendition>, NoMemory>
        ensures { IfOk result (λ found. found.items ≡ spec.renditions_of (laid self.now)) }
    {
        let mut found = self.own_renditions(alloc)?;
        found.extend_from_slice(&self.filled_renditions(alloc)?)?;
        found.extend_from_slice(&self.text_renditions(alloc)?)?;
        Ok(found)
    }

    /// A track in a group with these members, by the number of its audio set or its own one among the text tracks.
    fn rendition(
        &self,
        heads: &[usize],
        members: &[usize],
        group: RenditionGroup,
        number: usize,
        place: usize,
    ) -> Rendition
        ensures { result ≡ spec.rendition_of (laid self.now).players (laid self.now).tracks heads.now members.now group number place }
    {
        Rendition {
            group,
            name: name_at(hints_in(self.players), heads, number),
            is_default: is_default(self.players, members, group, number, place),
            is_autoselect: is_autoselect(self.players, self.tracks, members, group, place),
            track: place,
        }
    }

    fn audio_rendition(&self, group: usize, number: usize, place: usize) -> Rendition
        ensures { result ≡ spec.audio_rendition (laid self.now) group number place }
    {
        let members = members_in(self.members, group);
        self.rendition(
            self.heads,
            members,
            RenditionGroup::Audio(group as u64),
            number,
            place,
        )
    }

    fn text_rendition(&self, number: usize, place: usize) -> Rendition
        ensures { result ≡ spec.text_rendition (laid self.now) number place }
    {
        self.rendition(
            self.texts,
            self.texts,
            RenditionGroup::Subtitles,
            number,
            place,
        )
    }

    fn own_group(&self, place: usize) -> usize
        ensures { result ≡ spec.group_of (laid self.now) place }
    {
        own_group(self.grouped, self.keys, place)
    }

    fn own_renditions(&self, alloc: Global) -> Result<Vec<Rendition>, NoMemory>
        ensures { IfOk result (λ found. found.items ≡ spec.own_renditions (laid self.now)) }
    {
        let mut found = Vec::new(alloc);
        for place in &places_of(alloc, Kind::Audio, self.tracks)? {
            found.push(self.own_rendition(*place))?;
        }
        Ok(found)
    }

    /// An audio track in its own group, in which its index is that of its set among the audio sets.
    fn own_rendition(&self, place: usize) -> Rendition
        ensures { result ≡ spec.own_rendition (laid self.now) place }
    {
        let group = self.own_group(place);
        let number = place_among(members_in(self.groups, group), place).unwrap_or(0);
        self.audio_rendition(group, number, place)
    }

    fn filled_renditions(&self, alloc: Global) -> Result<Vec<Rendition>, NoMemory>
        ensures { IfOk result (λ found. found.items ≡ spec.filled_renditions (laid self.now) [] 0 self.now.groups.now) }
    {
        let mut found = Vec::new(alloc);
        for (group, members) in self.groups.iter().enumerate() {
            found.extend_from_slice(&self.filled_in(alloc, group, members.as_slice())?)?;
        }
        Ok(found)
    }

    /// The members of a group for which it isn't their own.
    fn filled_in(
        &self,
        alloc: Global,
        group: usize,
        members: &[Option<usize>],
    ) -> Result<Vec<Rendition>, NoMemory>
        ensures { IfOk result (λ found. found.items ≡ spec.filled_from (laid self.now) group [] 0 members.now) }
    {
        let mut found = Vec::new(alloc);
        for (set, member) in members.iter().enumerate() {
            add(&mut found, self.filled_at(group, set, *member))?;
        }
        Ok(found)
    }

    fn filled_at(&self, group: usize, set: usize, member: Option<usize>) -> Option<Rendition>
        ensures { result ≡ spec.filled_at (laid self.now) group set member }
    {
        let place = member?;
        if self.own_group(place) == group {
            return None;
        }
        Some(self.audio_rendition(group, set, place))
    }

    fn text_renditions(&self, alloc: Global) -> Result<Vec<Rendition>, NoMemory>
        ensures { IfOk result (λ found. found.items ≡ spec.text_from (laid self.now) [] 0 self.now.texts.now) }
    {
        let mut found = Vec::new(alloc);
        for (number, place) in self.texts.iter().enumerate() {
            found.push(self.text_rendition(number, *place))?;
        }
        Ok(found)
    }
}

fn place_among(members: &[Option<usize>], place: usize) -> Option<usize>
    ensures { result ≡ position (is_place place) members.now }
{
    members.iter().position(|member| is_place(place, *member))
}

fn add(found: &mut Vec<Rendition>, rendition: Option<Rendition>) -> Result<(), NoMemory>
    ensures { OnOk result (found.new.items ≡ spec.with_one found.old.items rendition) }
{
    if let Some(rendition) = rendition {
        found.push(rendition)?;
    }
    Ok(())
}

impl Rendition {
    /// The attributes of its line after TYPE.
    pub(crate) fn attributes<'a>(
        self,
        tracks: &'a [Track],
        hints: &'a [TrackHints],
    ) -> [Option<Attribute<'a>>; 9]
        ensures { all_told result ≡ spec.rendition_attributes tracks.now hints.now self }
    {
        let language = language_at(tracks, self.track);
        let purpose = purpose_at(hints, self.track);
        [
            Some(Attribute::GroupId(self.group)),
            Some(name_attribute(hints, language, self.name)),
            language_attribute(language),
            Some(Attribute::Default(self.is_default)),
            Some(Attribute::Autoselect(self.is_autoselect)),
            forced_attribute(self.group, purpose),
            purpose_attribute(self.group, purpose),
            channels_attribute(self.group, channels_at(hints, self.track)),
            Some(Attribute::Playlist(self.track as u64)),
        ]
    }
}

fn name_attribute<'a>(
    hints: &'a [TrackHints],
    language: Option<&'a str>,
    name: RenditionName,
) -> Attribute<'a>
    ensures { told result ≡ spec.of_name hints.now (option_map (λ tag. tag.now) language.entry) name }
{
    match name {
        RenditionName::Numbered(number) => Attribute::Name {
            stem: language,
            number: number as u64,
        },
        RenditionName::Labelled(place) => Attribute::Label(label_at(hints, place).unwrap_or("")),
        RenditionName::Shared { place, number } => Attribute::Name {
            stem: label_at(hints, place),
            number: number as u64,
        },
    }
}

fn language_attribute(language: Option<&str>) -> Option<Attribute<'_>>
    ensures { option_map told result ≡ option_map spec.tagged (option_map (λ tag. tag.now) language.entry) }
{
    Some(Attribute::Language(language?))
}

fn attribute_if<'a>(is: bool, attribute: Attribute<'a>) -> Option<Attribute<'a>>
    ensures { option_map told result ≡ spec.if_so is (told attribute.entry) }
{
    if is { Some(attribute) } else { None }
}

fn forced_attribute<'a>(group: RenditionGroup, purpose: Purpose) -> Option<Attribute<'a>>
    ensures { option_map told result ≡ spec.of_forced group purpose }
{
    match group {
        RenditionGroup::Audio(_) => None,
        RenditionGroup::Subtitles => attribute_if(purpose.forced, Attribute::Forced),
    }
}

fn purpose_attribute<'a>(group: RenditionGroup, purpose: Purpose) -> Option<Attribute<'a>>
    ensures { option_map told result ≡ spec.of_purpose group purpose }
{
    match group {
        RenditionGroup::Audio(_) => attribute_if(purpose.describes, Attribute::DescribesVideo),
        RenditionGroup::Subtitles => attribute_if(purpose.transcribes, Attribute::TranscribesSound),
    }
}

fn channels_at(hints: &[TrackHints], place: usize) -> Option<u8>
    ensures { result ≡ spec.channels_at hints.now place }
{
    hints.get(place)?.channels
}

fn channels_attribute<'a>(group: RenditionGroup, count: Option<u8>) -> Option<Attribute<'a>>
    ensures { option_map told result ≡ spec.of_channels group count }
{
    match group {
        RenditionGroup::Audio(_) => Some(Attribute::Channels(count?)),
        RenditionGroup::Subtitles => None,
    }
}
