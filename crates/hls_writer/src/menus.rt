// What the menus of players show of renditions, and which of them a player plays of itself.
ghost use Rattle.std.specs.Prelude.{◌≡◌, IfOk, position, count_by, option_map};
ghost use Rattle.std.specs.Option.{option_eq};
ghost use Rattle.audio_groups.specs.Groups.{is_audio, same_text};
ghost use Rattle.hls_writer.specs.Menus as spec;

use crate::attribute::RenditionGroup;
use bridge_io::{Kind, NoMemory};
use presentation::Track;
use std::alloc::Global;
use track_hints::{Hints, TrackHints};

/// The name of a rendition.
#[derive(Clone, Copy)]
pub(crate) enum RenditionName {
    /// The track's language, or that it is undetermined, with the number of its audio set or text track.
    Numbered(usize),
    /// The label of the track at this index.
    Labelled(usize),
    /// A label that others have too, with a number.
    Shared {
        /// The index of a track with the label.
        place: usize,
        /// The number of the audio set or the text track.
        number: usize,
    },
}

/// What is told of the tracks.
pub(crate) fn hints_in<'a>(players: Option<&'a Hints>) -> &'a [TrackHints]
    ensures { result.now ≡ spec.hints_in (option_map (λ h. h.now) players.entry) }
{
    match players {
        Some(hints) => hints.tracks.as_slice(),
        None => &[],
    }
}

pub(crate) fn is_place(place: usize, member: Option<usize>) -> bool
    ensures { result ≡ spec.is_place place member }
{
    match member {
        Some(member) => place == member,
        None => false,
    }
}

/// The first track of each audio set.
pub(crate) fn heads_of(alloc: Global, tracks: &[Track]) -> Result<Vec<usize>, NoMemory>
    ensures { IfOk result (λ heads. heads.items ≡ spec.heads_of tracks.now) }
{
    let mut heads = Vec::new(alloc);
    for (place, track) in tracks.iter().enumerate() {
        if is_head(tracks, place, track) {
            heads.push(place)?;
        }
    }
    Ok(heads)
}

fn is_head(tracks: &[Track], place: usize, track: &Track) -> bool
    ensures { result ≡ spec.is_head tracks.now place track.now }
{
    is_audio(track.kind) && is_place(place, first_in_set_of(tracks, track))
}

fn first_in_set_of(tracks: &[Track], track: &Track) -> Option<usize>
    ensures { result ≡ position (spec.is_in_set_of track.now) tracks.now }
{
    tracks.iter().position(|other| is_in_set_of(track, other))
}

fn is_in_set_of(track: &Track, other: &Track) -> bool
    ensures { result ≡ spec.is_in_set_of track.now other.now }
{
    is_audio(other.kind) && track.set == other.set
}

fn is_audio(kind: Kind) -> bool
    ensures { result ≡ is_audio kind }
{
    matches!(kind, Kind::Audio)
}

/// The name of an audio set by the first tracks of the sets, or of a text track by the text tracks: its label, where it has one that
/// no other one of them has; otherwise the label, or without one the language, with its number.
pub(crate) fn name_at(hints: &[TrackHints], heads: &[usize], number: usize) -> RenditionName
    ensures { result ≡ spec.name_at hints.now heads.now number }
{
    match heads.get(number) {
        Some(place) => name_with(hints, heads, number, *place, label_at(hints, *place)),
        None => RenditionName::Numbered(number),
    }
}

fn name_with(
    hints: &[TrackHints],
    heads: &[usize],
    number: usize,
    place: usize,
    label: Option<&str>,
) -> RenditionName
    ensures { result ≡ spec.name_with hints.now heads.now number place (option_map (λ text. text.now) label.entry) }
{
    let Some(label) = label else {
        return RenditionName::Numbered(number);
    };
    if is_single(hints, heads, label) {
        return RenditionName::Labelled(place);
    }
    RenditionName::Shared { place, number }
}

pub(crate) fn label_at(hints: &[TrackHints], place: usize) -> Option<&str>
    ensures { option_map (λ text. text.now) result ≡ spec.label_at hints.now place }
{
    match &hints.get(place)?.label {
        Some(label) => Some(label.as_str()),
        None => None,
    }
}

fn is_labelled(hints: &[TrackHints], label: &str, place: usize) -> bool
    ensures { result ≡ spec.is_labelled hints.now label.now place }
{
    match label_at(hints, place) {
        Some(other) => label == other,
        None => false,
    }
}

/// One of the places alone has the label.
fn is_single(hints: &[TrackHints], heads: &[usize], label: &str) -> bool
    ensures { result ≡ spec.is_single hints.now heads.now label.now }
{
    count_labelled(hints, heads, label) == 1
}

fn count_labelled(hints: &[TrackHints], heads: &[usize], label: &str) -> usize
    ensures { result ≡ count_by (spec.is_labelled hints.now label.now) heads.now }
{
    heads
        .iter()
        .filter(|place| is_labelled(hints, label, **place))
        .count()
}

fn is_main(hints: &[TrackHints], place: usize) -> bool
    ensures { result ≡ spec.is_main hints.now place }
{
    match hints.get(place) {
        Some(hints) => hints.main,
        None => false,
    }
}

fn first_main(hints: &[TrackHints], members: &[usize]) -> Option<usize>
    ensures { result ≡ spec.first_that (spec.is_main hints.now) members.now }
{
    for member in members {
        if is_main(hints, *member) {
            return Some(*member);
        }
    }
    None
}

/// The group's first member that is the main one; where none is, its first member.
fn main_member(hints: &[TrackHints], members: &[usize]) -> Option<usize>
    ensures { result ≡ spec.main_member hints.now members.now }
{
    match first_main(hints, members) {
        Some(member) => Some(member),
        None => members.first().copied(),
    }
}

/// The member that is DEFAULT; no text track is.
pub(crate) fn default_member(
    group: RenditionGroup,
    hints: &[TrackHints],
    members: &[usize],
) -> Option<usize>
    ensures { result ≡ spec.default_member group hints.now members.now }
{
    match group {
        RenditionGroup::Audio(_) => main_member(hints, members),
        RenditionGroup::Subtitles => None,
    }
}

/// What a track is for.
#[derive(Clone, Copy)]
pub(crate) struct Purpose {
    pub(crate) describes: bool,
    pub(crate) transcribes: bool,
    pub(crate) forced: bool,
}

pub(crate) fn purpose_at(hints: &[TrackHints], place: usize) -> Purpose
    ensures { result ≡ spec.purpose_at hints.now place }
{
    match hints.get(place) {
        Some(hints) => Purpose {
            describes: hints.describes,
            transcribes: hints.transcribes,
            forced: hints.forced,
        },
        None => Purpose {
            describes: false,
            transcribes: false,
            forced: false,
        },
    }
}

fn is_same(one: bool, other: bool) -> bool
    ensures { result ≡ spec.is_same one other }
{
    if one { other } else { !other }
}

fn is_same_purpose(one: Purpose, other: Purpose) -> bool
    ensures { result ≡ spec.is_same_purpose one other }
{
    is_same(one.describes, other.describes)
        && (is_same(one.transcribes, other.transcribes) && is_same(one.forced, other.forced))
}

pub(crate) fn language_at(tracks: &[Track], place: usize) -> Option<&str>
    ensures { option_map (λ tag. tag.now) result ≡ spec.language_at tracks.now place }
{
    match &tracks.get(place)?.language {
        Some(language) => Some(language.as_str()),
        None => None,
    }
}

fn is_same_text(one: Option<&str>, other: Option<&str>) -> bool
    ensures { result ≡ option_eq same_text (option_map (λ tag. tag.now) one.entry) (option_map (λ tag. tag.now) other.entry) }
{
    match (one, other) {
        (Some(one), Some(other)) => one == other,
        (None, None) => true,
        _ => false,
    }
}

/// A track of the same language, or both without one, and of the same purpose.
fn is_like(tracks: &[Track], hints: &[TrackHints], place: usize, other: usize) -> bool
    ensures { result ≡ spec.is_like tracks.now hints.now place other }
{
    is_same_text(language_at(tracks, place), language_at(tracks, other))
        && is_same_purpose(purpose_at(hints, place), purpose_at(hints, other))
}

fn is_like_one(tracks: &[Track], hints: &[TrackHints], place: usize, other: Option<usize>) -> bool
    ensures { result ≡ spec.is_like_one tracks.now hints.now place other }
{
    match other {
        Some(other) => is_like(tracks, hints, place, other),
        None => false,
    }
}

fn first_like(
    tracks: &[Track],
    hints: &[TrackHints],
    members: &[usize],
    place: usize,
) -> Option<usize>
    ensures { result ≡ spec.first_that (spec.is_like tracks.now hints.now place) members.now }
{
    for member in members {
        if is_like(tracks, hints, place, *member) {
            return Some(*member);
        }
    }
    None
}

/// The first one of the group that is like the track, where the default one isn't.
fn is_first_like(
    tracks: &[Track],
    hints: &[TrackHints],
    members: &[usize],
    default: Option<usize>,
    place: usize,
) -> bool
    ensures { result ≡ spec.is_first_like tracks.now hints.now members.now default place }
{
    !is_like_one(tracks, hints, place, default)
        && is_place(place, first_like(tracks, hints, members, place))
}

/// A player may choose the default one, and each other one to which neither the default one nor an earlier one is alike.
pub(crate) fn is_choosable(
    tracks: &[Track],
    hints: &[TrackHints],
    members: &[usize],
    default: Option<usize>,
    place: usize,
) -> bool
    ensures { result ≡ spec.is_choosable tracks.now hints.now members.now default place }
{
    is_place(place, default) || is_first_like(tracks, hints, members, default, place)
}
