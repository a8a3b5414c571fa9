// Audio groups.
ghost use Rattle.std.specs.Prelude.{◌≡◌, ◌<◌, IfOk, [], map, length, slice_get, Some, position, count_by, take, unwrap_or};
ghost use Rattle.std.specs.Option.{option_eq};
ghost use Rattle.audio_groups.specs.Groups as spec;

use crate::{Group, GroupList};
use bridge_io::{Kind, NoMemory, Text};
use indexmap::IndexSet;
use presentation::Track;
use std::alloc::Global;

/// An audio track within its set.
#[derive(Clone, Copy)]
pub(crate) struct Rendition {
    pub(crate) place: usize,
    pub(crate) set: usize,
    /// The index of the first audio track with the same codecs.
    pub(crate) codes: usize,
    /// How many tracks with the same codecs are before it in its set.
    pub(crate) rank: usize,
}

/// What a set without a group's codecs has in the group.
#[derive(Clone, Copy)]
pub enum Filling {
    /// Its first track, so that each group has a track of each set.
    Filled,
    /// Nothing, so that all tracks of a group have the same codecs.
    Pure,
}

/// One group for each pair of codecs and rank, in the order in which these first occur; in each the members of the audio sets.
#[tactic(auto, unfolding(crate::specs::Groups::groups_of))]
pub fn groups_of(alloc: Global, filling: Filling, tracks: &[Track]) -> Result<GroupList, NoMemory>
    ensures { IfOk result (λ groups. groups ≡ spec.groups_of filling tracks.now) }
{
    let renditions = renditions_of(alloc, tracks)?;
    let keys = firsts(alloc, &renditions, Sameness::Key)?;
    let sets = firsts(alloc, &renditions, Sameness::Set)?;
    let mut groups = GroupList::new(alloc);
    for key in &keys {
        groups.push(group_of(alloc, filling, &renditions, *key, &sets)?)?;
    }
    Ok(groups)
}

fn renditions_of(alloc: Global, tracks: &[Track]) -> Result<Vec<Rendition>, NoMemory>
    ensures { IfOk result (λ found. found.items ≡ spec.renditions_of tracks.now) }
{
    let mut renditions = Vec::new(alloc);
    for (place, track) in tracks.iter().enumerate() {
        if is_audio(track.kind) {
            renditions.push(rendition_at(tracks, place, track))?;
        }
    }
    Ok(renditions)
}

fn rendition_at(tracks: &[Track], place: usize, track: &Track) -> Rendition
    requires { place < length tracks.now }
    ensures { result ≡ spec.rendition_at tracks.now place track.now }
{
    Rendition {
        place,
        set: track.set,
        codes: first_with_codes_of(tracks, track).unwrap_or(place),
        rank: count_alike(&tracks[..place], track),
    }
}

pub(crate) fn first_with_codes_of(tracks: &[Track], track: &Track) -> Option<usize>
    ensures { result ≡ position (spec.has_codes_of track.now) tracks.now }
{
    tracks.iter().position(|other| has_codes_of(track, other))
}

pub(crate) fn count_alike(tracks: &[Track], track: &Track) -> usize
    ensures { result ≡ count_by (spec.is_alike track.now) tracks.now }
{
    tracks.iter().filter(|other| is_alike(track, other)).count()
}

fn has_codes_of(track: &Track, other: &Track) -> bool
    ensures { result ≡ spec.has_codes_of track.now other.now }
{
    is_audio(other.kind) && is_same_text(&track.codecs, &other.codecs)
}

pub(crate) fn is_audio(kind: Kind) -> bool
    ensures { result ≡ spec.is_audio kind }
{
    matches!(kind, Kind::Audio)
}

fn is_alike(track: &Track, other: &Track) -> bool
    ensures { result ≡ spec.is_alike track.now other.now }
{
    track.set == other.set && has_codes_of(track, other)
}

fn is_same_text(one: &Option<Text>, other: &Option<Text>) -> bool
    ensures { result ≡ option_eq spec.same_text one.now other.now }
{
    match (one, other) {
        (Some(one), Some(other)) => one.as_str() == other.as_str(),
        (None, None) => true,
        _ => false,
    }
}

impl Filling {
    fn filler(self, set: Rendition) -> Option<usize>
        ensures { result ≡ spec.filler self set }
    {
        match self {
            Filling::Filled => Some(set.place),
            Filling::Pure => None,
        }
    }
}

/// What two renditions have in common.
#[derive(Clone, Copy)]
pub(crate) enum Sameness {
    /// Codecs and rank.
    Key,
    Set,
}

impl Sameness {
    /// The key that such renditions have in common.
    fn key(self, rendition: Rendition) -> (usize, usize)
        ensures { result ≡ spec.key_of self rendition }
    {
        match self {
            Sameness::Key => (rendition.codes, rendition.rank),
            Sameness::Set => (rendition.set, 0),
        }
    }

    fn holds(self, one: Rendition, other: Rendition) -> bool
        ensures { result ≡ spec.is_same self one other }
    {
        match self {
            Sameness::Key => one.codes == other.codes && one.rank == other.rank,
            Sameness::Set => one.set == other.set,
        }
    }
}

/// The renditions that have nothing in common with an earlier one.
fn firsts(
    alloc: Global,
    renditions: &[Rendition],
    sameness: Sameness,
) -> Result<Vec<Rendition>, NoMemory>
    ensures { IfOk result (λ found. found.items ≡ spec.firsts sameness [] renditions.now) }
{
    let mut found = Vec::new(alloc);
    let mut keys = IndexSet::new(alloc);
    for rendition in renditions {
        let (_, is_new) = keys.insert_full(sameness.key(*rendition))?;
        if is_new {
            found.push(*rendition)?;
        }
    }
    Ok(found)
}

fn group_of(
    alloc: Global,
    filling: Filling,
    renditions: &[Rendition],
    key: Rendition,
    sets: &[Rendition],
) -> Result<Group, NoMemory>
    ensures { IfOk result (λ group. group ≡ spec.group_for filling renditions.now sets.now key) }
{
    let mut group = Group::new(alloc);
    for set in sets {
        group.push(member_of(filling, renditions, key, *set))?;
    }
    Ok(group)
}

/// A set's rendition in a group: the one with the group's key, otherwise the last one with its codecs, otherwise as is asked.
fn member_of(
    filling: Filling,
    renditions: &[Rendition],
    key: Rendition,
    set: Rendition,
) -> Option<usize>
    ensures { result ≡ spec.member_of filling renditions.now key set }
{
    match found_in(renditions, key, set) {
        Some(place) => Some(place),
        None => filling.filler(set),
    }
}

fn found_in(renditions: &[Rendition], key: Rendition, set: Rendition) -> Option<usize>
    ensures { result ≡ spec.found_in renditions.now key set }
{
    match first_with_key(renditions, key, set) {
        Some(place) => Some(place),
        None => last_with_codes(renditions, key, set),
    }
}

fn first_with_key(renditions: &[Rendition], key: Rendition, set: Rendition) -> Option<usize>
    ensures { result ≡ spec.first_with_key renditions.now key set }
{
    for other in renditions {
        if set.set == other.set && Sameness::Key.holds(key, *other) {
            return Some(other.place);
        }
    }
    None
}

fn last_with_codes(renditions: &[Rendition], key: Rendition, set: Rendition) -> Option<usize>
    ensures { result ≡ spec.last_with_codes renditions.now key set }
{
    let mut last = None;
    for other in renditions {
        if set.set == other.set && key.codes == other.codes {
            last = Some(other.place);
        }
    }
    last
}
