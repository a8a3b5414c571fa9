// The keys of audio groups.
ghost use Rattle.std.specs.Prelude.{◌≡◌, ◌<◌, IfOk, OnOk, length, position};
ghost use Rattle.std.specs.List.{list_any};
ghost use Rattle.audio_groups.specs.Keys as spec;

use crate::groups::{count_alike, first_with_codes_of, is_audio};
use bridge_io::NoMemory;
use presentation::Track;
use std::alloc::Global;

/// What the tracks of an audio group have in common, apart from those that only fill it.
#[derive(Clone, Copy)]
pub struct Key {
    /// The index of the first audio track with the same codecs.
    pub codes: usize,
    /// How many tracks with these codecs are before it in its set.
    pub rank: usize,
}

/// The keys of the audio tracks in the order in which they first occur: those of the groups in order.
pub fn keys_of(alloc: Global, tracks: &[Track]) -> Result<Vec<Key>, NoMemory>
    ensures { IfOk result (λ keys. keys.items ≡ spec.keys_of tracks.now) }
{
    let mut keys = Vec::new(alloc);
    for (place, track) in tracks.iter().enumerate() {
        if is_audio(track.kind) {
            add_key(&mut keys, key_at(tracks, place, track))?;
        }
    }
    Ok(keys)
}

fn add_key(keys: &mut Vec<Key>, key: Key) -> Result<(), NoMemory>
    ensures { OnOk result (keys.new.items ≡ spec.with_key keys.old.items key) }
{
    if !is_among(keys, key) {
        keys.push(key)?;
    }
    Ok(())
}

fn is_among(keys: &[Key], key: Key) -> bool
    ensures { result ≡ list_any (spec.is_same_key key) keys.now }
{
    keys.iter().any(|other| is_same_key(key, *other))
}

fn key_at(tracks: &[Track], place: usize, track: &Track) -> Key
    requires { place < length tracks.now }
    ensures { result ≡ spec.key_at tracks.now place track.now }
{
    Key {
        codes: first_with_codes_of(tracks, track).unwrap_or(place),
        rank: count_alike(&tracks[..place], track),
    }
}

/// The group of an audio track's own key.
pub fn own_group(tracks: &[Track], keys: &[Key], place: usize) -> usize
    ensures { result ≡ spec.own_group tracks.now keys.now place }
{
    match tracks.get(place) {
        Some(track) => group_with_key(keys, key_at(tracks, place, track)),
        None => 0,
    }
}

fn group_with_key(keys: &[Key], key: Key) -> usize
    ensures { result ≡ spec.group_with_key keys.now key }
{
    place_among(keys, key).unwrap_or(0)
}

fn place_among(keys: &[Key], key: Key) -> Option<usize>
    ensures { result ≡ position (spec.is_same_key key) keys.now }
{
    keys.iter().position(|other| is_same_key(key, *other))
}

fn is_same_key(one: Key, other: Key) -> bool
    ensures { result ≡ spec.is_same_key one other }
{
    one.codes == other.codes && one.rank == other.rank
}
