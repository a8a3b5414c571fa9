// Families of codecs.
ghost use Rattle.std.specs.Prelude.{◌≡◌, ◌++◌, IfOk, OnOk, option_map};
ghost use Rattle.std.specs.String.{string_bytes};
ghost use Rattle.audio_groups.specs.Families as spec;

use bridge_io::{NoMemory, Text};
use presentation::{Track, TrackList};
use std::alloc::Global;

/// The tracks, each with the family of its codecs in place of the codecs: in lower case, of each code what is before its first
/// `.` (RFC 6381, 3.3), and of `mp4a` the object type as well. They serve to group tracks alone, and have no language.
pub fn in_families(alloc: Global, tracks: &[Track]) -> Result<TrackList, NoMemory>
    ensures { IfOk result (λ found. found ≡ spec.in_families tracks.now) }
{
    let mut found = TrackList::new(alloc);
    for track in tracks {
        found.push(in_family(alloc, track)?)?;
    }
    Ok(found)
}

fn in_family(alloc: Global, track: &Track) -> Result<Track, NoMemory>
    ensures { IfOk result (λ found. found ≡ spec.in_family track.now) }
{
    Ok(Track {
        kind: track.kind,
        set: track.set,
        language: None,
        codecs: family_of_track(alloc, track)?,
        bandwidth: track.bandwidth,
        size: track.size,
        frame_rate: track.frame_rate,
    })
}

fn family_of_track(alloc: Global, track: &Track) -> Result<Option<Text>, NoMemory>
    ensures { IfOk result (λ family. family ≡ option_map spec.family_in track.now.codecs) }
{
    match &track.codecs {
        Some(codecs) => Ok(Some(family_in(alloc, codecs.as_str())?)),
        None => Ok(None),
    }
}

/// The family of each code, with a `,` behind it.
fn family_in(alloc: Global, codecs: &str) -> Result<Text, NoMemory>
    ensures { IfOk result (λ family. family ≡ spec.family_in codecs.now) }
{
    let lower = codecs.to_ascii_lowercase(alloc)?;
    family_of_lower(alloc, lower.as_str())
}

fn family_of_lower(alloc: Global, codecs: &str) -> Result<Text, NoMemory>
    ensures { IfOk result (λ family. family ≡ spec.family_of_lower codecs.now) }
{
    let mut family = String::with_capacity(alloc, codecs.len())?;
    for code in codecs.split(',') {
        push_part(&mut family, code)?;
    }
    Ok(Text::from(family))
}

fn push_part(family: &mut String, code: &str) -> Result<(), NoMemory>
    ensures { OnOk result (string_bytes family.new ≡ string_bytes family.old ++ spec.family_part code.now) }
{
    push_family(family, code)?;
    family.push(',')?;
    Ok(())
}

fn push_family(family: &mut String, code: &str) -> Result<(), NoMemory>
    ensures { OnOk result (string_bytes family.new ≡ string_bytes family.old ++ spec.family_of code.now) }
{
    match code.split_once('.') {
        None => family.push_str(code)?,
        Some((name, behind)) => push_named(family, name, behind)?,
    }
    Ok(())
}

fn push_named(family: &mut String, name: &str, behind: &str) -> Result<(), NoMemory>
    ensures { OnOk result (string_bytes family.new ≡ string_bytes family.old ++ spec.named name.now behind.now) }
{
    family.push_str(name)?;
    if name == "mp4a" {
        family.push('.')?;
        family.push_str(object_in(behind))?;
    }
    Ok(())
}

/// The object type behind `mp4a.`; MPEG-D USAC (`40.42`) is apart from the other audio of MPEG-4.
fn object_in(behind: &str) -> &str
    ensures { result.now ≡ spec.object_in behind.now }
{
    if behind == "40.42" {
        return behind;
    }
    match behind.split_once('.') {
        None => behind,
        Some((object, _)) => object,
    }
}
