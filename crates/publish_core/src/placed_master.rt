// Whether a master means the same in the served folder.
ghost use Rattle.std.specs.Prelude.{◌≡◌, IfOk};
ghost use Rattle.publish_core.specs.Taken as spec;

use crate::job::PublishJob;
use crate::names::{MASTER, name_in};
use crate::refusal::Stop;
use crate::same::{is_same_kind, is_same_language};
use crate::side::{Side, SideTrack, is_named, master_in, names_in};
use bridge_io::{Name, NoMemory};
use hls_master::MasterTrack;
use std::alloc::Global;

/// Whether the new master has the same tracks, of the same files, when it is read as the served one: so the next publication reads it.
pub(crate) fn is_taken(alloc: Global, job: &PublishJob, new: &Side) -> Result<bool, NoMemory>
    ensures { IfOk result (λ taken. taken ≡ spec.is_taken job.now new.now) }
{
    match name_in(alloc, &job.served, MASTER)? {
        Some(file) => is_read_alike(alloc, &job.served, &file, new),
        None => Ok(false),
    }
}

fn is_read_alike(alloc: Global, folder: &Name, file: &Name, new: &Side) -> Result<bool, NoMemory>
    ensures { IfOk result (λ alike. alike ≡ spec.is_read_alike folder.now file.now new.now) }
{
    match master_in(alloc, file, new.text.as_slice()) {
        Ok(master) => {
            let found = master.tracks().as_slice();
            are_named_alike(alloc, folder, file, new.tracks.as_slice(), found)
        }
        Err(Stop::Memory) => Err(NoMemory),
        Err(_) => Ok(false),
    }
}

fn are_named_alike(
    alloc: Global,
    folder: &Name,
    file: &Name,
    tracks: &[SideTrack],
    found: &[MasterTrack],
) -> Result<bool, NoMemory>
    ensures { IfOk result (λ alike. alike ≡ spec.are_named_alike folder.now file.now tracks.now found.now) }
{
    match names_in(alloc, folder, file, found) {
        Ok(names) => Ok(are_found(tracks, found, names.as_slice())),
        Err(Stop::Memory) => Err(NoMemory),
        Err(_) => Ok(false),
    }
}

/// Whether the tracks are these of a master with these files.
fn are_found(
    mut tracks: &[SideTrack],
    mut found: &[MasterTrack],
    mut names: &[Option<Name>],
) -> bool
    ensures { result ≡ spec.are_found tracks.entry.now found.entry.now names.entry.now }
{
    while let Some((track, later_tracks)) = tracks.split_first() {
        let (Some((other, later_found)), Some((name, later_names))) = (
            found.split_first(),
            names.split_first(),
        ) else {
            return false;
        };
        if !is_found(track, other, name) {
            return false;
        }
        (tracks, found, names) = (later_tracks, later_found, later_names);
    }
    found.is_empty()
}

fn is_found(track: &SideTrack, other: &MasterTrack, name: &Option<Name>) -> bool
    ensures { result ≡ spec.is_found track.now other.now name.now }
{
    is_same_kind(track.kind, other.kind)
        && is_same_language(&track.language, &other.language)
        && is_named(&track.file, name)
}
