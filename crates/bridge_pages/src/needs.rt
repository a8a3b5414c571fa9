// Files that a manifest needs.
ghost use Rattle.std.specs.Prelude.{◌≡◌, [], IfOk, OnOk, map};
ghost use Rattle.hls_master.specs.SeenTracks.{track_seen};
ghost use Rattle.bridge_pages.specs.Needs as spec;

use crate::media::media_in;
use crate::verb::Verb;
use bridge_io::{Name, NoMemory, Sequence};
use bridge_playlists::{StorePlace, store_place_of};
use hls_master::{MasterFault, MasterTrack, read_master};
use std::alloc::Global;
use url_parts::local_name;

/// Names of files.
pub type Names = Sequence<Name>;

/// Files that are read for a manifest beside its own.
#[derive(Drop)]
pub struct Needs {
    /// Their names.
    pub names: Names,
    /// How many bytes of each are read at most, of media files. A playlist is read whole.
    pub most: Option<u64>,
}

impl Needs {
    /// No files.
    pub fn none(alloc: Global) -> Needs
        ensures { result ≡ spec.nothing }
    {
        Needs {
            names: Names::new(alloc),
            most: None,
        }
    }

    /// The files that a manifest of these bytes needs.
    #[tactic(auto, unfolding(crate::specs::Needs::needs_of))]
    pub fn of(
        alloc: Global,
        verb: Verb,
        base: &str,
        manifest: &Name,
        bytes: &[u8],
    ) -> Result<Needs, NoMemory>
        ensures { IfOk result (λ needs. needs ≡ spec.needs_of verb base.now manifest.now bytes.now) }
    {
        match store_place_of(alloc, base, manifest)? {
            Some(place) => Needs::at(alloc, verb, &place, bytes),
            None => Ok(Needs::none(alloc)),
        }
    }

    fn at(alloc: Global, verb: Verb, place: &StorePlace, bytes: &[u8]) -> Result<Needs, NoMemory>
        ensures { IfOk result (λ needs. needs ≡ spec.needs_at verb bytes.now place.now) }
    {
        match verb {
            Verb::Hls => Ok(Needs::none(alloc)),
            Verb::HlsIndex => media_in(alloc, place, bytes),
            Verb::Dash => Ok(Needs {
                names: playlists_in(alloc, place, bytes)?,
                most: None,
            }),
        }
    }
}

/// The playlists of the master that bytes are, at a place. There are none where they are no master.
fn playlists_in(alloc: Global, place: &StorePlace, bytes: &[u8]) -> Result<Names, NoMemory>
    ensures { IfOk result (λ names. names ≡ spec.playlists_in place.now bytes.now) }
{
    match read_master(alloc, bytes, &place.url) {
        Ok(master) => track_names(alloc, place, master.tracks().as_slice()),
        Err(MasterFault::Memory) => Err(NoMemory),
        Err(_) => Ok(Sequence::new(alloc)),
    }
}

/// The names of the tracks' playlists that lie under the folder.
fn track_names(alloc: Global, place: &StorePlace, tracks: &[MasterTrack]) -> Result<Names, NoMemory>
    ensures { IfOk result (λ names. names ≡ spec.names_behind place.now [] (map track_seen tracks.now)) }
{
    let mut names = Sequence::new(alloc);
    for track in tracks {
        let name = local_name(alloc, &place.folder, &track.address)?;
        add_name(&mut names, name)?;
    }
    Ok(names)
}

/// Adds a name, where there is one.
pub fn add_name(names: &mut Names, name: Option<Name>) -> Result<(), NoMemory>
    ensures { OnOk result (names.new ≡ spec.with_name names.old name) }
{
    match name {
        Some(name) => names.push(name),
        None => Ok(()),
    }
}
