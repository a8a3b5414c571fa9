// The playlists of a folder.
ghost use Rattle.std.specs.Prelude.{◌≡◌, ◌≢◌, ◌≤◌, [], ◌∷◌, ◌++◌, IfOk, IfSome, codes};
ghost use Rattle.std.specs.List.{list_any};
ghost use Rattle.bridge_io.specs.Answer.{Gives};
ghost use Rattle.publish_law.specs.Lists.{saturated};
ghost use Rattle.publish_core.specs.Names.{master_file, name_in};
ghost use Rattle.publish_core.specs.Refusals.{stopped};
ghost use Rattle.publish_core.specs.declared.refusal.Stop.TheVariants.{ReadFault};
ghost use Rattle.publish_core.specs.Sides as spec;

use crate::names::{MASTER, is_track_file, name_in};
use crate::refusal::{Refused, Stop};
use bridge_io::{Bytes, Kind, Name, NoMemory, Sequence, Store, Text};
use bridge_playlists::base_at;
use bridge_report::{Refusal, content_of, file_url, folder_url};
use followed_text::{FollowedFault, FollowedText, read_followed};
use hls_master::{Master, MasterFault, MasterTrack, read_master};
use hls_media::MediaFault;
use std::alloc::Global;
use url_parts::{Address, Base, local_name};

/// The base URL of the store's root. No written text has it.
const BASE: &str = "https://publish.example/";

/// How many segments the playlists of a folder may have together.
pub(crate) const SEGMENT_LIMIT: usize = 500_000;

/// A track of a folder.
#[derive(Drop)]
pub(crate) struct SideTrack {
    /// What it holds.
    pub(crate) kind: Kind,
    /// Its language.
    pub(crate) language: Option<Text>,
    /// The name of its file in the folder.
    pub(crate) file: Name,
    /// The same with the folder's.
    pub(crate) name: Name,
    /// What its file was written from.
    pub(crate) list: FollowedText,
}

/// The tracks of a folder in its master's order.
pub(crate) type SideTracks = Sequence<SideTrack>;

/// The playlists of a folder.
#[derive(Drop)]
pub(crate) struct Side {
    /// The name of the master's file with the folder's.
    pub(crate) file: Name,
    /// The bytes of the master.
    pub(crate) text: Bytes,
    /// The tracks in the master's order.
    pub(crate) tracks: SideTracks,
}

/// The playlists of a folder, or why one of them isn't read.
pub(crate) fn side_at<F: Store>(alloc: Global, folder: &Name, store: &mut F) -> Result<Side, Stop>
    ensures reads { spec.ReadsAs F.Store store.old store.new (λ side. side)
        (λ files. spec.side_at folder.now files (name_in folder.now master_file)) result }
    ensures writable { IfOk result (λ side. spec.AreWritable side.tracks) }
    ensures few { IfOk result (λ side. spec.segments_of side.tracks ≤ spec.segment_limit) }
{
    match name_in(alloc, folder, MASTER)? {
        Some(file) => side_of(alloc, folder, file, store),
        None => Err(Stop::Memory),
    }
}

/// The playlists of which this file is the master.
#[tactic(auto, unfolding(crate::specs::Sides::side_of))]
fn side_of<F: Store>(alloc: Global, folder: &Name, file: Name, store: &mut F) -> Result<Side, Stop>
    ensures reads { spec.ReadsAs F.Store store.old store.new (λ side. side) (spec.side_of folder.now file) result }
    ensures writable { IfOk result (λ side. spec.AreWritable side.tracks) }
    ensures few { IfOk result (λ side. spec.segments_of side.tracks ≤ spec.segment_limit) }
{
    let text = bytes_of(alloc, store, &file)?;
    let master = master_in(alloc, &file, text.as_slice())?;
    let found = master.tracks().as_slice();
    let names = names_in(alloc, folder, &file, found)?;
    let tracks = tracks_in(alloc, folder, &file, found, names.as_slice(), store)?;
    Ok(Side { file, text, tracks })
}

/// The whole content of a file.
fn bytes_of<F: Store>(alloc: Global, store: &mut F, name: &Name) -> Result<Bytes, Stop>
    ensures { spec.ReadsAs F.Store store.old store.new (λ bytes. bytes) (spec.content_of name.now) result }
{
    match content_of(alloc, store, name) {
        Ok(bytes) => Ok(bytes),
        Err(halt) => Err(Stop::from(halt)),
    }
}

/// The master that a file's bytes are.
pub(crate) fn master_in(alloc: Global, file: &Name, text: &[u8]) -> Result<Master, Stop>
    ensures master { Gives (λ master. master) stopped result (spec.master_in file.now text.now) }
    ensures no_fault { spec.IsNoReadFault result }
{
    match file_url(alloc, BASE, file)? {
        Some(url) => master_under(alloc, &url, file, text),
        None => Err(Stop::at(alloc, file, Refused::Read(Refusal::Base))),
    }
}

fn master_under(alloc: Global, url: &Base, file: &Name, text: &[u8]) -> Result<Master, Stop>
    ensures master { Gives (λ master. master) stopped result (spec.master_under file.now text.now url.now) }
    ensures no_fault { spec.IsNoReadFault result }
{
    match read_master(alloc, text, url) {
        Ok(master) => Ok(master),
        Err(MasterFault::Memory) => Err(Stop::Memory),
        Err(fault) => Err(Stop::at(alloc, file, Refused::Read(Refusal::Master(fault)))),
    }
}

/// The files of tracks, none for one that lies outside of the folder.
pub(crate) type NameList = Sequence<Option<Name>>;

/// The URL of a folder under another.
fn url_under(alloc: Global, base: &str, folder: &Name) -> Result<Option<Base>, NoMemory>
    ensures { IfOk result (λ url. url ≡ spec.url_under base.now folder.now) }
{
    let text = text_under(alloc, base, folder)?;
    folder_url(alloc, text.as_str())
}

fn text_under(alloc: Global, base: &str, folder: &Name) -> Result<Text, NoMemory>
    ensures { IfOk result (λ text. text ≡ base.now ++ folder.now ++ codes "/") }
{
    let folder = folder.as_str();
    Ok(Text::from(format!(in alloc; "{base}{folder}/")?))
}

/// The tracks' files in the folder.
#[tactic(auto, unfolding(crate::specs::Sides::names_in))]
pub(crate) fn names_in(
    alloc: Global,
    folder: &Name,
    file: &Name,
    tracks: &[MasterTrack],
) -> Result<NameList, Stop>
    ensures names { Gives (λ names. names) stopped result (spec.names_in folder.now file.now tracks.now) }
    ensures no_fault { spec.IsNoReadFault result }
{
    match url_under(alloc, BASE, folder)? {
        Some(url) => names_under(alloc, &url, file, tracks),
        None => Err(Stop::at(alloc, file, Refused::Read(Refusal::Base))),
    }
}

fn names_under(
    alloc: Global,
    url: &Base,
    file: &Name,
    tracks: &[MasterTrack],
) -> Result<NameList, Stop>
    ensures names { Gives (λ names. names) stopped result (spec.names_from file.now url.now [] tracks.now) }
    ensures no_fault { spec.IsNoReadFault result }
{
    let mut names = NameList::new(alloc);
    for track in tracks {
        let name = local_name(alloc, url, &track.address)?;
        if !is_own_file(names.as_slice(), &name) {
            return Err(Stop::at(alloc, file, Refused::Form));
        }
        names.push(name)?;
    }
    Ok(names)
}

/// Whether a track's file is one of the folder, and no other track's.
fn is_own_file(names: &[Option<Name>], name: &Option<Name>) -> bool
    ensures { result ≡ spec.is_own_file names.now name.now }
{
    match name {
        None => true,
        Some(name) => is_track_file(name) && !is_any_named(name, names),
    }
}

fn is_any_named(name: &Name, names: &[Option<Name>]) -> bool
    ensures { result ≡ list_any (spec.is_named name.now) names.now }
{
    names.iter().any(|other| is_named(name, other))
}

pub(crate) fn is_named(name: &Name, other: &Option<Name>) -> bool
    ensures { result ≡ spec.is_named name.now other.now }
{
    match other {
        Some(other) => other.as_str() == name.as_str(),
        None => false,
    }
}

/// Reads the playlists of some tracks, one after another.
fn tracks_in<F: Store>(
    alloc: Global,
    folder: &Name,
    file: &Name,
    mut tracks: &[MasterTrack],
    mut names: &[Option<Name>],
    store: &mut F,
) -> Result<SideTracks, Stop>
    ensures reads { spec.ReadsAs F.Store store.old store.new (λ tracks. tracks)
        (λ files. spec.tracks_from folder.now file.now files [] tracks.entry.now names.entry.now) result }
    ensures writable { IfOk result spec.AreWritable }
    ensures few { IfOk result (λ lists. spec.segments_of lists ≤ spec.segment_limit) }
{
    let mut lists = SideTracks::new(alloc);
    while let (Some((track, later_tracks)), Some((name, later_names))) = (
        tracks.split_first(),
        names.split_first(),
    ) {
        lists = tracks_with(alloc, folder, file, lists, track, name, store)?;
        (tracks, names) = (later_tracks, later_names);
    }
    Ok(lists)
}

/// Reads the playlist of one more track.
#[tactic(auto, unfolding(crate::specs::Sides::tracks_with))]
fn tracks_with<F: Store>(
    alloc: Global,
    folder: &Name,
    file: &Name,
    lists: SideTracks,
    track: &MasterTrack,
    name: &Option<Name>,
    store: &mut F,
) -> Result<SideTracks, Stop>
    requires { spec.AreWritable lists }
    ensures reads { spec.ReadsAs F.Store store.old store.new (λ tracks. tracks)
        (λ files. spec.tracks_with folder.now file.now files lists track.now name.now) result }
    ensures writable { IfOk result spec.AreWritable }
    ensures few { IfOk result (λ lists. spec.segments_of lists ≤ spec.segment_limit) }
{
    let list = track_at(alloc, folder, file, track, name, store)?;
    added(alloc, file, lists, list)
}

/// Adds a track, unless there are too many segments.
fn added(
    alloc: Global,
    file: &Name,
    mut tracks: SideTracks,
    track: SideTrack,
) -> Result<SideTracks, Stop>
    requires writable { spec.AreWritable tracks }
    requires list { spec.IsWritableList track.list }
    ensures tracks { Gives (λ tracks. tracks) stopped result (spec.within_limit file.now (tracks ++ track ∷ [])) }
    ensures writable { IfOk result spec.AreWritable }
    ensures few { IfOk result (λ lists. spec.segments_of lists ≤ spec.segment_limit) }
    ensures no_fault { spec.IsNoReadFault result }
{
    tracks.push(track)?;
    if segment_count(tracks.as_slice()) > SEGMENT_LIMIT {
        return Err(Stop::at(alloc, file, Refused::Read(Refusal::TooManySegments)));
    }
    Ok(tracks)
}

/// How many segments the playlists have together, at most `usize::MAX`.
pub(crate) fn segment_count(tracks: &[SideTrack]) -> usize
    ensures { result ≡ saturated (spec.segments_of tracks.now) }
{
    let mut count: usize = 0;
    for track in tracks {
        count = count.saturating_add(track.list.items.len());
    }
    count
}

/// Reads the playlist of a track with its file.
fn track_at<F: Store>(
    alloc: Global,
    folder: &Name,
    file: &Name,
    track: &MasterTrack,
    own: &Option<Name>,
    store: &mut F,
) -> Result<SideTrack, Stop>
    ensures reads { spec.ReadsAs F.Store store.old store.new (λ track. track)
        (λ files. spec.track_at folder.now file.now files track.now own.now) result }
    ensures writable { IfOk result (λ track. spec.IsWritableList track.list) }
{
    let Some(own) = own else {
        return Err(Stop::at(alloc, file, Refused::Read(Refusal::OutsideBase)));
    };
    let Some(name) = name_in(alloc, folder, own.as_str())? else {
        return Err(Stop::at(alloc, file, Refused::Form));
    };
    let list = list_at(alloc, &name, &track.address, store)?;
    Ok(track_with(alloc, track, own, name, list)?)
}

fn track_with(
    alloc: Global,
    track: &MasterTrack,
    own: &Name,
    name: Name,
    list: FollowedText,
) -> Result<SideTrack, NoMemory>
    ensures { IfOk result (λ it. it ≡ spec.track_with track.now own.now name list) }
{
    Ok(SideTrack {
        kind: track.kind,
        language: language_of(alloc, track)?,
        file: copy_of(alloc, own)?,
        name,
        list,
    })
}

fn language_of(alloc: Global, track: &MasterTrack) -> Result<Option<Text>, NoMemory>
    ensures { IfOk result (λ language. language ≡ track.now.language) }
{
    match &track.language {
        Some(language) => Ok(Some(Text::copy_of(alloc, language.as_str())?)),
        None => Ok(None),
    }
}

/// Reads the playlist of a file that is at this address.
#[tactic(auto, unfolding(crate::specs::Sides::list_at))]
fn list_at<F: Store>(
    alloc: Global,
    name: &Name,
    address: &Address,
    store: &mut F,
) -> Result<FollowedText, Stop>
    ensures reads { spec.ReadsAs F.Store store.old store.new (λ list. list) (spec.list_at name.now address.now) result }
    ensures writable { IfOk result spec.IsWritableList }
{
    let bytes = bytes_of(alloc, store, name)?;
    let base = base_at(alloc, address)?;
    list_in(alloc, name, &base, bytes.as_slice())
}

/// The playlist that a file's bytes are.
fn list_in(alloc: Global, name: &Name, url: &Base, bytes: &[u8]) -> Result<FollowedText, Stop>
    ensures list { Gives (λ list. list) stopped result (spec.list_in name.now url.now bytes.now) }
    ensures writable { IfOk result spec.IsWritableList }
    ensures no_fault { spec.IsNoReadFault result }
{
    match read_followed(alloc, bytes, url) {
        Ok(list) => Ok(list),
        Err(FollowedFault::Memory) => Err(Stop::Memory),
        Err(FollowedFault::Form) => Err(Stop::at(alloc, name, Refused::Form)),
        Err(FollowedFault::Media(fault)) => Err(media_stop(alloc, name, fault)),
    }
}

/// Why a file that is no media playlist isn't taken.
fn media_stop(alloc: Global, name: &Name, fault: MediaFault) -> Stop
    ensures told { IfSome (stopped result) (spec.IsMediaRefused name.now fault) }
    ensures no_fault { result ≢ ReadFault }
{
    match fault {
        MediaFault::Memory => Stop::Memory,
        fault => Stop::at(alloc, name, Refused::Read(Refusal::Media(fault))),
    }
}

pub(crate) fn copy_of(alloc: Global, name: &Name) -> Result<Name, NoMemory>
    ensures { IfOk result (λ copy. copy ≡ name.now) }
{
    Name::read(alloc, name.as_str()).map_err(|_| NoMemory)
}
