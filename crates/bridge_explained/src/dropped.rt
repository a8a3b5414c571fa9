// The lines for what was dropped of a command's manifest.
ghost use Rattle.std.specs.Prelude.{◌≡◌, ◌≤◌};

use crate::notes::bytes_at;
use bridge_io::{Name, NoMemory, Store, Text};
use bridge_jobs::{Job, job};
use bridge_playlists::{StorePlace, base_at, master_at, store_place_of};
use bridge_report::media_at;
use explanations::{left_out_of_master, left_out_of_mpd};
use hls_master::MasterTrack;
use hls_presentation::MediaFiles;
use std::alloc::Global;
use url_parts::local_name;

/// The lines for what was dropped of the manifest of a command, which is read again. There are none where it can't be read.
pub(crate) fn dropped_of<F: Store>(
    alloc: Global,
    words: &[Text],
    store: &mut F,
) -> Result<Text, NoMemory>
    ensures files { F.files store.new ≡ F.files store.old }
    ensures writes { F.write_faults store.new ≡ F.write_faults store.old }
    ensures reads { F.read_faults store.old ≤ F.read_faults store.new }
{
    match job(alloc, words)? {
        Some(job) => {
            let lines = dropped_by(alloc, &job, store);
            drop(job);
            lines
        }
        None => Ok(no_lines(alloc)),
    }
}

fn dropped_by<F: Store>(alloc: Global, job: &Job, store: &mut F) -> Result<Text, NoMemory>
    ensures files { F.files store.new ≡ F.files store.old }
    ensures writes { F.write_faults store.new ≡ F.write_faults store.old }
    ensures reads { F.read_faults store.old ≤ F.read_faults store.new }
{
    match manifest_of(job) {
        Some((base, file)) => dropped_of_file(alloc, base, file, store),
        None => Ok(no_lines(alloc)),
    }
}

fn no_lines(alloc: Global) -> Text {
    Text::from(String::new(alloc))
}

fn dropped_of_file<F: Store>(
    alloc: Global,
    base: &str,
    file: &Name,
    store: &mut F,
) -> Result<Text, NoMemory>
    ensures files { F.files store.new ≡ F.files store.old }
    ensures writes { F.write_faults store.new ≡ F.write_faults store.old }
    ensures reads { F.read_faults store.old ≤ F.read_faults store.new }
{
    match bytes_at(alloc, file.as_str(), store) {
        Some(bytes) if is_playlist(bytes.as_slice()) => dropped_of_master(alloc, base, file, store),
        Some(bytes) => left_out_of_mpd(alloc, bytes.as_slice()),
        None => Ok(no_lines(alloc)),
    }
}

fn is_playlist(bytes: &[u8]) -> bool {
    bytes.starts_with(b"#EXTM3U")
}

/// The base URL and the manifest of a command whose report may say that something was dropped.
fn manifest_of(job: &Job) -> Option<(&str, &Name)> {
    match job {
        Job::Hls(job) => Some((job.base.as_str(), &job.mpd)),
        Job::HlsIndex(job) => Some((job.base.as_str(), &job.mpd)),
        Job::Show(job) => Some((job.base.as_str(), &job.file)),
        Job::Dash(job) | Job::DashTimes(job) => Some((job.base.as_str(), &job.master)),
        _ => None,
    }
}

fn dropped_of_master<F: Store>(
    alloc: Global,
    base: &str,
    file: &Name,
    store: &mut F,
) -> Result<Text, NoMemory>
    ensures files { F.files store.new ≡ F.files store.old }
    ensures writes { F.write_faults store.new ≡ F.write_faults store.old }
    ensures reads { F.read_faults store.old ≤ F.read_faults store.new }
{
    let Some(place) = store_place_of(alloc, base, file)? else {
        return Ok(no_lines(alloc));
    };
    match master_at(alloc, &place, store) {
        Ok(master) => dropped_of_tracks(alloc, &place, master.tracks().as_slice(), store),
        Err(_) => Ok(no_lines(alloc)),
    }
}

fn dropped_of_tracks<F: Store>(
    alloc: Global,
    place: &StorePlace,
    tracks: &[MasterTrack],
    store: &mut F,
) -> Result<Text, NoMemory>
    ensures files { F.files store.new ≡ F.files store.old }
    ensures writes { F.write_faults store.new ≡ F.write_faults store.old }
    ensures reads { F.read_faults store.old ≤ F.read_faults store.new }
{
    match playlists_of(alloc, place, tracks, store) {
        Some(playlists) => left_out_of_master(alloc, tracks, playlists.as_slice()),
        None => Ok(no_lines(alloc)),
    }
}

/// The media playlists of some tracks, where all can be read.
fn playlists_of<F: Store>(
    alloc: Global,
    place: &StorePlace,
    tracks: &[MasterTrack],
    store: &mut F,
) -> Option<MediaFiles>
    ensures files { F.files store.new ≡ F.files store.old }
    ensures writes { F.write_faults store.new ≡ F.write_faults store.old }
    ensures reads { F.read_faults store.old ≤ F.read_faults store.new }
{
    let mut playlists = MediaFiles::new(alloc);
    for track in tracks {
        let file = local_name(alloc, &place.folder, &track.address).ok()??;
        let url = base_at(alloc, &track.address).ok()?;
        let playlist = media_at(alloc, store, &file, &url).ok()?;
        playlists.push(playlist).ok()?;
    }
    Some(playlists)
}
