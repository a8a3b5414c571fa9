// The media playlists of a master playlist's tracks.
ghost use Rattle.std.specs.Prelude.{◌≡◌, IfOk, map};
ghost use Rattle.bridge_io.specs.Answer.{Gives};
ghost use Rattle.hls_media.specs.Laws.{IsBounded};
ghost use Rattle.bridge_report.specs.Reading.{IsNoReadFault, ReadsAs, halted};
ghost use Rattle.bridge_playlists.specs.Playlists as spec;

use crate::StorePlace;
use bridge_io::{NoMemory, Store};
use bridge_report::{Halt, Refusal, media_at};
use hls_master::MasterTrack;
use hls_media::Media;
use hls_presentation::MediaFiles;
use std::alloc::Global;
use url_parts::{Address, Base, UrlFault, local_name};

/// The most segments of all playlists together.
const SEGMENT_LIMIT: u64 = 500_000;

/// Media playlists that are read one after another.
#[derive(Drop)]
pub struct Medias {
    /// The playlists in the order of their tracks.
    pub files: MediaFiles,
    /// How many segments they have in all, at most 500,000.
    pub segments: u64,
}

/// Reads the playlists of some tracks, one after another.
pub(crate) fn medias_of<F: Store>(
    alloc: Global,
    place: &StorePlace,
    tracks: &[MasterTrack],
    store: &mut F,
) -> Result<Medias, Halt>
    ensures reads { ReadsAs F.Store store.old store.new (λ medias. medias)
        (λ files. spec.medias_of place.now files spec.none_read tracks.now) result }
    ensures counted { IfOk result spec.AreCounted }
{
    let mut medias = Medias {
        files: MediaFiles::new(alloc),
        segments: 0,
    };
    for track in tracks {
        medias = medias_with(alloc, place, medias, track, store)?;
    }
    Ok(medias)
}

/// Reads the playlist of one more track.
#[tactic(auto, unfolding(crate::specs::Playlists::medias_with))]
fn medias_with<F: Store>(
    alloc: Global,
    place: &StorePlace,
    medias: Medias,
    track: &MasterTrack,
    store: &mut F,
) -> Result<Medias, Halt>
    requires counted { spec.AreCounted medias }
    ensures reads { ReadsAs F.Store store.old store.new (λ medias. medias)
        (λ files. spec.medias_with place.now files medias track.now) result }
    ensures counted { IfOk result spec.AreCounted }
{
    let media = media_under(alloc, place, &track.address, store)?;
    added(alloc, place, medias, media)
}

/// Adds a playlist, unless there are too many segments.
fn added(alloc: Global, place: &StorePlace, medias: Medias, media: Media) -> Result<Medias, Halt>
    requires counted { spec.AreCounted medias }
    requires bounded { IsBounded media }
    ensures medias { Gives (λ medias. medias) halted result (spec.within_limit place.now (spec.with_media medias media)) }
    ensures counted { IfOk result spec.AreCounted }
    ensures no_fault { IsNoReadFault result }
{
    let Medias {
        mut files,
        segments,
    } = medias;
    let segments = segments + media.segments.len() as u64;
    if segments > SEGMENT_LIMIT {
        return Err(Halt::refused(alloc, &place.file, Refusal::TooManySegments));
    }
    files.push(media)?;
    Ok(Medias { files, segments })
}

/// The playlists, each as if it were ended.
pub(crate) fn ended(alloc: Global, medias: Medias) -> Result<Medias, NoMemory>
    requires { spec.AreCounted medias }
    ensures medias { IfOk result (λ all. all ≡ spec.all_ended medias) }
    ensures counted { IfOk result spec.AreCounted }
{
    let Medias { files, segments } = medias;
    let files = ended_files(alloc, files)?;
    Ok(Medias { files, segments })
}

fn ended_files(alloc: Global, files: MediaFiles) -> Result<MediaFiles, NoMemory>
    ensures { IfOk result (λ ended. ended ≡ map spec.ended files) }
{
    let mut ended = MediaFiles::new(alloc);
    let mut rest = files.into_vec().into_iter();
    while let Some(media) = rest.next() {
        ended.push(Media {
            ended: true,
            ..media
        })?;
    }
    Ok(ended)
}

/// Reads the playlist at a URL, which is a file under the folder.
#[tactic(auto, unfolding(crate::specs::Playlists::media_under))]
fn media_under<F: Store>(
    alloc: Global,
    place: &StorePlace,
    address: &Address,
    store: &mut F,
) -> Result<Media, Halt>
    ensures reads { ReadsAs F.Store store.old store.new (λ media. media) (λ files. spec.media_under place.now files address.now) result }
    ensures bounded { IfOk result IsBounded }
{
    match local_name(alloc, &place.folder, address)? {
        Some(file) => media_at(alloc, store, &file, &base_at(alloc, address)?),
        None => Err(Halt::refused(alloc, &place.file, Refusal::OutsideBase)),
    }
}

/// A URL as a base of references (URL Standard, 4.4).
pub fn base_at(alloc: Global, address: &Address) -> Result<Base, NoMemory>
    ensures { IfOk result (λ base. base ≡ address.now) }
{
    match Base::of(alloc, address.as_str()) {
        Ok(base) => Ok(base),
        Err(UrlFault::Memory) => Err(NoMemory),
        Err(_) => unreachable!(),
    }
}
