// The presentation of a master playlist with its media playlists.
ghost use Rattle.std.specs.Prelude.{◌≡◌, All, IfOk, Ok};
ghost use Rattle.bridge_io.specs.Answer.{Gives};
ghost use Rattle.hls_presentation.specs.Origins.{IsSilentTrack};
ghost use Rattle.presentation.specs.Counting.{counted, count_of_all};
ghost use Rattle.presentation.specs.Origins.{CameFromPlaylists};
ghost use Rattle.bridge_report.specs.Reading.{IsNoReadFault, ReadsAs, halted};
ghost use Rattle.bridge_playlists.specs.Playlists as spec;

use crate::StorePlace;
use crate::medias::{Medias, ended, medias_of};
use bridge_io::Store;
use bridge_report::{Halt, Refusal, content_of};
use hls_master::{Master, MasterFault, read_master};
use hls_presentation::{HlsFault, from_hls, playlists_are_counted, what_is_read_is_silent};
use presentation::Presentation;
use std::alloc::Global;

/// The presentation of the master playlist at a location, whose media playlists are files of the store, or why one of the
/// files isn't read. All files are read before the whole is checked. [`Halt::ReadFault`] comes only where the store's count
/// of failed reads rose.
#[tactic(auto, unfolding(crate::specs::Playlists::presented_at))]
pub fn presented_at<F: Store>(
    alloc: Global,
    place: &StorePlace,
    store: &mut F,
) -> Result<Presentation, Halt>
    ensures reads { ReadsAs F.Store store.old store.new (λ presentation. presentation) (spec.presented_at place.now) result }
    ensures came { IfOk result CameFromPlaylists }
    ensures counted { IfOk result (λ p. counted p ≡ Ok (count_of_all p)) }
{
    let bytes = content_of(alloc, store, &place.file)?;
    presented_in(alloc, place, bytes.as_slice(), store)
}

/// The presentation of these bytes as the master playlist at a location, or why one of the files isn't read.
pub fn presented_in<F: Store>(
    alloc: Global,
    place: &StorePlace,
    bytes: &[u8],
    store: &mut F,
) -> Result<Presentation, Halt>
    ensures reads { ReadsAs F.Store store.old store.new (λ presentation. presentation)
        (λ files. spec.presented_in place.now files bytes.now) result }
    ensures came { IfOk result CameFromPlaylists }
    ensures counted { IfOk result (λ p. counted p ≡ Ok (count_of_all p)) }
{
    let master = master_in(alloc, place, bytes)?;
    presented_with(alloc, place, &master, store)
}

/// The same of playlists that may be live: each is taken as if it were ended (RFC 8216, 4.3.3.4).
#[tactic(auto, unfolding(crate::specs::Playlists::presented_so_far))]
pub fn presented_so_far<F: Store>(
    alloc: Global,
    place: &StorePlace,
    store: &mut F,
) -> Result<Presentation, Halt>
    ensures reads { ReadsAs F.Store store.old store.new (λ presentation. presentation) (spec.presented_so_far place.now) result }
    ensures came { IfOk result CameFromPlaylists }
    ensures counted { IfOk result (λ p. counted p ≡ Ok (count_of_all p)) }
{
    let bytes = content_of(alloc, store, &place.file)?;
    let master = master_in(alloc, place, bytes.as_slice())?;
    listed_with(alloc, place, &master, store)
}

/// Reads the media playlists of a master playlist, which may be live, and returns the presentation of what they list.
#[tactic(auto, unfolding(crate::specs::Playlists::listed_with))]
fn listed_with<F: Store>(
    alloc: Global,
    place: &StorePlace,
    master: &Master,
    store: &mut F,
) -> Result<Presentation, Halt>
    requires { All IsSilentTrack master.now }
    ensures reads { ReadsAs F.Store store.old store.new (λ presentation. presentation)
        (λ files. spec.listed_with place.now files master.now) result }
    ensures came { IfOk result CameFromPlaylists }
    ensures counted { IfOk result (λ p. counted p ≡ Ok (count_of_all p)) }
{
    let medias = medias_of(alloc, place, master.tracks().as_slice(), store)?;
    presented_by(alloc, place, master, &ended(alloc, medias)?)
}

/// The master playlist at a location, or why its file isn't read. [`Halt::ReadFault`] comes only where the store's count of
/// failed reads rose.
#[tactic(auto, unfolding(crate::specs::Playlists::master_at))]
pub fn master_at<F: Store>(alloc: Global, place: &StorePlace, store: &mut F) -> Result<Master, Halt>
    ensures { ReadsAs F.Store store.old store.new (λ master. master) (spec.master_at place.now) result }
{
    let bytes = content_of(alloc, store, &place.file)?;
    master_in(alloc, place, bytes.as_slice())
}

/// Bytes as a master playlist.
#[tactic(auto, unfolding(crate::specs::Playlists::master_in))]
fn master_in(alloc: Global, place: &StorePlace, bytes: &[u8]) -> Result<Master, Halt>
    ensures master { Gives (λ master. master) halted result (spec.master_in place.now bytes.now) }
    ensures silent { IfOk result (λ master. All IsSilentTrack master) }
    ensures no_fault { IsNoReadFault result }
{
    what_is_read_is_silent();
    match read_master(alloc, bytes, &place.url) {
        Ok(master) => Ok(master),
        Err(MasterFault::Memory) => Err(Halt::Memory),
        Err(fault) => Err(Halt::refused(alloc, &place.file, Refusal::Master(fault))),
    }
}

/// Reads the media playlists of a master playlist, and returns the presentation.
#[tactic(auto, unfolding(crate::specs::Playlists::presented_with))]
fn presented_with<F: Store>(
    alloc: Global,
    place: &StorePlace,
    master: &Master,
    store: &mut F,
) -> Result<Presentation, Halt>
    requires { All IsSilentTrack master.now }
    ensures reads { ReadsAs F.Store store.old store.new (λ presentation. presentation)
        (λ files. spec.presented_with place.now files master.now) result }
    ensures came { IfOk result CameFromPlaylists }
    ensures counted { IfOk result (λ p. counted p ≡ Ok (count_of_all p)) }
{
    let medias = medias_of(alloc, place, master.tracks().as_slice(), store)?;
    presented_by(alloc, place, master, &medias)
}

/// The presentation of a master playlist with its media playlists.
#[tactic(auto, unfolding(crate::specs::Playlists::presented_by))]
fn presented_by(
    alloc: Global,
    place: &StorePlace,
    master: &Master,
    medias: &Medias,
) -> Result<Presentation, Halt>
    requires silent { All IsSilentTrack master.now }
    requires counted { spec.AreCounted medias.now }
    ensures presented { Gives (λ presentation. presentation) halted result (spec.presented_by place.now master.now medias.now.files) }
    ensures came { IfOk result CameFromPlaylists }
    ensures counted { IfOk result (λ p. counted p ≡ Ok (count_of_all p)) }
    ensures no_fault { IsNoReadFault result }
{
    playlists_are_counted();
    match from_hls(alloc, master, &medias.files) {
        Ok(presentation) => Ok(presentation),
        Err(HlsFault::Memory) => Err(Halt::Memory),
        Err(fault) => Err(Halt::refused(alloc, &place.file, Refusal::Hls(fault))),
    }
}
