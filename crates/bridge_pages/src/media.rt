// The media files whose indexes an MPD's playlists depend on.
ghost use Rattle.std.specs.Prelude.{◌≡◌, nat_lt, length, IfOk};
ghost use Rattle.index_parts.specs.Rows.{row_of, rows_left, told_in};
ghost use Rattle.mpd_rules.specs.Views.{index_mpd};
ghost use Rattle.bridge_pages.specs.Needs as spec;

use crate::needs::{Names, Needs, add_name};
use bridge_io::{Bytes, Name, NoMemory};
use bridge_playlists::StorePlace;
use bridge_reach::values_of;
use bridge_report::Stop;
use index_parts::{address_of, deepest};
use mpd_rules::{IndexedMpd, IndexedRep, IndexedWalk};
use std::alloc::Global;
use url_parts::{UrlFault, local_name};

/// How many Representations an MPD has at most whose playlists are made.
const TRACK_LIMIT: u64 = 200;

/// Media files, and where the last of their indexes ends.
#[derive(Drop)]
pub struct Fronts {
    names: Names,
    end: u64,
}

/// The media files of the MPD that bytes are, at a place, as far as their indexes go. There are none where they are no such MPD.
#[tactic(auto, unfolding(crate::specs::Needs::media_in))]
pub fn media_in(alloc: Global, place: &StorePlace, bytes: &[u8]) -> Result<Needs, NoMemory>
    ensures { IfOk result (λ needs. needs ≡ spec.media_in bytes.now place.now) }
{
    let mut copy = Bytes::new(alloc);
    copy.extend(bytes)?;
    match values_of(alloc, copy) {
        Ok(mpd) => media_of(alloc, place, &mpd),
        Err(Stop::Memory) => Err(NoMemory),
        Err(Stop::Refused(_)) => Ok(Needs::none(alloc)),
    }
}

/// The media files of an MPD's only Period. There are none where its Representations are too many.
fn media_of(alloc: Global, place: &StorePlace, mpd: &IndexedMpd) -> Result<Needs, NoMemory>
    ensures { IfOk result (λ needs. needs ≡ spec.media_of place.now (index_mpd mpd.now).periods) }
{
    let Some(period) = mpd.periods().next() else {
        return Ok(Needs::none(alloc));
    };
    if are_many(period.tracks()) {
        return Ok(Needs::none(alloc));
    }
    let fronts = fronts_of(alloc, place, period.tracks())?;
    Ok(Needs {
        names: fronts.names,
        most: Some(fronts.end),
    })
}

/// Whether Representations are more than may be.
fn are_many(mut rows: IndexedWalk<'_>) -> bool
    ensures { result ≡ nat_lt 200 (length (rows_left rows.entry)) }
{
    for _passed in 0..TRACK_LIMIT {
        if rows.next().is_none() {
            return false;
        }
    }
    rows.next().is_some()
}

fn fronts_of(alloc: Global, place: &StorePlace, walk: IndexedWalk<'_>) -> Result<Fronts, NoMemory>
    ensures { IfOk result (λ fronts. fronts ≡ spec.fronts_behind place.now spec.no_fronts (rows_left walk.entry)) }
{
    let mut fronts = Fronts {
        names: Names::new(alloc),
        end: 0,
    };
    for view in walk {
        fronts = fronts.with(alloc, place, &view)?;
    }
    Ok(fronts)
}

impl Fronts {
    /// With the file of a Representation.
    fn with(
        mut self,
        alloc: Global,
        place: &StorePlace,
        view: &IndexedRep<'_>,
    ) -> Result<Fronts, NoMemory>
        ensures { IfOk result (λ fronts. fronts ≡ spec.with_row place.now self (row_of view.now)) }
    {
        self.end = self.end.max(end_of(view));
        add_name(&mut self.names, file_of(alloc, place, view)?)?;
        Ok(self)
    }
}

/// Where the index in a Representation's file ends.
fn end_of(view: &IndexedRep<'_>) -> u64
    ensures { result ≡ spec.end_of (told_in (row_of view.now)).range }
{
    let index = view.index_range();
    index.first + index.count
}

/// The name of a Representation's file, where it lies under the folder.
fn file_of(
    alloc: Global,
    place: &StorePlace,
    view: &IndexedRep<'_>,
) -> Result<Option<Name>, NoMemory>
    ensures { IfOk result (λ name. name ≡ spec.file_of place.now (row_of view.now)) }
{
    match deepest(alloc, &place.url, view.base_references()) {
        Ok(base) => local_name(alloc, &place.folder, &address_of(alloc, &base)?),
        Err(UrlFault::Memory) => Err(NoMemory),
        Err(_) => Ok(None),
    }
}
