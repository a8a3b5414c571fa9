// Master playlists.
ghost use Rattle.std.specs.Prelude.{◌≡◌, length, map, option_map, IfOk};
ghost use Rattle.bridge_io.specs.Answer.{Gives};
ghost use Rattle.bridge_io.specs.Places.{place_of};
ghost use Rattle.hls_master.specs.Faults.{answer, refusal};
ghost use Rattle.hls_master.specs.Masters.{above_limit, master_in, master_of, muxed, no_variant, unknown_group, whole_of};
ghost use Rattle.hls_master.specs.SeenMentions.{mentions_seen};
ghost use Rattle.hls_master.specs.SeenTracks.{mention_seen, track_seen};
ghost use Rattle.hls_master.specs.Tracks.{few, firsts_of, tracks_of};

use crate::mention::{Mention, find_firsts, mentions_of};
use crate::mentions::{Mentions, read_mentions};
use crate::track::read_tracks;
use crate::whole::{find_muxed, find_unknown_group};
use crate::{MasterFault, MasterTracks};
use bridge_io::{NoMemory, Place};
use byte_scan::count_lf;
use hls_lines::Lines;
use std::alloc::Global;
use std::marker::Model;
use url_parts::Base;

/// A master playlist: in a contract its tracks.
#[derive(Drop)]
pub struct Master {
    tracks: MasterTracks,
}

impl Model for Master {
    ghost use Rattle.std.specs.Prelude.{List};
    ghost use Rattle.hls_master.specs.declared.track.MasterTrack.{MasterTrack};

    ghost Value = { List MasterTrack };

    ghost view = { λ master. master.tracks };
}

impl Master {
    /// The tracks in order: video, audio and text; audio and text by the first mention of their set, and the tracks of
    /// one set by their first mention, EXT-X-MEDIA before EXT-X-STREAM-INF. At most 200, and at least one.
    pub fn tracks(&self) -> &MasterTracks
        ensures { result.now ≡ self.now }
    {
        &self.tracks
    }
}

/// Reads a master playlist (RFC 8216 4.3.4), whose own URL is the base.
///
/// The faults of lines come first, in the order of the lines; then those of the whole, as [`MasterFault`] orders
/// them.
#[tactic(auto, unfolding(crate::specs::Masters::master_of))]
pub fn read_master(alloc: Global, bytes: &[u8], base: &Base) -> Result<Master, MasterFault>
    ensures { Gives (λ master. map track_seen master) refusal result (master_of bytes.now base.now) }
{
    let lines = Lines::new(bytes)?;
    let tracks = tracks_in(alloc, lines, end_of(bytes), base)?;
    Ok(Master { tracks })
}

/// The position after all bytes.
fn end_of(bytes: &[u8]) -> Place
    ensures { result ≡ place_of bytes.now (length bytes.now) }
{
    Place {
        at: bytes.len() as u64,
        line: count_lf(bytes) + 1,
    }
}

/// The tracks of lines, or their first fault.
fn tracks_in(
    alloc: Global,
    lines: Lines<'_>,
    end: Place,
    base: &Base,
) -> Result<MasterTracks, MasterFault>
    ensures { Gives (λ tracks. map track_seen tracks) refusal result (master_in base.now end lines.entry) }
{
    let mentions = read_mentions(alloc, base, lines)?;
    tracks_of(alloc, &mentions, end)
}

/// The tracks of what lines mention, or the first fault of the whole; `end` is the file's end.
#[tactic(auto, unfolding(crate::specs::Masters::whole_of))]
fn tracks_of(
    alloc: Global,
    mentions: &Mentions<'_>,
    end: Place,
) -> Result<MasterTracks, MasterFault>
    ensures { Gives (λ tracks. map track_seen tracks) refusal result (whole_of end (mentions_seen mentions.now)) }
{
    check_groups(alloc, mentions)?;
    check_muxed(alloc, mentions)?;
    check_some(mentions, end)?;
    let tracks = few_tracks(alloc, mentions, end)?;
    Ok(tracks)
}

fn check_groups(alloc: Global, mentions: &Mentions<'_>) -> Result<(), MasterFault>
    ensures { Gives (λ done. done) refusal result (answer (unknown_group (mentions_seen mentions.now)) tt) }
{
    match find_unknown_group(
        alloc,
        mentions.renditions.as_slice(),
        mentions.variants.as_slice(),
    )? {
        None => Ok(()),
        Some(place) => Err(MasterFault::GroupUnknown(place)),
    }
}

fn check_muxed(alloc: Global, mentions: &Mentions<'_>) -> Result<(), MasterFault>
    ensures { Gives (λ done. done) refusal result (answer (muxed (mentions_seen mentions.now)) tt) }
{
    match find_muxed(
        alloc,
        mentions.renditions.as_slice(),
        mentions.variants.as_slice(),
    )? {
        None => Ok(()),
        Some(place) => Err(MasterFault::Muxed(place)),
    }
}

fn check_some(mentions: &Mentions<'_>, end: Place) -> Result<(), MasterFault>
    ensures { result ≡ answer (no_variant end (mentions_seen mentions.now).variants) tt }
{
    match mentions.variants.as_slice() {
        [] => Err(MasterFault::NoTracks(end)),
        [_, ..] => Ok(()),
    }
}

fn few_tracks(
    alloc: Global,
    mentions: &Mentions<'_>,
    end: Place,
) -> Result<MasterTracks, MasterFault>
    ensures { Gives (λ tracks. map track_seen tracks) refusal result
        (answer (above_limit end (mentions_seen mentions.now)) (tracks_of (mentions_seen mentions.now))) }
{
    match firsts_of(alloc, mentions)? {
        Some(firsts) => Ok(read_tracks(alloc, mentions.variants.as_slice(), firsts.as_slice())?),
        None => Err(MasterFault::Limit(end)),
    }
}

/// The first mention of each URL; `None` where there are more than 200.
#[tactic(auto, unfolding(crate::specs::Tracks::firsts_of))]
fn firsts_of<'m, 'a>(
    alloc: Global,
    mentions: &'m Mentions<'a>,
) -> Result<Option<Vec<Mention<'m, 'a>>>, NoMemory>
    ensures { IfOk result (λ found. option_map (λ firsts. map mention_seen firsts.items) found
        ≡ few (firsts_of (mentions_seen mentions.now))) }
{
    let all = mentions_of(
        alloc,
        mentions.renditions.as_slice(),
        mentions.variants.as_slice(),
    )?;
    Ok(find_firsts(alloc, all.as_slice())?)
}
