// The presentation of playlists.
ghost use Rattle.std.specs.Prelude.{◌≡◌, false, map, All, IfOk};
ghost use Rattle.bridge_io.specs.Answer.{Gives};
ghost use Rattle.presentation.specs.Origins.{CameFromPlaylists};
ghost use Rattle.hls_presentation.specs.Presenting as spec;
ghost use Rattle.hls_presentation.specs.Origins.{IsSilentTrack};
ghost use Rattle.hls_presentation.specs.Sections.{groups_in, is_over_limit, rows_of};
ghost use Rattle.hls_presentation.specs.Views.{source_of};

use crate::HlsFault;
use crate::checks::check_tracks;
use crate::contents::Ticks;
use crate::groups::{Groups, check_groups, groups_of_all};
use crate::kept::{Source, kept_of, left_out_of, sources_of};
use crate::tracks::{sections_of, tracks_of};
use bridge_io::Sequence;
use hls_master::{Master, MasterTrack};
use hls_media::Media;
use presentation::{Parts, Presentation};
use std::alloc::Global;

/// Media playlists, one for each track of a master playlist, in the order of its tracks.
pub type MediaFiles = Sequence<Media>;

/// The presentation of a master playlist with its media playlists, one for each of its tracks, in their order. A track is
/// one of the master's, and a section the segments of one discontinuity sequence number (RFC 8216 4.3.3.3). A text track
/// with a segment without EXT-X-MAP is dropped.
///
/// The errors come in the order of [`HlsFault`].
///
/// Requires that no video track has a language, which holds for each master playlist that was read
/// (`what_is_read_is_silent`).
pub fn from_hls(
    alloc: Global,
    master: &Master,
    medias: &MediaFiles,
) -> Result<Presentation, HlsFault>
    requires { All IsSilentTrack master.now }
    ensures presented { Gives (λ presentation. presentation) spec.refusal result (spec.hls_presented_of master.now medias.now) }
    ensures came { IfOk result CameFromPlaylists }
{
    present_all(alloc, master.tracks().as_slice(), medias.as_slice())
}

#[tactic(auto, unfolding(crate::specs::Presenting::hls_presented_of))]
fn present_all(
    alloc: Global,
    tracks: &[MasterTrack],
    medias: &[Media],
) -> Result<Presentation, HlsFault>
    ensures { Gives (λ presentation. presentation) spec.refusal result (spec.hls_presented_of tracks.now medias.now) }
{
    let sources = sources_of(alloc, tracks, medias)?;
    check_tracks(&sources)?;
    let kept = kept_of(alloc, &sources)?;
    present(alloc, &kept, left_out_of(&sources))
}

/// The presentation of the kept tracks; `left_out` others were dropped.
#[tactic(auto, unfolding(crate::specs::Presenting::presented_of_kept))]
fn present(alloc: Global, kept: &[Source<'_>], left_out: u64) -> Result<Presentation, HlsFault>
    ensures { Gives (λ presentation. presentation) spec.refusal result (spec.presented_of_kept (map source_of kept.now) left_out) }
{
    let groups = groups_of_all(alloc, kept)?;
    check_groups(&groups)?;
    present_groups(alloc, kept, left_out, &groups)
}

fn present_groups(
    alloc: Global,
    kept: &[Source<'_>],
    left_out: u64,
    groups: &[Groups<'_>],
) -> Result<Presentation, HlsFault>
    requires groups { groups.now ≡ map groups_in (map source_of kept.now) }
    requires short { is_over_limit (rows_of groups.now) ≡ false }
    ensures { Gives (λ presentation. presentation) spec.refusal result
        (spec.presented_from (map source_of kept.now) left_out (rows_of groups.now)) }
{
    let contents = Ticks::of(kept).contents(alloc, groups)?;
    let tracks = tracks_of(alloc, kept)?;
    let sections = sections_of(alloc, groups)?;
    Ok(Presentation::from_parts(
        alloc,
        Parts {
            tracks,
            sections,
            contents,
            left_out,
        },
    ))
}
