// The kinds and languages of the tracks.
ghost use Rattle.std.specs.Prelude.{◌≡◌, option_map, OnOk};
ghost use Rattle.differences.specs.Collecting.{all_added};
ghost use Rattle.differences.specs.Deviating.{deviation};
ghost use Rattle.differences.specs.Heads as spec;

use crate::collected::Collected;
use crate::{Deviation, How};
use bridge_io::NoMemory;
use comparison::{is_same_kind, is_same_language, language_of};
use meaning::{Aspect, Difference};
use presentation::Track;

/// Adds what differs of the tracks' kinds and languages.
pub(crate) fn add_heads(
    mpd: &[Track],
    playlists: &[Track],
    found: &mut Collected,
) -> Result<(), NoMemory>
    ensures { OnOk result (found.new ≡ all_added found.old (spec.heads_from 0 mpd.now playlists.now)) }
{
    for (track, mine) in mpd.iter().enumerate() {
        add_head(track, mine, playlists.get(track), found)?;
    }
    for track in mpd.len()..playlists.len() {
        found.add(of_track(track, How::Extra))?;
    }
    Ok(())
}

/// Adds what differs of a track of the MPD.
fn add_head(
    track: usize,
    mine: &Track,
    theirs: Option<&Track>,
    found: &mut Collected,
) -> Result<(), NoMemory>
    ensures { OnOk result (found.new ≡ all_added found.old
        (spec.head_beside track mine.now (option_map (λ theirs. theirs.now) theirs.entry))) }
{
    let Some(theirs) = theirs else {
        return found.add(of_track(track, How::Missing));
    };
    let is_kind = is_same_kind(mine.kind, theirs.kind);
    let is_language = is_same_language(language_of(mine), language_of(theirs));
    let how = How::Head {
        kind: !is_kind,
        language: !is_language,
    };
    found.add_unless(is_kind && is_language, of_track(track, how))
}

/// A difference of a track.
fn of_track(track: usize, how: How) -> Deviation
    ensures { result ≡ deviation (spec.at_track track) how }
{
    let at = Difference {
        what: Aspect::Track,
        section: 0,
        track,
        segment: 0,
    };
    Deviation { at, how }
}
