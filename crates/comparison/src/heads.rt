// The kinds and languages of the tracks.
ghost use Rattle.std.specs.Prelude.{◌≡◌, ◌==◌, bytes_eq, option_map, length};
ghost use Rattle.std.specs.Option.{option_eq};
ghost use Rattle.meaning.specs.Differences.{in_all, in_track, is_same_kind};
ghost use Rattle.presentation.specs.Meanings.{language_of};
ghost use Rattle.comparison.specs.Comparing as spec;

use bridge_io::Kind;
use meaning::{Aspect, Difference};
use presentation::{Presentation, Track};

/// The first difference of the numbers of sections and of tracks, and of the tracks' kinds and languages.
pub(crate) fn heads_difference(mpd: &Presentation, playlists: &Presentation) -> Option<Difference>
    ensures { result ≡ spec.heads_difference mpd.now playlists.now }
{
    if sections_meant(mpd) != sections_meant(playlists) {
        return Some(in_track(0, Aspect::Sections));
    }
    if mpd.tracks().len() != playlists.tracks().len() {
        return Some(in_track(0, Aspect::Tracks));
    }
    tracks_difference(mpd.tracks().as_slice(), playlists.tracks().as_slice())
}

/// A difference of a track.
fn in_track(track: usize, what: Aspect) -> Difference
    ensures { result ≡ in_track track what }
{
    Difference {
        what,
        section: 0,
        track,
        segment: 0,
    }
}

/// How many sections of a presentation have content of some track; none where there is no track.
fn sections_meant(presentation: &Presentation) -> usize
    ensures { result ≡ spec.sections_meant presentation.now }
{
    if presentation.tracks().is_empty() {
        return 0;
    }
    presentation.sections().len()
}

/// The first track that differs, where both have as many tracks.
fn tracks_difference(mpd: &[Track], playlists: &[Track]) -> Option<Difference>
    requires { length mpd.now ≡ length playlists.now }
    ensures { result ≡ spec.tracks_difference 0 mpd.now playlists.now }
{
    for (track, mine) in mpd.iter().enumerate() {
        if !is_same_track(mine, &playlists[track]) {
            return Some(in_track(track, Aspect::Track));
        }
    }
    None
}

fn is_same_track(mine: &Track, theirs: &Track) -> bool
    ensures { result ≡ spec.is_same_track mine.now theirs.now }
{
    is_same_kind(mine.kind, theirs.kind) && is_same_language(language_of(mine), language_of(theirs))
}

/// Whether two tracks are of one kind.
pub fn is_same_kind(mine: Kind, theirs: Kind) -> bool
    ensures { result ≡ is_same_kind mine theirs }
{
    matches!(
        (mine, theirs),
        (Kind::Video, Kind::Video) | (Kind::Audio, Kind::Audio) | (Kind::Text, Kind::Text)
    )
}

/// The language, which a video track doesn't have.
pub fn language_of(track: &Track) -> Option<&str>
    ensures { option_map (λ language. language.now) result ≡ language_of track.now.kind track.now.language }
{
    match (track.kind, &track.language) {
        (Kind::Audio | Kind::Text, Some(language)) => Some(language.as_str()),
        _ => None,
    }
}

/// Whether two languages are the same, or none is known of either track.
pub fn is_same_language(mine: Option<&str>, theirs: Option<&str>) -> bool
    ensures { result ≡ option_eq bytes_eq (option_map (λ language. language.now) mine.entry)
        (option_map (λ language. language.now) theirs.entry) }
{
    match (mine, theirs) {
        (Some(mine), Some(theirs)) => mine == theirs,
        (None, None) => true,
        _ => false,
    }
}
