// The playlists of the last accepted snapshot.
ghost use Rattle.std.specs.Prelude.{◌≡◌};
ghost use Rattle.hls_follow.specs.Kept.{medias_by};

use crate::state::FollowedTrack;
use hls_media::Media;
use std::marker::Model;

/// The playlists of the last accepted snapshot, by the master's tracks, of which some aren't kept.
///
/// In a contract it is the list of those that are left.
#[derive(Drop)]
pub struct FormerMedias<'a> {
    kept: &'a [bool],
    tracks: &'a [FollowedTrack],
}

impl<'a> Model for FormerMedias<'a> {
    ghost use Rattle.std.specs.Prelude.{List, Option};
    ghost use Rattle.hls_media.specs.declared.media.Media.{Media};
    ghost use Rattle.hls_follow.specs.Kept.{medias_by};

    ghost Value = { List (Option Media) };

    ghost view = { λ f. medias_by f.kept.now f.tracks.now };
}

impl<'a> FormerMedias<'a> {
    ghost use Rattle.std.specs.Prelude.{drop};
    ghost use Rattle.std.specs.Option.{option_copied};
    ghost use Rattle.hls_follow.specs.Kept.{first_media};

    /// Those of the kept tracks among the master's.
    pub(crate) fn of(kept: &'a [bool], tracks: &'a [FollowedTrack]) -> FormerMedias<'a>
        ensures { result ≡ medias_by kept.now tracks.now }
    {
        FormerMedias { kept, tracks }
    }

    /// The playlist of the next track, if there is one.
    pub fn next(&mut self) -> Option<&'a Media>
        ensures media { option_copied result ≡ first_media self.old }
        ensures later { self.new ≡ drop 1 self.old }
    {
        let (kept, later) = self.kept.split_first()?;
        self.kept = later;
        if !*kept {
            return None;
        }
        let (track, later) = self.tracks.split_first()?;
        self.tracks = later;
        Some(&track.media)
    }
}
