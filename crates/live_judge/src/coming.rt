// Updates of a session.
ghost use Rattle.std.specs.Prelude.{◌≡◌, ◌<◌, length, pos, slice_get, Some};

use crate::changed::place_of;
use crate::{LiveTrack, RefreshFault, Standing, TrackNext};
use iso_time::Instant;
use mpd_presentation::presentations_show_their_mpd;
use mpd_rules::Mpd;
use presentation::{Presentation, answers_allow_listings};

/// An update: a new version of the MPD; the same after versions that were missed; or only the time.
#[derive(Clone, Copy)]
pub enum Coming<'a> {
    /// A new version of the MPD.
    Refresh(&'a Mpd),
    /// A version of the MPD after some that were missed, so that a new section begins in all tracks.
    Reset(&'a Mpd),
    /// Only the time.
    Tick,
}

impl<'a> Coming<'a> {
    ghost use Rattle.std.specs.Prelude.{option_map};
    ghost use Rattle.mpd_rules.specs.Views.{segments_mpd};
    ghost use Rattle.live_meaning.specs.Updates.{is_reset, mpd_of};
    ghost use Rattle.live_judge.specs.Coming.{update_of};

    /// Its MPD.
    pub fn mpd(&self) -> Option<&'a Mpd>
        ensures { option_map (λ mpd. segments_mpd mpd.now) result ≡ mpd_of (update_of self.entry.now (pos 0)) }
    {
        match self {
            Coming::Refresh(mpd) | Coming::Reset(mpd) => Some(*mpd),
            Coming::Tick => None,
        }
    }

    /// Whether a new section begins in all tracks.
    pub fn is_reset(&self) -> bool
        ensures { result ≡ is_reset (update_of self.entry.now (pos 0)) }
    {
        matches!(self, Coming::Reset(_))
    }
}

/// An update with its presentation, and the state that it is checked against.
#[derive(Clone, Copy)]
pub struct Next<'a> {
    /// The state without the tracks.
    pub standing: &'a Standing,
    /// The tracks.
    pub tracks: &'a [LiveTrack],
    /// The update.
    pub coming: Coming<'a>,
    /// The presentation that would be in force, at any time.
    pub force: &'a Presentation,
    /// The time of the update.
    pub now: Instant,
    /// The index of the first Period of the presentation. The others have the next ones.
    pub place: usize,
    /// Whether it is known that no track has new segments. Where it is false, there may be some.
    pub is_quiet: bool,
}

impl<'a> Next<'a> {
    ghost use Rattle.std.specs.Prelude.{false, true, int_lt, IfOk};
    ghost use Rattle.presentation.specs.Presented.{is_finished, looked_at};
    ghost use Rattle.live_judge.specs.Coming.{Comes, IsNext, IsQuiet, IsTrackNext, told_before, update_of};
    ghost use Rattle.live_judge.specs.Faults.{Judges};
    ghost use Rattle.live_judge.specs.Shown.{in_force, state_shown};
    ghost use Rattle.live_judge.specs.Sound.{IsLive};

    /// Checks an update by all rules except those on its time, which [`Standing::check_now`] checks, and those on the URLs
    /// of new segments. The first error is returned. It allocates nothing.
    ///
    /// Requires that `check_now` returned `Ok`, and that the presentation is that of the MPD at the time of the update, or
    /// the one in force.
    pub fn judge(
        standing: &'a Standing,
        tracks: &'a [LiveTrack],
        coming: Coming<'a>,
        force: &'a Presentation,
        now: Instant,
    ) -> Result<Next<'a>, RefreshFault>
        requires live { IsLive standing.now tracks.now }
        requires unended { is_finished (in_force standing.now) ≡ false }
        requires forward { int_lt now standing.now.instant ≡ false }
        requires comes { Comes standing.now coming force.now now }
        ensures judged { Judges result (told_before (state_shown standing.now tracks.now) (update_of coming.entry now)
            (looked_at now force.now)) }
        ensures next { IfOk result (λ next. IsNext next × (next.standing.now ≡ standing.now) × (next.tracks.now ≡ tracks.now)
            × (next.coming ≡ coming.entry) × (next.force.now ≡ force.now) × (next.now ≡ now)) }
    {
        answers_allow_listings();
        presentations_show_their_mpd();
        force.check_ends(now)?;
        let place = place_of(standing, coming, force)?;
        let next = Next {
            standing,
            tracks,
            coming,
            force,
            now,
            place,
            is_quiet: false,
        };
        next.check_kept()?;
        let next = Next {
            is_quiet: next.has_nothing_new(),
            ..next
        };
        next.check_times()?;
        Ok(next)
    }

    /// Whether no track has new segments. It divides.
    fn has_nothing_new(&self) -> bool
        requires { IsNext self.now }
        ensures { result ≡ true → IsQuiet self.entry.now }
    {
        for track in 0..self.tracks.len() {
            if self.of(track).new_count() > 0 {
                return false;
            }
        }
        true
    }

    /// The update of a track.
    ///
    /// Requires that the track is in range.
    pub fn of(&self, track: usize) -> TrackNext<'_>
        requires next { IsNext self.now }
        requires track { track < length self.now.tracks.now }
        ensures is { IsTrackNext result }
        ensures next { result.next.now ≡ self.entry.now }
        ensures index { result.index ≡ track }
        ensures there { slice_get self.entry.now.tracks.now track ≡ Some result.track.now }
    {
        TrackNext {
            next: self,
            track: &self.tracks[track],
            index: track,
        }
    }
}
