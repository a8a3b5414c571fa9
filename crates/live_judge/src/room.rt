// How many segments are kept.
ghost use Rattle.std.specs.Prelude.{[], ◌∷◌, map};
ghost use Rattle.live_meaning.specs.Refusals.{count_kept, counts_kept, over_in_all, over_in_track, window_told};
ghost use Rattle.live_meaning.specs.States.{kept_and_new};
ghost use Rattle.live_judge.specs.Coming.{IsJoined, IsNext, IsTrackNext, c_of, coming_of, t_of};
ghost use Rattle.live_judge.specs.Faults.{Judges};
ghost use Rattle.live_judge.specs.Shown.{track_shown};

use crate::walk::Rule;
use crate::{Next, RefreshFault, TrackNext};

/// The most segments of a track that are kept.
const TRACK_LIMIT: u128 = 20_000;

/// The most segments of all tracks that are kept.
const LIMIT: u128 = 500_000;

impl Next<'_> {
    /// Rejects too many kept segments of a track, or of all tracks.
    pub(crate) fn check_room(&self) -> Result<(), RefreshFault>
        requires next { IsNext self.now }
        requires joined { IsJoined self.now }
        ensures { Judges result (window_told (counts_kept (coming_of self.entry.now) 0 (map track_shown self.entry.now.tracks.now))) }
    {
        self.check_each(Rule::Room)?;
        self.check_all()
    }

    #[tactic(auto, using(crate::proofs::Walks::in_lists))]
    fn check_all(&self) -> Result<(), RefreshFault>
        requires next { IsNext self.now }
        requires joined { IsJoined self.now }
        ensures { Judges result (over_in_all 0 0 (counts_kept (coming_of self.entry.now) 0 (map track_shown self.entry.now.tracks.now))) }
    {
        let mut count: u128 = 0;
        for track in 0..self.tracks.len() {
            count += self.of(track).kept_count();
            if count > LIMIT {
                return Err(RefreshFault::Window { track, count });
            }
        }
        Ok(())
    }
}

impl TrackNext<'_> {
    pub(crate) fn check_room(&self) -> Result<(), RefreshFault>
        requires next { IsTrackNext self.now }
        requires joined { IsJoined self.now.next.now }
        ensures { Judges result (over_in_track self.entry.now.index
            (count_kept (c_of self.entry.now) (kept_and_new (c_of self.entry.now) self.entry.now.index (t_of self.entry.now)) ∷ [])) }
    {
        let count = self.kept_count();
        if count > TRACK_LIMIT {
            return Err(RefreshFault::Window {
                track: self.index,
                count,
            });
        }
        Ok(())
    }
}
