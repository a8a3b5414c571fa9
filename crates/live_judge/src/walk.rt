// Rules that are checked for each track in turn.
ghost use Rattle.std.specs.Prelude.{map};
ghost use Rattle.live_judge.specs.Coming.{IsNext, IsTrackNext};
ghost use Rattle.live_judge.specs.Faults.{Judges};
ghost use Rattle.live_judge.specs.Shown.{track_shown};
ghost use Rattle.live_judge.specs.Walk.{IsReady, told_at, told_by};

use crate::{Next, RefreshFault, TrackNext};

/// A rule for a track.
#[derive(Clone, Copy)]
pub(crate) enum Rule {
    /// The update's MPD has its kept segments with the same times.
    Rewritten,
    /// There is no gap or overlap after its last segment.
    Step,
    /// It ends in the Period with this index.
    Even(usize),
    /// None of its new segments is longer than the target duration.
    Long,
    /// Not too many of its segments are kept.
    Room,
}

impl Next<'_> {
    /// Checks a rule for each track in turn.
    #[tactic(auto, using(crate::proofs::Firsts::track_by_track), unfolding(crate::specs::Walk::each))]
    pub(crate) fn check_each(&self, rule: Rule) -> Result<(), RefreshFault>
        requires next { IsNext self.now }
        requires ready { IsReady rule self.now }
        ensures { Judges result (told_by rule self.entry.now 0 (map track_shown self.entry.now.tracks.now)) }
    {
        for track in 0..self.tracks.len() {
            self.of(track).check(rule)?;
        }
        Ok(())
    }
}

impl TrackNext<'_> {
    #[tactic(auto, unfolding(crate::specs::Walk::told_at))]
    fn check(&self, rule: Rule) -> Result<(), RefreshFault>
        requires next { IsTrackNext self.now }
        requires ready { IsReady rule self.now.next.now }
        ensures { Judges result (told_at rule self.entry.now.next.now self.entry.now.index self.entry.now.track.now) }
    {
        match rule {
            Rule::Rewritten => self.check_rewritten(),
            Rule::Step => self.check_step(),
            Rule::Even(place) => self.check_even(place),
            Rule::Long => self.check_long(),
            Rule::Room => self.check_room(),
        }
    }
}
