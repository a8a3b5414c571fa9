// How new segments continue after the last ones.
ghost use Rattle.std.specs.Prelude.{◌==◌, map, not};
ghost use Rattle.live_meaning.specs.Updates.{is_reset};
ghost use Rattle.live_meaning.specs.Refusals as rules;
ghost use Rattle.live_meaning.specs.States.{new_of};
ghost use Rattle.live_judge.specs.Coming.{IsNext, IsTrackNext, c_of, coming_of, t_of, timed_told, update_of};
ghost use Rattle.live_judge.specs.Faults.{Judges};
ghost use Rattle.live_judge.specs.Shown.{track_shown};

use crate::walk::Rule;
use crate::{Next, RefreshFault, TrackNext};

impl<'a> Next<'a> {
    /// Checks the times of the new segments, and how many are kept with them.
    pub(crate) fn check_times(&self) -> Result<(), RefreshFault>
        requires { IsNext self.now }
        ensures { Judges result (timed_told (is_reset (update_of self.entry.now.coming self.entry.now.now)) (coming_of self.entry.now)
            (map track_shown self.entry.now.tracks.now)) }
    {
        self.check_joints()?;
        self.check_each(Rule::Long)?;
        self.check_room()
    }

    /// Rejects a gap or an overlap after a last segment; before a reset, tracks that end in different Periods.
    #[tactic(auto, using(crate::proofs::Firsts::uneven_is))]
    fn check_joints(&self) -> Result<(), RefreshFault>
        requires { IsNext self.now }
        ensures { Judges result (rules.joint_told (is_reset (update_of self.entry.now.coming self.entry.now.now))
            (coming_of self.entry.now) (map track_shown self.entry.now.tracks.now)) }
    {
        if !self.coming.is_reset() {
            return self.check_each(Rule::Step);
        }
        if self.tracks.is_empty() {
            return Ok(());
        }
        let first = self.of(0).track.last();
        self.check_each(Rule::Even(first.place))
    }
}

impl TrackNext<'_> {
    pub(crate) fn check_step(&self) -> Result<(), RefreshFault>
        requires { IsTrackNext self.now }
        ensures { Judges result (rules.step_behind self.entry.now.index (t_of self.entry.now).last
            (new_of (c_of self.entry.now) self.entry.now.index (t_of self.entry.now))) }
    {
        let last = self.track.last();
        match self.first_new() {
            Some(new) if new.number == last.section && new.span.is_apart_from(last.end) => {
                Err(RefreshFault::Step {
                    track: self.index,
                    end: last.end,
                    start: new.span.start,
                })
            }
            _ => Ok(()),
        }
    }

    pub(crate) fn check_even(&self, place: usize) -> Result<(), RefreshFault>
        requires { IsTrackNext self.now }
        ensures { Judges result (rules.told_if (not (place == (t_of self.entry.now).place))
            (rules.Uneven self.entry.now.index place (t_of self.entry.now).place)) }
    {
        let last = self.track.last();
        if last.place != place {
            return Err(RefreshFault::Uneven {
                track: self.index,
                first: place as u64,
                last: last.place as u64,
            });
        }
        Ok(())
    }
}
