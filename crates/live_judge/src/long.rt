// Segments that are longer than the target duration.
ghost use Rattle.std.specs.Prelude.{◌≡◌, ◌≤◌, ◌<◌, ◌^◌, List, ℕ, Option, filter, length, map, slice_get};
ghost use Rattle.live_meaning.specs.Updates.{unit_of};
ghost use Rattle.live_meaning.specs.States.{new_durations};
ghost use Rattle.live_judge.specs.Coming.{IsJoined, IsTrackNext, c_of, p_of, t_of};
ghost use Rattle.live_judge.specs.Faults.{Judges};
ghost use Rattle.live_judge.specs.New.{durations_in};
ghost use Rattle.live_judge.specs.Long.{is_long, longs_told};

use crate::times::NewRun;
use crate::{RefreshFault, TrackNext};

impl TrackNext<'_> {
    /// Rejects a new segment that is longer than the target duration.
    #[tactic(auto, using(crate::proofs::Walks::in_order))]
    pub(crate) fn check_long(&self) -> Result<(), RefreshFault>
        requires next { IsTrackNext self.now }
        requires joined { IsJoined self.now.next.now }
        ensures { Judges result (longs_told (unit_of (c_of self.entry.now).terms) (c_of self.entry.now).target
            (new_durations (c_of self.entry.now) self.entry.now.index (t_of self.entry.now))) }
    {
        for section in 0..self.next.force.sections().len() {
            self.check_long_in(section)?;
        }
        Ok(())
    }

    fn check_long_in(&self, section: usize) -> Result<(), RefreshFault>
        requires next { IsTrackNext self.now }
        requires section { section < length (p_of self.now.next.now).sections }
        requires joined { IsJoined self.now.next.now }
        ensures { Judges result (longs_told (unit_of (c_of self.entry.now).terms) (c_of self.entry.now).target
            (durations_in (c_of self.entry.now) self.entry.now.next.now.place (t_of self.entry.now) self.entry.now.index section)) }
    {
        let Some(mut times) = self.times(section) else {
            return Ok(());
        };
        let target = self.next.standing.target;
        let unit = self.next.standing.digits.unit();
        while let Some(run) = times.next_run() {
            if let Some(printed) = run.first_long(unit, target) {
                return Err(RefreshFault::LongSegment { target, printed });
            }
        }
        Ok(())
    }
}

impl NewRun {
    ghost use Rattle.live_judge.specs.Times.{IsRun};

    /// The first of all durations that is longer than the target duration. Each of equally long segments is printed as
    /// long as the longest one, or one unit less.
    fn first_long(&self, unit: u32, target: u64) -> Option<u64>
        requires { 1 ≤ unit }
        ensures { (ds : List ℕ) → IsRun ds self.now → slice_get (filter (is_long unit target) ds) 0 ≡ result }
    {
        if is_long(self.first, unit, target) {
            return Some(self.first);
        }
        if !is_long(self.others.longest, unit, target) {
            return None;
        }
        if is_long(self.second, unit, target) {
            return Some(self.second);
        }
        Some(self.others.longest)
    }
}

/// Whether a duration, rounded to the nearest second with halves up, is longer than the target duration.
#[tactic(auto, using(crate::proofs::Longs::long_is))]
fn is_long(printed: u64, unit: u32, target: u64) -> bool
    requires { 1 ≤ unit }
    ensures { result ≡ is_long unit target printed }
{
    (2 * u128::from(target) + 1) * u128::from(unit) <= 2 * u128::from(printed)
}
