// Which calls of an object in memory fail.
ghost use Rattle.std.specs.Prelude.{◌≡◌, ◌≤◌, ◌==◌};
ghost use Rattle.std.specs.Bool.{OnTrue};
ghost use Rattle.std.specs.List.{list_any};
ghost use Rattle.bridge_io.specs.Fault.{Rose};
ghost use Rattle.bridge_ends.specs.Schedule.{fails_next, Counts, IsFresh};

use crate::CallList;

/// Counts calls from 0, of which those listed fail, and the failures. The count of calls stops at 2^128 - 1, which no
/// list can name.
#[derive(Drop)]
pub struct Schedule {
    failing: CallList,
    calls: u128,
    faults: u64,
}

impl Schedule {
    pub fn new(failing: CallList) -> Schedule
        ensures failing { result.failing ≡ failing }
        ensures fresh { IsFresh result }
    {
        Schedule {
            failing,
            calls: 0,
            faults: 0,
        }
    }

    /// Counts a call, and returns whether it fails.
    pub fn fails(&mut self) -> bool
        ensures listed { result ≡ fails_next self.old }
        ensures counts { Counts self.old self.new }
        ensures never_falls { self.old.faults ≤ self.new.faults }
        ensures rose { OnTrue result (Rose self.old.faults self.new.faults) }
    {
        let fails = is_listed(self.failing.as_slice(), self.calls);
        self.calls = self.calls.saturating_add(1);
        if fails {
            self.faults = self.faults.saturating_add(1);
        }
        fails
    }
}

fn is_listed(calls: &[u64], call: u128) -> bool
    ensures { result ≡ list_any (λ listed. listed == call) calls.now }
{
    calls.iter().any(|listed| u128::from(*listed) == call)
}
