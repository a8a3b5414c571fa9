// A source in memory.
ghost use Rattle.std.specs.Prelude.{◌≡◌, ◌≤◌, ◌<◌, ◌↔◌, length, drop, Some, IfOk, IsErrOf, IsTrue};
ghost use Rattle.bridge_io.specs.Outside.{Takes};
ghost use Rattle.bridge_io.specs.declared.outside.Fail.TheVariants.{Failed};
ghost use Rattle.bridge_io.specs.Fault.{HasCause};

use crate::CallList;
use crate::fill::fill;
use crate::schedule::Schedule;
use bridge_io::{Bytes, Fail, Source};

/// Bytes in memory as a source. The listed calls of `read` fail, counted from 0, and no others.
#[derive(Drop)]
pub struct MemSource {
    bytes: Bytes,
    at: usize,
    schedule: Schedule,
    ghost within: { at ≤ length bytes },
}

impl MemSource {
    ghost use Rattle.bridge_ends.specs.Schedule.{IsFresh};
    ghost use Rattle.bridge_ends.specs.InMemory.{left_in, reads_from};

    /// A source of these bytes. It allocates nothing.
    pub fn new(bytes: Bytes, failing: CallList) -> MemSource
        ensures bytes { left_in result ≡ bytes }
        ensures failing { (reads_from result).failing ≡ failing }
        ensures fresh { IsFresh (reads_from result) }
    {
        MemSource {
            bytes,
            at: 0,
            schedule: Schedule::new(failing),
        }
    }
}

impl Source for MemSource {
    ghost use Rattle.bridge_ends.specs.Schedule.{fails_next, Counts};
    ghost use Rattle.bridge_ends.specs.InMemory.{left_in, reads_from};

    ghost remaining = { λ s. Some (left_in s) };

    ghost faults = { λ s. (reads_from s).faults };

    fn read(&mut self, buf: &mut [u8]) -> Result<usize, Fail>
        requires { 0 < length buf.old }
        ensures bound { IfOk result (λ n. n ≤ length buf.new) }
        ensures bytes { Takes result buf.new (Some (left_in self.old)) (Some (left_in self.new)) }
        ensures cause { HasCause Failed (reads_from self.old).faults (reads_from self.new).faults result }
        ensures listed { IsErrOf result Failed ↔ IsTrue (fails_next (reads_from self.old)) }
        ensures memory { IsErrOf result Fail.Memory → ⊥ }
        ensures counts { Counts (reads_from self.old) (reads_from self.new) }
    {
        if self.schedule.fails() {
            return Err(Fail::Failed);
        }
        let n = fill(buf, &self.bytes.as_slice()[self.at..]);
        self.at += n;
        Ok(n)
    }
}
