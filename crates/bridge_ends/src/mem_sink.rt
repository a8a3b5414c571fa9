// A sink in memory.
ghost use Rattle.std.specs.Prelude.{◌≡◌, ◌↔◌, [], Some, OnOk, OnErr, IsErrOf, IsTrue};
ghost use Rattle.bridge_io.specs.declared.outside.Fail.TheVariants.{Failed};
ghost use Rattle.bridge_io.specs.Fault.{HasCause};
ghost use Rattle.bridge_io.specs.Outside.{Appends, AppendsFront};
ghost use Rattle.bridge_ends.specs.Schedule.{fails_next, Counts, IsFresh};
ghost use Rattle.bridge_ends.specs.InMemory.{written_to, writes_to};

use crate::CallList;
use crate::schedule::Schedule;
use bridge_io::{Fail, Sink};
use std::alloc::Global;

/// Memory as a sink. The listed calls of `write` fail, counted from 0.
#[derive(Drop)]
pub struct MemSink {
    written: Vec<u8>,
    schedule: Schedule,
}

impl MemSink {
    /// An empty sink. It allocates nothing.
    pub fn new(alloc: Global, failing: CallList) -> MemSink
        ensures empty { written_to result ≡ [] }
        ensures failing { (writes_to result).failing ≡ failing }
        ensures fresh { IsFresh (writes_to result) }
    {
        MemSink {
            written: Vec::new(alloc),
            schedule: Schedule::new(failing),
        }
    }

    /// The bytes written so far.
    pub fn bytes(&self) -> &[u8]
        ensures { result.now ≡ written_to self.now }
    {
        self.written.as_slice()
    }
}

impl Sink for MemSink {
    ghost written = { λ s. Some (written_to s) };

    ghost faults = { λ s. (writes_to s).faults };

    fn write(&mut self, piece: &[u8]) -> Result<(), Fail>
        ensures ok { OnOk result (Appends piece.now (Some (written_to self.old)) (Some (written_to self.new))) }
        ensures err { OnErr result (AppendsFront piece.now (Some (written_to self.old)) (Some (written_to self.new))) }
        ensures cause { HasCause Failed (writes_to self.old).faults (writes_to self.new).faults result }
        ensures listed { IsErrOf result Failed ↔ IsTrue (fails_next (writes_to self.old)) }
        ensures counts { Counts (writes_to self.old) (writes_to self.new) }
    {
        if self.schedule.fails() {
            return Err(Fail::Failed);
        }
        self.written
            .extend_from_slice(piece)
            .map_err(|_| Fail::Memory)
    }
}
