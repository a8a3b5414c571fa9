// How the work of a run ends, and how that is reported.
ghost use Rattle.std.specs.Prelude.{◌≡◌, ◌≤◌, [], Option};
ghost use Rattle.bridge_courses.specs.Executions.{TellsAs};

use crate::{Status, Verdict};
use bridge_io::{Fail, Sink, Text};

/// How the work of a run ends.
#[derive(Drop)]
pub enum Ending {
    /// With a verdict, and the last lines of the report.
    Ended(Verdict, Text),
    /// Usage error.
    Words,
    /// A read failed.
    ReadFault,
    /// The store failed while files were written.
    WriteFault,
    /// Out of memory.
    Memory,
    /// The sink failed at a line. Nothing more is reported.
    Cut(Fail),
}

impl Ending {
    ghost use Rattle.bridge_courses.specs.Executions.{line_of, status_of, status_untold};

    fn line(&self) -> &str
        ensures { result.now ≡ line_of self.now }
    {
        match self {
            Ending::Ended(_, line) => line.as_str(),
            Ending::Words => "words\n",
            Ending::ReadFault => "read fault\n",
            Ending::WriteFault => "write fault\n",
            Ending::Memory => "out of memory\n",
            Ending::Cut(_) => "",
        }
    }

    fn status(&self) -> Status
        ensures { result ≡ status_of self.now }
    {
        match self {
            Ending::Ended(verdict, _) => verdict.status(),
            Ending::Words => Status::Words,
            Ending::ReadFault => Status::ReadFault,
            Ending::WriteFault | Ending::Cut(Fail::Failed) => Status::WriteFault,
            Ending::Memory | Ending::Cut(Fail::Memory) => Status::Memory,
        }
    }

    /// The status where the sink fails at the ending's line.
    fn status_untold(&self) -> Status
        ensures { result ≡ status_untold self.now }
    {
        match self {
            Ending::Ended(Verdict::Done, _) => Status::WriteFault,
            _ => self.status(),
        }
    }
}

/// Writes the end of a run's work to the report, and returns the run's status. Where the sink fails at the line of a
/// successful command, that is `WriteFault`; where memory runs out for it, `Memory`; otherwise the ending's own. After
/// a sink that failed before, nothing is reported.
pub fn tell<P: Sink>(ending: &Ending, report: &mut P) -> Status
    ensures told { TellsAs ending.now result (P.faults report.old) (P.faults report.new) (P.written report.old) (P.written report.new) }
    ensures never_falls { P.faults report.old ≤ P.faults report.new }
{
    if matches!(ending, Ending::Cut(_)) {
        return ending.status();
    }
    match report.write(ending.line().as_bytes()) {
        Ok(()) => ending.status(),
        Err(Fail::Memory) => Status::Memory,
        Err(Fail::Failed) => ending.status_untold(),
    }
}
