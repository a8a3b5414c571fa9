// How a command ends whose files aren't read.
ghost use Rattle.std.specs.Prelude.{◌≡◌, ◌⊎◌};
ghost use Rattle.bridge_courses.specs.declared.status.Status.TheVariants as status;
ghost use Rattle.bridge_courses.specs.Executions.{status_of};
ghost use Rattle.bridge_report.specs.Outcomes.{IsHalt, IsRefusal};
ghost use Rattle.bridge_report.specs.Refusals.{refusal_line};

use crate::reading::Halt;
use crate::refusal::{Refusal, refusal_line};
use bridge_courses::{Ending, Verdict};
use bridge_io::NoMemory;
use std::alloc::Global;

/// How a run ends whose input file is rejected; `-` stands for no file.
pub fn refused(alloc: Global, file: &str, refusal: Refusal) -> Ending
    ensures line { IsRefusal (refusal_line file.now refusal) result }
    ensures status { (status_of result ≡ status.Refused) ⊎ (status_of result ≡ status.Memory) }
{
    match refusal_line(alloc, file, refusal) {
        Ok(line) => Ending::Ended(Verdict::Refused, line),
        Err(NoMemory) => Ending::Memory,
    }
}

/// How a run ends whose files aren't read.
pub fn halted(alloc: Global, halt: Halt) -> Ending
    ensures { IsHalt halt result }
{
    match halt {
        Halt::Refused(file, refusal) => refused(alloc, file.as_str(), refusal),
        Halt::ReadFault => Ending::ReadFault,
        Halt::Memory => Ending::Memory,
    }
}
