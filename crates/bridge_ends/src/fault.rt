// Errors of the operating system.
ghost use Rattle.std.specs.Prelude.{◌≡◌, ◌≤◌};
ghost use Rattle.bridge_io.specs.declared.outside.Fail.TheVariants.{Failed};
ghost use Rattle.bridge_io.specs.Fault.{Rose};

use bridge_io::Fail;
use std::io;
use std::io::ErrorKind;

/// Maps an I/O error. Each one is counted, except out of memory.
pub fn counted(faults: &mut u64, error: io::Error) -> Fail
    ensures never_falls { faults.old ≤ faults.new }
    ensures rose { result ≡ Failed → Rose faults.old faults.new }
{
    if error.kind() == ErrorKind::OutOfMemory {
        return Fail::Memory;
    }
    *faults = faults.saturating_add(1);
    Fail::Failed
}
