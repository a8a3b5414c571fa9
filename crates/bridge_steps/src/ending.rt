// The locations of a command's files, and how a command ends.
ghost use Rattle.bridge_playlists.specs.Places as places;
ghost use Rattle.bridge_steps.specs.Endings.{IsPlaced, IsTold, IsWritten};

use bridge_courses::{Ending, Verdict};
use bridge_io::{Name, NoMemory, Text};
use bridge_playlists::{StorePlace, store_place_of};
use bridge_report::{Halt, Refusal, halted, refused};
use hls_writer::OutFault;
use std::alloc::Global;

/// The location of a command's file, under the URL of the store's root; or the command's end, where that is rejected.
pub fn place_in(alloc: Global, base: &Text, file: &Name) -> Result<StorePlace, Ending>
    ensures { IsPlaced (places.store_place_of base.now file.now) result }
{
    match store_place_of(alloc, base.as_str(), file) {
        Ok(Some(place)) => Ok(place),
        Ok(None) => Err(refused(alloc, "-", Refusal::Base)),
        Err(NoMemory) => Err(Ending::Memory),
    }
}

/// How a command ends that reports on what it read, with its verdict, or why a file isn't read.
pub fn told(alloc: Global, read: Result<(Verdict, Text), Halt>) -> Ending
    ensures { IsTold read result }
{
    match read {
        Ok((verdict, line)) => Ending::Ended(verdict, line),
        Err(halt) => halted(alloc, halt),
    }
}

/// How a command ends that has written its files, with a line, or that failed to write them.
pub fn written(line: Text, written: Result<(), OutFault>) -> Ending
    ensures { IsWritten line written result }
{
    match written {
        Ok(()) => Ending::Ended(Verdict::Done, line),
        Err(OutFault::WriteFault) => Ending::WriteFault,
        Err(OutFault::Memory) => Ending::Memory,
    }
}
