//! The manifest bridge as a program: it reads and writes files under the current directory, and reports on standard
//! output.
#![tactic(auto)]

ghost use Rattle.std.specs.Prelude.{◌≡◌, ◌<◌};

use bridge_core::Status;
use bridge_ends::{FolderStore, StdSink, StdSource, held_descriptors, words};
use bridge_explained::{Overheard, explained_bridge};
use bridge_io::{Ledger, NoMemory, Steps};
use std::io;
use std::marker::Brand;
use std::process::ExitCode;
use std::sync::ledger::Blank;

fn main(rt: HostRuntime) -> ExitCode {
    let status = start::<Brand>(rt, Blank::new(1)).unwrap_or(Status::Memory);
    ExitCode::from(status.number())
}

/// Runs the command over the real files and streams. The error means out of memory, for the words or for these
/// objects.
fn start<L: Ledger>(rt: HostRuntime, blank: Blank) -> Result<Status, NoMemory>
    requires name { blank.name ≡ L.name }
    requires parts { blank.parts ≡ L.parts }
    requires some { 0 < blank.parts }
{
    let alloc = rt.alloc();
    let _held = held_descriptors(&rt);
    let words = words(&rt, alloc)?;
    let mut input = StdSource::new(rt.reader());
    let mut store = FolderStore::new(rt, alloc, ".")?;
    let mut report = Overheard::new(alloc, StdSink::new(io::writer(&rt)));
    let mut steps = Steps::<L>::new(blank);
    Ok(explained_bridge(
        alloc,
        words.as_slice(),
        &mut input,
        &mut store,
        &mut report,
        &mut steps,
    ))
}
