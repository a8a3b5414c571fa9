//! `bridge_publish` as a program: it reads and writes files under the current folder, and reports on standard output.
#![tactic(auto)]

use bridge_ends::{FolderStore, StdSink, held_descriptors, words};
use bridge_io::NoMemory;
use publish_core::{Status, publish};
use std::io;
use std::process::ExitCode;

fn main(rt: HostRuntime) -> ExitCode {
    let status = start(rt).unwrap_or(Status::Memory);
    ExitCode::from(status.number())
}

/// Runs the program over the real files. The error is out of memory for the words or for these objects.
fn start(rt: HostRuntime) -> Result<Status, NoMemory> {
    let alloc = rt.alloc();
    let _held = held_descriptors(&rt);
    let words = words(&rt, alloc)?;
    let mut store = FolderStore::new(rt, alloc, ".")?;
    let mut report = StdSink::new(io::writer(&rt));
    Ok(publish(alloc, words.as_slice(), &mut store, &mut report))
}
