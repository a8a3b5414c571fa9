// A store whose files can take each other's place at once.
ghost use Rattle.std.specs.Prelude.{◌≡◌, ◌↔◌, Some, OnOk, OnErr, IsErrOf, IsTrue};
ghost use Rattle.std.specs.BTreeMap.{get_by_text};
ghost use Rattle.bridge_ends.specs.Schedule.{fails_next, Counts};
ghost use Rattle.bridge_ends.specs.InMemory.{files_in, reads_in, writes_in};
ghost use Rattle.bridge_io.specs.declared.outside.Fail.TheVariants.{Failed};
ghost use Rattle.bridge_io.specs.Fault.{HasCause};
ghost use Rattle.bridge_io.specs.Outside.{Changes};
ghost use Rattle.bridge_ends.specs.Moved.{moved, without};

use crate::fault::counted;
use crate::folder_store::path_of;
use crate::mem_store::{Files as MemFiles, set};
use crate::{FolderStore, MemStore};
use bridge_io::{Bytes, Fail, Name, NoMemory, Store};
use std::alloc::Global;
use std::fs;
use std::rt::Files;

/// A store whose files can take each other's place at once: whoever reads a name finds the one or the other whole.
pub trait Shelf: Store {
    /// Puts a file in the place of another, and takes its own name away. A failure leaves both as they were.
    fn put_in_place(&mut self, from: &Name, to: &Name) -> Result<(), Fail>
        ensures ok { OnOk result (Changes (moved from.now to.now) (Self.files self.old) (Self.files self.new)) }
        ensures err { OnErr result (Self.files self.new ≡ Self.files self.old) }
        ensures cause { HasCause Failed (Self.write_faults self.old) (Self.write_faults self.new) result }
        ensures reads { Self.read_faults self.new ≡ Self.read_faults self.old };
}

impl<R: Files> Shelf for FolderStore<R> {
    /// Makes one rename, which no crash of the program leaves half done.
    fn put_in_place(&mut self, from: &Name, to: &Name) -> Result<(), Fail> {
        let from = path_of(self.alloc, &self.folder, from)?;
        let to = path_of(self.alloc, &self.folder, to)?;
        (self.source, self.end) = (None, None);
        match fs::rename(&self.files, from.as_str(), to.as_str()) {
            Ok(()) => Ok(()),
            Err(error) => Err(counted(&mut self.write_faults, error)),
        }
    }
}

impl Shelf for MemStore {
    fn put_in_place(&mut self, from: &Name, to: &Name) -> Result<(), Fail>
        ensures ok { OnOk result (Changes (moved from.now to.now) (Some (files_in self.old)) (Some (files_in self.new))) }
        ensures err { OnErr result (files_in self.new ≡ files_in self.old) }
        ensures cause { HasCause Failed (writes_in self.old).faults (writes_in self.new).faults result }
        ensures listed { IsErrOf result Failed ↔ IsTrue (fails_next (writes_in self.old)) }
        ensures counts { Counts (writes_in self.old) (writes_in self.new) }
        ensures reads { reads_in self.new ≡ reads_in self.old }
    {
        if self.writes.fails() {
            return Err(Fail::Failed);
        }
        put_in_place(self.alloc, &mut self.files, from.as_str(), to.as_str())?;
        Ok(())
    }
}

/// Puts a file in the place of another, which goes where there is no such file. An error leaves the files as they were.
fn put_in_place(alloc: Global, files: &mut MemFiles, from: &str, to: &str) -> Result<(), NoMemory>
    ensures ok { OnOk result (get_by_text files.new ≡ moved from.now to.now (get_by_text files.old)) }
    ensures err { OnErr result (get_by_text files.new ≡ get_by_text files.old) }
{
    if from == to {
        return Ok(());
    }
    let Some(bytes) = files.get(from) else {
        unset(files, to);
        return Ok(());
    };
    let mut copy = Bytes::new(alloc);
    copy.extend(bytes.as_slice())?;
    set(alloc, files, to, copy)?;
    unset(files, from);
    Ok(())
}

fn unset(files: &mut MemFiles, name: &str)
    ensures { get_by_text files.new ≡ without name.now (get_by_text files.old) }
{
    files.remove(name);
}
