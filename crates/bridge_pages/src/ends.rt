// The environment of a run in memory: no input, a store and a sink without I/O errors.
ghost use Rattle.std.specs.Prelude.{◌≡◌, ◌≤◌, ◌<◌, ◌++◌, [], ◌∷◌, length, is_some, None, Some, IfOk, OnOk, OnErr};
ghost use Rattle.std.specs.Option.{option_copied};
ghost use Rattle.bridge_ends.specs.InMemory.{files_in, written_to};
ghost use Rattle.bridge_io.specs.Outside.{put};
ghost use Rattle.bridge_pages.specs.Files.{files_at, report_at};
ghost use Rattle.bridge_pages.specs.Runs.{no_files};

use bridge_ends::{CallList, MemSink, MemStore};
use bridge_io::{Bytes, Fail, Name, NoMemory, Sink, Source, Store};
use std::alloc::Global;

/// An empty input.
#[derive(Drop)]
pub struct NoInput;

impl Source for NoInput {
    ghost remaining = { λ _. Some [] };

    ghost faults = { λ _. 0 };

    fn read(&mut self, _: &mut [u8]) -> Result<usize, Fail> {
        Ok(0)
    }
}

/// Files in memory. A call fails only where memory runs out.
#[derive(Drop)]
pub struct PageStore {
    files: MemStore,
}

impl PageStore {
    /// A store without files. It allocates nothing.
    pub fn new(alloc: Global) -> PageStore
        ensures { files_at result ≡ no_files }
    {
        PageStore {
            files: MemStore::new(alloc, CallList::new(alloc), CallList::new(alloc)),
        }
    }

    /// Sets a file. An error leaves the files as they were.
    pub fn put(&mut self, name: Name, bytes: Bytes) -> Result<(), NoMemory>
        ensures ok { OnOk result (files_at self.new ≡ put name bytes (files_at self.old)) }
        ensures err { OnErr result (files_at self.new ≡ files_at self.old) }
    {
        self.files.put(name, bytes)
    }

    /// The bytes of a file; `None` exactly where there is no file of this name.
    pub fn file(&self, name: &Name) -> Option<&[u8]>
        ensures { option_copied result ≡ files_at self.now name.now }
    {
        self.files.file(name)
    }
}

impl Store for PageStore {
    ghost files = { λ s. Some (files_at s) };

    ghost read_faults = { λ _. 0 };

    ghost write_faults = { λ _. 0 };

    fn has(&mut self, name: &Name) -> Result<bool, Fail> {
        match self.files.has(name) {
            Ok(found) => Ok(found),
            Err(_) => Err(Fail::Memory),
        }
    }

    fn read_at(&mut self, name: &Name, at: u64, buf: &mut [u8]) -> Result<usize, Fail> {
        match self.files.read_at(name, at, buf) {
            Ok(count) => Ok(count),
            Err(_) => Err(Fail::Memory),
        }
    }

    fn create(&mut self, name: &Name) -> Result<(), Fail> {
        match self.files.create(name) {
            Ok(()) => Ok(()),
            Err(_) => Err(Fail::Memory),
        }
    }

    fn append(&mut self, name: &Name, piece: &[u8]) -> Result<(), Fail> {
        match self.files.append(name, piece) {
            Ok(()) => Ok(()),
            Err(_) => Err(Fail::Memory),
        }
    }
}

/// A report in memory. A call fails only where memory runs out.
#[derive(Drop)]
pub struct Report {
    text: MemSink,
}

impl Report {
    /// An empty report. It allocates nothing.
    pub fn new(alloc: Global) -> Report
        ensures { report_at result ≡ [] }
    {
        Report {
            text: MemSink::new(alloc, CallList::new(alloc)),
        }
    }

    /// What was reported so far.
    pub fn text(&self) -> &[u8]
        ensures { result.now ≡ report_at self.now }
    {
        self.text.bytes()
    }
}

impl Sink for Report {
    ghost written = { λ s. Some (report_at s) };

    ghost faults = { λ _. 0 };

    fn write(&mut self, piece: &[u8]) -> Result<(), Fail> {
        match self.text.write(piece) {
            Ok(()) => Ok(()),
            Err(_) => Err(Fail::Memory),
        }
    }
}
