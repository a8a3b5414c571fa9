// A store in memory.
ghost use Rattle.std.specs.Prelude.{◌≡◌, ◌≤◌, ◌<◌, ◌↔◌, [], length, is_some, None, Some, IfOk, IfSome, OnOk, OnErr, IsErrOf, IsTrue};
ghost use Rattle.std.specs.Option.{option_copied};
ghost use Rattle.std.specs.BTreeMap.{get_by_text};
ghost use Rattle.bridge_io.specs.declared.outside.Fail.TheVariants.{Failed};
ghost use Rattle.bridge_io.specs.Fault.{HasCause};
ghost use Rattle.bridge_io.specs.Outside.{content_of, put, extended, Changes, MayEmpty, MayExtend, ReadsAt};
ghost use Rattle.bridge_ends.specs.Schedule.{fails_next, Counts, IsFresh};
ghost use Rattle.bridge_ends.specs.InMemory.{files_in, reads_in, writes_in};

use crate::CallList;
use crate::fill::fill;
use crate::schedule::Schedule;
use bridge_io::{Bytes, Fail, Name, NoMemory, Store};
use std::alloc::Global;
use std::collections::BTreeMap;

/// Files in memory as a store. The calls of `has` and `read_at` in one list fail, and the calls of `create`, `append` and
/// `put_in_place` in a second list, each counted from 0.
#[derive(Drop)]
pub struct MemStore {
    pub(crate) alloc: Global,
    pub(crate) files: Files,
    reads: Schedule,
    pub(crate) writes: Schedule,
}

impl MemStore {
    /// A store without files. It allocates nothing.
    pub fn new(alloc: Global, failing_reads: CallList, failing_writes: CallList) -> MemStore
        ensures empty { (name : _) → files_in result name ≡ None }
        ensures failing_reads { (reads_in result).failing ≡ failing_reads }
        ensures failing_writes { (writes_in result).failing ≡ failing_writes }
        ensures fresh { IsFresh (reads_in result) × IsFresh (writes_in result) }
    {
        MemStore {
            alloc,
            files: BTreeMap::new(alloc),
            reads: Schedule::new(failing_reads),
            writes: Schedule::new(failing_writes),
        }
    }

    /// Sets a file. An error leaves the files as they were.
    pub fn put(&mut self, name: Name, bytes: Bytes) -> Result<(), NoMemory>
        ensures ok { OnOk result (files_in self.new ≡ put name bytes (files_in self.old)) }
        ensures err { OnErr result (files_in self.new ≡ files_in self.old) }
        ensures reads { reads_in self.new ≡ reads_in self.old }
        ensures writes { writes_in self.new ≡ writes_in self.old }
    {
        set(self.alloc, &mut self.files, name.as_str(), bytes)
    }

    /// The bytes of a file; `None` exactly where there is no file of this name.
    pub fn file(&self, name: &Name) -> Option<&[u8]>
        ensures { option_copied result ≡ files_in self.now name.now }
    {
        match self.files.get(name.as_str()) {
            Some(bytes) => Some(bytes.as_slice()),
            None => None,
        }
    }
}

impl Store for MemStore {
    ghost files = { λ s. Some (files_in s) };

    ghost read_faults = { λ s. (reads_in s).faults };

    ghost write_faults = { λ s. (writes_in s).faults };

    fn has(&mut self, name: &Name) -> Result<bool, Fail>
        ensures found { IfOk result (λ found. found ≡ is_some (files_in self.old name.now)) }
        ensures files { files_in self.new ≡ files_in self.old }
        ensures cause { HasCause Failed (reads_in self.old).faults (reads_in self.new).faults result }
        ensures listed { IsErrOf result Failed ↔ IsTrue (fails_next (reads_in self.old)) }
        ensures memory { IsErrOf result Fail.Memory → ⊥ }
        ensures counts { Counts (reads_in self.old) (reads_in self.new) }
        ensures writes { writes_in self.new ≡ writes_in self.old }
    {
        if self.reads.fails() {
            return Err(Fail::Failed);
        }
        Ok(self.files.contains_key(name.as_str()))
    }

    fn read_at(&mut self, name: &Name, at: u64, buf: &mut [u8]) -> Result<usize, Fail>
        requires { 0 < length buf.old }
        ensures bound { IfOk result (λ n. n ≤ length buf.new) }
        ensures bytes { IfOk result (λ n. ReadsAt (content_of (files_in self.old) name.now) at n buf.new) }
        ensures files { files_in self.new ≡ files_in self.old }
        ensures cause { HasCause Failed (reads_in self.old).faults (reads_in self.new).faults result }
        ensures listed { IsErrOf result Failed ↔ IsTrue (fails_next (reads_in self.old)) }
        ensures memory { IsErrOf result Fail.Memory → ⊥ }
        ensures counts { Counts (reads_in self.old) (reads_in self.new) }
        ensures writes { writes_in self.new ≡ writes_in self.old }
    {
        if self.reads.fails() {
            return Err(Fail::Failed);
        }
        Ok(fill_from(buf, self.file(name).unwrap_or(&[]), at))
    }

    fn create(&mut self, name: &Name) -> Result<(), Fail>
        ensures ok { OnOk result (Changes (put name.now []) (Some (files_in self.old)) (Some (files_in self.new))) }
        ensures err { OnErr result (MayEmpty name.now (Some (files_in self.old)) (Some (files_in self.new))) }
        ensures cause { HasCause Failed (writes_in self.old).faults (writes_in self.new).faults result }
        ensures listed { IsErrOf result Failed ↔ IsTrue (fails_next (writes_in self.old)) }
        ensures counts { Counts (writes_in self.old) (writes_in self.new) }
        ensures reads { reads_in self.new ≡ reads_in self.old }
    {
        if self.writes.fails() {
            return Err(Fail::Failed);
        }
        let empty = Bytes::new(self.alloc);
        set(self.alloc, &mut self.files, name.as_str(), empty)?;
        Ok(())
    }

    fn append(&mut self, name: &Name, piece: &[u8]) -> Result<(), Fail>
        ensures ok { OnOk result (Changes (extended name.now piece.now) (Some (files_in self.old)) (Some (files_in self.new))) }
        ensures err { OnErr result (MayExtend name.now piece.now (Some (files_in self.old)) (Some (files_in self.new))) }
        ensures cause { HasCause Failed (writes_in self.old).faults (writes_in self.new).faults result }
        ensures listed { IsErrOf result Failed ↔ IsTrue (fails_next (writes_in self.old)) }
        ensures counts { Counts (writes_in self.old) (writes_in self.new) }
        ensures reads { reads_in self.new ≡ reads_in self.old }
    {
        if self.writes.fails() {
            return Err(Fail::Failed);
        }
        extend(self.alloc, &mut self.files, name.as_str(), piece)?;
        Ok(())
    }
}

/// Copies as many bytes as fit, from a byte offset, into the start of a buffer, and returns how many.
fn fill_from(buf: &mut [u8], bytes: &[u8], at: u64) -> usize
    requires { 0 < length buf.old }
    ensures bound { result ≤ length buf.new }
    ensures bytes { ReadsAt bytes.now at result buf.new }
{
    match usize::try_from(at) {
        Ok(at) if at < bytes.len() => fill(buf, &bytes[at..]),
        _ => 0,
    }
}

pub(crate) type Files = BTreeMap<String, Bytes>;

/// Sets a file. An error leaves the files as they were.
pub(crate) fn set(
    alloc: Global,
    files: &mut Files,
    name: &str,
    bytes: Bytes,
) -> Result<(), NoMemory>
    ensures ok { OnOk result (get_by_text files.new ≡ put name.now bytes (get_by_text files.old)) }
    ensures err { OnErr result (get_by_text files.new ≡ get_by_text files.old) }
{
    let key = String::from_str(alloc, name)?;
    files.insert(key, bytes)?;
    Ok(())
}

/// Appends a piece to a file, creating it where it is absent. An error leaves the files as they were.
fn extend(alloc: Global, files: &mut Files, name: &str, piece: &[u8]) -> Result<(), NoMemory>
    ensures ok { OnOk result (get_by_text files.new ≡ extended name.now piece.now (get_by_text files.old)) }
    ensures err { OnErr result (get_by_text files.new ≡ get_by_text files.old) }
{
    match files.get_mut(name) {
        Some(bytes) => bytes.extend(piece),
        None => {
            let mut bytes = Bytes::new(alloc);
            bytes.extend(piece)?;
            set(alloc, files, name, bytes)
        }
    }
}
