// What is read for a manifest.
ghost use Rattle.std.specs.Prelude.{◌≡◌, IfOk, OnOk};
ghost use Rattle.std.specs.Option.{ForSome};
ghost use Rattle.bridge_io.specs.Answer.{Gives};
ghost use Rattle.bridge_io.specs.Fault.{HasCause};
ghost use Rattle.bridge_io.specs.Slurped.{unread};
ghost use Rattle.bridge_io.specs.declared.read_error.Slurp.TheVariants.{Fault};
ghost use Rattle.bridge_pages.specs.Sources as spec;

use crate::made::name_like;
use crate::needs::Needs;
use crate::verb::Verb;
use box_reader::{PartFault, read_part};
use bridge_io::{Bytes, Name, NoMemory, Sequence, Slurp, Store, slurp};
use page_server::{SourceFile, Sources};
use std::alloc::Global;

/// How many bytes of a file are read at most: more than that no manifest has.
const LIMIT: u64 = 8_388_608;

/// How many bytes of other files are read for a manifest at most.
const TOTAL_LIMIT: u64 = 67_108_864;

/// What was read for a manifest, and how many bytes of other files may still be.
#[derive(Drop)]
struct Reading {
    sources: Sources,
    room: u64,
}

/// Reads a manifest, and each file that it needs and that is there. TooLong comes where a file has more bytes than a manifest may
/// have, or than are left of what is read for a manifest.
#[tactic(auto, unfolding(crate::specs::Sources::sources_of))]
pub fn sources_of<F: Store>(
    alloc: Global,
    verb: Verb,
    base: &str,
    store: &mut F,
    manifest: &Name,
) -> Result<Sources, Slurp>
    ensures read { ForSome (F.files store.old) (λ files. Gives (λ sources. sources) unread result
        (spec.sources_of verb base.now manifest.now files)) }
    ensures cause { HasCause Fault (F.read_faults store.old) (F.read_faults store.new) result }
    ensures files { F.files store.new ≡ F.files store.old }
{
    let bytes = slurp(alloc, store, manifest, LIMIT)?;
    let needs = Needs::of(alloc, verb, base, manifest, bytes.as_slice())?;
    let mut reading = Reading::begin(alloc, name_like(alloc, manifest)?, bytes)?;
    reading.add_files(alloc, store, needs.names.as_slice(), needs.most)?;
    Ok(reading.sources)
}

impl Reading {
    /// A manifest, which isn't counted.
    fn begin(alloc: Global, name: Name, bytes: Bytes) -> Result<Reading, NoMemory>
        ensures { IfOk result (λ reading. reading ≡ spec.begun name bytes) }
    {
        let mut sources = Sequence::new(alloc);
        sources.push(SourceFile { name, bytes })?;
        Ok(Reading {
            sources,
            room: TOTAL_LIMIT,
        })
    }

    /// Reads some more files; those that aren't there are skipped.
    fn add_files<F: Store>(
        &mut self,
        alloc: Global,
        store: &mut F,
        names: &[Name],
        most: Option<u64>,
    ) -> Result<(), Slurp>
        ensures read { ForSome (F.files store.old) (λ files. Gives (λ _. self.new) unread result
            (spec.files_behind most self.old files names.now)) }
        ensures cause { HasCause Fault (F.read_faults store.old) (F.read_faults store.new) result }
        ensures files { F.files store.new ≡ F.files store.old }
    {
        for name in names {
            self.add_file(alloc, store, name, most)?;
        }
        Ok(())
    }

    /// Reads one more file, where there is one.
    fn add_file<F: Store>(
        &mut self,
        alloc: Global,
        store: &mut F,
        name: &Name,
        most: Option<u64>,
    ) -> Result<(), Slurp>
        ensures read { ForSome (F.files store.old) (λ files. Gives (λ _. self.new) unread result
            (spec.with_file name.now (spec.bytes_of most self.old.room name.now files) self.old)) }
        ensures cause { HasCause Fault (F.read_faults store.old) (F.read_faults store.new) result }
        ensures files { F.files store.new ≡ F.files store.old }
    {
        match bytes_of(alloc, store, name, most, self.room) {
            Ok(bytes) => Ok(self.add(name_like(alloc, name)?, bytes)?),
            Err(Slurp::Absent) => Ok(()),
            Err(fault) => Err(fault),
        }
    }

    /// Adds a file that was read.
    fn add(&mut self, name: Name, bytes: Bytes) -> Result<(), NoMemory>
        ensures { OnOk result (self.new ≡ spec.with_source name bytes self.old) }
    {
        self.room = self.room.saturating_sub(bytes.len() as u64);
        self.sources.push(SourceFile { name, bytes })
    }
}

/// The bytes of a file, all or the first ones, unless they have no room.
fn bytes_of<F: Store>(
    alloc: Global,
    store: &mut F,
    name: &Name,
    most: Option<u64>,
    room: u64,
) -> Result<Bytes, Slurp>
    ensures read { ForSome (F.files store.old) (λ files. Gives (λ bytes. bytes) unread result (spec.bytes_of most room name.now files)) }
    ensures cause { HasCause Fault (F.read_faults store.old) (F.read_faults store.new) result }
    ensures files { F.files store.new ≡ F.files store.old }
{
    match most {
        Some(most) if room < most.min(LIMIT) => slurp(alloc, store, name, room),
        Some(most) => front_of(alloc, store, name, most),
        None => slurp(alloc, store, name, LIMIT.min(room)),
    }
}

/// The first bytes of a file, of which no more are read than a manifest may have.
fn front_of<F: Store>(alloc: Global, store: &mut F, name: &Name, most: u64) -> Result<Bytes, Slurp>
    ensures read { ForSome (F.files store.old) (λ files. Gives (λ bytes. bytes) unread result (spec.front_of most (files name.now))) }
    ensures cause { HasCause Fault (F.read_faults store.old) (F.read_faults store.new) result }
    ensures files { F.files store.new ≡ F.files store.old }
{
    match read_part(alloc, store, name, 0, most.min(LIMIT)) {
        Ok(bytes) => Ok(bytes),
        Err(PartFault::Absent) => Err(Slurp::Absent),
        Err(PartFault::Fault) => Err(Slurp::Fault),
        Err(PartFault::Memory) => Err(Slurp::Memory),
    }
}
