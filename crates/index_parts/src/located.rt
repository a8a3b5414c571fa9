// What an MPD says about a media file with a `sidx`, and what the file itself says.
ghost use Rattle.std.specs.Prelude.{◌≡◌, ◌≤◌, ◌+◌, ◌^◌, length, IfOk, option_map};
ghost use Rattle.std.specs.Option.{ForSome};
ghost use Rattle.bridge_io.specs.Answer.{Gives};
ghost use Rattle.bridge_io.specs.Fault.{HasCause};
ghost use Rattle.mpd_rules.specs.Views.{bases_left};
ghost use Rattle.presentation.specs.Presented.{IsEnded};
ghost use Rattle.segment_index.specs.Laws.{end_from};
ghost use Rattle.timeline.specs.Names.{referred};
ghost use Rattle.url_parts.specs.Addresses.{chain, refusal as url_refusal};
ghost use Rattle.index_parts.specs.declared.fault.IndexFault.TheVariants.{Fault};
ghost use Rattle.index_parts.specs.Located as spec;
ghost use Rattle.index_parts.specs.Refusals.{IsNoFault, refusal};
ghost use Rattle.index_parts.specs.Rows.{row_of, told_in};

use crate::fault::{at_times, at_url};
use crate::index::checked_index;
use crate::segments::runs_of;
use crate::{FileFault, IndexFault};
use box_reader::{PartFault, read_part};
use bridge_io::{Name, NoMemory, Place, Store};
use mpd_rules::{BaseWalk, IndexedRep};
use presentation::Content;
use segment_index::SegmentIndex;
use std::alloc::Global;
use url_parts::{Address, Base, Part, Range, UrlFault, local_name};

/// The most bytes of an index range.
const MOST_BYTES: u64 = 8_388_608;

/// The content of a Representation, and how many segments it has.
#[derive(Drop)]
pub(crate) struct Listed {
    pub(crate) content: Content,
    pub(crate) segments: u64,
}

/// What an MPD says about a Representation's file.
#[derive(Drop)]
pub(crate) struct Located {
    address: Address,
    initialization: Part,
    /// Its name in the store.
    file: Name,
    /// The byte range of its `sidx`.
    index: Range,
    /// The position of the Representation.
    place: Place,
}

/// The URLs of an MPD and of its files.
#[derive(Clone, Copy)]
pub(crate) struct Setting<'a> {
    /// The MPD's own URL.
    pub(crate) url: &'a Base,
    /// The URL of the store's folder.
    pub(crate) folder: &'a Base,
}

impl Setting<'_> {
    /// The content of a Representation, by the `sidx` of its file.
    #[tactic(auto, unfolding(crate::specs::Located::track_parts))]
    pub(crate) fn listed<F: Store>(
        &self,
        alloc: Global,
        view: &IndexedRep<'_>,
        store: &mut F,
    ) -> Result<Listed, IndexFault>
        ensures listed { ForSome (F.files store.old) (λ files. Gives (λ listed. listed) refusal result
            (spec.track_parts self.now.url.now self.now.folder.now files (row_of view.now))) }
        ensures ended { IfOk result (λ listed. IsEnded listed.content) }
        ensures cause { HasCause Fault (F.read_faults store.old) (F.read_faults store.new) result }
        ensures files { F.files store.new ≡ F.files store.old }
        ensures writes { F.write_faults store.new ≡ F.write_faults store.old }
    {
        let located = self.locate(alloc, view)?;
        located.listed(alloc, store)
    }

    /// What the MPD says about a Representation's file.
    #[tactic(auto, unfolding(crate::specs::Located::located_of))]
    fn locate(&self, alloc: Global, view: &IndexedRep<'_>) -> Result<Located, IndexFault>
        ensures located { Gives (λ located. located) refusal result
            (spec.located_of self.now.url.now self.now.folder.now (row_of view.now)) }
        ensures small { IfOk result (λ located. located.index.count ≤ 8388608) }
        ensures bounded { IfOk result (λ located. located.index.first + located.index.count ≤ 2 ^ 63) }
        ensures no_fault { IsNoFault result }
    {
        let base = base_of(alloc, self.url, view)?;
        let initialization = initialization_of(alloc, view, &base)?;
        let address = address_of(alloc, &base)?;
        let Some(file) = local_name(alloc, self.folder, &address)? else {
            return Err(IndexFault::OutsideBase);
        };
        let index = range_of(view);
        if index.count > MOST_BYTES {
            return Err(IndexFault::TooLong);
        }
        Ok(Located {
            address,
            initialization,
            file,
            index,
            place: view.place(),
        })
    }
}

impl Located {
    /// The content of the Representation, by the bytes of its `sidx`. Nothing else of the file is read.
    #[tactic(auto, unfolding(crate::specs::Located::listed_at, crate::specs::Located::read_of))]
    fn listed<F: Store>(self, alloc: Global, store: &mut F) -> Result<Listed, IndexFault>
        requires small { self.index.count ≤ 8388608 }
        requires bounded { self.index.first + self.index.count ≤ 2 ^ 63 }
        ensures listed { ForSome (F.files store.old) (λ files. Gives (λ listed. listed) refusal result (spec.listed_at self files)) }
        ensures ended { IfOk result (λ listed. IsEnded listed.content) }
        ensures cause { HasCause Fault (F.read_faults store.old) (F.read_faults store.new) result }
        ensures files { F.files store.new ≡ F.files store.old }
        ensures writes { F.write_faults store.new ≡ F.write_faults store.old }
    {
        match read_part(alloc, store, &self.file, self.index.first, self.index.count) {
            Ok(bytes) => self.listed_in(alloc, bytes.as_slice()),
            Err(PartFault::Absent) => Err(IndexFault::File(self.file, FileFault::Absent)),
            Err(PartFault::Fault) => Err(IndexFault::Fault),
            Err(PartFault::Memory) => Err(IndexFault::Memory),
        }
    }

    /// The same, given the bytes of the `sidx`.
    #[tactic(auto, unfolding(crate::specs::Located::listed_in))]
    fn listed_in(self, alloc: Global, bytes: &[u8]) -> Result<Listed, IndexFault>
        requires { self.index.first + length bytes.now ≤ 2 ^ 63 }
        ensures listed { Gives (λ listed. listed) refusal result (spec.listed_in self bytes.now) }
        ensures ended { IfOk result (λ listed. IsEnded listed.content) }
        ensures no_fault { IsNoFault result }
    {
        match checked_index(bytes, self.index.first) {
            Ok(index) => self.listed_by(alloc, &index),
            Err(fault) => Err(IndexFault::File(self.file, fault)),
        }
    }

    #[tactic(auto, unfolding(crate::specs::Located::listed_by))]
    fn listed_by(self, alloc: Global, index: &SegmentIndex<'_>) -> Result<Listed, IndexFault>
        requires { end_from index.now.first index.now.references ≤ 2 ^ 63 }
        ensures listed { Gives (λ listed. listed) refusal result (spec.listed_by self index.now) }
        ensures ended { IfOk result (λ listed. IsEnded listed.content) }
        ensures no_fault { IsNoFault result }
    {
        let segments = u64::from(index.references().len());
        let initialization = self.initialization;
        match runs_of(alloc, &self.address, index) {
            Ok(runs) => Ok(Listed {
                content: Content {
                    initialization,
                    runs,
                },
                segments,
            }),
            Err(fault) => Err(at_times(fault, self.place)),
        }
    }
}

/// The byte range of a file's `sidx`.
fn range_of(view: &IndexedRep<'_>) -> Range
    ensures range { result ≡ (told_in (row_of view.now)).range }
    ensures bounded { result.first + result.count ≤ 2 ^ 63 }
{
    view.index_range()
}

/// The base that the BaseURLs of a Representation give.
fn base_of(alloc: Global, url: &Base, view: &IndexedRep<'_>) -> Result<Base, IndexFault>
    ensures base { Gives (λ base. base) refusal result (spec.address_of url.now (row_of view.now).description) }
    ensures no_fault { IsNoFault result }
{
    match deepest(alloc, url, view.base_references()) {
        Ok(base) => Ok(base),
        Err(fault) => Err(at_url(fault, view.place())),
    }
}

/// The base that references give one after another (ISO/IEC 23009-1, 5.6.4), or the first fault.
pub fn deepest(alloc: Global, url: &Base, references: BaseWalk<'_>) -> Result<Base, UrlFault>
    ensures { Gives (λ base. base) url_refusal result (chain url.now (bases_left references.entry)) }
{
    let mut base = url.copy(alloc)?;
    for reference in references {
        base = base.deeper(alloc, reference)?;
    }
    Ok(base)
}

/// The init segment of a Representation.
fn initialization_of(alloc: Global, view: &IndexedRep<'_>, base: &Base) -> Result<Part, IndexFault>
    ensures part { Gives (λ part. part) refusal result
        (spec.initialization_of (row_of view.now).description base.now (told_in (row_of view.now))) }
    ensures no_fault { IsNoFault result }
{
    match initialization_by(alloc, view, base) {
        Ok(part) => Ok(part),
        Err(fault) => Err(at_url(fault, view.place())),
    }
}

fn initialization_by(alloc: Global, view: &IndexedRep<'_>, base: &Base) -> Result<Part, UrlFault>
    ensures { let told = told_in (row_of view.now) in
        Gives (λ part. part) url_refusal result (spec.initialization_by base.now told.range told.initialization) }
{
    let Some(initialization) = view.initialization() else {
        return Ok(part_before(alloc, base, range_of(view))?);
    };
    let address = refer(alloc, base, initialization.reference())?;
    Ok(Part {
        address,
        range: initialization.range(),
    })
}

/// The bytes before the `sidx`.
fn part_before(alloc: Global, base: &Base, index: Range) -> Result<Part, NoMemory>
    ensures { IfOk result (λ part. part ≡ spec.part_before base.now index) }
{
    let address = address_of(alloc, base)?;
    let range = Range {
        first: 0,
        count: index.first,
    };
    Ok(Part {
        address,
        range: Some(range),
    })
}

/// The URL of a reference against a base. A missing reference is the base itself.
#[tactic(auto, using(mpd_presentation::proofs::OwnAddress::own_address))]
fn refer(alloc: Global, base: &Base, reference: Option<&str>) -> Result<Address, UrlFault>
    ensures { Gives (λ address. address) url_refusal result (referred base.now (option_map (λ text. text.now) reference.entry)) }
{
    match reference {
        Some(reference) => base.join(alloc, reference),
        None => Ok(address_of(alloc, base)?),
    }
}

/// The address that a base is. The only error is out of memory.
#[tactic(auto, using(mpd_presentation::proofs::OwnAddress::own_address))]
pub fn address_of(alloc: Global, base: &Base) -> Result<Address, NoMemory>
    ensures { IfOk result (λ address. address ≡ base.now) }
{
    base.join(alloc, base.as_str()).map_err(|_| NoMemory)
}
