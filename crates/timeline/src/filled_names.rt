// The names of a template's segments, with what they share computed once.
ghost use Rattle.std.specs.Prelude.{◌≡◌, [], None, IfOk, true};
ghost use Rattle.bridge_io.specs.Answer.{Gives};
ghost use Rattle.template_ids.specs.Filled.{goes_on_in_path, name_of, rest_of};
ghost use Rattle.timeline.specs.Makers.{GivesAlike, GoesOnBeneath, IsFilledBy, address_by};
ghost use Rattle.timeline.specs.Names.{list_refusal, part_at};
ghost use Rattle.url_parts.specs.Addresses.{resolve};
ghost use Rattle.url_parts.specs.Paths.{IsBeneath};

use crate::short_names::{in_line, without_detours};
use crate::{ListFault, MediaTemplate};
use bridge_io::NoMemory;
use std::alloc::Global;
use template_ids::Filled;
use url_parts::{Address, Base, Part, UrlFault};

/// The most bytes that a URL has.
const MAX_URL_LEN: usize = 2048;

/// The names that a template gives to the segments of one Representation.
#[derive(Drop)]
pub enum FilledNames {
    /// Whole names, which are resolved against the Representation's base.
    Whole(Filled),
    /// Names that are resolved without their common prefix, against the base that it gives.
    Beneath { names: Filled, deeper: Base },
    /// The URL of all segments.
    Same(Address),
    /// No name gives a URL.
    Refused(UrlFault),
}

impl FilledNames {
    /// The names of a template with an id and a bandwidth, which are resolved against a base.
    pub fn of(
        alloc: Global,
        media: &MediaTemplate,
        id: &str,
        bandwidth: u64,
        base: &Base,
    ) -> Result<FilledNames, NoMemory>
        ensures { IfOk result (IsFilledBy media.now id.now bandwidth base.now) }
    {
        let _ = base.as_str(); // opens the value, for its invariant
        let template = media.for_id(id);
        if template.least_len(id, bandwidth) > MAX_URL_LEN
            && template.names_segments(id, bandwidth)
        {
            return Ok(FilledNames::Refused(UrlFault::TooLong));
        }
        let names = template.filled(alloc, id, bandwidth)?;
        let filled = shared(alloc, names, base)?;
        Ok(filled)
    }

    /// The URL of the segment with a number and a start in media time.
    pub fn part(
        &self,
        alloc: Global,
        base: &Base,
        number: u64,
        time: u64,
    ) -> Result<Part, ListFault>
        ensures { Gives (λ part. part) list_refusal result (part_at None (address_by self.now base.now number time)) }
    {
        match self {
            FilledNames::Whole(names) => whole_part(alloc, names, base, number, time),
            FilledNames::Beneath { names, deeper } => rest_part(alloc, names, deeper, number, time),
            FilledNames::Same(address) => Ok(Part {
                address: address.copy(alloc)?,
                range: None,
            }),
            FilledNames::Refused(fault) => Err(ListFault::Url(*fault)),
        }
    }
}

/// Names, with what they share computed.
fn shared(alloc: Global, names: Filled, base: &Base) -> Result<FilledNames, NoMemory>
    ensures { IfOk result (GivesAlike base.now names) }
{
    let line = in_line(alloc, names)?;
    let filled = shared_in_line(alloc, line, base)?;
    Ok(filled)
}

/// The same for names without tabs and line ends.
fn shared_in_line(alloc: Global, names: Filled, base: &Base) -> Result<FilledNames, NoMemory>
    ensures { IfOk result (GivesAlike base.now names) }
{
    if names.slots.is_empty() {
        return same(alloc, &names, base);
    }
    match beneath(alloc, &names, base)? {
        Some(deeper) => {
            let names = without_detours(alloc, names, &deeper)?;
            Ok(FilledNames::Beneath { names, deeper })
        }
        None => Ok(FilledNames::Whole(names)),
    }
}

/// The URL of names that have no number.
fn same(alloc: Global, names: &Filled, base: &Base) -> Result<FilledNames, NoMemory>
    requires { names.now.slots.items ≡ [] }
    ensures { IfOk result (GivesAlike base.now names.now) }
{
    let mut text = base.begin(alloc, names.room())?;
    names.push_name(&mut text, 0, 0)?;
    match base.finish(alloc, text) {
        Ok(address) => Ok(FilledNames::Same(address)),
        Err(UrlFault::Memory) => Err(NoMemory),
        Err(fault) => Ok(FilledNames::Refused(fault)),
    }
}

/// A base for the names without their common prefix: resolved against it they give what whole names give against the
/// other base.
fn beneath(alloc: Global, names: &Filled, base: &Base) -> Result<Option<Base>, NoMemory>
    ensures { IfOk result (GoesOnBeneath base.now names.now) }
{
    if !names.goes_on_in_path() {
        return Ok(None);
    }
    if names.front().is_empty() {
        return Ok(Some(base.copy(alloc)?));
    }
    match base.beneath(alloc, names.front())? {
        Some(deeper) => Ok(Some(deeper)),
        None => Ok(None),
    }
}

/// The URL of a whole name, which is appended to the base's folder.
fn whole_part(
    alloc: Global,
    names: &Filled,
    base: &Base,
    number: u64,
    time: u64,
) -> Result<Part, ListFault>
    ensures { Gives (λ part. part) list_refusal result (part_at None (resolve base.now (name_of names.now number time))) }
{
    let mut text = base.begin(alloc, names.room())?;
    names.push_name(&mut text, number, time)?;
    let address = base.finish(alloc, text)?;
    Ok(Part {
        address,
        range: None,
    })
}

/// The same for a name without the common prefix.
fn rest_part(
    alloc: Global,
    names: &Filled,
    base: &Base,
    number: u64,
    time: u64,
) -> Result<Part, ListFault>
    ensures { Gives (λ part. part) list_refusal result (part_at None (resolve base.now (rest_of names.now number time))) }
{
    let mut text = base.begin(alloc, names.room())?;
    names.push_rest(&mut text, number, time)?;
    let address = base.finish(alloc, text)?;
    Ok(Part {
        address,
        range: None,
    })
}
