// The names of segments, and the URLs that they give.
ghost use Rattle.std.specs.Prelude.{◌≡◌, IfOk, IfSome, None, slice_get, true};
ghost use Rattle.std.specs.Option.{option_and_then, option_copied};
ghost use Rattle.bridge_io.specs.Answer.{Gives};
ghost use Rattle.timeline.specs.FileNames.{AreFilesOf, AreInFolder, are_files};
ghost use Rattle.template_ids.specs.Templates.{ids_of, named};
ghost use Rattle.timeline.specs.Makers.{IsFilledBy, IsMakerOf};
ghost use Rattle.timeline.specs.Names.{list_refusal, listed_part, own_part, part_at};
ghost use Rattle.url_parts.specs.Addresses.{resolve};

use crate::filled_names::FilledNames;
use crate::maker::Maker;
use crate::{ListFault, MediaTemplate, PartList, RefList, RefPart, SharedNames};
use bridge_io::{NoMemory, Text};
use std::alloc::Global;
use template_ids::{BorrowedIds, Filled};
use url_parts::{Base, Part, Range, Resolver, UrlFault};

/// The longest base, in bytes, where every file name in its folder gives a URL: the longest file name has 255 bytes, and
/// the longest URL 2,048.
const MAX_BASE_LEN: usize = 1793;

/// The names of a Representation's segments, and the base against which they are resolved.
#[derive(Drop)]
pub enum Names {
    /// A template with the Representation's id and bandwidth.
    Template {
        media: MediaTemplate,
        id: Text,
        bandwidth: u64,
        base: Base,
    },
    /// One name for each segment.
    List {
        parts: RefList,
        base: Base,
    },
    /// One name for each segment, in a shared list.
    Shared {
        parts: SharedNames,
        base: Base,
    },
    /// One URL for each segment.
    Addresses {
        parts: PartList,
    },
}

/// The names of files in one folder.
#[derive(Drop)]
pub(crate) struct Files {
    pub(crate) folder: String,
    pub(crate) names: Filled,
}

impl Names {
    ghost use Rattle.timeline.specs.Names.{count_of, asks_for_time, part_of};
    ghost use Rattle.timeline.specs.declared.names.Names.TheVariants.{Template as ByTemplate, List as ByList, Shared as ByShared};
    ghost use Rattle.timeline.specs.declared.names.Names.TheVariants.{Addresses as ByAddresses};

    /// Names by a template.
    pub fn of_template(media: MediaTemplate, id: Text, bandwidth: u64, base: Base) -> Names
        ensures { result ≡ ByTemplate media id bandwidth base }
    {
        Names::Template {
            media,
            id,
            bandwidth,
            base,
        }
    }

    /// Names by a list.
    pub fn of_list(parts: RefList, base: Base) -> Names
        ensures { result ≡ ByList parts base }
    {
        Names::List { parts, base }
    }

    /// Names by a shared list. They are those of `of_list`.
    pub fn of_shared(parts: SharedNames, base: Base) -> Names
        ensures { result ≡ ByShared parts base }
    {
        Names::Shared { parts, base }
    }

    /// URLs, without a base. A segment is made with a copy of its own, and nothing is parsed.
    pub fn of_addresses(parts: PartList) -> Names
        ensures { result ≡ ByAddresses parts }
    {
        Names::Addresses { parts }
    }

    /// How many names a list has.
    pub(crate) fn len(&self) -> Option<u64>
        ensures { result ≡ count_of self.now }
    {
        match self {
            Names::Template { .. } => None,
            Names::List { parts, .. } => Some(parts.len() as u64),
            Names::Shared { parts, .. } => Some(parts.parts().len() as u64),
            Names::Addresses { parts } => Some(parts.len() as u64),
        }
    }

    /// Whether a template uses `$Time$`.
    pub(crate) fn uses_time(&self) -> bool
        ensures { result ≡ asks_for_time self.now }
    {
        match self {
            Names::Template { media, .. } => media.template().uses_time(),
            Names::List { .. } | Names::Shared { .. } | Names::Addresses { .. } => false,
        }
    }

    /// Whether the name is a valid file name in the base's folder for each number and time, so that no URL is rejected.
    pub(crate) fn are_files(&self, alloc: Global) -> Result<bool, NoMemory>
        ensures told { IfOk result (λ files. files ≡ are_files self.now) }
        ensures named { IfOk result (λ files. files ≡ true → AreInFolder self.now) }
    {
        match self {
            Names::Template {
                media,
                id,
                bandwidth,
                base,
            } => {
                let files = media
                    .template()
                    .names_files(alloc, id.as_str(), *bandwidth)?;
                Ok(base.as_str().len() <= MAX_BASE_LEN && files)
            }
            Names::List { .. } | Names::Shared { .. } | Names::Addresses { .. } => Ok(false),
        }
    }

    /// The names in their folder, where each is a valid file name.
    pub(crate) fn files(&self, alloc: Global) -> Result<Option<Files>, NoMemory>
        ensures { IfOk result (λ files. IfSome files (AreFilesOf self.now)) }
    {
        if !self.are_files(alloc)? {
            return Ok(None);
        }
        match self {
            Names::Template {
                media,
                id,
                bandwidth,
                base,
            } => {
                let folder = base.begin(alloc, 0)?;
                let names = media.template().filled(alloc, id.as_str(), *bandwidth)?;
                Ok(Some(Files { folder, names }))
            }
            Names::List { .. } | Names::Shared { .. } | Names::Addresses { .. } => Ok(None),
        }
    }

    /// The URL and byte range of the segment at an index, with a number and a start in media time.
    pub(crate) fn part(
        &self,
        alloc: Global,
        maker: &mut Maker,
        place: u64,
        number: u64,
        time: u64,
    ) -> Result<Part, ListFault>
        requires { IsMakerOf self.now maker.old }
        ensures part { Gives (λ part. part) list_refusal result (part_of self.now place number time) }
        ensures kept { IsMakerOf self.now maker.new }
    {
        match self {
            Names::Template {
                media,
                id,
                bandwidth,
                base,
            } => {
                let ids = BorrowedIds {
                    id: id.as_str(),
                    bandwidth: *bandwidth,
                    number,
                    time,
                };
                named_part(alloc, maker, media, &ids, base)
            }
            Names::List { parts, base } => listed_part(
                alloc,
                &mut maker.resolver,
                parts.get(place as usize),
                base,
            ),
            Names::Shared { parts, base } => shared_part(
                alloc,
                &mut maker.resolver,
                parts,
                place as usize,
                base,
            ),
            Names::Addresses { parts } => own_part(alloc, parts.get(place as usize)),
        }
    }
}

/// The URL of a segment by a template. The common part of the names is kept for the next one.
fn named_part(
    alloc: Global,
    maker: &mut Maker,
    media: &MediaTemplate,
    ids: &BorrowedIds<'_>,
    base: &Base,
) -> Result<Part, ListFault>
    requires { IfSome maker.old.filled (IsFilledBy media.now ids.now.id.now ids.now.bandwidth base.now) }
    ensures part { Gives (λ part. part) list_refusal result (part_at None (resolve base.now (named media.now (ids_of ids.now)))) }
    ensures kept { IfSome maker.new.filled (IsFilledBy media.now ids.now.id.now ids.now.bandwidth base.now) }
{
    let filled = filled_once(alloc, maker.filled.take(), media, ids, base)?;
    let part = filled.part(alloc, base, ids.number, ids.time);
    maker.filled = Some(filled);
    part
}

/// The names of a template, computed unless they already are.
fn filled_once(
    alloc: Global,
    filled: Option<FilledNames>,
    media: &MediaTemplate,
    ids: &BorrowedIds<'_>,
    base: &Base,
) -> Result<FilledNames, NoMemory>
    requires { IfSome filled (IsFilledBy media.now ids.now.id.now ids.now.bandwidth base.now) }
    ensures { IfOk result (IsFilledBy media.now ids.now.id.now ids.now.bandwidth base.now) }
{
    match filled {
        Some(filled) => Ok(filled),
        None => FilledNames::of(alloc, media, ids.id, ids.bandwidth, base),
    }
}

/// The URL and byte range of a segment by its name.
#[tactic(auto, using(crate::proofs::Naming::resolve_own))]
fn listed_part(
    alloc: Global,
    resolver: &mut Resolver,
    part: Option<&RefPart>,
    base: &Base,
) -> Result<Part, ListFault>
    ensures { Gives (λ part. part) list_refusal result (listed_part base.now (option_copied part.entry)) }
{
    match part {
        None => joined(alloc, resolver, base, base.as_str(), None),
        Some(RefPart { reference, range }) => match reference {
            None => joined(alloc, resolver, base, base.as_str(), *range),
            Some(reference) => joined(alloc, resolver, base, reference.as_str(), *range),
        },
    }
}

/// The URL and byte range of a segment by its name in a shared list, which may have a shorter one for it.
fn shared_part(
    alloc: Global,
    resolver: &mut Resolver,
    parts: &SharedNames,
    place: usize,
    base: &Base,
) -> Result<Part, ListFault>
    ensures { Gives (λ part. part) list_refusal result (listed_part base.now (slice_get parts.now place)) }
{
    let part = parts.parts().get(place);
    let Some(short) = parts.short(place) else {
        return listed_part(alloc, resolver, part, base);
    };
    let range = range_of(part);
    let _ = base.as_str(); // opens the value, for its invariant
    joined(alloc, resolver, base, short, range)
}

/// The byte range of a part of a list.
fn range_of(part: Option<&RefPart>) -> Option<Range>
    ensures { result ≡ option_and_then (λ part. part.range) (option_copied part.entry) }
{
    match part {
        None => None,
        Some(part) => part.range,
    }
}

/// The URL and byte range of a segment that has them already.
fn own_part(alloc: Global, part: Option<&Part>) -> Result<Part, ListFault>
    ensures { Gives (λ part. part) list_refusal result (own_part (option_copied part.entry)) }
{
    match part {
        None => Err(ListFault::Url(UrlFault::Refused)),
        Some(part) => Ok(part.copy(alloc)?),
    }
}

/// The URL that a reference resolves to against a base, with a byte range.
#[tactic(auto, using(crate::proofs::Naming::gives_refusal))]
fn joined(
    alloc: Global,
    resolver: &mut Resolver,
    base: &Base,
    reference: &str,
    range: Option<Range>,
) -> Result<Part, ListFault>
    ensures { Gives (λ part. part) list_refusal result (part_at range (resolve base.now reference.now)) }
{
    let address = resolver.join(alloc, base, reference)?;
    Ok(Part { address, range })
}
