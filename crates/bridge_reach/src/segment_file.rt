// The file of a listed segment.
ghost use Rattle.std.specs.Prelude.{◌≡◌, All, IfOk, drop, slice_get};
ghost use Rattle.fragment_times.specs.Times.{parts_of};
ghost use Rattle.presentation.specs.Laws.{HasAddress};
ghost use Rattle.presentation.specs.Listable.{AreListable};
ghost use Rattle.bridge_reach.specs.FileTimes as spec;

use bridge_io::{Ledger, Name, NoMemory, Steps};
use fragment_times::{SegmentSpot, listing_at};
use presentation::Presentation;
use std::alloc::Global;
use timeline::{ListFault, Listing};
use url_parts::{Base, Part, local_name};

/// The name of a listed segment's file, under the URL of the store's folder.
pub(crate) fn file_at<L: Ledger>(
    alloc: Global,
    folder: &Base,
    presentation: &Presentation,
    spot: SegmentSpot,
    steps: &mut Steps<L>,
) -> Result<Option<Name>, NoMemory>
    requires { AreListable presentation.now }
    ensures { IfOk result (λ file. file ≡ spec.file_at folder.now presentation.now spot) }
{
    match part_at(alloc, presentation, spot, steps)? {
        Some(part) => local_name(alloc, folder, &part.address),
        None => Ok(None),
    }
}

/// The URL and byte range of a listed segment; `None` where it is out of range.
#[tactic(auto, using(crate::proofs::Passing::part_is))]
fn part_at<L: Ledger>(
    alloc: Global,
    presentation: &Presentation,
    spot: SegmentSpot,
    steps: &mut Steps<L>,
) -> Result<Option<Part>, NoMemory>
    requires { AreListable presentation.now }
    ensures { IfOk result (λ part. part ≡ spec.part_at presentation.now spot) }
{
    if is_within(presentation, spot) {
        let listing = listing_at(presentation, spot.section, spot.track);
        nth_part(alloc, listing, spot.segment, steps)
    } else {
        Ok(None)
    }
}

fn is_within(presentation: &Presentation, spot: SegmentSpot) -> bool
    ensures { result ≡ spec.is_within presentation.now spot }
{
    spot.section < presentation.sections().len() && spot.track < presentation.tracks().len()
}

/// The URL and byte range of the segment at an index of those that are left, each of which has a URL.
#[tactic(auto, using(crate::proofs::Passing::first_behind))]
fn nth_part<L: Ledger>(
    alloc: Global,
    listing: Listing<'_>,
    place: usize,
    steps: &mut Steps<L>,
) -> Result<Option<Part>, NoMemory>
    requires { All (HasAddress listing.timeline) listing.left }
    ensures { IfOk result (λ part. part ≡ slice_get (parts_of listing.entry.timeline listing.entry.left) place) }
{
    let mut rest = behind(listing, place, steps);
    next_part(alloc, &mut rest, steps)
}

/// What is left after `count` segments, each of which has a URL.
fn behind<'a, L: Ledger>(listing: Listing<'a>, count: usize, steps: &mut Steps<L>) -> Listing<'a>
    requires { All (HasAddress listing.timeline) listing.left }
    ensures addressed { All (HasAddress result.timeline) result.left }
    ensures parts { parts_of result.timeline result.left ≡ drop count (parts_of listing.entry.timeline listing.entry.left) }
{
    let mut rest = listing;
    for _segment in 0..count {
        rest.pass(steps);
    }
    rest
}

/// The URL and byte range of the next segment of those that are left, each of which has a URL.
fn next_part<L: Ledger>(
    alloc: Global,
    listing: &mut Listing<'_>,
    steps: &mut Steps<L>,
) -> Result<Option<Part>, NoMemory>
    requires { All (HasAddress listing.old.timeline) listing.old.left }
    ensures { IfOk result (λ part. part ≡ slice_get (parts_of listing.old.timeline listing.old.left) 0) }
{
    match listing.next(alloc, steps) {
        Ok(Some(segment)) => Ok(Some(segment.into_part())),
        Ok(None) => Ok(None),
        Err(ListFault::Memory) => Err(NoMemory),
        Err(ListFault::Url(_)) => unreachable!(),
    }
}
