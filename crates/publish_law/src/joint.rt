// Where the new list of a track goes on from the served one.
ghost use Rattle.std.specs.Prelude.{◌≡◌, bytes_eq, IfOk, Some};
ghost use Rattle.std.specs.List.{suffix_len};
ghost use Rattle.std.specs.Option.{option_copied, option_eq};
ghost use Rattle.reload_law.specs.Rules.{same_part};
ghost use Rattle.publish_law.specs.Joints as spec;

use crate::listed::Listed;
use bridge_io::NoMemory;
use hls_writer::MediaItem;
use iso_time::Instant;
use std::alloc::Global;
use url_parts::{Address, Part};

/// By how much section numbers rise: `up` less `down`.
#[derive(Clone, Copy, PartialEq, Eq)]
pub struct Shift {
    /// The section number that the segment of the number `down` gets (RFC 8216, 4.3.3.3).
    pub up: u64,
    /// A section number of the new lists.
    pub down: u64,
}

/// Where the new list of a track goes on from the served one.
#[derive(Clone, Copy, PartialEq, Eq)]
pub struct Joint {
    /// Whether the new list has a segment that is the same as a served one: of the same address, range, map and date.
    pub met: bool,
    /// By how much section numbers rise, where the last of these segments is the same as the served list's last: then the track
    /// is found.
    pub found: Option<Shift>,
    /// How many of the new segments are fresh, which is that they come new to the served playlist: the last ones, after that
    /// segment; where the track isn't found, those dated later than the served list's last.
    pub fresh: usize,
}

/// Where the new list of a track goes on from the served one.
#[tactic(auto, unfolding(crate::specs::Joints::joint_of))]
pub fn joint_of(alloc: Global, served: &[MediaItem], new: &[MediaItem]) -> Result<Joint, NoMemory>
    ensures { IfOk result (λ joint. joint ≡ spec.joint_of served.now new.now) }
{
    let unlisted = unlisted_count(alloc, served, new)?;
    let met = before_last(unlisted, new);
    Ok(match before_last(0, served) {
        None => Joint {
            met: met.is_some(),
            found: None,
            fresh: unlisted,
        },
        Some(last) => joint_behind(last, met, unlisted, later_count(last.date, new)),
    })
}

fn joint_behind(last: &MediaItem, met: Option<&MediaItem>, unlisted: usize, later: usize) -> Joint
    ensures { result ≡ spec.joint_with (Some last.now) (option_copied met.entry) unlisted later }
{
    match met {
        Some(item) if is_same_item(item, last) => Joint {
            met: true,
            found: Some(Shift {
                up: last.section,
                down: item.section,
            }),
            fresh: unlisted,
        },
        _ => Joint {
            met: met.is_some(),
            found: None,
            fresh: unlisted.min(later),
        },
    }
}

/// The segment with so many after it.
fn before_last(count: usize, items: &[MediaItem]) -> Option<&MediaItem>
    ensures { option_copied result ≡ spec.before_last count items.now }
{
    if count < items.len() {
        items.get(items.len() - count - 1)
    } else {
        None
    }
}

/// How many new segments follow the last one that is the same as a served one: all where there is none.
fn unlisted_count<'a>(
    alloc: Global,
    served: &'a [MediaItem],
    new: &'a [MediaItem],
) -> Result<usize, NoMemory>
    ensures { IfOk result (λ count. count ≡ suffix_len (spec.is_unlisted served.now) new.now) }
{
    let listed = Listed::of(alloc, served)?;
    Ok(listed.count_behind(new))
}

/// How many new segments follow the last one dated at or before a time.
fn later_count(date: Instant, new: &[MediaItem]) -> usize
    ensures { result ≡ suffix_len (spec.is_later date) new.now }
{
    new.iter()
        .rev()
        .take_while(|item| is_later(date, item))
        .count()
}

fn is_later(date: Instant, item: &MediaItem) -> bool
    ensures { result ≡ spec.is_later date item.now }
{
    date.0 < item.date.0
}

fn is_same_item(a: &MediaItem, b: &MediaItem) -> bool
    ensures { result ≡ spec.same_item a.now b.now }
{
    a.date.0 == b.date.0
        && is_same_address(&a.address, &b.address)
        && a.range == b.range
        && is_same_part(&a.map, &b.map)
}

fn is_same_part(a: &Part, b: &Part) -> bool
    ensures { result ≡ same_part a.now b.now }
{
    is_same_address(&a.address, &b.address) && a.range == b.range
}

fn is_same_address(a: &Address, b: &Address) -> bool
    ensures { result ≡ bytes_eq a.now b.now }
{
    a.as_str() == b.as_str()
}
