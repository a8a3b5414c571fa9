// What a track's served list becomes.
ghost use Rattle.std.specs.Prelude.{◌≡◌, ◌+◌, ◌-◌, ◌<◌, ◌^◌, ◌++◌, IfOk, IfSome, drop, length, map, position};
ghost use Rattle.publish_law.specs.Lists as spec;

use crate::joint::{Joint, Shift, joint_of};
use bridge_io::NoMemory;
use exact_time::Digits;
use followed_text::FollowedText;
use hls_writer::{ItemList, MediaHead, MediaItem};
use std::alloc::Global;

/// The two playlists of a track.
#[derive(Drop)]
pub struct Track {
    /// What is served.
    pub served: FollowedText,
    /// What a run wrote.
    pub new: FollowedText,
    /// Where the new one goes on from the served one.
    pub joint: Joint,
}

/// What becomes of a track's served playlist.
#[derive(Drop)]
pub struct Change {
    /// The playlist that takes its place; none where it stays.
    pub list: Option<FollowedText>,
    /// How many segments are appended.
    pub appended: usize,
    /// How many segments are removed.
    pub removed: usize,
}

impl Track {
    /// The two playlists of a track.
    pub fn of(alloc: Global, served: FollowedText, new: FollowedText) -> Result<Track, NoMemory>
        ensures { IfOk result (λ track. track ≡ spec.track_of served new) }
    {
        let joint = joint_of(alloc, served.items.as_slice(), new.items.as_slice())?;
        Ok(Track { served, new, joint })
    }

    /// The last so many of the new segments.
    pub(crate) fn fresh_items(&self, fresh: usize) -> &[MediaItem]
        ensures { result.now ≡ spec.fresh_items self.now fresh }
    {
        let new = self.new.items.as_slice();
        &new[new.len().saturating_sub(fresh)..]
    }

    /// The place of the first of the last so many of the new segments that is above the served target duration, to the nearest
    /// second with halves up (RFC 8216, 4.3.3.1).
    pub(crate) fn long_in(&self, fresh: usize) -> Option<usize>
        ensures { result ≡ spec.long_in self.now fresh }
    {
        let MediaHead { target, digits, .. } = self.served.head;
        let skipped = self.new.items.len().saturating_sub(fresh);
        let at = first_long(target, digits, self.fresh_items(fresh))?;
        Some(skipped + at)
    }

    /// What becomes of the served playlist where so many segments come.
    pub(crate) fn change(
        &self,
        alloc: Global,
        fresh: usize,
        shift: Shift,
        ended: bool,
    ) -> Result<Change, NoMemory>
        ensures { IfOk result (λ change. change ≡ spec.change_by self.now fresh shift ended) }
    {
        if fresh > 0 {
            return self.changed(alloc, fresh, self.removed_count(fresh), shift, ended);
        }
        if ended && !self.served.head.ended {
            return self.changed(alloc, 0, 0, shift, ended);
        }
        Ok(Change {
            list: None,
            appended: 0,
            removed: 0,
        })
    }

    fn changed(
        &self,
        alloc: Global,
        fresh: usize,
        removed: usize,
        shift: Shift,
        ended: bool,
    ) -> Result<Change, NoMemory>
        ensures { IfOk result (λ change. change ≡ spec.changed self.now fresh removed shift ended) }
    {
        let items = self.items_with(alloc, fresh, removed, shift)?;
        Ok(Change {
            list: Some(list_with(&self.served.head, removed, ended, items)),
            appended: fresh,
            removed,
        })
    }

    fn items_with(
        &self,
        alloc: Global,
        fresh: usize,
        removed: usize,
        shift: Shift,
    ) -> Result<ItemList, NoMemory>
        ensures { IfOk result (λ items. items ≡ spec.items_with self.now fresh removed shift) }
    {
        let kept = without_first(self.served.items.as_slice(), removed);
        items_of(alloc, kept, self.fresh_items(fresh), shift)
    }

    /// How many segments go where so many come.
    fn removed_count(&self, fresh: usize) -> usize
        ensures { result ≡ spec.removed_count self.now fresh }
    {
        let served = self.served.items.as_slice();
        let wanted = three_targets(&self.served.head).saturating_sub(units_of(self.fresh_items(
            fresh,
        )));
        self.most_gone(fresh)
            .min(self.surplus(fresh))
            .min(gone(units_of(served), wanted, served))
    }

    /// By how many segments the served and so many new ones are more than the new list has.
    fn surplus(&self, fresh: usize) -> usize
        ensures { result ≡ spec.surplus self.now fresh }
    {
        self.served
            .items
            .len()
            .saturating_add(fresh)
            .saturating_sub(self.new.items.len())
    }

    fn most_gone(&self, fresh: usize) -> usize
        ensures { result ≡ spec.most_gone self.now fresh }
    {
        match self.joint.found {
            Some(_) => fresh.saturating_add(1),
            None => self.served.items.len().saturating_sub(self.new.items.len()),
        }
    }
}

fn first_long(target: u64, digits: Digits, items: &[MediaItem]) -> Option<usize>
    ensures place { result ≡ position (spec.is_long target (10 ^ digits)) items.now }
    ensures within { IfSome result (λ at. at < length items.now) }
{
    items.iter().position(|item| is_long(target, digits, item))
}

fn is_long(target: u64, digits: Digits, item: &MediaItem) -> bool
    ensures { result ≡ spec.is_long target (10 ^ digits) item.now }
{
    let unit = u64::from(digits.unit());
    target < item.duration / unit + u64::from(unit <= item.duration % unit * 2)
}

/// Three target durations, in units of the last decimal.
fn three_targets(head: &MediaHead) -> u128
    ensures { result ≡ spec.three_targets head.now }
{
    3 * u128::from(head.target) * u128::from(head.digits.unit())
}

/// How long segments last.
fn units_of(items: &[MediaItem]) -> u128
    ensures { result ≡ spec.units_of items.now }
{
    let mut units = 0;
    for item in items {
        units += u128::from(item.duration);
    }
    units
}

/// How many segments may go, of some that last `left`, so that those that stay last so long.
fn gone(left: u128, wanted: u128, items: &[MediaItem]) -> usize
    ensures { result ≡ spec.gone left wanted items.now }
{
    let mut left = left;
    let mut count = 0;
    for item in items {
        left = left.saturating_sub(u128::from(item.duration));
        if left < wanted {
            return count;
        }
        count += 1;
    }
    count
}

fn without_first(items: &[MediaItem], count: usize) -> &[MediaItem]
    ensures { result.now ≡ drop count items.now }
{
    if count < items.len() {
        &items[count..]
    } else {
        &[]
    }
}

fn list_with(head: &MediaHead, removed: usize, ended: bool, items: ItemList) -> FollowedText
    ensures { result ≡ spec.list_with head.now removed ended items }
{
    let first_section = match items.get(0) {
        Some(item) => item.section,
        None => head.first_section,
    };
    let head = MediaHead {
        target: head.target,
        sequence: head.sequence.saturating_add(removed as u64),
        first_section,
        ended,
        digits: head.digits,
    };
    FollowedText { head, items }
}

/// The kept segments as they are, and the fresh ones in their new sections.
fn items_of(
    alloc: Global,
    kept: &[MediaItem],
    fresh: &[MediaItem],
    shift: Shift,
) -> Result<ItemList, NoMemory>
    ensures { IfOk result (λ items. items ≡ kept.now ++ map (spec.shifted shift) fresh.now) }
{
    let mut items = Vec::new(alloc);
    for item in kept {
        items.push(with_section(alloc, item, item.section)?)?;
    }
    for item in fresh {
        items.push(with_section(alloc, item, shift.raised(item.section))?)?;
    }
    Ok(ItemList::from(items))
}

/// The same segment in a section.
fn with_section(alloc: Global, item: &MediaItem, section: u64) -> Result<MediaItem, NoMemory>
    ensures { IfOk result (λ copy. copy ≡ record item.now { section = section }) }
{
    Ok(MediaItem {
        address: item.address.copy(alloc)?,
        range: item.range,
        map: item.map.copy(alloc)?,
        duration: item.duration,
        section,
        date: item.date,
    })
}

impl Shift {
    fn raised(self, section: u64) -> u64
        ensures { result ≡ spec.saturated (section + self.up - self.down) }
    {
        let sum = u128::from(section) + u128::from(self.up);
        let raised = sum.saturating_sub(u128::from(self.down));
        u64::try_from(raised).unwrap_or(u64::MAX)
    }
}
