// The state of a followed track, as segments are added at its end and removed from its start.
ghost use Rattle.std.specs.Prelude.{◌≡◌, ℕ, ◌+◌, ◌<◌, ◌≤◌, ◌^◌, ◌==◌, false, length, IfOk, OnOk, option_map};
ghost use Rattle.std.specs.Option.{option_map_or};
ghost use Rattle.live_judge.specs.Shown.{last_of, track_shown};
ghost use Rattle.live_session.specs.Kept.{AreSideBySide, HasRoom, IsBegunAt, empty_track, no_place, with_all, with_kept, without_front};
ghost use Rattle.live_session.specs.Made.{all_made, made_kept};

use crate::made::Made;
use bridge_io::NoMemory;
use circular_buffer::HeapCircularBuffer;
use exact_time::Tick;
use live_judge::{LastKept, LiveTrack};
use std::alloc::Global;

/// A track without listed segments.
pub(crate) fn empty_track(alloc: Global) -> Result<LiveTrack, NoMemory>
    ensures shown { IfOk result (λ t. track_shown t ≡ empty_track) }
    ensures paired { IfOk result AreSideBySide }
{
    Ok(LiveTrack {
        items: HeapCircularBuffer::with_capacity(alloc, 0)?,
        facts: HeapCircularBuffer::with_capacity(alloc, 0)?,
        first: 0,
        begin: Tick { n: 0, scale: 1 },
    })
}

/// The last segment that was listed of a track.
pub(crate) fn last_kept(track: &LiveTrack) -> Option<LastKept>
    requires { AreSideBySide track.now }
    ensures last { option_map last_of result ≡ (track_shown track.now).last }
    ensures place { no_place result ≡ (track_shown track.now).place }
{
    if track.facts.is_empty() {
        return None;
    }
    Some(track.last())
}

/// Whether the last segment is in the section of this number.
fn goes_on(track: &LiveTrack, number: u64) -> bool
    requires { AreSideBySide track.now }
    ensures { result ≡ option_map_or (λ l. l.section == number) (track_shown track.now).last false }
{
    match last_kept(track) {
        Some(last) => last.section == number,
        None => false,
    }
}

/// Reserves room for `more` segments. An error leaves the segments as they were.
pub(crate) fn reserve(track: &mut LiveTrack, more: usize) -> Result<(), NoMemory>
    requires { more < 2 ^ 63 }
    ensures items { track.new.items.items ≡ track.old.items.items }
    ensures facts { track.new.facts.items ≡ track.old.facts.items }
    ensures others { (track.new.first ≡ track.old.first) × (track.new.begin ≡ track.old.begin) }
    ensures room { OnOk result (HasRoom more track.new) }
{
    make_room(&mut track.items, more)?;
    make_room(&mut track.facts, more)
}

/// Reserves room for `more` members of a ring, and where it grows for an eighth more than it had.
fn make_room<T: Drop>(ring: &mut HeapCircularBuffer<T>, more: usize) -> Result<(), NoMemory>
    requires { more < 2 ^ 63 }
    ensures items { ring.new.items ≡ ring.old.items }
    ensures room { OnOk result (length ring.new.items + more ≤ ring.new.capacity) }
{
    let needed = ring.len() + more;
    if needed > ring.capacity() {
        let grown = ring.capacity().saturating_add(ring.capacity() / 8);
        ring.resize(needed.max(grown))?;
    }
    Ok(())
}

/// Adds a segment after the others of a track.
fn push(track: &mut LiveTrack, made: Made)
    requires paired { AreSideBySide track.old }
    requires room { HasRoom 1 track.old }
    ensures shown { track_shown track.new ≡ with_kept (track_shown track.old) (made_kept made) }
    ensures paired { AreSideBySide track.new }
    ensures room { (more : ℕ) → HasRoom (more + 1) track.old → HasRoom more track.new }
{
    track.begin = begin_with(track, &made);
    track.items.push_back(made.item);
    track.facts.push_back(made.fact);
}

/// When the section of a track's next segment begins.
fn begin_with(track: &LiveTrack, made: &Made) -> Tick
    requires { AreSideBySide track.now }
    ensures { IsBegunAt track.now made.now result }
{
    if goes_on(track, made.item.section) {
        track.begin
    } else {
        made.fact.span.start
    }
}

/// Adds segments after the others of a track. There has to be room for them.
pub(crate) fn push_all(track: &mut LiveTrack, made: Vec<Made>)
    requires paired { AreSideBySide track.old }
    requires room { HasRoom (length made.items) track.old }
    ensures shown { track_shown track.new ≡ with_all (track_shown track.old) (all_made made.items) }
    ensures paired { AreSideBySide track.new }
{
    for next in made {
        push(track, next);
    }
}

/// Removes `count` segments from the start of a track. At least one is kept.
pub(crate) fn remove(track: &mut LiveTrack, count: usize)
    requires paired { AreSideBySide track.old }
    requires some { count < length track.old.items.items }
    requires fits { track.old.first + count < 2 ^ 64 }
    ensures shown { track_shown track.new ≡ without_front count (track_shown track.old) }
    ensures paired { AreSideBySide track.new }
{
    let left = track.items.len() - count;
    track.items.truncate_front(left);
    track.facts.truncate_front(left);
    track.first += count as u64;
}
