// Which kept segments an update removes (after RFC 8216, 6.2.2).
ghost use Rattle.std.specs.Prelude.{◌≡◌, ◌+◌, ◌*◌, ◌<◌, ◌^◌, false, length, not};
ghost use Rattle.std.specs.List.{position_or_len};
ghost use Rattle.exact_time.specs.Tick.{time_of};
ghost use Rattle.exact_time.specs.Time.{before, nanoseconds};
ghost use Rattle.followed.specs.Durations.{durations};
ghost use Rattle.followed.specs.Places.{last_place};
ghost use Rattle.presentation.specs.Presented.{is_finished, looked_at, window_from};
ghost use Rattle.timeline.specs.Listed.{is_after};
ghost use Rattle.live_meaning.specs.Histories.{least_length};
ghost use Rattle.live_meaning.specs.Refusals.{count_kept};
ghost use Rattle.live_meaning.specs.Removal.{removed_of};
ghost use Rattle.live_meaning.specs.States.{kept_and_new, removed_from};
ghost use Rattle.live_judge.specs.Coming.{IsJoined, IsNext, IsTrackNext, c_of, coming_of, t_of};
ghost use Rattle.live_judge.specs.Removal.{is_still_available, kept_in};

use crate::standing::is_finished;
use crate::{Fact, LiveTrack, Next, TrackNext};
use exact_time::Tick;
use hls_writer::MediaItem;
use iso_time::Instant;
use presentation::Presentation;

/// How many kept segments are removed from the start, so that those after them last at least `least` units: those that are
/// no longer available at a time, as far as that allows. It allocates nothing.
///
/// Requires that the two buffers are parallel.
pub fn removed_of(track: &LiveTrack, force: &Presentation, now: Instant, least: u128) -> usize
    requires { length track.now.items.items ≡ length track.now.facts.items }
    ensures { result ≡ removed_of (looked_at now force.now).following least (kept_in track.now) }
{
    if is_finished(force, now) {
        return 0;
    }
    unavailable(track, force, now).min(last_place(track, least))
}

/// The index of the first segment that is still available, or after all of them.
#[tactic(auto, using(crate::proofs::Walks::in_lists))]
fn unavailable(track: &LiveTrack, force: &Presentation, now: Instant) -> usize
    ensures { result ≡ position_or_len (is_still_available (looked_at now force.now)) track.now.facts.items }
{
    for place in 0..track.facts.len() {
        if is_available(track.facts.get(place).unwrap(), force, now) {
            return place;
        }
    }
    track.facts.len()
}

fn is_available(fact: &Fact, force: &Presentation, now: Instant) -> bool
    ensures { result ≡ is_still_available (looked_at now force.now) fact.now }
{
    is_after(
        force.window_from(fact.period_start, now).after,
        fact.span.end,
    )
}

fn is_after(after: Option<i128>, end: Tick) -> bool
    ensures { result ≡ is_after after (time_of end) }
{
    match after {
        Some(after) => is_before(after, end),
        None => true,
    }
}

/// Farther from 0 than any tick, in nanoseconds.
const FAR: i128 = 1 << 94;

/// Whether a number of nanoseconds is before a time.
fn is_before(nanos: i128, end: Tick) -> bool
    ensures { result ≡ before (nanoseconds nanos) (time_of end) }
{
    if nanos >= FAR {
        return false;
    }
    if nanos <= -FAR {
        return true;
    }
    nanos * i128::from(end.scale) < end.n * 1_000_000_000
}

/// The last index from which the printed durations sum to at least `least` units, or 0 where there is none.
fn last_place(track: &LiveTrack, least: u128) -> usize
    requires { length track.now.items.items ≡ length track.now.facts.items }
    ensures { result ≡ last_place least (durations (kept_in track.now)) }
{
    let mut place = track.facts.len();
    let mut sum: u128 = 0;
    while place > 0 && sum < least {
        place -= 1;
        sum += u128::from(duration_of(track.get(place).0));
    }
    place
}

fn duration_of(item: &MediaItem) -> u64
    ensures { result ≡ item.now.duration }
{
    item.duration
}

impl Next<'_> {
    /// Three target durations in units: the least that is left of a track where segments are removed.
    pub fn least_length(&self) -> u128
        requires { IsNext self.now }
        ensures { result ≡ least_length (coming_of self.entry.now) }
    {
        3 * u128::from(self.standing.target) * u128::from(self.standing.digits.unit())
    }
}

impl TrackNext<'_> {
    /// How many kept segments the update removes from the start. It allocates nothing.
    ///
    /// Requires that there is no gap or overlap after a last segment, which `Next::judge` checks.
    pub fn removed(&self) -> usize
        requires next { IsTrackNext self.now }
        requires joined { IsJoined self.now.next.now }
        ensures { result ≡ removed_from (c_of self.entry.now) (kept_and_new (c_of self.entry.now) self.entry.now.index
            (t_of self.entry.now)) }
    {
        let least = self.next.least_length().saturating_sub(self.total());
        removed_of(self.track, self.next.force, self.next.now, least)
    }

    /// How many segments are kept with the new ones.
    pub(crate) fn kept_count(&self) -> u128
        requires next { IsTrackNext self.now }
        requires joined { IsJoined self.now.next.now }
        ensures kept { result ≡ count_kept (c_of self.entry.now) (kept_and_new (c_of self.entry.now) self.entry.now.index
            (t_of self.entry.now)) }
        ensures bounded { result < 2 ^ 127 + 2 ^ 64 }
    {
        let all = self.track.facts.len() as u128 + self.new_count();
        all.saturating_sub(self.removed() as u128)
    }
}
