ghost use Rattle.std.specs.Prelude.{◌≡◌, ℕ, ◌+◌, ◌*◌, ◌<◌, ◌≤◌, ◌^◌, pos, ◌+ℤ◌, ◌/◌, ◌<ℤ◌, All};
ghost use Rattle.exact_time.specs.Time.{IsAtMost, difference, seconds};
ghost use Rattle.exact_time.specs.Equal.{ends_after, equal_durations, longest_by, summed_up, ticks_after};
ghost use Rattle.exact_time.specs.Rounding.{AreNear, Call, Calls, rounding_behind, rounding_from, total};
ghost use Rattle.exact_time.specs.Tick.{time_of};

use crate::floor::floor_unit;
use crate::tick::Tick;
use std::marker::Model;

/// The durations of segments as they are printed, in whole units (an EXTINF of RFC 8216 4.3.2.1 is a
/// decimal number). Rounded each by itself, they would drift from the exact times in a long
/// presentation. Here their sum up to each segment is the exact time from the first segment's start
/// to that segment's end, rounded down: never above it, and less than one unit below it.
///
/// In a contract a `Rounder` is where the first segment begins, how many units make a second, and
/// the end of the segment before.
#[derive(Drop)]
pub struct Rounder {
    first: Tick,
    unit: u32,
    former: Tick,
    floor: u128,
}

impl Model for Rounder {
    ghost use Rattle.exact_time.specs.Rounding.{Rounding};

    ghost Value = { Rounding };

    ghost use Rattle.exact_time.specs.Rounder.{rounding_of, IsKept};

    ghost view = { rounding_of };

    ghost invariant = { IsKept };
}

/// The printed durations of some segments in turn, in units.
#[derive(Clone, Copy, PartialEq, Eq)]
pub struct Equal {
    /// Their sum.
    pub total: u128,
    /// The longest one, and 0 where there is no segment.
    pub longest: u64,
}

impl Rounder {
    /// For segments of which the first begins at `first`, in units of which `unit` make a second.
    pub fn new(first: Tick, unit: u32) -> Rounder
        requires low { 1 ≤ unit }
        requires high { unit ≤ 10 ^ 9 }
        ensures { result ≡ rounding_from (time_of first) unit }
    {
        Rounder {
            first,
            unit,
            former: first,
            floor: 0,
        }
    }

    /// Continues after segments that were printed before, of which the first one began at `first` and the last one
    /// ended at `former`: the next durations are those that a `Rounder` which printed these too would return. A
    /// playlist that is written again with more segments needs no other state.
    ///
    /// Requires that `former` isn't before `first`.
    pub fn resume(first: Tick, former: Tick, unit: u32) -> Rounder
        requires low { 1 ≤ unit }
        requires high { unit ≤ 10 ^ 9 }
        requires begun { IsAtMost (time_of first) (time_of former) }
        ensures { result ≡ rounding_behind (time_of first) unit (time_of former) }
    {
        Rounder {
            first,
            unit,
            former,
            floor: floor_unit(former, first, unit),
        }
    }

    /// The duration to print, in units, of the next segment, which ends at `end`.
    ///
    /// Requires that `end` is not before the end of the segment before, and at most 2,000,000 s after it. At the
    /// first call that end is the start of the first segment.
    pub fn next(&mut self, end: Tick) -> u64
        requires not_before { IsAtMost self.old.former (time_of end) }
        requires near { IsAtMost (difference (time_of end) self.old.former) (seconds 2000000) }
        ensures printed { total self.old + result ≡ total self.new }
        ensures kept { self.new ≡ record self.old { former = time_of end } }
        ensures bounded { result ≤ 2000000 * self.old.unit }
        ensures call { Call self.old (time_of end) result self.new }
    {
        self.pass(end) as u64
    }

    /// The durations to print for the next `count` segments, each `step` ticks long in the scale of the former end, and each
    /// beginning where the one before it ends: their sum and the longest one. It divides twice, however many they are. The
    /// durations, and the state afterwards, are those of as many calls of `next`.
    ///
    /// Requires that each is at most 2,000,000 s long, and that the last one ends before 2^64 ticks.
    pub fn next_equal(&mut self, step: u64, count: u64) -> Equal
        requires near { AreNear self.old.former (ends_after self.old.former step count) }
        requires room { (self.old.former.ticks +ℤ pos (count * step)) <ℤ pos (2 ^ 64) }
        ensures durations { result ≡ summed_up (equal_durations self.old step count) }
        ensures calls { Calls self.old (ends_after self.old.former step count) (equal_durations self.old step count) self.new }
        ensures kept { self.new ≡ record self.old { former = ticks_after self.old.former (count * step) } }
        ensures even { All (λ duration. result.longest ≤ duration + 1) (equal_durations self.old step count) }
    {
        let end = later(self.former, u128::from(count) * u128::from(step));
        let least = self.whole_units(step);
        let total = self.pass(end);
        Equal {
            total,
            longest: longest_of(total, least, count),
        }
    }

    /// Moves on to a later end, and returns how many units are printed up to it.
    #[inline(always)]
    fn pass(&mut self, end: Tick) -> u128
        requires { IsAtMost self.old.former (time_of end) }
        ensures printed { total self.old + result ≡ total self.new }
        ensures kept { self.new ≡ record self.old { former = time_of end } }
        ensures bounded { (c : ℕ) → IsAtMost (difference (time_of end) self.old.former) (seconds c) → result ≤ c * self.old.unit }
        ensures unit { self.old.unit ≤ 10 ^ 9 }
    {
        let floor = floor_unit(end, self.first, self.unit);
        let printed = floor - self.floor;
        self.former = end;
        self.floor = floor;
        printed
    }

    /// How many whole units `step` ticks of the former end's scale have.
    fn whole_units(&self, step: u64) -> u128
        ensures { result ≡ step * self.now.unit / self.now.former.scale }
    {
        u128::from(step) * u128::from(self.unit) / u128::from(self.former.scale)
    }
}

/// The longest of `count` durations with this sum, each of which is `least` or one more.
fn longest_of(total: u128, least: u128, count: u64) -> u64
    requires { 0 < count → least < 2 ^ 63 }
    ensures { result ≡ longest_by total least count }
{
    if count == 0 {
        0
    } else if total == least * u128::from(count) {
        least as u64
    } else {
        (least + 1) as u64
    }
}

/// The time `ticks` ticks later.
fn later(time: Tick, ticks: u128) -> Tick
    requires { (time.n +ℤ pos ticks) <ℤ pos (2 ^ 64) }
    ensures { time_of result ≡ ticks_after (time_of time) ticks }
{
    Tick {
        n: time.n + ticks as i128,
        scale: time.scale,
    }
}
