// Times from one tick to another, compared as fractions.
ghost use Rattle.std.specs.Prelude.{◌≡◌, ◌==◌, ◌*◌, ◌<◌, ◌≤◌, ◌^◌, unsigned_abs};
ghost use Rattle.exact_time.specs.Floor.{floor_in};
ghost use Rattle.exact_time.specs.Time.{cross, in_units};
ghost use Rattle.exact_time.specs.Tick.{time_of};
ghost use Rattle.meaning.specs.Differences.{is_same_time, is_same_or_rounded};
ghost use Rattle.comparison.specs.Elapsed.{time_since, stretch_of};

use crate::elapsed::Elapsed;
use exact_time::{Tick, compare, floor_unit};
use std::cmp::Ordering;

/// The start of a track's first segment in a section, and the end of one of its segments.
#[derive(Clone, Copy)]
pub struct Stretch {
    /// The start of the first segment.
    pub begin: Tick,
    /// The end of the segment.
    pub end: Tick,
}

impl Stretch {
    /// Its length.
    pub fn elapsed(self) -> Elapsed
        ensures { time_since result ≡ stretch_of self }
    {
        let Stretch { begin, end } = self;
        Elapsed {
            ticks: cross_product(end, begin) - cross_product(begin, end),
            scale: u64::from(end.scale) * u64::from(begin.scale),
        }
    }

    /// How many whole units it has; the argument is the units per second. 0 where it ends before it begins.
    fn floor(self, unit: u32) -> u128
        requires { unit ≤ 10 ^ 9 }
        ensures { result ≡ floor_in unit (stretch_of self) }
    {
        match compare(self.end, self.begin) {
            Ordering::Less => 0,
            Ordering::Equal | Ordering::Greater => floor_unit(self.end, self.begin, unit),
        }
    }
}

/// The numerator of `a` over the common scale of both.
fn cross_product(a: Tick, b: Tick) -> i128
    ensures exact { result ≡ cross (time_of a) (time_of b) }
    ensures bounded { unsigned_abs result < 2 ^ 96 }
{
    a.n * i128::from(b.scale)
}

impl Elapsed {
    /// Whether it is as long as another one.
    fn is_same(self, other: Elapsed) -> bool
        ensures { result ≡ is_same_time (time_since self) (time_since other) }
    {
        (self.ticks < 0) == (other.ticks < 0)
            && is_same_ratio(
                self.ticks.unsigned_abs(),
                self.scale,
                other.ticks.unsigned_abs(),
                other.scale,
            )
    }

    /// Whether it is as long as `count` units, of which `unit` make a second.
    fn is_units(self, count: u128, unit: u32) -> bool
        requires { 0 < unit }
        ensures { result ≡ is_same_time (in_units unit count) (time_since self) }
    {
        self.ticks >= 0
            && is_same_ratio(
                count,
                u64::from(unit),
                self.ticks.unsigned_abs(),
                self.scale,
            )
    }
}

/// Whether the second stretch is as long as the first one, or as that one rounded down to whole units, of which `unit` make
/// a second.
pub fn is_same_or_rounded(mine: Stretch, theirs: Stretch, unit: u32) -> bool
    requires positive { 0 < unit }
    requires high { unit ≤ 10 ^ 9 }
    ensures { result ≡ is_same_or_rounded unit (stretch_of mine) (stretch_of theirs) }
{
    let told = theirs.elapsed();
    mine.elapsed().is_same(told) || told.is_units(mine.floor(unit), unit)
}

/// Whether two fractions are equal. Their whole parts and remainders are compared separately, so that no product exceeds
/// 128 bits.
fn is_same_ratio(ticks: u128, scale: u64, other_ticks: u128, other_scale: u64) -> bool
    requires scale { 0 < scale }
    requires other_scale { 0 < other_scale }
    ensures { result ≡ (ticks * other_scale == other_ticks * scale) }
{
    let scale = u128::from(scale);
    let other_scale = u128::from(other_scale);
    ticks / scale == other_ticks / other_scale
        && ticks % scale * other_scale == other_ticks % other_scale * scale
}
