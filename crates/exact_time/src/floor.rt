ghost use Rattle.std.specs.Prelude.{◌≡◌, ℕ, pos, ◌*◌, ◌/◌, ◌≤◌, ◌<◌, ◌^◌};
ghost use Rattle.exact_time.specs.Time.{IsAtMost, difference};
ghost use Rattle.exact_time.specs.Floor.{IsFloorIn, IsCeiling, floor_in};
ghost use Rattle.exact_time.specs.Tick.{time_of};

use crate::order::cross_product;
use crate::tick::Tick;

/// The time from `first` to `end` in units of which `unit` make a second, rounded down.
///
/// No step leaves 128 bits: a cross product is below 2^96, their difference below 2^97, and that
/// times the unit below 2^127. Ticks of one scale need no cross product.
pub fn floor_unit(end: Tick, first: Tick, unit: u32) -> u128
    requires not_before { IsAtMost (time_of first) (time_of end) }
    requires unit { unit ≤ 10 ^ 9 }
    ensures floor { IsFloorIn unit (difference (time_of end) (time_of first)) result }
    ensures value { result ≡ floor_in unit (difference (time_of end) (time_of first)) }
{
    if end.scale == first.scale {
        return floor_ticks(end, first, unit);
    }
    let scale = u128::from(end.scale) * u128::from(first.scale);
    elapsed(end, first) * u128::from(unit) / scale
}

/// The same of ticks of one scale, where any number of units may make a second. No step leaves 128 bits: the ticks between
/// are below 2^65, and times the unit below 2^97. Most of them divide in 64 bits.
pub fn floor_ticks(end: Tick, first: Tick, unit: u32) -> u128
    requires one_scale { end.scale ≡ first.scale }
    requires not_before { IsAtMost (time_of first) (time_of end) }
    ensures floor { IsFloorIn unit (difference (time_of end) (time_of first)) result }
    ensures value { result ≡ floor_in unit (difference (time_of end) (time_of first)) }
{
    quotient(end.n.abs_diff(first.n) * u128::from(unit), end.scale)
}

/// A division, in 64 bits where they suffice: that takes a third of the time.
fn quotient(number: u128, by: u32) -> u128
    requires { 0 < by }
    ensures { result ≡ number / by }
{
    match u64::try_from(number) {
        Ok(number) => u128::from(number / u64::from(by)),
        Err(_) => number / u128::from(by),
    }
}

/// The numerator of `end - first` over the scale `end.scale * first.scale`.
fn elapsed(end: Tick, first: Tick) -> u128
    requires { IsAtMost (time_of first) (time_of end) }
    ensures exact { (difference (time_of end) (time_of first)).ticks ≡ pos result }
    ensures bounded { result < 2 ^ 97 }
{
    (cross_product(end, first) - cross_product(first, end)) as u128
}

/// `length` over `step`, rounded up.
pub fn ceil_count(length: u128, step: u128) -> u128
    requires { 0 < step }
    ensures { IsCeiling length step result }
{
    length.div_ceil(step)
}
