// A time that the ends of segments are compared with.
ghost use Rattle.std.specs.Prelude.{◌≡◌, ◌≤◌, ◌<◌, ◌^◌, ◌*ℤ◌, pos, unsigned_abs};
ghost use Rattle.std.specs.Int.{int_div_euclid};

use exact_time::Tick;

/// No segment ends this many nanoseconds after or before its Period's start: 2^65 s, rounded up.
const FARTHEST: i128 = 1 << 95;

/// A time: `count` units, of which `unit` make a second.
#[derive(Clone, Copy)]
pub struct Bound {
    count: i128,
    unit: u32,
    pub ghost bounded: { unsigned_abs count ≤ 2 ^ 95 },
    pub ghost positive: { 0 < unit },
}

impl Bound {
    ghost use Rattle.exact_time.specs.Tick.{time_of};
    ghost use Rattle.timeline.specs.Bounds.{StandsFor, time_of_bound};
    ghost use Rattle.exact_time.specs.Time.{nanoseconds};

    /// A time in nanoseconds. A time past every segment's end is clamped.
    pub fn nanos(count: i128) -> Bound
        ensures { StandsFor result (nanoseconds count) }
    {
        Bound {
            count: count.clamp(-FARTHEST, FARTHEST),
            unit: 1_000_000_000,
        }
    }

    pub fn tick(time: Tick) -> Bound
        ensures { time_of_bound result ≡ time_of time }
    {
        Bound {
            count: time.n,
            unit: time.scale,
        }
    }

    /// The time in ticks of a scale, rounded down.
    pub fn ticks(self, scale: u32) -> i128
        ensures { result ≡ int_div_euclid (self.count *ℤ pos scale) (pos self.unit) }
    {
        (self.count * i128::from(scale)).div_euclid(i128::from(self.unit))
    }
}
