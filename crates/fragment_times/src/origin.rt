// One time origin for the tracks of a Period.
ghost use Rattle.std.specs.Prelude.{◌≡◌, ◌<◌, ◌≤◌, ◌^◌, All};
ghost use Rattle.std.specs.Int.{IsGcd};
ghost use Rattle.fragment_times.specs.Origins as spec;
ghost use Rattle.fragment_times.specs.Times.{IsScaled};

use crate::SegmentTimes;

/// A media time that all tracks of a Period can state in whole ticks: `count / unit` seconds. As the time of the Period's start it
/// gives each track its presentation time offset (ISO/IEC 23009-1, 5.3.9.2), so that the tracks stay in step.
#[derive(Clone, Copy)]
pub struct Origin {
    /// How many units the origin is after the media time 0.
    pub count: u64,
    /// How many units make a second.
    pub unit: u32,
}

impl Origin {
    /// The origin of a Period's tracks: the last time, in whole units, that isn't after the decode time of any track's first
    /// segment. `unit` is the greatest common divisor of the timescales, so that a unit is a whole number of each track's ticks.
    /// A track without segments counts as one that begins at the media time 0; without tracks `count` and `unit` are 0.
    ///
    /// The earliest of the first segments begins less than `1 / unit` seconds after the origin, and at it where they all begin at
    /// one time.
    ///
    /// Requires at least one tick per second. The presentation time offset of each of the tracks is at most its first segment's
    /// decode time.
    pub fn of(tracks: &[SegmentTimes]) -> Origin
        requires { All IsScaled tracks.now }
        ensures origin { result ≡ spec.origin_of tracks.now }
        ensures begins { All (spec.IsBeginning result) tracks.now }
    {
        let unit = unit_of(tracks);
        Origin {
            count: count_of(unit, tracks),
            unit,
        }
    }

    /// The presentation time offset of a track: the origin in ticks, of which `scale` make a second.
    pub fn offset(self, scale: u32) -> u64
        requires unit { 0 < self.unit }
        requires fits { spec.offset_in self scale < 2 ^ 64 }
        ensures { result ≡ spec.offset_in self scale }
    {
        self.count * u64::from(scale / self.unit)
    }
}

/// The greatest common divisor of the timescales.
fn unit_of(tracks: &[SegmentTimes]) -> u32
    requires { All IsScaled tracks.now }
    ensures unit { result ≡ spec.unit_of tracks.now }
    ensures whole { All (spec.IsUnit result) tracks.now }
{
    let mut unit = 0;
    for track in tracks {
        unit = greatest_common_divisor(unit, track.scale);
    }
    unit
}

/// The greatest common divisor of two numbers, by Euclid's algorithm.
fn greatest_common_divisor(one: u32, other: u32) -> u32
    ensures { IsGcd one other result }
{
    let mut divisor = one;
    let mut rest = other;
    while rest != 0 {
        let next = divisor % rest;
        divisor = rest;
        rest = next;
    }
    divisor
}

/// How many whole units go by up to the first of the tracks' first segments.
fn count_of(unit: u32, tracks: &[SegmentTimes]) -> u64
    requires { All (spec.IsUnit unit) tracks.now }
    ensures { result ≡ spec.count_of unit tracks.now }
{
    let Some((first, others)) = tracks.split_first() else {
        return 0;
    };
    let mut count = units_in(unit, first);
    for track in others {
        count = count.min(units_in(unit, track));
    }
    count
}

/// How many whole units go by up to a track's first segment.
fn units_in(unit: u32, track: &SegmentTimes) -> u64
    requires { spec.IsUnit unit track.now }
    ensures { result ≡ spec.units_in unit track.now }
{
    track.first() / u64::from(track.scale / unit)
}
