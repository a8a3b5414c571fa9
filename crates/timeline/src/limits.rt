// Limits of segments: the latest end and the longest duration.
ghost use Rattle.std.specs.Prelude.{◌≡◌, ◌<◌, ◌≤◌, ◌+◌, ◌*◌, ◌^◌};

/// The media time, in ticks, before which all segments end.
const END: u128 = 1 << 63;

/// The longest duration of a segment, in seconds.
pub const LONGEST: u64 = 1_000_000;

/// The latest end of a segment, in seconds after its Period's start.
pub const FARTHEST: u64 = 100_000_000_000;

/// The limits of segments with times in ticks.
#[derive(Clone, Copy)]
pub struct Limits {
    /// How many ticks make a second.
    pub ticks: u32,
    /// The media time of the Period's start.
    pub origin: u64,
    pub ghost positive: { 0 < ticks },
}

impl Limits {
    /// Placeholder limits, for no segment.
    pub const NONE: Limits = Limits {
        ticks: 1,
        origin: 0,
    };

    ghost use Rattle.timeline.specs.Limits.{media_extent, breaks_limits};
    ghost use Rattle.timeline.specs.MediaTimelines.{are_passed};

    /// Whether a segment that ends at this media time and lasts `step` ticks breaks the limits.
    pub fn are_broken(&self, end: u128, step: u64) -> bool
        requires { step ≤ end }
        ensures { result ≡ breaks_limits self.now.ticks self.now.origin (media_extent self.now end step) }
    {
        let ticks = u128::from(self.ticks);
        let farthest = u128::from(self.origin) + ticks * u128::from(FARTHEST);
        END <= end || ticks * u128::from(LONGEST) < u128::from(step) || farthest < end
    }

    /// Whether some segment breaks the limits, where the longest one lasts `longest` ticks, and the last one, which
    /// ends latest, ends at media time `end`, before 2^63.
    pub fn are_passed(&self, longest: u64, end: u64) -> bool
        ensures { result ≡ are_passed self.now longest end }
    {
        let ticks = u128::from(self.ticks);
        let farthest = u128::from(self.origin) + ticks * u128::from(FARTHEST);
        ticks * u128::from(LONGEST) < u128::from(longest) || farthest < u128::from(end)
    }
}
