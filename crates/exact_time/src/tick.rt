ghost use Rattle.std.specs.Prelude.{ℕ, ◌<◌, ◌^◌, unsigned_abs};

/// A time as a whole number of ticks: `n / scale` seconds, exactly (ISO/IEC 23009-1 5.3.9.6 counts a segment's times
/// this way; `scale` is the timescale).
#[derive(Clone, Copy, Debug)]
pub struct Tick {
    /// How many ticks. Negative for a time before the origin.
    pub n: i128,
    /// How many ticks make a second.
    pub scale: u32,
    pub ghost bounded: { unsigned_abs n < 2 ^ 64 },
    pub ghost positive: { 0 < scale },
}
