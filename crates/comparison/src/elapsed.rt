// A time as the difference of two ticks.
ghost use Rattle.std.specs.Prelude.{◌<◌, ◌^◌, unsigned_abs};

/// A time from one tick to another, which is negative where the second is the earlier one.
#[derive(Clone, Copy)]
pub struct Elapsed {
    /// How many ticks.
    pub ticks: i128,
    /// How many ticks make a second.
    pub scale: u64,
    ghost positive: { 0 < scale },
    ghost bounded: { unsigned_abs ticks < 2 ^ 97 },
}
