// Times in whole nanoseconds.
ghost use Rattle.std.specs.Prelude.{◌<◌, ◌^◌, unsigned_abs};

/// A time in whole nanoseconds, rounded down, and what is left: `rest / scale` nanoseconds.
#[derive(Clone, Copy)]
pub(crate) struct Rounded {
    pub(crate) whole: i128,
    pub(crate) rest: u64,
    pub(crate) scale: u64,
    ghost bounded: { unsigned_abs whole < 2 ^ 127 },
    ghost below: { rest < scale },
}
