use std::marker::Model;

/// A whole number of nanoseconds, below 10^19 (some 317 years).
///
/// In a contract a `Nanos` is that number.
#[derive(Clone, Copy, PartialEq, Eq, PartialOrd, Ord, Debug)]
pub struct Nanos(pub u64);

impl Model for Nanos {
    ghost use Rattle.std.specs.Prelude.{ℕ, ◌^◌, ◌<◌};

    ghost Value = { ℕ };

    ghost view = { λ a. a.0 };

    ghost invariant = { λ a. a.0 < 10 ^ 19 };

    ghost inverse = { λ n. record { 0 = n } };
}
