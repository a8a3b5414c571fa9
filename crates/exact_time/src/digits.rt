ghost use Rattle.std.specs.Prelude.{◌≡◌, ◌≤◌, ◌^◌, ◌↔◌, IsSome, IfSome};

use std::marker::Model;

/// How many decimals of a second are printed: 3 to 9.
///
/// In a contract a `Digits` is that number.
#[derive(Clone, Copy, PartialEq, Eq, PartialOrd, Ord, Debug)]
pub struct Digits(u8);

impl Model for Digits {
    ghost use Rattle.std.specs.Prelude.{ℕ, ◌≤◌};

    ghost Value = { ℕ };

    ghost view = { λ d. d.0 };

    ghost invariant = { λ d. (3 ≤ d.0) × (d.0 ≤ 9) };

    ghost inverse = { λ n. record { 0 = n } };
}

impl Digits {
    /// `None` exactly where `n` is not 3 to 9.
    pub fn of(n: u8) -> Option<Digits>
        ensures accepted { IsSome result ↔ ((3 ≤ n) × (n ≤ 9)) }
        ensures value { IfSome result (λ digits. digits ≡ n) }
    {
        if (3..=9).contains(&n) {
            Some(Digits(n))
        } else {
            None
        }
    }

    /// How many units make a second, where a unit is the last decimal: 10 to the power of the number of digits.
    pub fn unit(self) -> u32
        ensures value { result ≡ 10 ^ self }
        ensures low { 10 ^ 3 ≤ result }
        ensures high { result ≤ 10 ^ 9 }
    {
        10u32.pow(u32::from(self.0))
    }

    /// The number of digits.
    pub fn count(self) -> u8
        ensures value { result ≡ self }
        ensures low { 3 ≤ result }
        ensures high { result ≤ 9 }
    {
        self.0
    }
}

/// Six digits: microseconds.
impl Default for Digits {
    ghost is_default = { λ digits. digits ≡ 6 };

    fn default() -> Digits {
        Digits(6)
    }
}
