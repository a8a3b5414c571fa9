// An index into the segments of a Representation.
use std::marker::Model;

/// An index into the segments of a Representation. In a contract it is the number of segments before it.
#[derive(Clone, Copy, PartialEq, Eq)]
pub struct Cursor {
    place: u64,
}

impl Model for Cursor {
    ghost use Rattle.std.specs.Prelude.{ℕ};

    ghost Value = { ℕ };

    ghost view = { λ c. c.place };

    ghost inverse = { λ place. record { place = place } };
}

impl Cursor {
    ghost use Rattle.std.specs.Prelude.{◌≡◌, ◌-◌};

    /// The index `count` segments before this one, but not before the first one.
    pub fn back(self, count: u64) -> Cursor
        ensures { result ≡ self - count }
    {
        Cursor {
            place: self.place.saturating_sub(count),
        }
    }

    pub(crate) fn at(place: u64) -> Cursor
        ensures { result ≡ place }
    {
        Cursor { place }
    }

    pub(crate) fn place(self) -> u64
        ensures { result ≡ self }
    {
        self.place
    }
}
