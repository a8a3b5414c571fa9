// Where a segment's numbers are in its name.
ghost use Rattle.std.specs.Prelude.{◌≤◌};

use bridge_io::Text;

/// A number of a segment in a name.
#[derive(Drop)]
pub struct Slot {
    /// The text between it and the number before it.
    pub before: Text,
    /// Which number it is.
    pub counter: Counter,
    /// How many digits it is padded to.
    pub width: u8,
    pub ghost padded: { width ≤ 20 },
}

/// A number that a segment has of its own.
#[derive(Clone, Copy, Debug)]
pub enum Counter {
    /// The segment's number.
    Number,
    /// The segment's start in media time, in ticks.
    Time,
}
