// The longest printed durations.
ghost use Rattle.std.specs.Prelude.{◌≡◌, ◌<◌, Some, length, slice_get};

use bridge_io::Sequence;
use std::marker::Model;

/// The longest printed duration of each track, in units of the last printed decimal of a second.
///
/// In a contract it is these numbers, by track.
#[derive(Drop)]
pub struct Longest {
    durations: Sequence<u64>,
}

impl Model for Longest {
    ghost use Rattle.std.specs.Prelude.{List, ℕ};

    ghost Value = { List ℕ };

    ghost view = { λ l. l.durations };
}

impl Longest {
    pub(crate) fn new(durations: Sequence<u64>) -> Longest
        ensures { result ≡ durations }
    {
        Longest { durations }
    }

    /// The longest printed duration of a track. It allocates nothing.
    ///
    /// Requires that the track is in range.
    pub fn of(&self, track: usize) -> u64
        requires { track < length self.now }
        ensures { slice_get self.now track ≡ Some result }
    {
        self.durations.as_slice()[track]
    }
}
