// The position of an error.
ghost use Rattle.std.specs.Prelude.{◌≡◌};
ghost use Rattle.bridge_report.specs.Refusals.{spot_told};

use bridge_io::Place;

/// The position of an error.
#[derive(Clone, Copy, Debug, PartialEq, Eq)]
pub enum Spot {
    /// At a byte, counted from 0, of a file that has no lines.
    Byte(u64),
    /// At a byte and its line.
    At(Place),
    /// At a listed segment, counted from 0.
    Segment {
        /// The section's index.
        section: usize,
        /// The track's index.
        track: usize,
        /// The segment's index among those that are listed there.
        segment: u64,
    },
}

impl Spot {
    /// The spot of a URL.
    pub fn of(spot: presentation::Spot) -> Spot
        ensures { result ≡ spot_told spot }
    {
        match spot {
            presentation::Spot::At(place) => Spot::At(place),
            presentation::Spot::Segment {
                section,
                track,
                segment,
            } => Spot::Segment {
                section,
                track,
                segment,
            },
        }
    }
}
