// The position of a difference.
ghost use Rattle.std.specs.Prelude.{◌≡◌};
ghost use Rattle.meaning.specs.Differences.{in_entry};

use meaning::{Aspect, Difference};

/// A segment of a track in a section, each by its index from 0.
#[derive(Clone, Copy, Debug)]
pub struct Spot {
    /// The section.
    pub section: usize,
    /// The track.
    pub track: usize,
    /// The segment of the track in the section.
    pub segment: usize,
}

impl Spot {
    /// The spot of another segment of the track in the section.
    pub fn at(self, segment: usize) -> Spot
        ensures section { result.section ≡ self.section }
        ensures track { result.track ≡ self.track }
        ensures segment { result.segment ≡ segment }
    {
        Spot { segment, ..self }
    }

    /// A difference here.
    pub fn of(self, what: Aspect) -> Difference
        ensures { result ≡ in_entry self.track self.section self.segment what }
    {
        Difference {
            what,
            section: self.section,
            track: self.track,
            segment: self.segment,
        }
    }
}
