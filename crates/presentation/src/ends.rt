// Whether the segments up to open ends break no limit.
ghost use Rattle.std.specs.Prelude.{◌≡◌, ◌<◌, length};
ghost use Rattle.presentation.specs.Counting as spec;
ghost use Rattle.presentation.specs.Counting.{unless_any};
ghost use Rattle.presentation.specs.Presented.{looked_at};

use crate::{Presentation, PresentationFault};
use iso_time::Instant;

impl Presentation {
    /// Checks, for another time, whether the segments up to an open end break no limit. The fault is `Timeline`, at the
    /// first track and section where they do. The presentation doesn't change, and the number of segments isn't checked.
    /// It allocates nothing.
    pub fn check_ends(&self, now: Instant) -> Result<(), PresentationFault>
        ensures { result ≡ unless_any (spec.range_faults (looked_at now self.now)) tt }
    {
        for track in 0..self.tracks.len() {
            if let Err(fault) = self.check_track_ends(track, now) {
                return Err(fault);
            }
        }
        Ok(())
    }

    fn check_track_ends(&self, track: usize, now: Instant) -> Result<(), PresentationFault>
        requires { track < length self.now.tracks }
        ensures { result ≡ unless_any (spec.range_faults_of (looked_at now self.now) track) tt }
    {
        for section in 0..self.sections.len() {
            if let Err(fault) = self.check_end(section, track, now) {
                return Err(fault);
            }
        }
        Ok(())
    }

    /// The same for a track in a section.
    fn check_end(&self, section: usize, track: usize, now: Instant) -> Result<(), PresentationFault>
        requires section { section < length self.now.sections }
        requires track { track < length self.now.tracks }
        ensures { result ≡ unless_any (spec.range_at (looked_at now self.now) track section) tt }
    {
        let window = self.window_from(self.start_of(section), now);
        match self.content(section, track).runs.count(&window) {
            Ok(_) => Ok(()),
            Err(fault) => Err(self.time_fault(fault, section, track)),
        }
    }
}
