// How many segments are listed.
ghost use Rattle.std.specs.Prelude.{◌≡◌, ◌+◌, ◌-◌, ◌^◌, ◌<◌, ◌||◌, nat_lt, min, length};
ghost use Rattle.presentation.specs.Counting as spec;

use crate::{Presentation, PresentationFault};
use bridge_io::Place;
use timeline::TimeFault;

/// The most segments of a track.
const TRACK_LIMIT: u64 = 100_000;

/// The most segments of all tracks.
const LIMIT: u64 = 500_000;

/// The counts so far. Counts stop at the last value of a counter.
#[derive(Clone, Copy)]
struct Tally {
    total: u64,
    is_over: bool,
}

impl Tally {
    /// Adds the segments of a track.
    fn add(self, listed: u64) -> Tally
        ensures total { result.total ≡ min (2 ^ 64 - 1) (self.total + listed) }
        ensures over { result.is_over ≡ (self.is_over || nat_lt 100000 listed) }
    {
        Tally {
            total: self.total.saturating_add(listed),
            is_over: self.is_over || listed > TRACK_LIMIT,
        }
    }

    /// How many segments there are, unless there are too many.
    fn finish(self) -> Result<u64, PresentationFault>
        ensures { result ≡ spec.unless_over (self.is_over || nat_lt 500000 self.total) self.total }
    {
        if self.is_over || self.total > LIMIT {
            return Err(PresentationFault::Limit);
        }
        Ok(self.total)
    }
}

impl Presentation {
    /// How many segments are listed in all. The first of these faults is returned, track by track and section by
    /// section: `Timeline` where the segments up to an open end break a limit; `NoSegments` where a track of a VOD
    /// presentation has none in a section, or one of a followed presentation has none at all. `Limit` comes last: more
    /// than 100,000 segments of a track, or 500,000 in all. It allocates nothing.
    pub fn count(&self) -> Result<u64, PresentationFault>
        ensures { result ≡ spec.counted self.now }
    {
        let mut tally = Tally {
            total: 0,
            is_over: false,
        };
        for track in 0..self.tracks.len() {
            match self.count_track(track) {
                Ok(listed) => tally = tally.add(listed),
                Err(fault) => return Err(fault),
            }
        }
        tally.finish()
    }

    /// How many segments of a track are listed.
    fn count_track(&self, track: usize) -> Result<u64, PresentationFault>
        requires { track < length self.now.tracks }
        ensures { result ≡ spec.counted_of_track self.now track }
    {
        let mut total: u64 = 0;
        for section in 0..self.sections.len() {
            match self.count_section(section, track) {
                Ok(listed) => total = total.saturating_add(listed),
                Err(fault) => return Err(fault),
            }
        }
        self.finish_track(track, total)
    }

    /// How many segments of a track are listed: a followed presentation has to have some.
    fn finish_track(&self, track: usize, total: u64) -> Result<u64, PresentationFault>
        requires { total ≡ spec.capped (spec.count_of_track self.now track) }
        ensures { result ≡ spec.unless_any (spec.whole_track_faults self.now track) total }
    {
        if self.following.is_some() && total == 0 {
            return Err(PresentationFault::NoSegments { section: 0, track });
        }
        Ok(total)
    }

    /// How many segments of a track are listed in a section.
    fn count_section(&self, section: usize, track: usize) -> Result<u64, PresentationFault>
        requires section { section < length self.now.sections }
        requires track { track < length self.now.tracks }
        ensures { result ≡ spec.counted_at self.now track section }
    {
        let window = self.window(section);
        match self.content(section, track).runs.count(&window) {
            Err(fault) => Err(self.time_fault(fault, section, track)),
            Ok(0) if self.following.is_none() => {
                Err(PresentationFault::NoSegments { section, track })
            }
            Ok(listed) => Ok(listed),
        }
    }

    pub(crate) fn time_fault(
        &self,
        fault: TimeFault,
        section: usize,
        track: usize,
    ) -> PresentationFault
        requires section { section < length self.now.sections }
        requires track { track < length self.now.tracks }
        ensures { result ≡ spec.time_fault self.now track section fault }
    {
        let place = self.place_of(section, track);
        PresentationFault::Timeline(fault, place)
    }

    /// The position of a Representation.
    fn place_of(&self, section: usize, track: usize) -> Place
        requires section { section < length self.now.sections }
        requires track { track < length self.now.tracks }
        ensures { result ≡ spec.place_at self.now track section }
    {
        match self.places.get(self.place_in(section, track)) {
            Some(place) => *place,
            None => Place { at: 0, line: 1 },
        }
    }
}
