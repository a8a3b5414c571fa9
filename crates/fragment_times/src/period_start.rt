// When a Period starts, in the media times of its tracks.
ghost use Rattle.std.specs.Prelude.{◌≡◌, ◌≤◌, All};
ghost use Rattle.fragment_times.specs.Origins.{first_of};
ghost use Rattle.fragment_times.specs.PeriodStarts as spec;
ghost use Rattle.fragment_times.specs.Times.{IsScaled};

use crate::{Origin, SegmentTimes};
use segment_forms::Form;

/// The media time of a Period's start, which each track states as its presentation time offset (ISO/IEC 23009-1, 5.3.9.2).
#[derive(Clone, Copy)]
pub enum PeriodStart {
    /// For each track, the time at which its own first segment begins.
    Own,
    /// One time for all tracks.
    Shared(Origin),
}

impl PeriodStart {
    /// The start of a Period with these tracks: in the plain form each track's own, and in the players' form the origin of all
    /// tracks.
    ///
    /// Requires at least one tick per second. The offset of each of the tracks is at most its first segment's decode time.
    pub fn of(form: Form, tracks: &[SegmentTimes]) -> PeriodStart
        requires { All IsScaled tracks.now }
        ensures start { result ≡ spec.start_of form tracks.now }
        ensures begins { All (spec.IsStartOf result) tracks.now }
    {
        match form {
            Form::Plain => PeriodStart::Own,
            Form::Players => PeriodStart::Shared(Origin::of(tracks)),
        }
    }

    /// The presentation time offset of a track, in its ticks; of a track without segments it is 0.
    ///
    /// Requires that the Period doesn't start after the track's first segment.
    pub fn offset(self, track: &SegmentTimes) -> u64
        requires { spec.IsStartOf self track.now }
        ensures offset { result ≡ spec.offset_by self track.now }
        ensures begins { result ≤ first_of track.now }
    {
        let first = track.first();
        match self {
            PeriodStart::Own => first,
            PeriodStart::Shared(origin) => origin.offset(track.scale),
        }
    }
}
