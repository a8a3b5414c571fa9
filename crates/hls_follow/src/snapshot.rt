// A snapshot whose media files are read.
ghost use Rattle.std.specs.Prelude.{◌≡◌, IfOk, option_map};
ghost use Rattle.std.specs.Option.{option_copied};
ghost use Rattle.hls_follow.specs.OwnTimes as spec;

use crate::state::FollowedTrack;
use crate::stretches::Stretches;
use dash_writer::{LivePeriod, LiveRun};
use url_parts::Base;

/// A checked snapshot, and what is known of it.
#[derive(Clone, Copy)]
pub(crate) struct Snapshot<'a> {
    /// The kept tracks after the last accepted snapshot.
    pub(crate) formers: &'a [FollowedTrack],
    /// The Periods after it.
    pub(crate) periods: &'a [LivePeriod],
    /// The section numbers in order.
    pub(crate) sections: &'a [u64],
    /// The segments of the kept tracks.
    pub(crate) tracks: &'a [Stretches<'a>],
    /// The URL of the store's folder.
    pub(crate) folder: &'a Base,
}

/// The Period of a section, where the last accepted snapshot had it.
pub(crate) fn period_in(number: u64, periods: &[LivePeriod]) -> Option<&LivePeriod>
    ensures { option_copied result ≡ spec.period_in number periods.now }
{
    for period in periods {
        if period.number == number {
            return Some(period);
        }
    }
    None
}

/// What is known of the track at an index in a section.
pub(crate) fn run_at(known: Option<&LivePeriod>, track: usize) -> Option<&LiveRun>
    ensures { option_copied result ≡ spec.run_at (option_copied known.entry) track }
{
    known?.runs.as_slice().get(track)
}
