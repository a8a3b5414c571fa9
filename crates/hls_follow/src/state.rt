// The state after the accepted snapshots.
ghost use Rattle.std.specs.Prelude.{◌≡◌};

use bridge_io::Sequence;
use dash_writer::LiveMpd;
use exact_time::Nanos;
use hls_media::{Media, MediaSegment};
use std::marker::Model;

/// A kept track's last playlist.
#[derive(Drop)]
pub(crate) struct FollowedTrack {
    /// The playlist.
    pub(crate) media: Media,
    /// When its segments begin: in nanoseconds relative to their sections' starts, or in ticks where these are the times of their files.
    pub(crate) times: TimeList,
}

/// Times in order.
pub(crate) type TimeList = Sequence<u64>;

/// The state after the accepted snapshots.
#[derive(Drop)]
pub(crate) struct Followed {
    /// Which of the master's tracks are kept.
    pub(crate) kept: KeptList,
    /// Those tracks.
    pub(crate) tracks: FollowedList,
    /// The last snapshot's MPD.
    pub(crate) mpd: LiveMpd,
}

/// Which tracks are kept, by index.
pub(crate) type KeptList = Sequence<bool>;

/// Kept tracks in order.
pub(crate) type FollowedList = Sequence<FollowedTrack>;

/// A segment of a playlist with its time.
#[derive(Drop)]
pub(crate) struct TimedSegment<'a> {
    segment: &'a MediaSegment,
    time: u64,
}

impl<'a> Model for TimedSegment<'a> {
    ghost use Rattle.hls_follow.specs.Times.{TimedSegment};

    ghost Value = { TimedSegment };

    ghost view = { λ t. record { segment = t.segment.now; time = t.time } };
}

impl<'a> TimedSegment<'a> {
    pub(crate) fn new(segment: &'a MediaSegment, time: u64) -> TimedSegment<'a>
        ensures { result ≡ record { segment = segment.now; time = time } }
    {
        TimedSegment { segment, time }
    }

    /// The segment.
    pub(crate) fn segment(&self) -> &'a MediaSegment
        ensures { result.now ≡ self.now.segment }
    {
        self.segment
    }

    /// When it begins, in nanoseconds relative to its section's start.
    pub(crate) fn time(&self) -> u64
        ensures { result ≡ self.now.time }
    {
        self.time
    }
}

/// The segments of a playlist in order.
pub(crate) type TimedList<'a> = Sequence<TimedSegment<'a>>;

/// The last segment before new ones.
#[derive(Clone, Copy)]
pub(crate) struct Last {
    /// The sequence number after its own.
    pub(crate) next: u128,
    /// Its section.
    pub(crate) section: u64,
    /// When it begins, in nanoseconds relative to its section's start.
    pub(crate) time: u64,
    /// How long it lasts.
    pub(crate) duration: Nanos,
}
