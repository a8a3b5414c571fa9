//! Laws of followed playlists whose segments have their files' times. The functions do nothing: what they ensure is the law.
ghost use Rattle.hls_follow.specs.TimedHistories.{FirstListsAreAvailable, PeriodsAreInStep, TimedPlaylistsAreListed, TimedRunsGoOn, TimedSegmentsStay};
ghost use Rattle.hls_follow.specs.TimedHistories.{TimedStartsStay, TimesAreOwn};

use fragment_times::offsets_are_one_time;
use reload_law::rules_are_sentences;

/// A segment that the last accepted snapshot listed keeps its time; another's is the decode time that its own file has in the snapshot
/// that lists it first.
pub fn times_are_own()
    ensures { TimesAreOwn }
{}

/// Over every list of accepted snapshots the presentation keeps its start.
pub fn timed_starts_stay()
    ensures { TimedStartsStay }
{}

/// After every list of accepted snapshots the MPD has a Period for each section of the last playlists, and lists for each kept track
/// exactly the last playlist's segments in order, with their maps, URLs, byte ranges and times.
pub fn timed_playlists_are_listed()
    ensures { TimedPlaylistsAreListed }
{}

/// After every list of accepted snapshots each segment of the MPD lasts until the next one of its Period begins, so that the time of a
/// run's first segment determines all (ISO/IEC 23009-1, 5.3.9.6).
pub fn timed_runs_go_on()
    ensures { TimedRunsGoOn }
{}

/// A segment that a snapshot lists again, by its track and its sequence number, is in the MPD as it was after every earlier snapshot: the
/// id and the start of its Period, its timescale and presentation time offset, its own start, its file and its init segment.
pub fn timed_segments_stay()
    ensures { TimedSegmentsStay }
{
    rules_are_sentences();
}

/// After every list of accepted snapshots the presentation time offsets of a Period's tracks, over their timescales, are one time, so that
/// segments of two tracks are as far apart in the Period as the decode times of their files.
pub fn timed_periods_are_in_step()
    ensures { PeriodsAreInStep }
{
    offsets_are_one_time();
}

/// Two of the greatest target durations before the time of the first accepted snapshot, all that it lists is over on the clock of its MPD
/// (ISO/IEC 23009-1, 5.3.9.5.3).
pub fn first_lists_are_available()
    ensures { FirstListsAreAvailable }
{}
