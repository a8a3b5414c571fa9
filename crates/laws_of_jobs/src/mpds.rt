//! Laws of MPDs that are written for playlists that were read. The functions do nothing: what they ensure is the law.
ghost use Rattle.laws_of_jobs.specs.Followed.{FollowedAreRead, FollowedCanBeRead};
ghost use Rattle.laws_of_jobs.specs.Forms.{FollowedAreAlike, ReadAreAlike, ReadTimesAreAlike};
ghost use Rattle.laws_of_jobs.specs.Timed.{TimedAreRead, TimedCanBeRead, TimedMeanTheirTimes};
ghost use Rattle.laws_of_jobs.specs.TimedRuns.{WrittenHasPlaylistsAndTimes};

use bridge_courses::{a_verdict_keeps_the_steps, done_is_whole};
use hls_media::what_is_read_is_bounded;
use hls_presentation::what_is_read_is_silent;
use laws_of_mpds::{
    forms_mean_the_same, live_texts_are_read, presented_mean_their_files,
    read_tracks_can_be_written, timed_presentations_keep_their_files, timed_texts_are_read,
    timed_texts_mean_their_times, what_is_read_has_addresses, written_playlists_mean_the_same,
};
use laws_of_playlists::read_trees_are_of_bytes;

/// After every list of accepted snapshots, from the first one, the text of the live MPD, in either form, is read back with the values
/// of the MPD, where the master playlist was read, the snapshots have timestamps that can be read, and their playlists are bounded and
/// have URLs as those that were read (`hls_media::what_is_read_is_bounded`, `laws_of_mpds::what_is_read_has_addresses`). Until all
/// playlists have EXT-X-ENDLIST it says that the MPD is dynamic, when the presentation begins and when the last snapshot was
/// read, in whole milliseconds; then the id and the start of each Period, and for each track in each Period its segments: the time of
/// the first one, each one's duration, the init segment, and the URLs and byte ranges or the template of the URLs (ISO/IEC 23009-1,
/// 5.3.1 to 5.3.9; RFC 8216 4.3 and 6.2).
pub fn followed_mpds_are_read()
    ensures readable { FollowedCanBeRead }
    ensures said { FollowedAreRead }
{
    live_texts_are_read();
    read_tracks_can_be_written();
}

/// The MPD that is written, in either form, for a master playlist and media playlists that were read, with the decode times of their
/// media files, means, at any URL and time, the tracks, files and init segments of the playlists, where each segment begins at its
/// decode time minus the media time of its section's start (ISO/IEC 23009-1, 5.3.9.2 and 5.3.9.6; ISO/IEC 14496-12, 8.4.2 and
/// 8.8.12). For each track in each section its text has the timescale of the init segment, the media time of the section's start, the
/// decode time of the first segment, each one's duration, the init segment, and the URLs and byte ranges or the template of the URLs.
/// Files consist of bytes, so a timescale has 32 bits.
pub fn timed_mpds_mean_their_times()
    ensures readable { TimedCanBeRead }
    ensures meaning { TimedMeanTheirTimes }
    ensures said { TimedAreRead }
{
    timed_texts_are_read();
    timed_texts_mean_their_times();
    read_tracks_can_be_written();
    what_is_read_is_silent();
}

/// Where a run of `dash-times` succeeds, the MPD that it wrote means, at any URL and time, the same tracks, init segments, URLs and
/// byte ranges in order as the master playlist and its media playlists. A segment of a track in a section begins at the decode time
/// of its own file minus the media time of the section's start, in the timescale of the init segment, and ends when the next one
/// begins (RFC 8216, 4.3; ISO/IEC 23009-1, 5.3; ISO/IEC 14496-12, 8.4.2 and 8.8.12). In the plain form a section starts, for each of
/// its tracks, with the track's first segment. In the players' form it starts at one media time for all its tracks, which isn't after
/// the first segment of any of them, and is less than `1 / n` seconds before that of one of them, for each number n that divides all
/// their timescales.
pub fn what_is_timed_means_the_playlists()
    ensures { WrittenHasPlaylistsAndTimes }
{
    done_is_whole();
    a_verdict_keeps_the_steps();
    read_trees_are_of_bytes();
    read_tracks_can_be_written();
    what_is_read_has_addresses();
    presented_mean_their_files();
    what_is_read_is_bounded();
    what_is_read_is_silent();
    timed_texts_mean_their_times();
    timed_presentations_keep_their_files();
}

/// Both forms of an MPD of playlists that were read mean the same, at any URL and time (ISO/IEC 23009-1, 5.3): without the decode times
/// of the media files, with them, and after every list of accepted snapshots.
pub fn both_forms_mean_the_same()
    ensures playlists { ReadAreAlike }
    ensures timed { ReadTimesAreAlike }
    ensures followed { FollowedAreAlike }
{
    written_playlists_mean_the_same();
    forms_mean_the_same();
    followed_mpds_are_read();
    read_tracks_can_be_written();
    what_is_read_is_silent();
}
