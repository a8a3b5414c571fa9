//! Laws of runs that follow live playlists. The functions do nothing: what they ensure is the law.
ghost use Rattle.laws_of_jobs.specs.Forms.{FollowedRunsAreAlike};
ghost use Rattle.laws_of_jobs.specs.LiveLists.{LastPlaylistsAreMeant};
ghost use Rattle.laws_of_jobs.specs.RoundRuns.{FollowHlsLeavesHistory, FollowedRunsAreRead, RoundFilesAreOfTheHistory};
ghost use Rattle.laws_of_jobs.specs.Rounds.{LeftIsOfTheHistory, ListedSegmentsStay};
ghost use Rattle.laws_of_jobs.specs.Unread.{FollowHlsReadsNoFurther};

use crate::{both_forms_mean_the_same, followed_mpds_are_read};
use bridge_courses::{
    a_verdict_keeps_the_steps, an_execution_leaves_its_steps, an_execution_reads_no_further,
};
use bridge_reach::the_mpd_is_of_the_accepted_rounds;
use hls_follow::{last_playlists_are_listed, runs_go_on, segments_stay};
use hls_media::what_is_read_is_bounded;
use iso_time::laws::instants_are_denoted;
use laws_of_mpds::{
    read_tracks_can_be_written, timed_contents_mean_the_same, what_is_read_has_addresses,
};
use laws_of_playlists::read_trees_are_of_bytes;

/// Over every stream of snapshots the MPD is that of the whole history of accepted snapshots, and a segment that a later accepted
/// snapshot lists again is unchanged in it: its time, and the id and the start of its Period (ISO/IEC 23009-1, 5.3.2 and
/// 5.3.9.6).
pub fn listed_segments_stay()
    ensures history { LeftIsOfTheHistory }
    ensures stay { ListedSegmentsStay }
{
    what_is_read_is_bounded();
    segments_stay();
}

/// After the files of any number of snapshots of a run of `follow-hls` the MPD in the output folder has the text, in the command's
/// form, for the state after the whole history of accepted snapshots, for the tracks of the command's master playlist; where none was
/// accepted, each file is unchanged.
pub fn followed_mpd_files_are_of_the_history()
    ensures { RoundFilesAreOfTheHistory }
{
    the_mpd_is_of_the_accepted_rounds();
}

/// That MPD is read back with its values, whatever is available at a time (ISO/IEC 23009-1, 5.3.1 to 5.3.9; RFC 8216, 4.3 and 6.2): until
/// all playlists have EXT-X-ENDLIST, that it is dynamic, when the presentation begins and when the last accepted snapshot was read, in
/// whole milliseconds; then the id and the start of each Period, and for each track in each Period its segments.
pub fn followed_runs_are_read()
    ensures { FollowedRunsAreRead }
{
    followed_mpds_are_read();
    instants_are_denoted();
    read_trees_are_of_bytes();
    read_tracks_can_be_written();
    what_is_read_has_addresses();
    what_is_read_is_bounded();
}

/// In either form that MPD means the same, at any URL and time, whatever is available at the time (ISO/IEC 23009-1, 5.3).
pub fn both_forms_of_a_run_mean_the_same()
    ensures { FollowedRunsAreAlike }
{
    both_forms_mean_the_same();
    instants_are_denoted();
    read_trees_are_of_bytes();
    read_tracks_can_be_written();
    what_is_read_has_addresses();
    what_is_read_is_bounded();
}

/// It gives each kept track, without filtering by a time, exactly the segments of its last accepted playlist, in order: init segment,
/// URL, byte range, duration, and consecutive times from the first one's (ISO/IEC 23009-1, 5.3.9; RFC 8216, 4.3).
pub fn last_playlists_are_meant()
    ensures { LastPlaylistsAreMeant }
{
    instants_are_denoted();
    read_trees_are_of_bytes();
    read_tracks_can_be_written();
    what_is_read_has_addresses();
    what_is_read_is_bounded();
    runs_go_on();
    timed_contents_mean_the_same();
    last_playlists_are_listed();
}

/// However a run of `follow-hls` ends, its files are those of the accepted ones among some first snapshots, and of the next
/// snapshot nothing, or what was begun, or all. Where it succeeds, or its stream is rejected, they are those of all
/// snapshots; where a read failed, only those of some first snapshots.
pub fn a_followed_hls_execution_leaves_its_history()
    ensures { FollowHlsLeavesHistory }
{
    followed_mpd_files_are_of_the_history();
    an_execution_leaves_its_steps();
    a_verdict_keeps_the_steps();
}

/// However a run ends, it read of standard input the bytes of those first snapshots, and at most those of the next one; and where it ends
/// by a failed read, and no read of a file failed, no snapshot is lost whose bytes are all read.
pub fn a_followed_hls_execution_reads_no_further()
    ensures { FollowHlsReadsNoFurther }
{
    followed_mpd_files_are_of_the_history();
    an_execution_reads_no_further();
}
