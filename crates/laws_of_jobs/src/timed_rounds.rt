//! Laws of runs that follow live playlists with the decode times of their media files. The functions do nothing: what they ensure is the
//! law.
ghost use Rattle.laws_of_jobs.specs.TimedFollowing.{TimedFilesAreOfTheHistory, TimedLeftIsOfTheHistory, TimedListedSegmentsStay};
ghost use Rattle.laws_of_jobs.specs.TimedFollowing.{TimedRunLeavesHistory, TimedRunsListTheirPlaylists};
ghost use Rattle.laws_of_jobs.specs.TimedReadings.{TimedRunsAreAlike, TimedRunsAreRead};
ghost use Rattle.laws_of_jobs.specs.Unread.{TimedRunReadsNoFurther};

use bridge_courses::{
    a_verdict_keeps_the_steps, an_execution_leaves_its_steps, an_execution_reads_no_further,
};
use bridge_reach::the_timed_mpd_is_of_the_accepted_rounds;
use fragment_times::offsets_are_one_time;
use hls_follow::{
    timed_periods_are_in_step, timed_playlists_are_listed, timed_runs_go_on, timed_segments_stay,
};
use hls_media::what_is_read_is_bounded;
use iso_time::laws::instants_are_denoted;
use laws_of_mpds::{
    forms_mean_the_same, live_texts_are_read, read_tracks_can_be_written,
    timed_contents_mean_the_same, what_is_read_has_addresses,
};
use laws_of_playlists::read_trees_are_of_bytes;

/// Over every stream of snapshots the MPD is that of the whole history of accepted snapshots, each with the store's files then, and a
/// segment that a later accepted snapshot lists again keeps its Period's id and start, its timescale, its presentation time offset and its
/// own start (ISO/IEC 23009-1, 5.3.2 and 5.3.9.6).
pub fn timed_listed_segments_stay()
    ensures history { TimedLeftIsOfTheHistory }
    ensures stay { TimedListedSegmentsStay }
{
    what_is_read_is_bounded();
    timed_segments_stay();
}

/// After any number of snapshots the MPD lists exactly the segments of the last accepted playlists, each with its time and until the next
/// one begins, and the tracks of a Period are in step.
pub fn timed_runs_list_their_playlists()
    ensures { TimedRunsListTheirPlaylists }
{
    what_is_read_is_bounded();
    timed_playlists_are_listed();
    timed_runs_go_on();
    timed_periods_are_in_step();
}

/// After the files of any number of snapshots of a run of `follow-hls-times` the MPD in the output folder has the text, in the command's
/// form, for the state after the whole history of accepted snapshots, for the tracks of the command's master playlist; where none was
/// accepted, each file is unchanged.
pub fn timed_mpd_files_are_of_the_history()
    ensures { TimedFilesAreOfTheHistory }
{
    the_timed_mpd_is_of_the_accepted_rounds();
}

/// However a run of `follow-hls-times` ends, its files are those of the accepted ones among some first snapshots, and of the next
/// snapshot nothing, or what was begun, or all. Where it succeeds, or its stream is rejected, they are those of all snapshots; where a
/// read failed, only those of some first snapshots.
pub fn a_timed_execution_leaves_its_history()
    ensures { TimedRunLeavesHistory }
{
    the_timed_mpd_is_of_the_accepted_rounds();
    timed_mpd_files_are_of_the_history();
    an_execution_leaves_its_steps();
    a_verdict_keeps_the_steps();
}

/// However a run ends, it read of standard input the bytes of those first snapshots, and at most those of the next one; and where it ends
/// by a failed read, and no read of a file failed, no snapshot is lost whose bytes are all read.
pub fn a_timed_execution_reads_no_further()
    ensures { TimedRunReadsNoFurther }
{
    timed_mpd_files_are_of_the_history();
    an_execution_reads_no_further();
}

/// That MPD is read back in each form with its values, whatever is available at a time, and what it says of each run means the run's
/// segments (ISO/IEC 23009-1, 5.3.1 to 5.3.9).
pub fn timed_runs_are_read()
    ensures { TimedRunsAreRead }
{
    instants_are_denoted();
    read_trees_are_of_bytes();
    read_tracks_can_be_written();
    what_is_read_has_addresses();
    what_is_read_is_bounded();
    offsets_are_one_time();
    live_texts_are_read();
    timed_runs_go_on();
    timed_contents_mean_the_same();
}

/// In either form that MPD means the same, at any URL and time, whatever is available at the time (ISO/IEC 23009-1, 5.3).
pub fn both_forms_of_a_timed_run_mean_the_same()
    ensures { TimedRunsAreAlike }
{
    instants_are_denoted();
    read_trees_are_of_bytes();
    read_tracks_can_be_written();
    what_is_read_has_addresses();
    what_is_read_is_bounded();
    offsets_are_one_time();
    forms_mean_the_same();
}
