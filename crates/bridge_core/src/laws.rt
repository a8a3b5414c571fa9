//! Laws of the program's runs. The functions do nothing: what they ensure is the law.
ghost use Rattle.bridge_core.specs.Alike.{FormsEndAlike};
ghost use Rattle.bridge_core.specs.ComparePromises.{ComparedAsChecked, ComparedTellsAll};
ghost use Rattle.bridge_core.specs.IndexPromises.{WrittenMeansTheIndexes};
ghost use Rattle.bridge_core.specs.Promises.{DifferIsApart, DoneIsAgreed, WrittenMeansTheMpd, WrittenMpdMeansThePlaylists};
ghost use Rattle.bridge_core.specs.TimesPromises.{DifferHasAnother, DoneHasTheFilesTimes, WrittenHasTheFilesTimes};

use bridge_courses::{a_verdict_keeps_the_steps, done_is_whole};
use bridge_jobs::laws::folders_hold_their_files;
use bridge_reach::{what_agrees_has_the_files_times, what_is_written_has_the_files_times};
use differences::{
    presentations_have_sections, the_first_is_the_first_difference, the_same_deviate_alike,
};
use hls_media::what_is_read_is_bounded;
use laws_of_mpds::{
    listed_mean_their_files, presented_mean_their_files, read_tracks_can_be_written,
    what_is_read_has_addresses, written_playlists_mean_the_same as written_mpds_mean_the_same,
};
use laws_of_playlists::{
    indexed_parts_can_be_written, indexes_mean_what_they_list, read_trees_are_of_bytes,
    tracks_are_writable, tracks_mean_the_same,
    what_is_written_means_the_indexes as written_indexes_mean_the_same, written_means_the_same,
};
use laws_of_reloads::first_files_mean_the_same;
use meaning::agreeing_has_no_difference;
use mpd_hints::laws::told_labels_are_fit;
use mpd_presentation::presentations_mean_their_mpd;

/// Where a run of `hls` succeeds, the playlists that it wrote mean what the MPD means, a live one at the command's time: the
/// same tracks, URLs and byte ranges in order, and each time rounded down to the unit of the printed durations (ISO/IEC
/// 23009-1, 5.3; RFC 8216, 4.3).
pub fn what_is_written_means_the_mpd()
    ensures { WrittenMeansTheMpd }
{
    done_is_whole();
    a_verdict_keeps_the_steps();
    folders_hold_their_files();
    tracks_mean_the_same();
    presentations_mean_their_mpd();
    written_means_the_same();
    first_files_mean_the_same();
    read_trees_are_of_bytes();
    tracks_are_writable();
    told_labels_are_fit();
}

/// Runs of `hls`, `hls-index` and `follow` that differ in `--form` and `--addresses` alone are rejected alike, report the same
/// lines, and write files of the same names.
pub fn forms_end_alike()
    ensures { FormsEndAlike }
{}

/// Where a run of `hls-index` succeeds, the playlists that it wrote mean what the MPD means with the `sidx` of its media files:
/// the same tracks, URLs and byte ranges in order, and each time rounded down to the unit of the printed durations (ISO/IEC
/// 23009-1, 5.3.9.2; RFC 8216, 4.3).
pub fn what_is_written_means_the_indexes()
    ensures { WrittenMeansTheIndexes }
{
    done_is_whole();
    a_verdict_keeps_the_steps();
    folders_hold_their_files();
    tracks_mean_the_same();
    read_trees_are_of_bytes();
    indexes_mean_what_they_list();
    indexed_parts_can_be_written();
    written_indexes_mean_the_same();
    told_labels_are_fit();
}

/// Where a run of `dash` succeeds, the MPD that it wrote means, at any URL and time, what the master playlist and its media
/// playlists mean: the same tracks, URLs and byte ranges in order, at equal times (RFC 8216, 4.3; ISO/IEC 23009-1, 5.3).
pub fn what_is_written_means_the_playlists()
    ensures { WrittenMpdMeansThePlaylists }
{
    done_is_whole();
    a_verdict_keeps_the_steps();
    what_is_read_is_bounded();
    presented_mean_their_files();
    read_trees_are_of_bytes();
    read_tracks_can_be_written();
    what_is_read_has_addresses();
    written_mpds_mean_the_same();
}

/// Where a run of `check` succeeds, the MPD means what the master playlist and its media playlists mean, except that each
/// time may be rounded down to the unit of the printed durations. Where it ends as `Differ`, it does not, and the run's
/// line has the first difference of the two meanings (ISO/IEC 23009-1, 5.3; RFC 8216, 4.3).
pub fn what_is_checked_agrees()
    ensures done { DoneIsAgreed }
    ensures differ { DifferIsApart }
{
    a_verdict_keeps_the_steps();
    presentations_mean_their_mpd();
    read_tracks_can_be_written();
    presented_mean_their_files();
    agreeing_has_no_difference();
}

/// Where a run of `compare` isn't rejected, its report is of all differences of what the MPD means, a live one at the command's
/// time, and of what the playlists mean: the first ones in order, the greatest one of time for each track, and how many there
/// are, and it is done where there is none. A time differs where it is neither equal, nor rounded down to the unit of the
/// printed durations, nor within the tolerance (ISO/IEC 23009-1, 5.3; RFC 8216, 4.3).
pub fn what_is_compared_is_all_that_differs()
    ensures { ComparedTellsAll }
{
    presentations_mean_their_mpd();
    read_tracks_can_be_written();
    presented_mean_their_files();
    listed_mean_their_files();
    the_same_deviate_alike();
}

/// Without a time and without a tolerance `compare` is done exactly where `check` is, tells a difference where it does, and its
/// first line is of the difference that `check` tells.
pub fn comparing_is_checking()
    ensures { ComparedAsChecked }
{
    presentations_have_sections();
    the_first_is_the_first_difference();
}

/// Where a run of `dash-times` succeeds, the files are the previous ones plus its MPD, in which each SegmentList has the timescale of
/// its init segment, and each segment begins at the decode time of its own file (ISO/IEC 14496-12, 8.4.2 and 8.8.12).
pub fn what_is_timed_has_the_files_times()
    ensures { WrittenHasTheFilesTimes }
{
    done_is_whole();
    a_verdict_keeps_the_steps();
    what_is_written_has_the_files_times();
}

/// Where a run of `agree` succeeds, the start of each listed segment of its MPD plus the presentation time offset is its file's
/// decode time over the timescale of its track's media. Where it ends as `Differ`, the run's line has the first one, by section,
/// track and index, for which this doesn't hold.
pub fn what_agrees_begins_as_its_files_state()
    ensures done { DoneHasTheFilesTimes }
    ensures differ { DifferHasAnother }
{
    a_verdict_keeps_the_steps();
    what_agrees_has_the_files_times();
}
