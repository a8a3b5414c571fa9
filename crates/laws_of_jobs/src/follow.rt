//! Laws of runs that follow an MPD. The functions do nothing: what they ensure is the law.
ghost use Rattle.laws_of_jobs.specs.Counts.{FollowCountsSegments};
ghost use Rattle.laws_of_jobs.specs.Ends.{FollowLeavesHistory};
ghost use Rattle.laws_of_jobs.specs.Files.{FollowedFilesAreLawful, FollowedFilesAreOfTheHistory, FollowedFilesReload};
ghost use Rattle.laws_of_jobs.specs.Frames.{FramesAreOfTheHistory};
ghost use Rattle.laws_of_jobs.specs.Histories.{FollowedNeverDrift};
ghost use Rattle.laws_of_jobs.specs.Unread.{FollowReadsNoFurther};

use bridge_courses::{
    a_verdict_keeps_the_steps, an_execution_leaves_its_steps, an_execution_reads_no_further,
};
use laws_of_playlists::read_trees_are_of_bytes;
use laws_of_reloads::followed_texts_reload;
use live_meaning::{accepted_never_drift, histories_go_on};
use mpd_presentation::presentations_show_their_mpd;
use reload_law::rules_are_sentences;

/// Each update frame of a followed MPD is accepted or rejected, written, reported and counted by the state after the
/// whole history of frames accepted before it.
pub fn frames_are_judged_by_the_history()
    ensures { FramesAreOfTheHistory }
{
    histories_go_on();
}

/// After every accepted update frame of a followed MPD each track's file is the playlist of the whole history of accepted
/// frames, and the master playlist that of the first one.
pub fn followed_files_are_of_the_history()
    ensures { FollowedFilesAreOfTheHistory }
{
    histories_go_on();
    presentations_show_their_mpd();
}

/// From the second accepted update frame on, each track's file is a valid update of the one before (RFC 8216, 6.2): both
/// are read as playlists, and the one is a valid update of the other.
pub fn followed_files_reload()
    ensures { FollowedFilesReload }
{
    histories_go_on();
    presentations_show_their_mpd();
    followed_texts_reload();
    read_trees_are_of_bytes();
}

/// `reload` of a track's file before and after another accepted update frame reports a valid update, with the segments of both, where URLs
/// are absolute, or both are read at the file's own URL; except where a text is longer than 8,388,608 bytes, a target duration is 2^31
/// seconds or more, a segment lasts more than 1,000,000 seconds, or a byte range ends at 2^63.
pub fn followed_files_are_lawful()
    ensures { FollowedFilesAreLawful }
{
    histories_go_on();
    presentations_show_their_mpd();
    followed_texts_reload();
    read_trees_are_of_bytes();
    rules_are_sentences();
}

/// However a run ends, its files are those of the accepted ones among some first update frames, and of the next frame nothing,
/// or what was begun, or all. Where it succeeds, or its stream is rejected, they are those of all frames; where a read of the
/// input failed, only those of some first frames.
pub fn a_followed_execution_leaves_its_history()
    ensures { FollowLeavesHistory }
{
    followed_files_are_of_the_history();
    an_execution_leaves_its_steps();
    a_verdict_keeps_the_steps();
}

/// However a run ends, it read of standard input the bytes of those first update frames, and at most those of the next one: nothing is
/// read ahead of what is written. Where it ends by a failed read, and no read of a file failed, no frame is lost whose bytes are all read.
pub fn a_followed_execution_reads_no_further()
    ensures { FollowReadsNoFurther }
{
    followed_files_are_of_the_history();
    an_execution_reads_no_further();
}

/// However a run ends, it made exactly the segments that those accepted update frames appended whose lines are reported,
/// exactly those of an accepted frame whose files or line failed, and of each rejected frame at most those that it was to
/// append: none, except where a segment's URL was rejected or memory ran out.
pub fn a_followed_execution_counts_its_segments()
    ensures { FollowCountsSegments }
{}

/// The printed durations of a section sum, from its first segment ever listed, to the exact time rounded down, although the
/// first segments were removed long ago.
pub fn followed_durations_never_drift()
    ensures { FollowedNeverDrift }
{
    histories_go_on();
    accepted_never_drift();
}
