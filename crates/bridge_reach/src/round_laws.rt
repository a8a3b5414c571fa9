//! Laws of following live playlists. The functions do nothing: what they ensure is the law.
ghost use Rattle.bridge_reach.specs.RoundLaws.{AcceptedLeaveAnMpd, FileIsOfTheHistory, NoneWriteNothing};
ghost use Rattle.bridge_reach.specs.TimedRoundLaws.{AcceptedLeaveATimedMpd, NoneWriteNoTimedMpd, TimedCoursesAreFollowed};
ghost use Rattle.bridge_reach.specs.TimedRoundLaws.{TimedFileIsOfTheHistory};

use crate::rounds::LiveRounds;
use bridge_jobs::Round;
use bridge_report::accepted_frames_make_the_files;

/// After every snapshot, where one was accepted, the MPD's file has the text of the MPD after the whole accepted history; a
/// rejected snapshot leaves it as it was, and where none was accepted nothing is written.
pub fn the_mpd_is_of_the_accepted_rounds()
    ensures mpd { AcceptedLeaveAnMpd }
    ensures file { FileIsOfTheHistory }
    ensures none { NoneWriteNothing }
{
    accepted_frames_make_the_files::<LiveRounds, Round>();
}

/// The same of `follow-hls-times`, where each snapshot is judged by the store's files as they are then.
pub fn the_timed_mpd_is_of_the_accepted_rounds()
    ensures course { TimedCoursesAreFollowed }
    ensures mpd { AcceptedLeaveATimedMpd }
    ensures file { TimedFileIsOfTheHistory }
    ensures none { NoneWriteNoTimedMpd }
{}
