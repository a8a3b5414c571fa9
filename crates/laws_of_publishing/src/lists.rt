// Laws of what takes the place of served playlists.
ghost use Rattle.laws_of_publishing.specs.Laws.{AgainIsUnchanged, ListsGoOn, ListsReload, NoSilentGap, NothingAgain, NothingOld};
ghost use Rattle.laws_of_publishing.specs.Laws.{PublishedIsWritable, RunsAreServed, SectionsAfterACut};
ghost use Rattle.laws_of_publishing.specs.Laws.{SectionsAreEven, StepsAreAbove};

use reload_law::{a_playlist_reloads_itself, rules_are_sentences};

/// A playlist that takes the place of a served one is a valid update of it (RFC 8216, 6.2.1 and 6.2.2).
pub fn published_lists_reload()
    ensures { ListsReload }
{
    rules_are_sentences();
    a_playlist_reloads_itself();
}

/// It goes on from it: the segments that stay keep their numbers and all their lines, the served one's last segment is
/// among them, and where the track isn't found as many as the new playlist has; what is appended are the new playlist's last
/// segments in their order.
pub fn published_lists_go_on()
    ensures { ListsGoOn }
{}

/// Where no EXT-X-DISCONTINUITY precedes what is appended, the new playlist has the served one's last segment directly
/// before it.
pub fn no_gap_is_silent()
    ensures { NoSilentGap }
{}

/// No segment that is served is appended again, and where the served playlist's last one isn't in the new one, none that isn't
/// dated later, unless all of a playlist of long ago may come.
pub fn nothing_is_published_twice()
    ensures again { NothingAgain }
    ensures old { NothingOld }
{}

/// The section numbers of what is appended are those of the new playlists, risen by one number in all tracks; where they step,
/// they are above all served ones. Where some playlists are ended already, each other one rises by its own number.
pub fn sections_rise_evenly()
    ensures even { SectionsAreEven }
    ensures above { StepsAreAbove }
    ensures cut { SectionsAfterACut }
{}

/// Where the new playlists are those of one run that goes on, each one that gets a segment is served as the run wrote it, but for
/// its end.
pub fn a_run_is_served_as_it_is()
    ensures { RunsAreServed }
{}

/// The same publication again changes no playlist, or finds all of them ended.
pub fn a_publication_again_changes_nothing()
    ensures { AgainIsUnchanged }
{}

/// What is published of segments whose dates can be written can be written: the year of each date is 1000 to 9999.
pub fn what_is_published_can_be_written()
    ensures { PublishedIsWritable }
{}
