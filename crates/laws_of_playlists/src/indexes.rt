ghost use Rattle.laws_of_playlists.specs.IndexMeant.{IndexedAreMeant, IndexedTextsAreMeant};
ghost use Rattle.laws_of_playlists.specs.IndexOrigins.{IndexedAreFew, IndexedAreFinished, IndexedAreInPace, IndexedAreWritable};
ghost use Rattle.laws_of_playlists.specs.IndexOrigins.{IndexedInitializationsAreLocated, IndexedPartsAreLocated};
ghost use Rattle.laws_of_playlists.specs.IndexWritten.{WrittenMeansTheIndex};

use crate::origins::{indexed_tracks_are_writable, indexes_are_told, static_segments_are_in_pace};
use crate::same::written_playlists_mean_the_same;

/// The presentation of an MPD and its media files means what they mean: the Representations of its Period, with a segment for
/// each reference of their `sidx`. That is what the MPD's text means with these files.
pub fn indexes_mean_what_they_list()
    ensures mpd { IndexedAreMeant }
    ensures text { IndexedTextsAreMeant }
{}

/// What holds for the presentation of an MPD and its media files. It is VOD, its at most 200 tracks can be written to a master
/// playlist, init segments and segments have URLs, and byte ranges that aren't empty, where the MPD was read from bytes and has
/// a URL; and the segments' ends don't fall and are at most 2,000,000 s apart.
pub fn indexed_parts_can_be_written()
    ensures finished { IndexedAreFinished }
    ensures writable { IndexedAreWritable }
    ensures few { IndexedAreFew }
    ensures initializations { IndexedInitializationsAreLocated }
    ensures parts { IndexedPartsAreLocated }
    ensures paced { IndexedAreInPace }
{
    indexed_tracks_are_writable();
    indexes_are_told();
}

/// The playlists that are written for an MPD and its media files mean what its presentation means, with each time rounded down
/// to the unit that durations are written in.
pub fn what_is_written_means_the_indexes()
    ensures { WrittenMeansTheIndex }
{
    indexed_parts_can_be_written();
    static_segments_are_in_pace();
    written_playlists_mean_the_same();
}
