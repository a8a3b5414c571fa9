//! What holds for presentations that came from MPDs. The functions do nothing: what they ensure is the law.

ghost use Rattle.laws_of_playlists.specs.Origins.{AreInPace, AreShortInPace, HaveFewTracks, HaveSections, HaveTracks};
ghost use Rattle.laws_of_playlists.specs.Origins.{IndexedTracksAreWritable, IndexesAreTold};
ghost use Rattle.laws_of_playlists.specs.Origins.{InitializationsAreLocated, OwnTextsAreAddresses, PartsAreLocated, ReadingsAreOfBytes};
ghost use Rattle.laws_of_playlists.specs.Origins.{StaticAreInPace, StaticHaveFewTracks, StaticHaveSections, StaticHaveTracks};
ghost use Rattle.laws_of_playlists.specs.Origins.{StaticInitializationsAreLocated, StaticPartsAreLocated, StaticTracksAreWritable};
ghost use Rattle.laws_of_playlists.specs.Origins.{TracksAreWritable};

use mpd_tree::one_reading;
use timeline::closed_ends;

/// The tracks of an MPD, static or dynamic, are in the order of a presentation, a set has one language, and languages and
/// codecs are such that a playlist can contain them. There is at least one track and one section, and at most 200 tracks.
pub fn tracks_are_writable()
    ensures writable { TracksAreWritable }
    ensures tracks { HaveTracks }
    ensures few { HaveFewTracks }
    ensures sections { HaveSections }
{}

/// The same for the tracks of each Period of an MPD whose files have a `sidx`, if there are fewer than 2^64.
pub fn indexed_tracks_are_writable()
    ensures { IndexedTracksAreWritable }
{}

/// The same for a static MPD.
pub fn static_tracks_are_writable()
    ensures writable { StaticTracksAreWritable }
    ensures tracks { StaticHaveTracks }
    ensures few { StaticHaveFewTracks }
    ensures sections { StaticHaveSections }
{
    tracks_are_writable();
}

/// In a valid MPD the byte range of each file's `sidx` is given; it has at least one byte, with offsets below 2^63.
pub fn indexes_are_told()
    ensures { IndexesAreTold }
{}

/// Init segments and segments of an MPD, static or dynamic, that has a URL have URLs, and byte ranges that aren't empty,
/// where its tree was read from bytes.
pub fn parts_are_located()
    ensures initializations { InitializationsAreLocated }
    ensures segments { PartsAreLocated }
{}

/// The same for a static MPD.
pub fn static_parts_are_located()
    ensures initializations { StaticInitializationsAreLocated }
    ensures segments { StaticPartsAreLocated }
{
    parts_are_located();
}

/// A tree that was read from bytes has texts of bytes. A text that resolves to itself is a URL.
pub fn read_trees_are_of_bytes()
    ensures readings { ReadingsAreOfBytes }
    ensures addresses { OwnTextsAreAddresses }
{
    one_reading();
}

/// The ends of the listed segments of an MPD, static or dynamic, don't fall from the first one's start on, and are at most
/// 2,000,000 s apart, where `count` succeeds.
pub fn counted_segments_are_in_pace()
    ensures { AreInPace }
{}

/// The same for a static MPD. So no printed duration is longer.
pub fn static_segments_are_in_pace()
    ensures paced { StaticAreInPace }
    ensures short { AreShortInPace }
{
    closed_ends();
    counted_segments_are_in_pace();
}
