// Laws of written media playlists.
ghost use Rattle.laws_of_playlists.specs.ReadMedia.{DurationsAreRead, FinishedAreRead, FollowedAreRead, MapsAreRead, NumbersAreRead};
ghost use Rattle.laws_of_playlists.specs.ReadMedia.{RangesAreRead, SpelledAreRead, TracksAreRead};

/// The values of a written playlist's lines are read back as they were written: numbers of at most 64 digits, durations
/// with at most 9 digits after the decimal point and 20 before it, byte ranges that aren't empty, and the init segment of
/// an EXT-X-MAP, if its URL resolves to itself.
pub fn written_values_are_read()
    ensures numbers { NumbersAreRead }
    ensures durations { DurationsAreRead }
    ensures ranges { RangesAreRead }
    ensures maps { MapsAreRead }
{}

/// The playlist of a VOD presentation's track, and one of a followed presentation, are read back as they were written: the
/// target duration, the first segment's number, whether the playlist has EXT-X-ENDLIST, and each segment with its part, its
/// map, its duration and its section. This holds where URLs resolve to themselves, byte ranges aren't empty, sections don't
/// fall, segments of one section have one map, durations have at most 9 digits after the decimal point and 20 before it,
/// and no other number has more than 64; and however URLs are spelled, where each text stands for its URL in the playlist.
pub fn playlists_are_read_again()
    ensures finished { FinishedAreRead }
    ensures followed { FollowedAreRead }
    ensures spelled { SpelledAreRead }
{}

/// The playlist of a track of a VOD presentation that `verify` accepts is read back as the segments of the track, section
/// by section, with their printed durations, and with its target duration: its own, or the one that video and audio share.
pub fn track_playlists_are_read_again()
    ensures { TracksAreRead }
{}
