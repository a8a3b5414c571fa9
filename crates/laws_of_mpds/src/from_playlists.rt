// The law of MPDs that are written for playlists.
ghost use Rattle.laws_of_mpds.specs.Written.{PlaylistsMeanTheSame, ReadAreInOrder, ReadCanBeTold, ReadHaveAddresses, ReadHaveRates};
ghost use Rattle.laws_of_mpds.specs.Written.{ReadMeanTheSame, TracksAreOfBytes};

use crate::written_texts_mean_the_same;

/// The MPD that is written for the presentation of a master playlist's tracks with their media playlists means what the
/// presentation means, at any URL and time (ISO/IEC 23009-1, 5.3; RFC 8216 4.3). This holds where the tracks are in order,
/// their languages and codecs can be written to an MPD, the playlists have the bounds of those that were read, and their URLs
/// resolve to themselves. The tracks of a master playlist that was read are like that.
pub fn written_playlists_mean_the_same()
    ensures any { PlaylistsMeanTheSame }
    ensures read { ReadMeanTheSame }
{
    written_texts_mean_the_same();
    read_tracks_can_be_written();
}

/// The tracks of a master playlist that was read are in order, video, then audio, then text, and their languages and codecs
/// can be written to an MPD (RFC 8216 4.3.4). No frame rate has the denominator 0.
pub fn read_tracks_can_be_written()
    ensures order { ReadAreInOrder }
    ensures told { ReadCanBeTold }
    ensures rates { ReadHaveRates }
{}

/// The segments of a playlist that was read, and their maps, have URLs that resolve to themselves, where the playlist's URL is
/// of bytes. This holds for the URLs of the media playlists of a master playlist that was read at a URL (RFC 8216 4.1; URL
/// Standard 4.4).
pub fn what_is_read_has_addresses()
    ensures segments { ReadHaveAddresses }
    ensures tracks { TracksAreOfBytes }
{}
