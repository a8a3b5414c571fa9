//! Laws of playlists that are written for players. The functions do nothing: what they ensure is the law.
ghost use Rattle.laws_of_playlists.specs.Players.{DefaultsArePlayed, DefaultsAreSingle, GroupsAreOfOneFamily, NoTrackIsMissing};
ghost use Rattle.laws_of_playlists.specs.Players.{TargetsAreShared, VariantsTellTheirCodes};

use audio_groups::laws::groups_are_pure;

/// For players, all video and audio tracks of a finished presentation have one target duration (RFC 8216, 6.2.4): the greatest of
/// those that they have by themselves. A text track has its own.
pub fn targets_are_shared()
    ensures { TargetsAreShared }
{}

/// A master playlist, plain or for players, misses no track. Each video track's playlist is the URI of a variant with each audio
/// group, or without one where there is no audio. Each audio track has a rendition in the group of its own codecs, and each audio
/// group is named by a variant. Each text track has a rendition in the group of subtitles, which each variant names.
pub fn no_track_is_missing()
    ensures { NoTrackIsMissing }
{}

/// For players, all members of an audio group have codecs of one family, and a group has one member of each audio set that has a
/// track of its family, and none of the others.
pub fn groups_are_of_one_family()
    ensures { GroupsAreOfOneFamily }
{
    groups_are_pure();
}

/// The codes of a variant's CODECS are exactly those of its video track, of the members of its audio group and of the text
/// tracks. It is missing only where one of these has no codecs (RFC 8216, 4.3.4.2).
pub fn variants_tell_their_codes()
    ensures { VariantsTellTheirCodes }
{}

/// For players, of the renditions of an audio group exactly one has DEFAULT=YES, and it has AUTOSELECT=YES (RFC 8216, 4.3.4.1.1).
pub fn defaults_are_single()
    ensures single { DefaultsAreSingle }
    ensures played { DefaultsArePlayed }
{}
