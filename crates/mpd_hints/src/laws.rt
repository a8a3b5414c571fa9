//! Laws of what MPDs say for players, as contracts of functions that do nothing.
ghost use Rattle.mpd_hints.specs.Laws.{HintsStandByTheirTracks, ToldLabelsAreFit};

/// Each label can be the name of a rendition, and is none that is made of a language and a number.
pub fn told_labels_are_fit()
    ensures { ToldLabelsAreFit }
{}

/// Where the rules accept an MPD, what it says of its tracks stands in the order of the presentation's tracks, and the k-th
/// is said of the Representation that the k-th track is made of.
pub fn hints_stand_by_their_tracks()
    ensures { HintsStandByTheirTracks }
{}
