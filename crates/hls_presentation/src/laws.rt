//! Laws of presentations of playlists. The functions do nothing: what they ensure is the law.
ghost use Rattle.hls_presentation.specs.Laid.{PresentedAreLaidOut};
ghost use Rattle.hls_presentation.specs.Laws.{OnlyFaultsAreRefused, PlaylistsAreCounted};
ghost use Rattle.hls_presentation.specs.Origins.{ReadAreSilent};

/// No video track of a master playlist that was read has a language, as `from_hls` requires.
pub fn what_is_read_is_silent()
    ensures { ReadAreSilent }
{}

/// Playlists that were read are rejected only for the faults of tracks and of the whole, in their order: their
/// segments always have valid times.
pub fn only_faults_are_refused()
    ensures { OnlyFaultsAreRefused }
{}

/// In a presentation of playlists each section has a length and begins where the one before it ends, and a track's
/// segments in it follow one another from its start, in whole ticks of one scale.
pub fn presented_are_laid_out()
    ensures { PresentedAreLaidOut }
{}

/// For a presentation of playlists that were read, with at most 500,000 segments in all, `count` succeeds.
pub fn playlists_are_counted()
    ensures { PlaylistsAreCounted }
{}
