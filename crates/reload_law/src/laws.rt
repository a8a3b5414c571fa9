//! Laws of the rules. The functions do nothing: what they ensure is the law.
ghost use Rattle.reload_law.specs.Laws.{ReloadsItself, RulesAreSentences};

/// No rule is broken exactly where the target durations are equal, the media sequence number doesn't fall, each number
/// that both playlists list has the same segment in the same section, no segment disappears at the end, a playlist with
/// EXT-X-ENDLIST keeps its end, and one without that lost segments still lasts three target durations.
pub fn rules_are_sentences()
    ensures { RulesAreSentences }
{}

/// Each playlist is a valid update of itself.
pub fn a_playlist_reloads_itself()
    ensures { ReloadsItself }
{}
