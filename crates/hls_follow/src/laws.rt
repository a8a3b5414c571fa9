//! Laws of followed playlists. The functions do nothing: what they ensure is the law.
ghost use Rattle.hls_follow.specs.Histories.{AreContiguousFromTheFirst, LastPlaylistsAreListed, RunsGoOn};
ghost use Rattle.hls_follow.specs.Histories.{SegmentsStay, StartsStayOverRounds};
ghost use Rattle.hls_follow.specs.Laws.{NumbersKeepTheirTimes, SectionsKeepTheirStarts, StartsStay, TimesAreContiguous};

use reload_law::rules_are_sentences;

/// A sequence number that an accepted snapshot lists again keeps its time in its section.
pub fn numbers_keep_their_times()
    ensures { NumbersKeepTheirTimes }
{}

/// A section that an accepted snapshot lists again keeps the start of its Period.
pub fn sections_keep_their_starts()
    ensures { SectionsKeepTheirStarts }
{}

/// The presentation begins when it began at the first accepted snapshot.
pub fn starts_stay()
    ensures { StartsStay }
{}

/// A segment begins where the one before it in its section ends, in every playlist of accepted snapshots.
pub fn times_are_contiguous()
    ensures { TimesAreContiguous }
{
    rules_are_sentences();
}

/// Over every list of accepted snapshots the presentation keeps its start.
pub fn starts_stay_over_rounds()
    ensures { StartsStayOverRounds }
{}

/// Over every list of accepted snapshots, from the first one, a segment begins where the one before it in its section
/// ends.
pub fn times_are_contiguous_from_the_first()
    ensures { AreContiguousFromTheFirst }
{
    rules_are_sentences();
}

/// After every list of accepted snapshots the MPD has a Period for each section of the last playlists, and lists for each kept
/// track exactly the last playlist's segments in order, with their maps, URLs, byte ranges, durations and times.
pub fn last_playlists_are_listed()
    ensures { LastPlaylistsAreListed }
{}

/// After every list of accepted snapshots, from the first one, each segment of the MPD begins where the one before it in its
/// Period ends, so that the time of a run's first segment determines all (ISO/IEC 23009-1, 5.3.9.6).
pub fn runs_go_on()
    ensures { RunsGoOn }
{
    rules_are_sentences();
}

/// A segment that a snapshot lists again, by its track and its sequence number, is in the MPD as it was after every earlier
/// snapshot: the id and the start of its Period, and its start there.
pub fn segments_stay()
    ensures { SegmentsStay }
{
    rules_are_sentences();
}
