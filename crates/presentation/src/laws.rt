//! Laws of the definitions. The functions do nothing: what they ensure is the law.

ghost use Rattle.presentation.specs.Laws.{CountedAreListed, EndsAreCounted, VerifiedAreCounted, VerifiedHaveAddresses, EachHasLongest};
ghost use Rattle.presentation.specs.Listable.{PlaylistsAreListable};
ghost use Rattle.presentation.specs.MeaningLaws.{MadeAreMeant, VerifiedAreMeant, FinishedAreWhole};

/// Where `count` or `verify` returns `Ok`, `segments` and `extent` may be called for each track and section, and
/// `verify` returns the longest duration of each track. After `verify` each listed segment has a URL. Where `check_ends`
/// returns `Ok`, the segments that are listed at its time may be taken.
pub fn answers_allow_listings()
    ensures counted { CountedAreListed }
    ensures ends { EndsAreCounted }
    ensures verified { VerifiedAreCounted }
    ensures addresses { VerifiedHaveAddresses }
    ensures longest { EachHasLongest }
{}

/// What presentations mean. A segment that is made is the one that is meant. Where `verify` returns `Ok`, each listed
/// segment can be made. A VOD presentation for which `count` returns `Ok` has content of each track in each section.
pub fn presentations_mean_what_they_list()
    ensures made { MadeAreMeant }
    ensures verified { VerifiedAreMeant }
    ensures finished { FinishedAreWhole }
{}

/// The segments of a presentation that came from playlists can be listed: those of each track in each section have an end,
/// and each listed one has a URL.
pub fn playlists_can_be_listed()
    ensures { PlaylistsAreListable }
{}
