//! Laws of the values of MPDs, as contracts of functions that do nothing.
ghost use Rattle.mpd_rules.specs.Laws.{PeriodIdsDiffer, StartsAreReadable};

/// Each Period of a valid dynamic MPD has an id that no other one has (ISO/IEC 23009-1, 5.3.2.2).
pub fn period_ids_differ()
    ensures { PeriodIdsDiffer }
{}

/// The availabilityStartTime of a valid MPD, if it has one, is a timestamp that can be read (ISO/IEC 23009-1,
/// 5.3.1.2).
pub fn starts_are_readable()
    ensures { StartsAreReadable }
{}
