//! Laws of the definitions. The functions do nothing: what they ensure is the law.

ghost use Rattle.timeline.specs.Laws.{TimelinesRise, DurationsRise, ListsRise};
ghost use Rattle.timeline.specs.OwnParts.{AreGivenAgain, AreNumbered, DurationsHaveParts, ListsHaveParts, OnlyMemoryHolds, PartsAreMade};
ghost use Rattle.timeline.specs.OwnParts.{TimelinesHaveParts};
ghost use Rattle.timeline.specs.OpenEnds.{TimelinesEnd, DurationsEnd, ListsEnd, EndedIsReached, StepsAreGreatest, UntilTells};
ghost use Rattle.timeline.specs.Starts.{TimelinesInTicks, DurationsInTicks, ListsInTicks};

/// Each segment ends after the one before it, where no segment has duration 0, none is apart from the one before it,
/// and none begins at or after a time where it is cut.
pub fn ends_rise()
    ensures timelines { TimelinesRise }
    ensures durations { DurationsRise }
    ensures lists { ListsRise }
{}

/// The result of a constructor of `Runs` isn't open for a static MPD, for a Period whose end is known, or for listed
/// names. What isn't open meets the conditions of every window. Whether a window meets them depends only on its `until`.
pub fn closed_ends()
    ensures timelines { TimelinesEnd }
    ensures durations { DurationsEnd }
    ensures lists { ListsEnd }
    ensures reached { EndedIsReached }
    ensures until { UntilTells }
{}

/// Each listed segment begins at a whole tick of its timeline, as `Runs::offset` does; only the end of a last segment that is
/// cut at the Period's end may have another scale. For given times this holds where they are in the timeline's ticks.
pub fn starts_in_ticks()
    ensures timelines { TimelinesInTicks }
    ensures durations { DurationsInTicks }
    ensures lists { ListsInTicks }
{}

/// Of the segments that continue to an open end, those exist at a time that end by it.
#[tactic(auto, using(crate::proofs::OpenEnds::steps_are_greatest))]
pub fn open_ends()
    ensures { StepsAreGreatest }
{}

/// Where names are URLs already (`Names::of_addresses`), each listed segment has its own: the segment whose number is the
/// first number plus k has URL k of the list. References to these URLs give the same URLs against any base.
pub fn own_addresses()
    ensures numbered { AreNumbered }
    ensures timelines { TimelinesHaveParts }
    ensures durations { DurationsHaveParts }
    ensures lists { ListsHaveParts }
    ensures given_again { AreGivenAgain }
{}

/// `Listing::next` makes a segment that has its own URL with that one, and fails only where memory runs out.
#[tactic(auto, using(crate::proofs::OwnParts::parts_are_made, crate::proofs::OwnParts::only_memory_holds))]
pub fn own_addresses_made()
    ensures made { PartsAreMade }
    ensures refused { OnlyMemoryHolds }
{}
