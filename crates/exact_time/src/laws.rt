//! Laws of the definitions that the contracts of this crate cite. The functions do nothing: what
//! they ensure is the law.

ghost use Rattle.exact_time.specs.Laws.{IsTransitive, IsTotal, IsExclusive, IsAntisymmetric, TestsTell, HasOneFloor, CallsArePrinted};
ghost use Rattle.exact_time.specs.Laws.{CallsSum, CallsRise, CallsGoOn, CallsJoin, CallsAreAllowed, EqualEndsGoOn, SumsAreFloors};
ghost use Rattle.exact_time.specs.Laws.{SumsStayNear, WholeUnitsStay, SamePrintAlike};

/// Times have a total order, in which two times that are neither before nor after one another are the same. The tests
/// agree with it.
pub fn times_are_ordered()
    ensures transitive { IsTransitive }
    ensures total { IsTotal }
    ensures exclusive { IsExclusive }
    ensures antisymmetric { IsAntisymmetric }
    ensures tests { TestsTell }
{}

/// The floor of a non-negative time is the greatest whole number of units that isn't above it, and only that.
pub fn each_time_has_one_floor()
    ensures { HasOneFloor }
{}

/// The numbers that a new `Rounder` returns, whatever the calls, are the printed durations of segments with these
/// ends. They sum to its printed total, and the ends rise, as the other laws require.
pub fn calls_are_printed()
    ensures numbers { CallsArePrinted }
    ensures sums { CallsSum }
    ensures ends { CallsRise }
{}

/// The numbers of a `Rounder` that is resumed after some segments are the printed durations after theirs. It accepts all ends
/// of a list in turn where the list doesn't fall and its ends are at most 2,000,000 s apart, also in calls that take the ends
/// of equal segments at once.
pub fn calls_go_on()
    ensures numbers { CallsGoOn }
    ensures allowed { CallsAreAllowed }
    ensures joined { CallsJoin }
    ensures equal { EqualEndsGoOn }
{}

/// The first `k + 1` printed durations sum to the time from the first segment's start to the end of
/// segment `k`, rounded down: never above the exact time, and less than one unit below it.
pub fn sums_are_floors()
    ensures exact { SumsAreFloors }
    ensures near { SumsStayNear }
{}

/// Where each duration is a whole number of units, it is printed as it is.
pub fn whole_units_stay()
    ensures { WholeUnitsStay }
{}

/// What is printed depends on the times only, not on the fractions that they are written as.
pub fn same_times_print_alike()
    ensures { SamePrintAlike }
{}
