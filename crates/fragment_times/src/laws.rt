//! Laws of the definitions. The functions do nothing: what they ensure is the law.
ghost use Rattle.fragment_times.specs.Durations.{NearestAreNear};
ghost use Rattle.fragment_times.specs.Origins.{AloneIsFirst, OffsetsAreBefore, OffsetsAreOneTime, OriginsAreLatest, OriginsAreNear};
ghost use Rattle.fragment_times.specs.Origins.{TogetherAreFirst, UnitsAreCommon};
ghost use Rattle.fragment_times.specs.PeriodStarts.{StartsAreBefore};
ghost use Rattle.fragment_times.specs.Times.{TimesAreScaled};

/// The files of a presentation's segments give at least one tick per second.
pub fn times_are_scaled()
    ensures { TimesAreScaled }
{}

/// The presentation time offsets of a Period's tracks (ISO/IEC 23009-1, 5.3.9.2), over their timescales, are one time, and no track's
/// first segment begins before it. It is a number of units; how many of them make a second is the greatest common divisor of the
/// timescales. Some track's first segment begins less than one unit after it, and no later number of units is at or before the
/// first segments of all tracks.
pub fn offsets_are_one_time()
    ensures units { UnitsAreCommon }
    ensures same { OffsetsAreOneTime }
    ensures before { OffsetsAreBefore }
    ensures near { OriginsAreNear }
    ensures latest { OriginsAreLatest }
{}

/// The presentation time offset of a track alone is its first segment's decode time. Where the first segments of all tracks of a
/// Period begin at one time, the offset of each track is that time.
pub fn tracks_in_step_begin_at_their_offsets()
    ensures alone { AloneIsFirst }
    ensures together { TogetherAreFirst }
{}

/// In the players' form, the duration of a last segment is rounded to the nearest whole number of ticks, halves up.
pub fn last_durations_are_the_nearest()
    ensures { NearestAreNear }
{}

/// In each form, the presentation time offset of a track is at most its first segment's decode time.
pub fn periods_start_before_their_segments()
    ensures { StartsAreBefore }
{}
