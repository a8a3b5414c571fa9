//! Laws of the definitions, as contracts of functions that do nothing.
ghost use Rattle.iso_time.specs.Laws.{DurationsHaveOneSpelling, InstantsHaveOneSpelling, DurationsAreDenoted, InstantsAreDenoted};
ghost use Rattle.iso_time.specs.Laws.{DurationsAreReadAgain, InstantsAreReadAgain, CalendarDaysHaveDates, BoundsAreMidnights};
ghost use Rattle.iso_time.specs.Laws.{FractionsAreRoundedDown};

/// No text is a duration in two ways.
pub fn durations_have_one_spelling()
    ensures { DurationsHaveOneSpelling }
{}

/// A text is read as the duration that it denotes, and as nothing else.
pub fn durations_are_denoted()
    ensures { DurationsAreDenoted }
{}

/// A written duration is read back unchanged.
pub fn durations_are_read_again()
    ensures { DurationsAreReadAgain }
{}

/// No text is a timestamp in two ways.
pub fn instants_have_one_spelling()
    ensures { InstantsHaveOneSpelling }
{}

/// A text is read as the timestamp that it denotes, and as nothing else.
pub fn instants_are_denoted()
    ensures { InstantsAreDenoted }
{}

/// A written timestamp of the years 1583 to 2999 is read back rounded down to milliseconds.
pub fn instants_are_read_again()
    ensures { InstantsAreReadAgain }
{}

/// A day number of the years 0 to 9999 has the date that a written timestamp shows for it.
pub fn calendar_days_have_dates()
    ensures { CalendarDaysHaveDates }
{}

/// The bounds of the timestamps that are read and written are midnights in UTC.
pub fn bounds_are_midnights()
    ensures { BoundsAreMidnights }
{}

/// The digits after a decimal point are read as their fraction of a second, rounded down to nanoseconds.
pub fn fractions_are_rounded_down()
    ensures { FractionsAreRoundedDown }
{}
