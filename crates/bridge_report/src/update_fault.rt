// Why an update of a followed presentation is rejected.

/// The first rule of a followed presentation that an update breaks, as in the report: without the values that differ.
#[derive(Clone, Copy, PartialEq, Eq)]
pub enum UpdateFault {
    /// The timestamp is before the last accepted one.
    ClockBack,
    /// The MPD was published before the one in force (ISO/IEC 23009-1, 5.3.1.2).
    Older,
    /// Something differs that may not change: availabilityStartTime, the order of the Periods, the tracks, or the timescale, the
    /// offset or the init segment of a track in a known Period.
    Changed,
    /// A known Period begins at another time.
    Moved,
    /// A kept segment begins or ends at another time.
    Rewritten,
    /// After the last listed segment there is a gap or an overlap of more than half the next one's duration.
    Step,
    /// A segment is longer than the target duration (RFC 8216, 4.3.3.1).
    LongSegment,
    /// The first MPD isn't dynamic.
    NotDynamic,
    /// A static MPD was accepted, which ends the presentation.
    Ended,
    /// Too many segments would be kept.
    Window,
    /// The last listed segments of two tracks are in different Periods, before a reset.
    Uneven,
}
