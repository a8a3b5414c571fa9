// Forms of MPDs.

/// How an MPD gives the segments of its tracks (ISO/IEC 23009-1, 5.3.9).
#[derive(Clone, Copy, Debug, PartialEq, Eq)]
pub enum Form {
    /// Each track has a SegmentList: an S for each longest run of equal durations, and the URL of each segment.
    Plain,
    /// What most players play: a SegmentTemplate with `$Number$` for a track whose segments have a pattern of URLs, and otherwise
    /// a SegmentList with an S for each segment.
    Players,
}
