// The entries of a SegmentTimeline as they are written.

/// An S element of a SegmentTimeline (ISO/IEC 23009-1, 5.3.9.6), in ticks.
#[derive(Clone, Copy, PartialEq, Eq)]
pub struct SEntry {
    /// Where its first segment begins in media time. Where it is absent, the segment begins where the one before it
    /// ends, and at 0 in the first S.
    pub t: Option<u64>,
    /// How long each of its segments lasts.
    pub d: u64,
    /// How many more segments follow the first one. Where it is negative, they continue to the next S, or in the last
    /// S to the Period's end.
    pub r: i64,
}
