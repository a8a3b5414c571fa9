/// What the first difference of two presentations is.
#[derive(Clone, Copy, PartialEq, Eq)]
pub enum Aspect {
    /// How many sections there are.
    Sections,
    /// How many tracks there are.
    Tracks,
    /// The kind or the language of a track.
    Track,
    /// The init segment of a track in a section, or whether the track has content there.
    Initialization,
    /// The URL of a segment.
    Address,
    /// The byte range of a segment.
    Range,
    /// The end of a segment, relative to the start of the track's first segment in the section.
    Time,
    /// How many segments a track has in a section.
    Count,
}

/// The first difference of two presentations. A number that has no meaning for the aspect is 0.
#[derive(Clone, Copy, PartialEq, Eq)]
pub struct Difference {
    /// What differs.
    pub what: Aspect,
    /// The section's index, from 0.
    pub section: usize,
    /// The track's index, from 0.
    pub track: usize,
    /// The segment's index in the section, from 0. Where the counts differ it is the lower one.
    pub segment: usize,
}
