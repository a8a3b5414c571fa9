// Laws of the segments of a `sidx`. The functions do nothing: what they ensure is the law.
ghost use Rattle.index_parts.specs.Laws.{SegmentsTile};

/// A Representation's segments are those of its file's `sidx`, one for each reference, in order: each has the size and the duration
/// of its reference, and their byte ranges follow one another, without gap or overlap, from the first byte that the `sidx` covers
/// up to the end of the last one.
pub fn segments_tile()
    ensures { SegmentsTile }
{}
