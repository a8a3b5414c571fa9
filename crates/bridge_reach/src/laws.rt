//! Laws of the commands' outcomes. The functions do nothing: what they ensure is the law.
ghost use Rattle.bridge_reach.specs.Promises.{DifferIsApart, DoneAgrees, WrittenAreFileTimes};

/// Where `dash-times` writes an MPD, each track of it has the timescale of its init segment, and each of its segments begins at
/// the decode time of its own file (ISO/IEC 14496-12, 8.4.2 and 8.8.12). In the plain form the presentation time offset of a track
/// is its first segment's time. In the players' form the offsets of a Period's tracks, over their timescales, are one time, and none
/// of their first segments begins before it.
pub fn what_is_written_has_the_files_times()
    ensures { WrittenAreFileTimes }
{}

/// Where `agree` succeeds, the start of each listed segment plus the presentation time offset is its file's decode time over the
/// timescale of its track's media, as fractions. Where it ends as `Differ`, the reported segment is the first one, by section,
/// track and index, for which this doesn't hold.
pub fn what_agrees_has_the_files_times()
    ensures done { DoneAgrees }
    ensures differ { DifferIsApart }
{}
