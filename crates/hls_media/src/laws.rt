//! Laws of media playlists. The functions do nothing: what they ensure is the law.
ghost use Rattle.hls_media.specs.Laws.{ReadIsBounded, ReadIsMeant};
ghost use Rattle.hls_media.specs.Told.{PlaylistsAreTold, SegmentsAreTold};

/// In a playlist that was read, the target duration is below 2^31, the first segment's number below 2^63, and there are
/// at most 100,000 segments; each lasts at most 10^15 nanoseconds, its byte range and its map's aren't empty and end
/// below 2^63, and no section's number is below that of an earlier segment.
pub fn what_is_read_is_bounded()
    ensures { ReadIsBounded }
{}

/// What is read is what the lines of the file mean, as the laws below say.
pub fn what_is_read_is_meant()
    ensures { ReadIsMeant }
{}

/// Each URI ends a segment. Its map is that of the last EXT-X-MAP before it (RFC 8216 4.3.2.5); its section is the number
/// of the last EXT-X-DISCONTINUITY-SEQUENCE before it, or 0, with one more for each EXT-X-DISCONTINUITY before it (4.3.3.3,
/// 4.3.2.3); its duration and its range are those of the last EXTINF and EXT-X-BYTERANGE since the URI before it (4.3.2.1,
/// 4.3.2.2), where a byte range without offset begins at the end of the previous segment's, if that has one of the same
/// URL.
pub fn segments_are_told_by_the_lines_before()
    ensures { SegmentsAreTold }
{}

/// There is a segment for each URI; the target duration and the first segment's number are those of the last
/// EXT-X-TARGETDURATION and EXT-X-MEDIA-SEQUENCE, or 0, and a playlist is VOD where there is an EXT-X-ENDLIST.
pub fn playlists_are_told_by_their_lines()
    ensures { PlaylistsAreTold }
{}
