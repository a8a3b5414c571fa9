// The tags of media playlists.
ghost use Rattle.std.specs.Prelude.{◌≡◌};
ghost use Rattle.hls_media.specs.Tags as spec;

/// What a tag of a playlist is for, by its name.
#[derive(Clone, Copy)]
pub(crate) enum Tag {
    TargetDuration,
    MediaSequence,
    DiscontinuitySequence,
    Duration,
    ByteRange,
    Discontinuity,
    Map,
    EndList,
    Key,
    SessionKey,
    DateRange,
    LowLatency,
    Unsupported,
    /// A tag of master playlists.
    Master,
    /// A tag that is ignored.
    Other,
}

#[tactic(auto, unfolding(crate::specs::Tags::tag_of))]
pub(crate) fn tag_of(name: &str) -> Tag
    ensures { result ≡ spec.tag_of name.now }
{
    match name {
        "EXTINF" => Tag::Duration,
        "EXT-X-BYTERANGE" => Tag::ByteRange,
        "EXT-X-DISCONTINUITY" => Tag::Discontinuity,
        "EXT-X-MAP" => Tag::Map,
        "EXT-X-KEY" => Tag::Key,
        _ => list_tag_of(name),
    }
}

fn list_tag_of(name: &str) -> Tag
    ensures { result ≡ spec.list_tag_of name.now }
{
    match name {
        "EXT-X-TARGETDURATION" => Tag::TargetDuration,
        "EXT-X-MEDIA-SEQUENCE" => Tag::MediaSequence,
        "EXT-X-DISCONTINUITY-SEQUENCE" => Tag::DiscontinuitySequence,
        "EXT-X-ENDLIST" => Tag::EndList,
        _ => refused_tag_of(name),
    }
}

fn refused_tag_of(name: &str) -> Tag
    ensures { result ≡ spec.refused_tag_of name.now }
{
    match name {
        "EXT-X-SESSION-KEY" => Tag::SessionKey,
        "EXT-X-DATERANGE" => Tag::DateRange,
        "EXT-X-PART" | "EXT-X-PART-INF" | "EXT-X-PRELOAD-HINT" | "EXT-X-SKIP" => Tag::LowLatency,
        "EXT-X-GAP" | "EXT-X-DEFINE" | "EXT-X-I-FRAMES-ONLY" => Tag::Unsupported,
        "EXT-X-STREAM-INF" | "EXT-X-MEDIA" | "EXT-X-I-FRAME-STREAM-INF" => Tag::Master,
        _ => Tag::Other,
    }
}
