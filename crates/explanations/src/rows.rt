// What is asked at each error, and where docs/ERRORS.md has it.

/// How what is asked is found.
#[derive(Clone, Copy)]
pub(crate) enum How {
    /// By the error alone.
    Words,
    /// By the byte before the place.
    Syntax,
    /// By the name of the end tag.
    EndTag,
    /// By the name of the root.
    Root,
    /// By what the element lacks.
    Missing,
    /// By the attribute and its value.
    Value,
    /// By the element or the attribute that is rejected.
    Feature,
    /// By the templates of the Representation.
    Template,
    /// By the playlist's tag.
    Tag,
    /// By the playlist's tag, which is rejected.
    Without,
    /// By the line, which a master doesn't have there.
    OfMaster,
    /// By the line, which a media playlist doesn't have there.
    OfMedia,
    /// By what the playlist's tag lacks, or by its value or that of an attribute.
    TagValue,
}

/// The errors of a layer.
#[derive(Clone, Copy)]
pub(crate) struct Layer {
    /// Its heading in docs/ERRORS.md.
    pub(crate) heading: &'static str,
    rows: &'static [&'static str],
}

impl Layer {
    /// The layer of a name.
    pub(crate) fn named(name: &str) -> Option<Layer> {
        let (heading, rows) = layer_named(name)?;
        Some(Layer { heading, rows })
    }

    /// What is asked at the error of a number, where no more is known than the error.
    pub(crate) fn asked(self, number: &str) -> Option<&'static str> {
        for row in self.rows {
            if let Some((other, words)) = row.split_once(' ') {
                if other == number {
                    return Some(words);
                }
            }
        }
        None
    }
}

/// The words of a name in a table.
pub(crate) fn words_named(
    rows: &[(&'static str, &'static str)],
    name: &str,
) -> Option<&'static str> {
    for (other, words) in rows {
        if *other == name {
            return Some(*words);
        }
    }
    None
}

/// How what is asked at an error is found.
pub(crate) fn how_asked(layer: &str, number: &str) -> How {
    match HOW.iter().find(|row| row.0 == layer && row.1 == number) {
        Some((_, _, how)) => *how,
        None => How::Words,
    }
}

fn layer_named(name: &str) -> Option<(&'static str, &'static [&'static str])> {
    match name {
        "io" => Some((FILES, &OF_IO)),
        "job" => Some((FILES, &OF_JOB)),
        "text" => Some((TEXT, &OF_TEXT)),
        "rules" => Some((RULES, &OF_RULES)),
        "presentation" => Some((TRACKS, &OF_PRESENTATION)),
        "template" => Some((TRACKS, &OF_TEMPLATE)),
        "url" => Some((TRACKS, &OF_URL)),
        "timeline" => Some((TRACKS, &OF_TIMELINE)),
        "index" => Some((INDEX, &OF_INDEX)),
        "times" => Some((TIMES, &OF_TIMES)),
        "line" => Some((PLAYLISTS, &OF_LINE)),
        "master" => Some((PLAYLISTS, &OF_MASTER)),
        "media" => Some((PLAYLISTS, &OF_MEDIA)),
        "hls" => Some((PLAYLISTS, &OF_HLS)),
        "frame" => Some((UPDATES, &OF_FRAME)),
        "session" => Some((UPDATES, &OF_SESSION)),
        "live" => Some((UPDATES, &OF_LIVE)),
        _ => None,
    }
}

const FILES: &str = "io, job: files and arguments";

const TEXT: &str = "text: the XML of an MPD";

const RULES: &str = "rules: elements and attributes of an MPD";

const TRACKS: &str = "presentation, template, url, timeline: tracks and segments of an MPD";

const INDEX: &str = "index: the sidx of media files";

const TIMES: &str = "times: decode times of media files";

const PLAYLISTS: &str = "line, master, media, hls: playlists";

const UPDATES: &str = "frame, session, live: updates of follow and follow-hls";

/// The errors whose source says more, by layer and number.
static HOW: [(&str, &str, How); 29] = [
    ("text", "4", How::Syntax),
    ("text", "5", How::EndTag),
    ("rules", "1", How::Root),
    ("rules", "3", How::Missing),
    ("rules", "4", How::Value),
    ("rules", "7", How::Feature),
    ("rules", "8", How::Feature),
    ("rules", "9", How::Feature),
    ("rules", "10", How::Feature),
    ("rules", "11", How::Feature),
    ("rules", "12", How::Feature),
    ("template", "1", How::Template),
    ("template", "2", How::Template),
    ("template", "3", How::Template),
    ("template", "4", How::Template),
    ("template", "5", How::Template),
    ("line", "4", How::Tag),
    ("line", "5", How::Tag),
    ("master", "2", How::TagValue),
    ("master", "3", How::TagValue),
    ("master", "4", How::OfMaster),
    ("master", "9", How::Without),
    ("master", "10", How::Without),
    ("media", "7", How::Without),
    ("media", "8", How::Without),
    ("media", "9", How::Without),
    ("media", "10", How::Without),
    ("media", "12", How::TagValue),
    ("media", "13", How::OfMedia),
];

// Of each error its number, a space, and what is asked: for a rejected element or tag `: ` and what to do behind it.

static OF_IO: [&str; 2] = [
    "1 a manifest of at most 8,388,608 bytes: split it",
    "2 a file of that name, given by its path from the current directory; a directory or a pipe is none",
];

static OF_JOB: [&str; 4] = [
    "1 a directory's URL as the URL Standard writes it, with a / at its end, and not too long",
    "2 playlists that are files below the base URL: copy them there, or give their base URL",
    "3 at most 500,000 segments in all playlists: split the presentation",
    "4 a static MPD: check and agree compare VOD; compare takes a live one with --now",
];

static OF_TEXT: [&str; 11] = [
    "1 UTF-8, and here are bytes that are none: iconv, gunzip",
    "2 a character that XML allows: remove this one",
    "3 the rest of the file: fetch it again",
    "4 XML as docs/MPD.md has it, where this byte isn't allowed: fix it",
    "5 the end tag of the open element",
    "6 an attribute once in a tag: remove one",
    "7 a reference of XML behind the &: write &amp; for the character",
    "8 a file without document type: remove it",
    "9 text without CDATA sections: write &amp; and &lt; in it",
    "10 no processing instruction, and an XML declaration only at the text's begin: remove it",
    "11 at most 32 nested elements: remove the deep ones, they aren't read",
];

static OF_RULES: [&str; 14] = [
    "1 MPD as the root (ISO/IEC 23009-1, 5.3.1)",
    "2 the namespace of MPEG-DASH: xmlns=\"urn:mpeg:dash:schema:mpd:2011\" of MPD",
    "3 an attribute or an element that this element requires",
    "4 a value of the attribute's type, within its bounds",
    "5 start of the Period, or duration of the one before (ISO/IEC 23009-1, 5.3.2.1)",
    "6 a Period that begins after the one before and ends after its start: fix start or duration",
    "7 media that isn't encrypted: remove it, and write the other format's by hand",
    "8 no events: remove it, if players can do without",
    "9 no segments in parts: list complete segments",
    "10 no remote elements: insert what it refers to",
    "11 no essential property of the MPD or a Period: remove it",
    "12 only what docs/PROFILE.md lists: remove it",
    "13 SegmentTemplate or SegmentList: the segments are in a sidx, see hls-index",
    "14 a Period, and video/mp4 or audio/mp4 in each: all else is dropped",
];

static OF_PRESENTATION: [&str; 4] = [
    "1 the same kinds and languages in each Period as in the first",
    "2 at most 1,000 Periods, 200 tracks, 100,000 segments of a track, 500,000 in all: split the presentation",
    "3 segments of the track: remove the Period",
    "7 --now: the segments of a live MPD depend on the time",
];

static OF_TEMPLATE: [&str; 5] = [
    "1 $$ for a single $ (ISO/IEC 23009-1, 5.3.9.4)",
    "2 $RepresentationID$, $Number$, $Bandwidth$ or $Time$ between two $",
    "3 a width as in $Number%05d$, from 1 to 20, and none for an id",
    "4 $Number$ or $Time$, not both in one template",
    "5 no $SubNumber$: complete segments",
];

static OF_URL: [&str; 3] = [
    "1 a URL without \" and without characters that no URL has",
    "2 a URL of http or https",
    "3 a URL of at most 2,048 bytes",
];

static OF_TIMELINE: [&str; 6] = [
    "1 segments with a duration: fix d or duration",
    "2 segments of at most 1,000,000 s: often timescale is missing",
    "3 an end of the Period: its duration, or mediaPresentationDuration of MPD",
    "4 no gap of over half a segment: begin a new Period there",
    "5 as many SegmentURLs as the times say: remove one, or fix duration",
    "6 a SegmentTimeline for $Time$, or $Number$",
];

static OF_INDEX: [&str; 11] = [
    "1 a media file below the base URL: copy it there",
    "2 an indexRange of at most 8,388,608 bytes",
    "3 an indexRange that ends with a box: often it is off by one",
    "4 a box no shorter than its header and its fields: package the file again",
    "5 a sidx of version 0 or 1 in the range: fix indexRange",
    "6 a flat sidx; ffmpeg: -movflags +dash+global_sidx",
    "7 a timescale above 0: package the file again",
    "8 a reference in the sidx: package the file again",
    "9 a size above 0 of each reference: package the file again",
    "10 bytes below 2^63: package the file again",
    "15 the media file in the directory: copy it there",
];

static OF_TIMES: [&str; 9] = [
    "1 a media file below the base URL: copy it there",
    "2 the whole moof: fetch the file again",
    "3 a box no shorter than its header and its fields: package the file again",
    "4 mdhd or tfdt, of version 0 or 1, in 1,048,576 bytes: fragmented MP4",
    "5 one trak or traf: a file for each track",
    "6 a timescale above 0: package the file again",
    "7 a file that begins later than the one before, or EXT-X-DISCONTINUITY",
    "8 a decode time below 2^63, at most 1,000,000 s to the next one, and 10^19 ns in all",
    "11 the media file in the directory: copy it there",
];

static OF_LINE: [&str; 5] = [
    "1 UTF-8, and here are bytes that are none: iconv",
    "2 no control character: remove it",
    "3 #EXTM3U as the first line, without byte order mark (RFC 8216, 4.3.1.1)",
    "4 NAME=value or NAME=\"value\", commas between them (RFC 8216, 4.2)",
    "5 each attribute once: remove one (RFC 8216, 4.2)",
];

static OF_MASTER: [&str; 10] = [
    "2 an attribute that this tag requires",
    "3 a value of the attribute's type",
    "4 only tags of a master, and a URI line behind each EXT-X-STREAM-INF",
    "6 a playlist for each track; ffmpeg: -var_stream_map \"v:0,agroup:a a:0,agroup:a\"",
    "7 an EXT-X-MEDIA of that group (RFC 8216, 4.3.4.2)",
    "8 a NAME of its own for each EXT-X-MEDIA of a group (RFC 8216, 4.3.4.1)",
    "9 media that isn't encrypted: remove it",
    "10 only what docs/PROFILE.md lists: remove it",
    "11 at least one EXT-X-STREAM-INF: is the file truncated?",
    "12 at most 200 tracks",
];

static OF_MEDIA: [&str; 11] = [
    "2 EXT-X-TARGETDURATION (RFC 8216, 4.3.3.1)",
    "3 a duration of at most 1,000,000 s",
    "4 a duration of at most EXT-X-TARGETDURATION, once rounded: raise that",
    "5 an offset, as 500@0: no range of the same file is before (RFC 8216, 4.3.2.2)",
    "6 at most 100,000 segments: split the presentation",
    "7 media that isn't encrypted: remove it, and write the other format's by hand",
    "8 no events: remove it, if players can do without",
    "9 no parts, skips and hints: ask without them",
    "10 only what docs/PROFILE.md lists: remove it",
    "12 a value of the tag's type",
    "13 EXTINF before each URI, and each tag at its position",
];

static OF_HLS: [&str; 7] = [
    "1 EXT-X-ENDLIST: follow-hls reads live playlists",
    "2 EXT-X-MAP: package it as fragmented MP4; ffmpeg: -hls_segment_type fmp4",
    "3 EXT-X-DISCONTINUITY between two init segments",
    "4 a duration above 0: remove the segment",
    "5 the same discontinuity sequence numbers in each playlist",
    "6 at most 1,000 discontinuities and 10^19 nanoseconds: split the presentation",
    "7 at least one segment: is the file truncated?",
];

static OF_FRAME: [&str; 4] = [
    "1 a header as docs/LIVE.md has it",
    "2 an update of the length in its header: that of the MPD or playlist in bytes",
    "3 at most 10,000,000 updates: start another run",
    "4 an accepted MPD before a tick or reset: begin with mpd",
];

static OF_SESSION: [&str; 11] = [
    "1 a time not before that of an accepted update: fix the clock, or wait",
    "2 a publishTime that isn't before the last one: this MPD is from a cache",
    "3 the same Period ids, tracks, timescales, init segments: start another run",
    "4 the same start of each known Period: fix the packager",
    "5 the same times of segments that were listed: fix the packager",
    "6 no gap or overlap after the last segment: give this version as reset",
    "7 segments of at most the target duration: set maxSegmentDuration in the MPD",
    "8 a dynamic MPD first: hls reads static ones",
    "9 no update after a static MPD: the presentation is over",
    "10 at most 20,000 segments of a track, and 500,000 of all: a shorter timeShiftBufferDepth",
    "13 all tracks in one Period at a reset: give the next version as mpd",
];

static OF_LIVE: [&str; 10] = [
    "1 no snapshot after the last EXT-X-ENDLIST: the presentation is over",
    "2 a time not before that of an accepted snapshot: fix the clock, or wait",
    "3 EXT-X-MAP before each segment: package as fragmented MP4",
    "4 EXT-X-DISCONTINUITY between two init segments",
    "5 a duration above 0: remove the segment",
    "6 the same discontinuities in each playlist: the next snapshot has them",
    "7 at least one segment: wait for the first",
    "8 a valid update of the playlist before: is it an older copy?",
    "9 at most 1,000 discontinuities, 500,000 segments, times within limits: another run",
    "11 no new segment in an earlier discontinuity: fix its sequence numbers",
];
