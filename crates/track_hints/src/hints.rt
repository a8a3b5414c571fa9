// What an MPD says of its tracks for players.

use bridge_io::{Sequence, Text};

/// What an MPD says of a track (ISO/IEC 23009-1, 5.3.3 and 5.8).
#[derive(Drop)]
pub struct TrackHints {
    /// The text of its AdaptationSet's `Label`, where a playlist can have it as a name (RFC 8216, 4.3.4.1, NAME).
    pub label: Option<Text>,
    /// Whether it is the main content among alternatives: a `Role` with the value `main`.
    pub main: bool,
    /// Whether it is audio that describes the video, for those who can't see it.
    pub describes: bool,
    /// Whether it is text that transcribes dialogue and sound, for those who can't hear them.
    pub transcribes: bool,
    /// Whether it is text that is to be shown although subtitles aren't chosen (RFC 8216, 4.3.4.1, FORCED).
    pub forced: bool,
    /// How many audio channels it has, 1 to 6, where that is known (RFC 8216, 4.3.4.1, CHANNELS).
    pub channels: Option<u8>,
}

/// What an MPD says of each track, in the order of the presentation's tracks.
pub type HintList = Sequence<TrackHints>;

/// What an MPD says for players.
#[derive(Drop)]
pub struct Hints {
    /// What it says of each track.
    pub tracks: HintList,
    /// Whether each video segment, or without video each audio segment, can be decoded without the one before it (RFC 8216,
    /// 4.3.5.1).
    pub independent: bool,
    /// Whether a video stream may contain closed captions (CEA-608 or CEA-708).
    pub captions: bool,
}
