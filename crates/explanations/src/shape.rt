// The types of the attributes of playlists.

use mpd_values::{are_codes, is_language, read_number};

/// The type of an attribute of a playlist's tag.
#[derive(Clone, Copy)]
pub(crate) enum Shape {
    /// The TYPE of an EXT-X-MEDIA.
    Type,
    /// Any text.
    Text,
    /// A URI, which is read later.
    Uri,
    /// The METHOD of a key.
    Method,
    /// A language.
    Language,
    /// Bits per second.
    Bandwidth,
    /// A list of codecs.
    Codecs,
    /// Width and height.
    Resolution,
    /// Frames per second.
    FrameRate,
    /// A byte range.
    Range,
}

impl Shape {
    /// Whether a value is of this type. What is read later isn't tested.
    pub(crate) fn accepts(self, value: &str) -> bool {
        match self {
            Shape::Type => matches!(value, "AUDIO" | "SUBTITLES" | "CLOSED-CAPTIONS" | "VIDEO"),
            Shape::Text | Shape::Uri | Shape::Method => true,
            Shape::Language => is_language(value),
            Shape::Bandwidth => read_number(value, 1, 1 << 32).is_some(),
            Shape::Codecs => are_codes(value),
            Shape::Resolution => is_resolution(value),
            Shape::FrameRate => is_frame_rate(value),
            Shape::Range => is_range(value),
        }
    }

    /// What a value of this type is.
    pub(crate) fn words(self) -> &'static str {
        match self {
            Shape::Type => "AUDIO, SUBTITLES or CLOSED-CAPTIONS",
            Shape::Text => "a text",
            Shape::Uri => "a URI",
            Shape::Method => "NONE",
            Shape::Language => "a language such as en, of at most 64 characters",
            Shape::Bandwidth => "a number from 1 to 4294967295",
            Shape::Codecs => "a list of at least one codec, of at most 255 characters",
            Shape::Resolution => "width, x and height such as 1280x720",
            Shape::FrameRate => "a number of frames such as 29.970, below 1048576",
            Shape::Range => "a byte range <length>[@<offset>] such as 800@0",
        }
    }
}

fn is_number(text: &str, bound: u64) -> bool {
    read_number(text, 0, bound).is_some()
}

fn is_resolution(value: &str) -> bool {
    match value.split_once('x') {
        Some((width, height)) => is_number(width, 1 << 32) && is_number(height, 1 << 32),
        None => false,
    }
}

fn is_frame_rate(value: &str) -> bool {
    let (whole, digits) = value.split_once('.').unwrap_or((value, ""));
    is_number(whole, 1 << 20) && digits.as_bytes().iter().all(|digit| digit.is_ascii_digit())
}

fn is_range(value: &str) -> bool {
    let (count, first) = value.split_once('@').unwrap_or((value, "0"));
    read_number(count, 1, 1 << 63).is_some() && is_number(first, 1 << 63)
}
