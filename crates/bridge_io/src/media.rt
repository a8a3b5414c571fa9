// Properties of a track: its kind, its width and height, and its frame rate.
ghost use Rattle.std.specs.Prelude.{◌<◌};

/// The media type of a track (ISO/IEC 23009-1, 5.3.7.2; RFC 8216, 4.3.4.1).
#[derive(Clone, Copy, Debug, PartialEq, Eq)]
pub enum Kind {
    /// Video.
    Video,
    /// Audio.
    Audio,
    /// Subtitles or captions.
    Text,
}

/// The width and height of a picture (ISO/IEC 23009-1, 5.3.7.2; RFC 8216, 4.3.4.2).
#[derive(Clone, Copy, PartialEq, Eq)]
pub struct Size {
    /// In pixels.
    pub width: u32,
    /// In pixels.
    pub height: u32,
}

/// A frame rate: n/m frames per second (ISO/IEC 23009-1, 5.3.7.2).
#[derive(Clone, Copy, PartialEq, Eq)]
pub struct Ratio {
    /// How many frames there are in m seconds.
    pub n: u32,
    /// How many seconds n frames last, at least 1.
    pub m: u32,
    ghost positive: { 0 < m },
}
