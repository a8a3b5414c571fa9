// Classes of codecs.
ghost use Rattle.std.specs.Prelude.{◌≡◌, ◌==◌};
ghost use Rattle.std.specs.List.{before_first};
ghost use Rattle.url_parts.specs.Codes.{class_of};

/// The media type of a codec in a codecs list (RFC 6381, 3.3).
#[derive(Clone, Copy, Debug, PartialEq, Eq)]
pub enum CodeClass {
    /// Video.
    Video,
    /// Audio.
    Audio,
    /// Subtitles or captions.
    Text,
    /// None of these, or unknown.
    Unknown,
}

/// What video codecs have before their first `.`.
const VIDEO: [&str; 16] = [
    "avc1", "avc2", "avc3", "avc4", "hev1", "hvc1", "dvh1", "dvhe", "dvav", "dva1", "av01", "vp08",
    "vp09", "vvc1", "vvi1", "mp4v",
];

/// What audio codecs have before their first `.`.
const AUDIO: [&str; 19] = [
    "mp4a", "ac-3", "ec-3", "ac-4", "Opus", "opus", "fLaC", "flac", "alac", "mha1", "mha2", "mhm1",
    "mhm2", "dtsc", "dtse", "dtsh", "dtsl", "dtsx", "dtsy",
];

/// What text codecs have before their first `.`.
const TEXT: [&str; 2] = ["stpp", "wvtt"];

/// The class of a codec of `@codecs` (ISO/IEC 23009-1, 5.3.7.2) or of CODECS (RFC 8216, 4.3.4.2), by what is before
/// its first `.`, case-sensitive.
pub fn code_class(code: &str) -> CodeClass
    ensures { result ≡ class_of code.now }
{
    let name = name_of(code);
    if VIDEO.contains(&name) {
        CodeClass::Video
    } else if AUDIO.contains(&name) {
        CodeClass::Audio
    } else if TEXT.contains(&name) {
        CodeClass::Text
    } else {
        CodeClass::Unknown
    }
}

fn name_of(code: &str) -> &str
    ensures { result.now ≡ before_first (λ b. b == 46) code.now }
{
    match code.split_once('.') {
        None => code,
        Some((name, _)) => name,
    }
}
