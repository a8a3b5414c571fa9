// Media types.
ghost use Rattle.std.specs.Prelude.{◌≡◌};
ghost use Rattle.mpd_values.specs.MediaTypes as spec;

use bridge_io::Kind;

/// The kind of track of a media type, compared without regard to ASCII case: `video/mp4`, `audio/mp4` and
/// `application/mp4`, which is text. `None` exactly where the text is none of the three.
#[tactic(auto, unfolding(crate::specs::MediaTypes::kind_of))]
pub fn kind_of(text: &str) -> Option<Kind>
    ensures { result ≡ spec.kind_of text.now }
{
    if is_alike(text, "video/mp4") {
        Some(Kind::Video)
    } else if is_alike(text, "audio/mp4") {
        Some(Kind::Audio)
    } else if is_alike(text, "application/mp4") {
        Some(Kind::Text)
    } else {
        None
    }
}

/// Whether two texts are equal, ignoring ASCII case.
pub fn is_alike(text: &str, other: &str) -> bool
    ensures { result ≡ spec.is_alike text.now other.now }
{
    text.eq_ignore_ascii_case(other)
}
