// Languages.
ghost use Rattle.std.specs.Prelude.{◌≡◌};
ghost use Rattle.std.specs.List.{list_all};
ghost use Rattle.mpd_values.specs.Languages as spec;

/// Whether the text is a language: 1 to 64 characters from U+0021 to U+007E without `"` (ISO/IEC 23009-1, 5.3.3.2).
pub fn is_language(text: &str) -> bool
    ensures { result ≡ spec.is_language text.now }
{
    has_language_chars(text) && !text.is_empty() && text.len() <= 64
}

fn has_language_chars(text: &str) -> bool
    ensures { result ≡ list_all spec.is_language_char text.now }
{
    text.as_bytes()
        .iter()
        .all(|byte| (0x21..=0x7e).contains(byte) && *byte != b'"')
}
