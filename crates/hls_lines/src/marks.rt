// Texts cut at single bytes.
ghost use Rattle.std.specs.Prelude.{◌≡◌, ◌<◌, position, option_map};
ghost use Rattle.hls_lines.specs.Marks.{after_mark, is_mark, parts_at, without_spaces};
ghost use Rattle.hls_lines.specs.Pairs.{pair_of};

use memchr::memchr;

/// The index of the first occurrence of a byte.
#[inline(always)]
pub(crate) fn find_mark(bytes: &[u8], mark: u8) -> Option<usize>
    ensures { result ≡ position (is_mark mark) bytes.now }
{
    memchr(mark, bytes)
}

/// What is before and after the first occurrence of an ASCII character in a text. It allocates nothing.
#[inline(always)]
pub fn cut_at(text: &str, mark: u8) -> Option<(&str, &str)>
    requires { mark < 128 }
    ensures { option_map pair_of result ≡ parts_at (is_mark mark) text.now }
{
    let at = find_mark(text.as_bytes(), mark)?;
    Some((&text[..at], &text[at + 1..]))
}

/// What follows a leading ASCII character.
pub(crate) fn after(text: &str, mark: char) -> Option<&str>
    requires { mark < 128 }
    ensures { option_map (λ rest. rest.now) result ≡ after_mark mark text.now }
{
    text.strip_prefix(mark)
}

pub(crate) fn without_spaces(text: &str) -> &str
    ensures { result.now ≡ without_spaces text.now }
{
    let mut text = text;
    while let Some(rest) = after(text, ' ') {
        text = rest;
    }
    text
}
