// Fronts of references that begin at the root of a host.
ghost use Rattle.std.specs.Prelude.{◌≡◌, true, IfSome};
ghost use Rattle.url_parts.specs.Roots.{HasHost, IsBehindScheme, IsRooted, is_host, is_host_byte, is_inner};
ghost use Rattle.std.specs.List.{list_all};

use crate::alike::cut;
use crate::base::is_folder_path;

/// Whether a text is a folder from the root of the base's host, or of a host with its scheme.
pub(crate) fn is_rooted(text: &str) -> bool
    ensures { result ≡ true → IsRooted text.now }
{
    match text.strip_prefix("/") {
        Some(path) => is_inner(path.as_bytes()),
        None => match behind_scheme(text) {
            Some(rest) => has_host(rest.as_bytes()),
            None => false,
        },
    }
}

/// What is behind the scheme and `://`.
fn behind_scheme(text: &str) -> Option<&str>
    ensures { IfSome result (λ rest. IsBehindScheme text.now rest.now) }
{
    if let Some(rest) = text.strip_prefix("http://") {
        return Some(rest);
    }
    let rest = text.strip_prefix("https://")?;
    Some(rest)
}

/// Whether a text is a host and a folder from its root.
fn has_host(text: &[u8]) -> bool
    ensures { result ≡ true → HasHost text.now }
{
    match cut(text) {
        Some((host, path)) => is_host(host) && is_inner(path),
        None => false,
    }
}

fn is_host(text: &[u8]) -> bool
    ensures { result ≡ is_host text.now }
{
    !text.is_empty() && have_host_bytes(text)
}

fn have_host_bytes(text: &[u8]) -> bool
    ensures { result ≡ list_all is_host_byte text.now }
{
    text.iter().all(|byte| is_host_byte(*byte))
}

fn is_host_byte(byte: u8) -> bool
    ensures { result ≡ is_host_byte byte }
{
    byte.is_ascii_graphic() && !matches!(byte, b'#' | b'/' | b'?' | b'\\')
}

/// Whether a text is the path of a folder, or empty.
fn is_inner(text: &[u8]) -> bool
    ensures { result ≡ is_inner text.now }
{
    text.is_empty() || is_folder_path(text)
}
