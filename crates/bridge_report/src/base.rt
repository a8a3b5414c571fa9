// The URL of the store's folder, and those of its files.
ghost use Rattle.std.specs.Prelude.{◌≡◌, IfOk};
ghost use Rattle.std.specs.List.{list_any};
ghost use Rattle.url_parts.specs.Addresses.{is_tail};
ghost use Rattle.bridge_report.specs.Bases as spec;

use bridge_io::{Name, NoMemory};
use std::alloc::Global;
use url_parts::{Base, UrlFault};

/// The URL of a file: the base's text followed by the file's name. `None` where the base isn't a folder's URL as the
/// URL Standard serializes it (4.5), or both together aren't a valid URL.
#[tactic(auto, unfolding(crate::specs::Bases::file_url))]
pub fn file_url(alloc: Global, base: &str, file: &Name) -> Result<Option<Base>, NoMemory>
    ensures { IfOk result (λ url. url ≡ spec.file_url base.now file.now) }
{
    if !is_folder(base.as_bytes()) || own_address(alloc, base)?.is_none() {
        return Ok(None);
    }
    let file = file.as_str();
    let url = format!(in alloc; "{base}{file}")?;
    own_address(alloc, url.as_str())
}

/// The URL of a base's folder. `None` where the base isn't a folder's URL as the URL Standard serializes it (4.5).
#[tactic(auto, unfolding(crate::specs::Bases::folder_url))]
pub fn folder_url(alloc: Global, base: &str) -> Result<Option<Base>, NoMemory>
    ensures { IfOk result (λ url. url ≡ spec.folder_url base.now) }
{
    if !is_folder(base.as_bytes()) {
        return Ok(None);
    }
    own_address(alloc, base)
}

/// Whether a text ends in `/`, and has no `?` and no `#`.
fn is_folder(text: &[u8]) -> bool
    ensures { result ≡ spec.is_folder text.now }
{
    ends_in_slash(text) && !has_tail(text)
}

fn ends_in_slash(text: &[u8]) -> bool
    ensures { result ≡ spec.ends_in_slash text.now }
{
    matches!(text, [.., b'/'])
}

/// Whether there is a `?` or a `#`.
fn has_tail(text: &[u8]) -> bool
    ensures { result ≡ list_any is_tail text.now }
{
    text.iter().any(|byte| matches!(*byte, b'?' | b'#'))
}

/// A text as a URL, where it is its own serialization by the URL Standard.
fn own_address(alloc: Global, text: &str) -> Result<Option<Base>, NoMemory>
    ensures { IfOk result (λ url. url ≡ spec.own_address text.now) }
{
    match Base::of(alloc, text) {
        Ok(url) => Ok((url.as_str() == text).then_some(url)),
        Err(UrlFault::Memory) => Err(NoMemory),
        Err(_) => Ok(None),
    }
}
