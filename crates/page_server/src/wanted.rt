// Paths of files that are made from manifests.
ghost use Rattle.std.specs.Prelude.{◌≡◌, IfOk};
ghost use Rattle.std.specs.Option.{option_copied};
ghost use Rattle.page_server.specs.Requests.{after_slash, folder_of, wanted_of, wanted_if, name_if};

use bridge_io::{Name, NameFault, NoMemory};
use std::alloc::Global;

/// A file that is made from a manifest.
#[derive(Drop)]
pub struct Wanted {
    /// The manifest's name in the store.
    pub manifest: Name,
    /// The file's name: the manifest's, `/` and one more part.
    pub file: Name,
}

impl Wanted {
    /// The file that a path asks for: `/` and the file's name; the part of that before its last `/` is the manifest's name.
    #[tactic(auto, unfolding(crate::specs::Requests::wanted_of))]
    pub fn at(alloc: Global, path: &str) -> Result<Option<Wanted>, NoMemory>
        ensures { IfOk result (λ wanted. wanted ≡ wanted_of path.now) }
    {
        let Some(file) = after_slash(path) else {
            return Ok(None);
        };
        let Some(manifest) = folder_of(file) else {
            return Ok(None);
        };
        named(alloc, manifest, file)
    }
}

/// What follows the leading `/` of a path.
fn after_slash(path: &str) -> Option<&str>
    ensures { option_copied result ≡ after_slash path.now }
{
    path.strip_prefix('/')
}

/// What is before the last `/`.
fn folder_of(file: &str) -> Option<&str>
    ensures { option_copied result ≡ folder_of file.now }
{
    match file.rfind('/') {
        None => None,
        Some(slash) => Some(&file[..slash]),
    }
}

fn named(alloc: Global, manifest: &str, file: &str) -> Result<Option<Wanted>, NoMemory>
    ensures { IfOk result (λ wanted. wanted ≡ wanted_if manifest.now file.now) }
{
    let (Some(manifest), Some(file)) = (name_if(alloc, manifest)?, name_if(alloc, file)?) else {
        return Ok(None);
    };
    Ok(Some(Wanted { manifest, file }))
}

/// A text as a name, if it is one.
pub fn name_if(alloc: Global, text: &str) -> Result<Option<Name>, NoMemory>
    ensures { IfOk result (λ name. name ≡ name_if text.now) }
{
    match Name::read(alloc, text) {
        Ok(name) => Ok(Some(name)),
        Err(NameFault::Shape) => Ok(None),
        Err(NameFault::Memory) => Err(NoMemory),
    }
}
