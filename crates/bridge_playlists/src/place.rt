// The location of a manifest.
ghost use Rattle.std.specs.Prelude.{◌≡◌, IfOk, option_map};
ghost use Rattle.bridge_playlists.specs.Places as spec;

use bridge_io::{Name, NoMemory};
use bridge_report::{file_url, folder_url};
use std::alloc::Global;
use url_parts::Base;

/// The location of a manifest.
#[derive(Drop)]
pub struct StorePlace {
    /// Its file.
    pub file: Name,
    /// The URL of the store's root.
    pub folder: Base,
    /// The URL of the file.
    pub url: Base,
}

/// The location of a file. `None` where the base isn't a folder's URL as the URL Standard serializes it (4.5), or gives no
/// valid URL with the file's name.
#[tactic(auto, unfolding(crate::specs::Places::store_place_of))]
pub fn store_place_of(
    alloc: Global,
    base: &str,
    file: &Name,
) -> Result<Option<StorePlace>, NoMemory>
    ensures { IfOk result (λ place. place ≡ spec.store_place_of base.now file.now) }
{
    let Some(folder) = folder_url(alloc, base)? else {
        return Ok(None);
    };
    let Some(url) = file_url(alloc, base, file)? else {
        return Ok(None);
    };
    let file = copy_of(alloc, file)?;
    Ok(Some(StorePlace { file, folder, url }))
}

fn copy_of(alloc: Global, name: &Name) -> Result<Name, NoMemory>
    ensures { IfOk result (λ copy. copy ≡ name.now) }
{
    Name::read(alloc, name.as_str()).map_err(|_| NoMemory)
}
