// The names of files.
ghost use Rattle.std.specs.Prelude.{◌≡◌, IfOk};
ghost use Rattle.std.specs.List.{list_all};
ghost use Rattle.publish_core.specs.Names as spec;

use bridge_io::{Name, NameFault, NoMemory};
use std::alloc::Global;

/// The file of a side's master.
pub(crate) const MASTER: &str = "master.m3u8";

/// The file that holds a text until it takes its place.
pub(crate) const PENDING: &str = ".new";

/// The name of a file in a folder, if it isn't too long for one.
#[tactic(auto, unfolding(crate::specs::Names::name_in))]
pub(crate) fn name_in(alloc: Global, folder: &Name, file: &str) -> Result<Option<Name>, NoMemory>
    ensures { IfOk result (λ name. name ≡ spec.name_in folder.now file.now) }
{
    let folder = folder.as_str();
    let text = format!(in alloc; "{folder}/{file}")?;
    match Name::read(alloc, text.as_str()) {
        Ok(name) => Ok(Some(name)),
        Err(NameFault::Shape) => Ok(None),
        Err(NameFault::Memory) => Err(NoMemory),
    }
}

/// Whether a track may have this file: it lies in no folder below, and neither is it the master nor the pending file.
pub(crate) fn is_track_file(file: &Name) -> bool
    ensures { result ≡ spec.is_track_file file.now }
{
    let file = file.as_str();
    file != MASTER && file != PENDING && lies_in_no_folder(file.as_bytes())
}

fn lies_in_no_folder(file: &[u8]) -> bool
    ensures { result ≡ list_all spec.is_no_slash file.now }
{
    file.iter().all(|byte| *byte != b'/')
}
