// The pages of a manifest.
ghost use Rattle.std.specs.Prelude.{◌≡◌, ℕ, List, IfOk};
ghost use Rattle.std.specs.Option.{option_copied};
ghost use Rattle.bridge_pages.specs.Left.{page_at};
ghost use Rattle.bridge_pages.specs.Runs as spec;

use crate::Made;
use crate::verb::Verb;
use crate::words::words_of;
use bridge_io::{Ledger, NoMemory, Steps, Text};
use page_server::Manifest;
use std::alloc::Global;

/// The pages of a manifest: [`Made::page`] has the text of each file that the bridge writes for it, below the manifest's name, or
/// the line that rejects it. With `indexed` an MPD's media files have a `sidx`, and a live MPD is read at the time `now`.
pub fn pages<L: Ledger>(
    alloc: Global,
    manifest: &Manifest,
    indexed: bool,
    now: Option<&Text>,
    steps: &mut Steps<L>,
) -> Result<Made, NoMemory>
    ensures { IfOk result (λ made. (file : List ℕ) →
        page_at made file ≡ spec.page_of_manifest indexed (option_copied now.entry) manifest.now file) }
{
    let name = manifest.name.as_str();
    let verb = Verb::of(indexed, name);
    let words = words_of(alloc, verb, manifest.base.as_str(), now, name)?;
    Made::of(alloc, words.as_slice(), manifest.files.as_slice(), steps)
}
