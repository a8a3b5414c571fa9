// The texts of playlists in memory.
ghost use Rattle.std.specs.Prelude.{◌≡◌, All, IfOk};
ghost use Rattle.bridge_ends.specs.InMemory.{files_in};
ghost use Rattle.bridge_io.specs.Outside.{content_of};
ghost use Rattle.iso_time.specs.Instant.{IsWritable};
ghost use Rattle.hls_writer.specs.Items.{items_text};

use bridge_ends::{CallList, MemStore};
use bridge_io::{Bytes, Name, NoMemory};
use hls_writer::{ItemList, MediaHead, write_items};
use std::alloc::Global;

/// The text of a playlist that follows a presentation, as `write_items` writes it.
///
/// Requires that the year of each date is 1000 to 9999.
pub fn text_of(alloc: Global, head: &MediaHead, items: &ItemList) -> Result<Bytes, NoMemory>
    requires { All (λ item. IsWritable item.date) items.now }
    ensures { IfOk result (λ text. text ≡ items_text head.now items.now) }
{
    let Ok(name) = Name::read(alloc, "playlist") else {
        return Err(NoMemory);
    };
    let mut store = MemStore::new(alloc, CallList::new(alloc), CallList::new(alloc));
    match write_items(alloc, head, items, &mut store, &name) {
        Ok(()) => content_of(alloc, &store, &name),
        Err(_) => Err(NoMemory),
    }
}

/// A copy of a file's bytes.
fn content_of(alloc: Global, store: &MemStore, name: &Name) -> Result<Bytes, NoMemory>
    ensures { IfOk result (λ content. content ≡ content_of (files_in store.now) name.now) }
{
    let mut content = Bytes::new(alloc);
    if let Some(bytes) = store.file(name) {
        content.extend(bytes)?;
    }
    Ok(content)
}
