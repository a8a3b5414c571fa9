// Texts that were sent.
ghost use Rattle.std.specs.Prelude.{◌≡◌, None, IfOk, OnOk, OnErr};
ghost use Rattle.bridge_io.specs.Outside.{put};
ghost use Rattle.page_server.specs.Shelves.{on};

use crate::tagged::Tagged;
use bridge_io::{Name, NoMemory};
use std::alloc::Global;
use std::collections::BTreeMap;

/// Texts of files, with their ETags.
#[derive(Drop)]
pub struct Shelf {
    alloc: Global,
    texts: BTreeMap<String, Tagged>,
}

impl Shelf {
    /// An empty shelf. It allocates nothing.
    pub fn new(alloc: Global) -> Shelf
        ensures { (file : _) → on result file ≡ None }
    {
        Shelf {
            alloc,
            texts: BTreeMap::new(alloc),
        }
    }

    /// The text of a file, where it is here.
    pub fn get(&self, file: &Name) -> Result<Option<Tagged>, NoMemory>
        ensures { IfOk result (λ text. text ≡ on self.now file.now) }
    {
        match self.texts.get(file.as_str()) {
            Some(text) => Ok(Some(text.share()?)),
            None => Ok(None),
        }
    }

    /// Puts the text of a file here. An error leaves the shelf as it was.
    pub fn put(&mut self, file: &Name, text: Tagged) -> Result<(), NoMemory>
        ensures ok { OnOk result (on self.new ≡ put file.now text (on self.old)) }
        ensures err { OnErr result (on self.new ≡ on self.old) }
    {
        let key = String::from_str(self.alloc, file.as_str())?;
        self.texts.insert(key, text)?;
        Ok(())
    }
}
