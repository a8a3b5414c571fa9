// A maker with a cache of its pages.
ghost use Rattle.std.specs.Prelude.{◌≡◌, ℕ, List, OnOk, IfOk, IfSome, IsTrue};
ghost use Rattle.page_server.specs.Pages.{held, Text};
ghost use Rattle.page_server.specs.Shelves.{AreOf, on};
ghost use Rattle.page_server.specs.Sources as spec;

use crate::shelf::Shelf;
use crate::sources::are_same;
use crate::tagged::Tagged;
use crate::{Maker, Manifest, Page};
use bridge_io::{Name, NoMemory};
use bytes::Bytes;
use std::alloc::Global;

/// A page that is cached, or that was copied.
#[derive(Drop)]
pub enum Held {
    /// The text of a file.
    Text(Tagged),
    /// No file of this name is made.
    Missing,
    /// The manifest is rejected; the line says why.
    Refused(Bytes),
}

/// What pages were made from, and the texts of those that were requested.
#[derive(Drop)]
pub struct Kept {
    manifest: Manifest,
    texts: Shelf,
}

/// A maker that makes pages again only where the manifest, or a file that was read for it, differs from the previous one. A
/// text is copied, and its ETag computed, at its first request.
#[derive(Drop)]
pub struct Workshop<M: Maker + Drop> {
    alloc: Global,
    maker: M,
    kept: Option<Kept>,
    ghost right: { ∥ IfSome kept (λ kept. ((file : List ℕ) → M.holds maker file ≡ (M.making maker).page_of kept.manifest file)
        × AreOf (M.holds maker) (on kept.texts)) ∥₁ },
}

impl<M: Maker + Drop> Workshop<M> {
    /// A workshop without pages. It allocates nothing.
    pub fn new(alloc: Global, maker: M) -> Workshop<M>
        ensures { result.maker ≡ maker }
    {
        Workshop {
            alloc,
            maker,
            kept: None,
        }
    }

    /// The maker of its pages.
    pub fn maker(&self) -> &M
        ensures { result.now ≡ self.now.maker }
    {
        &self.maker
    }

    /// Makes the pages of a manifest, unless they are here.
    pub fn prepare(&mut self, manifest: Manifest) -> Result<(), NoMemory>
        ensures pages { OnOk result ((file : List ℕ) → M.holds self.new.maker file ≡ (M.making self.old.maker).page_of manifest file) }
        ensures making { M.making self.new.maker ≡ M.making self.old.maker }
    {
        if self.has(&manifest) {
            return Ok(());
        }
        self.kept = None;
        self.maker.make(&manifest)?;
        self.kept = Some(Kept {
            manifest,
            texts: Shelf::new(self.alloc),
        });
        Ok(())
    }

    /// Whether its pages are those of a manifest.
    fn has(&self, manifest: &Manifest) -> bool
        ensures { IsTrue result → (file : List ℕ) →
            M.holds self.now.maker file ≡ (M.making self.now.maker).page_of manifest.now file }
    {
        match &self.kept {
            Some(kept) => is_same(&kept.manifest, manifest),
            None => false,
        }
    }

    /// The page that it holds under a name.
    pub fn page(&mut self, file: &Name) -> Result<Held, NoMemory>
        ensures page { IfOk result (λ page. held page ≡ M.holds self.old.maker file.now) }
        ensures maker { self.new.maker ≡ self.old.maker }
    {
        if let Some(text) = self.text(file)? {
            return Ok(Held::Text(text));
        }
        match self.maker.page(file) {
            Page::Text(text) => {
                let text = Tagged::of(self.alloc, text)?;
                self.keep(file, text.share()?)?;
                Ok(Held::Text(text))
            }
            Page::Missing => Ok(Held::Missing),
            Page::Refused(line) => Ok(Held::Refused(Bytes::copy_from_slice(self.alloc, line)?)),
        }
    }

    /// The text of a file that was requested before.
    fn text(&self, file: &Name) -> Result<Option<Tagged>, NoMemory>
        ensures { IfOk result (λ text. IfSome text (λ text. M.holds self.now.maker file.now ≡ Text text)) }
    {
        match &self.kept {
            Some(kept) => kept.texts.get(file),
            None => Ok(None),
        }
    }

    /// Caches the text of a file.
    fn keep(&mut self, file: &Name, text: Tagged) -> Result<(), NoMemory>
        requires { M.holds self.old.maker file.now ≡ Text text }
        ensures { self.new.maker ≡ self.old.maker }
    {
        match &mut self.kept {
            Some(kept) => kept.texts.put(file, text),
            None => Ok(()),
        }
    }
}

/// Whether a manifest was read as another one was.
fn is_same(first: &Manifest, second: &Manifest) -> bool
    ensures { result ≡ spec.is_same_manifest first.now second.now }
{
    first.base.as_str() == second.base.as_str()
        && first.name.as_str() == second.name.as_str()
        && are_same(first.files.as_slice(), second.files.as_slice())
}
