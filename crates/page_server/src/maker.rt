// Makers of the files of manifests.
ghost use Rattle.std.specs.Prelude.{◌≡◌, ℕ, List, OnOk};
ghost use Rattle.std.specs.Option.{ForSome};
ghost use Rattle.bridge_io.specs.Answer.{Gives};
ghost use Rattle.bridge_io.specs.Fault.{HasCause};
ghost use Rattle.bridge_io.specs.Slurped.{unread};
ghost use Rattle.bridge_io.specs.declared.read_error.Slurp.TheVariants.{Fault};

use bridge_io::{Bytes, Name, NoMemory, Sequence, Slurp, Store, Text};

/// A file that was read.
#[derive(Drop)]
pub struct SourceFile {
    /// Its name in the store.
    pub name: Name,
    /// Its bytes.
    pub bytes: Bytes,
}

/// The files that were read for a manifest: the manifest itself, and each file that it names and that its pages
/// depend on.
pub type Sources = Sequence<SourceFile>;

/// A manifest that was read.
#[derive(Drop)]
pub struct Manifest {
    /// The URL of the store's folder.
    pub base: Text,
    /// Its name in the store.
    pub name: Name,
    /// The files that were read for it.
    pub files: Sources,
}

/// What is made from a manifest under one name.
#[derive(Clone, Copy)]
pub enum Page<'a> {
    /// The text of a file.
    Text(&'a [u8]),
    /// No file of this name is made.
    Missing,
    /// The manifest is rejected; the line says why.
    Refused(&'a [u8]),
}

/// Makes files from manifests. It holds those that were made last.
pub trait Maker {
    ghost use Rattle.page_server.specs.Pages.{Making, Page, shown};

    /// What is read for a manifest, and the page that is made from it under a name.
    ghost making: { Self → Making };

    /// The pages that it holds, by their names.
    ghost holds: { Self → List ℕ → Page };

    /// Reads what the pages of a manifest depend on, in a store whose folder has this URL. The store's files stay as they are.
    fn read<F: Store>(&self, store: &mut F, base: &str, manifest: &Name) -> Result<Sources, Slurp>
        ensures read { ForSome (F.files store.old) (λ files. Gives (λ sources. sources) unread result
            ((making self.now).sources_of base.now manifest.now files)) }
        ensures cause { HasCause Fault (F.read_faults store.old) (F.read_faults store.new) result }
        ensures files { F.files store.new ≡ F.files store.old };

    /// Makes the pages of a manifest, and holds them instead of the previous ones.
    fn make(&mut self, manifest: &Manifest) -> Result<(), NoMemory>
        ensures pages { OnOk result ((file : List ℕ) → holds self.new file ≡ (making self.old).page_of manifest.now file) }
        ensures making { making self.new ≡ making self.old };

    /// The page that it holds under a name.
    fn page(&self, file: &Name) -> Page<'_>
        ensures { shown result ≡ holds self.now file.now };
}
