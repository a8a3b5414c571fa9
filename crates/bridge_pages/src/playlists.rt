// The bridge as a maker of pages.
ghost use Rattle.std.specs.Prelude.{◌≡◌};
ghost use Rattle.bridge_pages.specs.Holding.{held, making_of};

use crate::sources::sources_of;
use crate::verb::Verb;
use crate::{Made, pages};
use bridge_io::{Ledger, Name, NoMemory, Slurp, Steps, Store, Text};
use page_server::{Maker, Manifest, Page, Sources};
use std::alloc::Global;

/// Makes the playlists of an MPD, and the MPD of a master playlist and its media playlists.
#[derive(Drop)]
pub struct Playlists<L: Ledger> {
    alloc: Global,
    indexed: bool,
    now: Option<Text>,
    steps: Steps<L>,
    made: Option<Made>,
}

impl<L: Ledger> Playlists<L> {
    /// A maker of pages of MPDs whose media files have a `sidx`, or of others, which reads live ones at a time. It allocates
    /// nothing.
    pub fn new(alloc: Global, indexed: bool, now: Option<Text>, steps: Steps<L>) -> Playlists<L>
        ensures { ⟦<Playlists<L> as Maker>⟧.making result ≡ making_of indexed now }
    {
        Playlists {
            alloc,
            indexed,
            now,
            steps,
            made: None,
        }
    }
}

impl<L: Ledger> Maker for Playlists<L> {
    ghost making = { λ p. making_of p.indexed p.now };

    ghost holds = { λ p. held p.made };

    fn read<F: Store>(&self, store: &mut F, base: &str, manifest: &Name) -> Result<Sources, Slurp> {
        let verb = Verb::of(self.indexed, manifest.as_str());
        sources_of(self.alloc, verb, base, store, manifest)
    }

    fn make(&mut self, manifest: &Manifest) -> Result<(), NoMemory> {
        self.made = None;
        let now = self.now.as_ref();
        let made = pages(self.alloc, manifest, self.indexed, now, &mut self.steps)?;
        self.made = Some(made);
        Ok(())
    }

    fn page(&self, file: &Name) -> Page<'_> {
        match &self.made {
            Some(made) => made.page(file),
            None => Page::Missing,
        }
    }
}
