// A run over files in memory.
ghost use Rattle.std.specs.Prelude.{◌≡◌, ℕ, List, IfOk};
ghost use Rattle.page_server.specs.Pages.{shown};
ghost use Rattle.bridge_pages.specs.Files.{files_at};
ghost use Rattle.bridge_pages.specs.Runs as spec;

use crate::ends::{NoInput, PageStore, Report};
use bridge_core::{Status, bridge};
use bridge_courses::{
    a_calm_execution_is_complete, a_verdict_keeps_the_steps, an_execution_tells_its_steps,
};
use bridge_io::{Bytes, Ledger, Name, NoMemory, Steps, Text};
use page_server::{Page, SourceFile};
use std::alloc::Global;

/// The result of a run in memory.
#[derive(Drop)]
pub struct Made {
    store: PageStore,
    report: Report,
    is_done: bool,
}

impl Made {
    ghost use Rattle.bridge_pages.specs.Left.{page_at};

    /// Runs a command line over the files that were read, without input. The error means out of memory, also in the
    /// run.
    #[tactic(auto, unfolding(crate::specs::Runs::page_of_run))]
    pub fn of<L: Ledger>(
        alloc: Global,
        words: &[Text],
        sources: &[SourceFile],
        steps: &mut Steps<L>,
    ) -> Result<Made, NoMemory>
        ensures { IfOk result (λ made. (file : List ℕ) → page_at made file ≡ spec.page_of_run words.now sources.now file) }
    {
        let mut store = store_of(alloc, sources)?;
        let mut report = Report::new(alloc);
        a_calm_execution_is_complete();
        a_verdict_keeps_the_steps();
        an_execution_tells_its_steps();
        match bridge(alloc, words, &mut NoInput, &mut store, &mut report, steps) {
            Status::Memory => Err(NoMemory),
            status => Ok(Made {
                store,
                report,
                is_done: is_done(status),
            }),
        }
    }

    /// The page under a name: the file that the run wrote, or the report of a run that didn't succeed.
    pub fn page(&self, file: &Name) -> Page<'_>
        ensures { shown result ≡ page_at self.now file.now }
    {
        if !self.is_done {
            return Page::Refused(self.report.text());
        }
        match self.store.file(file) {
            Some(text) => Page::Text(text),
            None => Page::Missing,
        }
    }
}

/// Whether a run with this status succeeded.
fn is_done(status: Status) -> bool
    ensures { result ≡ spec.is_done_by status }
{
    matches!(status, Status::Done)
}

/// A store of the files that were read.
fn store_of(alloc: Global, sources: &[SourceFile]) -> Result<PageStore, NoMemory>
    ensures { IfOk result (λ store. files_at store ≡ spec.files_read sources.now) }
{
    let mut store = PageStore::new(alloc);
    for source in sources {
        store.put(
            name_like(alloc, &source.name)?,
            bytes_like(alloc, &source.bytes)?,
        )?;
    }
    Ok(store)
}

/// A copy of a name.
pub fn name_like(alloc: Global, name: &Name) -> Result<Name, NoMemory>
    ensures { IfOk result (λ copy. copy ≡ name.now) }
{
    Name::read(alloc, name.as_str()).map_err(|_| NoMemory)
}

fn bytes_like(alloc: Global, bytes: &Bytes) -> Result<Bytes, NoMemory>
    ensures { IfOk result (λ copy. copy ≡ bytes.now) }
{
    let mut copy = Bytes::new(alloc);
    copy.extend(bytes.as_slice())?;
    Ok(copy)
}
