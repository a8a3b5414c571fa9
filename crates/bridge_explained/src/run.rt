// The top call with explanations.
ghost use Rattle.std.specs.Prelude.{◌≡◌, None, Some};
ghost use Rattle.bridge_core.specs.Courses.{Follows};
ghost use Rattle.bridge_jobs.specs.Jobs.{job_of};
ghost use Rattle.bridge_steps.specs.Follow.{world_of};
ghost use Rattle.bridge_explained.specs.Runs as spec;

use crate::notes::notes_of;
use crate::overheard::Overheard;
use crate::words::{explain_place, words_without};
use bridge_core::{Status, bridge};
use bridge_courses::{Ending, tell};
use bridge_io::{Ledger, NoMemory, Sink, Source, Steps, Store, Text};
use std::alloc::Global;

/// Runs a command line as [`bridge`] does. Where one of its words before `--` is `--explain`, the run is that of the words without
/// it, and behind its report come lines that explain what was rejected, of updates and snapshots the first hundred, and what was
/// dropped. They begin with two spaces. The explained files are read again for that; what can't be read or written isn't explained,
/// and the status stays.
pub fn explained_bridge<I: Source, F: Store, P: Sink + Drop, L: Ledger>(
    alloc: Global,
    words: &[Text],
    input: &mut I,
    store: &mut F,
    report: &mut Overheard<P>,
    steps: &mut Steps<L>,
) -> Status
    ensures run { spec.IsExplainedRun words.now (F.files store.old) (I.remaining input.old) result
        (world_of I.Source F.Store ⟦<Overheard<P> as Sink>⟧ input.old store.old report.old steps.old)
        (world_of I.Source F.Store ⟦<Overheard<P> as Sink>⟧ input.new store.new report.new steps.new) }
    ensures input { (Follows (job_of (spec.words_run words.now)) → ⊥) → input.new ≡ input.old }
{
    let Some(place) = explain_place(words) else {
        return bridge(alloc, words, input, store, report, steps);
    };
    match words_without(alloc, words, place) {
        Ok(rest) => explained(alloc, rest.as_slice(), input, store, report, steps),
        Err(NoMemory) => tell(&Ending::Memory, report),
    }
}

/// The run of these words, and behind its report the explanations.
fn explained<I: Source, F: Store, P: Sink + Drop, L: Ledger>(
    alloc: Global,
    words: &[Text],
    input: &mut I,
    store: &mut F,
    report: &mut Overheard<P>,
    steps: &mut Steps<L>,
) -> Status
    ensures run { spec.IsRunWithNotes words.now (F.files store.old) (I.remaining input.old) result
        (world_of I.Source F.Store ⟦<Overheard<P> as Sink>⟧ input.old store.old report.old steps.old)
        (world_of I.Source F.Store ⟦<Overheard<P> as Sink>⟧ input.new store.new report.new steps.new) }
    ensures input { (Follows (job_of words.now) → ⊥) → input.new ≡ input.old }
{
    let status = bridge(alloc, words, input, store, report, steps);
    write_notes(alloc, words, store, report);
    status
}

/// Appends the explanations to the report, as far as memory and the sink allow.
fn write_notes<F: Store, P: Sink + Drop>(
    alloc: Global,
    words: &[Text],
    store: &mut F,
    report: &mut Overheard<P>,
)
    ensures { spec.AddsNotes F.Store ⟦<Overheard<P> as Sink>⟧ store.old store.new report.old report.new }
{
    let Ok(notes) = notes_of(alloc, &report.heard, words, store) else {
        return;
    };
    let _ = report.write(notes.as_str().as_bytes());
}
