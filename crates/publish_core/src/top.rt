// The top call.
ghost use Rattle.std.specs.Prelude.{◌≡◌, Some};
ghost use Rattle.publish_core.specs.Runs as spec;
ghost use Rattle.publish_core.specs.Words.{job_of};

use crate::decision::{Decision, decided};
use crate::job::PublishJob;
use crate::names::{PENDING, name_in};
use crate::words::publish_job;
use crate::written::write_files;
use bridge_courses::{Ending, Status, Verdict, tell};
use bridge_ends::Shelf;
use bridge_io::{NoMemory, OutFault, Sink, Text};
use std::alloc::Global;

/// Does what the words ask for, writes the report, and returns how it ended.
pub fn publish<F: Shelf, P: Sink>(
    alloc: Global,
    words: &[Text],
    store: &mut F,
    report: &mut P,
) -> Status
    ensures { spec.IsRun F.Store (job_of words.now) result store.old store.new (P.faults report.old) (P.faults report.new)
        (P.written report.old) (P.written report.new) }
{
    let ending = ending_of(alloc, words, store);
    tell(&ending, report)
}

/// Does what the words ask for.
fn ending_of<F: Shelf>(alloc: Global, words: &[Text], store: &mut F) -> Ending
    ensures leaves { spec.IsEnding (job_of words.now) result (F.files store.old) (F.files store.new) }
    ensures caused { spec.IsCaused result (F.read_faults store.old) (F.read_faults store.new) (F.write_faults store.old)
        (F.write_faults store.new) }
{
    match publish_job(alloc, words) {
        Ok(Some(job)) => run(alloc, &job, store),
        Ok(None) => Ending::Words,
        Err(NoMemory) => Ending::Memory,
    }
}

fn run<F: Shelf>(alloc: Global, job: &PublishJob, store: &mut F) -> Ending
    ensures leaves { spec.IsEnding (Some job.now) result (F.files store.old) (F.files store.new) }
    ensures caused { spec.IsCaused result (F.read_faults store.old) (F.read_faults store.new) (F.write_faults store.old)
        (F.write_faults store.new) }
{
    match decided(alloc, job, store) {
        Ok(decision) => write(alloc, job, decision, store),
        Err(stop) => stop.ending(alloc),
    }
}

fn write<F: Shelf>(alloc: Global, job: &PublishJob, decision: Decision, store: &mut F) -> Ending
    ensures written { spec.IsWritten job.now decision result (F.files store.old) (F.files store.new) }
    ensures caused { spec.IsCaused result (F.read_faults store.old) (F.read_faults store.new) (F.write_faults store.old)
        (F.write_faults store.new) }
{
    let Ok(Some(pending)) = name_in(alloc, &job.served, PENDING) else {
        return Ending::Memory;
    };
    let Decision { files, line } = decision;
    match write_files(alloc, &pending, files.as_slice(), store) {
        Ok(()) => Ending::Ended(Verdict::Done, line),
        Err(OutFault::WriteFault) => Ending::WriteFault,
        Err(OutFault::Memory) => Ending::Memory,
    }
}
