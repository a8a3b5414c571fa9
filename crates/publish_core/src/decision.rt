// What is written, and the line of the report.
ghost use Rattle.std.specs.Prelude.{Ok};
ghost use Rattle.publish_core.specs.Decisions as spec;
ghost use Rattle.publish_core.specs.Names.{master_file, name_in};
ghost use Rattle.publish_core.specs.Sides.{ReadsAs};

use crate::first::first_publication;
use crate::job::PublishJob;
use crate::names::{MASTER, name_in};
use crate::next::next_publication;
use crate::placed_master::is_taken;
use crate::refusal::{Refused, Stop};
use crate::side::side_at;
use bridge_io::{Bytes, Name, Sequence, Store, Text};
use std::alloc::Global;

/// A file that is to be written.
#[derive(Drop)]
pub(crate) struct NewFile {
    pub(crate) name: Name,
    pub(crate) text: Bytes,
}

/// Files that are to be written, in order.
pub(crate) type FileList = Sequence<NewFile>;

/// What is written, and the line of the report.
#[derive(Drop)]
pub(crate) struct Decision {
    pub(crate) files: FileList,
    pub(crate) line: Text,
}

/// What is written of a job. The new side is read whole before the served one, of which nothing is read where it has no master. A
/// master that means something else in the served folder is refused.
#[tactic(auto, unfolding(crate::specs::Decisions::decision_of))]
pub(crate) fn decided<F: Store>(
    alloc: Global,
    job: &PublishJob,
    store: &mut F,
) -> Result<Decision, Stop>
    ensures { ReadsAs F.Store store.old store.new (λ decision. decision) (spec.decision_of job.now) result }
{
    let new = side_at(alloc, &job.new, store)?;
    if !is_taken(alloc, job, &new)? {
        return Err(Stop::at(alloc, &new.file, Refused::Form));
    }
    if is_served(alloc, job, store)? {
        let served = side_at(alloc, &job.served, store)?;
        next_publication(alloc, job, new, served)
    } else {
        first_publication(alloc, job, new)
    }
}

/// Whether the served folder has a master.
fn is_served<F: Store>(alloc: Global, job: &PublishJob, store: &mut F) -> Result<bool, Stop>
    ensures { ReadsAs F.Store store.old store.new (λ found. found)
        (λ files. Ok (spec.is_there files (name_in job.now.served master_file))) result }
{
    match name_in(alloc, &job.served, MASTER)? {
        Some(master) => Ok(store.has(&master)?),
        None => Ok(false),
    }
}
