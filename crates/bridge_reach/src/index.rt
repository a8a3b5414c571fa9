// `hls-index`: from an MPD and the `sidx` of its media files to playlists.
ghost use Rattle.std.specs.Prelude.{◌≡◌, ◌^◌, Ok, IfOk, IfSome, Some};
ghost use Rattle.bridge_io.specs.Answer.{Gives, told_as};
ghost use Rattle.index_parts.specs.declared.fault.IndexFault.TheVariants.{Fault};
ghost use Rattle.index_parts.specs.Refusals.{refusal};
ghost use Rattle.mpd_hints.specs.declared.starts.Sap.TheVariants.{Subsegments};
ghost use Rattle.mpd_rules.specs.Rules.{indexed_mpd_of};
ghost use Rattle.mpd_rules.specs.Views.{index_mpd};
ghost use Rattle.mpd_tree.specs.Nodes.{root_of};
ghost use Rattle.bridge_report.specs.declared.reading.Halt.TheVariants.{ReadFault};
ghost use Rattle.bridge_report.specs.Reading.{IsNoReadFault, ReadsAs, halted};
ghost use Rattle.bridge_report.specs.Refusals.{refused_in};
ghost use Rattle.bridge_steps.specs.Endings.{JobEndsAs, around};
ghost use Rattle.bridge_steps.specs.Players.{players_in};
ghost use Rattle.bridge_reach.specs.Index as spec;

use bridge_courses::Ending;
use bridge_io::{Bytes, Ledger, Name, Steps, Store};
use bridge_jobs::IndexJob;
use bridge_playlists::StorePlace;
use bridge_report::{Halt, IndexRefusal, Refusal, Stop, content_of, halted};
use bridge_steps::{
    Output, Ready, checked, done_line, place_in, players_of, tree_of, write_playlists, written,
};
use exact_time::Digits;
use index_parts::{IndexFault, index_parts};
use mpd_hints::Sap;
use mpd_rules::{IndexedMpd, rules_indexed};
use mpd_tree::Tree;
use presentation::Presentation;
use segment_forms::Form;
use std::alloc::Global;
use track_hints::Hints;

/// Writes the playlists for the command's MPD and its media files, unless one of them is rejected.
#[tactic(auto, unfolding(crate::specs::Index::index_outcome))]
pub fn run_hls_index<F: Store, L: Ledger>(
    alloc: Global,
    job: &IndexJob,
    store: &mut F,
    steps: &mut Steps<L>,
) -> Ending
    ensures { JobEndsAs (spec.index_outcome job.now (F.files store.old)) result
        (around F.Store store.old steps.old) (around F.Store store.new steps.new) }
{
    match place_in(alloc, &job.base, &job.mpd) {
        Ok(place) => match indexed_at(alloc, job, &place, store, steps) {
            Ok(ready) => {
                let output = Output::of(job.addresses, &place.folder, &job.out);
                write(alloc, job, &output, &ready, store, steps)
            }
            Err(halt) => halted(alloc, halt),
        },
        Err(told) => told,
    }
}

/// Writes the playlists of a presentation.
fn write<F: Store, L: Ledger>(
    alloc: Global,
    job: &IndexJob,
    output: &Output<'_>,
    ready: &Ready,
    store: &mut F,
    steps: &mut Steps<L>,
) -> Ending
    requires output { output.now ≡ spec.output_of_job job.now }
    requires digits { ready.now.digits ≡ job.now.digits }
    ensures { JobEndsAs (Some (spec.outcome_of job.now (Ok (ready.now.presentation, ready.now.players)))) result
        (around F.Store store.old steps.old) (around F.Store store.new steps.new) }
{
    let Ok(line) = done_line(alloc, &ready.presentation) else {
        return Ending::Memory;
    };
    written(line, write_playlists(alloc, output, ready, store, steps))
}

/// The presentation of the MPD in the file at a location, whose media files have a `sidx`, with the URL of each segment, and
/// what the MPD says for players in the command's form; or the first error, of the MPD or of a media file.
/// [`Halt::ReadFault`] comes only where the store's count of failed reads rose.
#[tactic(auto, unfolding(crate::specs::Index::told_at))]
fn indexed_at<F: Store, L: Ledger>(
    alloc: Global,
    job: &IndexJob,
    place: &StorePlace,
    store: &mut F,
    steps: &mut Steps<L>,
) -> Result<Ready, Halt>
    ensures reads { ReadsAs F.Store store.old store.new (λ ready. (ready.presentation, ready.players))
        (spec.told_at job.now.form (10 ^ job.now.digits) place.now) result }
    ensures digits { IfOk result (λ ready. ready.digits ≡ job.now.digits) }
{
    let bytes = content_of(alloc, store, &place.file)?;
    indexed_in(alloc, job, place, bytes, store, steps)
}

/// The same, given the bytes of the file at the location.
#[tactic(auto, unfolding(crate::specs::Index::told_in, crate::specs::Index::ready_in, crate::specs::Index::presented_in))]
fn indexed_in<F: Store, L: Ledger>(
    alloc: Global,
    job: &IndexJob,
    place: &StorePlace,
    bytes: Bytes,
    store: &mut F,
    steps: &mut Steps<L>,
) -> Result<Ready, Halt>
    ensures reads { ReadsAs F.Store store.old store.new (λ ready. (ready.presentation, ready.players))
        (λ files. spec.told_in job.now.form (10 ^ job.now.digits) place.now files bytes) result }
    ensures digits { IfOk result (λ ready. ready.digits ≡ job.now.digits) }
{
    let (mpd, players) = values_in(alloc, place, bytes, job.form)?;
    let presentation = presented(alloc, place, &mpd, store)?;
    checked_in(alloc, place, presentation, job.digits, players, steps)
}

/// Checks each segment of the presentation.
fn checked_in<L: Ledger>(
    alloc: Global,
    place: &StorePlace,
    presentation: Presentation,
    digits: Digits,
    players: Option<Hints>,
    steps: &mut Steps<L>,
) -> Result<Ready, Halt>
    ensures ready { Gives (λ ready. ready.presentation) halted result (spec.checked_in (10 ^ digits) place.now presentation) }
    ensures digits { IfOk result (λ ready. ready.digits ≡ digits) }
    ensures players { IfOk result (λ ready. ready.players ≡ players) }
    ensures no_fault { IsNoReadFault result }
{
    match checked(alloc, presentation, digits, players, steps) {
        Ok(ready) => Ok(ready),
        Err(Stop::Refused(refusal)) => Err(Halt::refused(alloc, &place.file, refusal)),
        Err(Stop::Memory) => Err(Halt::Memory),
    }
}

/// The values of the MPD, and what it says for players in a form.
fn values_in(
    alloc: Global,
    place: &StorePlace,
    bytes: Bytes,
    form: Form,
) -> Result<(IndexedMpd, Option<Hints>), Halt>
    ensures values { Gives (λ read. index_mpd read.0) halted result (spec.values_in place.now bytes) }
    ensures players { IfOk result (λ read. read.1 ≡ players_in form Subsegments bytes) }
    ensures no_fault { IsNoReadFault result }
{
    match values_for(alloc, bytes, form) {
        Ok(read) => Ok(read),
        Err(Stop::Refused(refusal)) => Err(Halt::refused(alloc, &place.file, refusal)),
        Err(Stop::Memory) => Err(Halt::Memory),
    }
}

/// The values of an MPD whose media files have an index inside, of its bytes, or why they are refused.
#[tactic(auto, unfolding(crate::specs::Index::values_of))]
pub fn values_of(alloc: Global, bytes: Bytes) -> Result<IndexedMpd, Stop>
    ensures { Gives index_mpd refused_in result (spec.values_of bytes) }
{
    let tree = tree_of(alloc, bytes)?;
    typed_of(alloc, &tree)
}

/// The same, with what the MPD says for players in a form.
#[tactic(auto, unfolding(crate::specs::Index::values_of))]
fn values_for(alloc: Global, bytes: Bytes, form: Form) -> Result<(IndexedMpd, Option<Hints>), Stop>
    ensures values { Gives (λ read. index_mpd read.0) refused_in result (spec.values_of bytes) }
    ensures players { IfOk result (λ read. read.1 ≡ players_in form Subsegments bytes) }
{
    let tree = tree_of(alloc, bytes)?;
    let mpd = typed_of(alloc, &tree)?;
    let Ok(players) = players_of(alloc, form, Sap::Subsegments, &tree) else {
        return Err(Stop::Memory);
    };
    Ok((mpd, players))
}

fn typed_of(alloc: Global, tree: &Tree) -> Result<IndexedMpd, Stop>
    ensures { Gives index_mpd refused_in result (told_as Refusal.Rules (indexed_mpd_of (root_of tree.now))) }
{
    match rules_indexed(alloc, tree) {
        Ok(mpd) => Ok(mpd),
        Err(fault) => Err(Stop::of_rules(fault)),
    }
}

/// The presentation of the MPD's values and of the files of the store.
fn presented<F: Store>(
    alloc: Global,
    place: &StorePlace,
    mpd: &IndexedMpd,
    store: &mut F,
) -> Result<Presentation, Halt>
    ensures { ReadsAs F.Store store.old store.new (λ presentation. presentation)
        (λ files. spec.presented_by place.now files (index_mpd mpd.now)) result }
{
    match index_parts(alloc, mpd, &place.url, &place.folder, store) {
        Ok(presentation) => Ok(presentation),
        Err(fault) => Err(unpresented(alloc, &place.file, fault)),
    }
}

/// Which file is rejected, and why.
fn unpresented(alloc: Global, mpd: &Name, fault: IndexFault) -> Halt
    ensures told { IfSome (halted result) (λ named. (refusal fault ≡ Some fault) × (named ≡ spec.named_by mpd.now fault)) }
    ensures read_fault { result ≡ ReadFault → fault ≡ Fault }
{
    match fault {
        IndexFault::Presentation(fault) => {
            Halt::refused(alloc, mpd, Refusal::Presentation(fault))
        }
        IndexFault::OutsideBase => {
            Halt::refused(alloc, mpd, Refusal::Index(IndexRefusal::OutsideBase))
        }
        IndexFault::TooLong => Halt::refused(alloc, mpd, Refusal::Index(IndexRefusal::TooLong)),
        IndexFault::File(file, fault) => {
            Halt::refused(alloc, &file, Refusal::Index(IndexRefusal::File(fault)))
        }
        IndexFault::Fault => Halt::ReadFault,
        IndexFault::Memory => Halt::Memory,
    }
}
