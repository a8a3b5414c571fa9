// Every difference of an MPD and a master playlist with its media playlists.
ghost use Rattle.std.specs.Prelude.{◌≡◌, ◌≢◌, ◌^◌, Ok, Some, IfOk};
ghost use Rattle.bridge_courses.specs.declared.status.Status.TheVariants as status;
ghost use Rattle.bridge_courses.specs.Executions.{status_by};
ghost use Rattle.presentation.specs.Counting.{counted, count_of_all};
ghost use Rattle.presentation.specs.Origins.{CameFromPlaylists};
ghost use Rattle.presentation.specs.Verifying.{verified};
ghost use Rattle.bridge_report.specs.Reading.{ReadsAs};
ghost use Rattle.bridge_steps.specs.Endings.{JobEndsAs, NeverWrites, around};
ghost use Rattle.bridge_compare.specs.Compare as spec;

use crate::check::{places_of, same_line};
use crate::lines::{count_line, push_all};
use bridge_courses::{Ending, Verdict};
use bridge_io::{Ledger, NoMemory, Steps, Store, Text};
use bridge_jobs::CompareJob;
use bridge_playlists::{StorePlace, presented_at, presented_so_far};
use bridge_report::{Halt, Refusal};
use bridge_steps::{Ready, mpd_at, told};
use differences::{Deviations, differences};
use presentation::Presentation;
use std::alloc::Global;

/// Reports every difference of what the command's MPD, a live one at its time, and its master playlist with the media playlists
/// mean, unless one of the files is rejected. Nothing is written.
#[tactic(auto, unfolding(crate::specs::Compare::compare_outcome))]
pub fn run_compare<F: Store, L: Ledger>(
    alloc: Global,
    job: &CompareJob,
    store: &mut F,
    steps: &mut Steps<L>,
) -> Ending
    ensures ends { JobEndsAs (spec.compare_outcome job.now (F.files store.old)) result
        (around F.Store store.old steps.old) (around F.Store store.new steps.new) }
    ensures never_writes { NeverWrites result (F.write_faults store.old) (F.write_faults store.new) }
{
    match places_of(alloc, &job.check) {
        Ok((mpd, master)) => told(alloc, judged(alloc, job, &mpd, &master, store, steps)),
        Err(told) => told,
    }
}

/// The report on the MPD and the master playlist at these locations, or why a file isn't read.
#[tactic(auto, unfolding(crate::specs::Compare::judged))]
fn judged<F: Store, L: Ledger>(
    alloc: Global,
    job: &CompareJob,
    mpd: &StorePlace,
    master: &StorePlace,
    store: &mut F,
    steps: &mut Steps<L>,
) -> Result<(Verdict, Text), Halt>
    ensures reads { ReadsAs F.Store store.old store.new (λ told. told) (spec.judged job.now mpd.now master.now) result }
    ensures verdict { IfOk result (λ told. status_by told.0 ≢ status.Words) }
{
    let digits = job.check.digits;
    let ready = mpd_at(
        alloc,
        mpd,
        job.instant,
        live_refusal(job),
        digits,
        store,
        steps,
    )?;
    let playlists = listed_at(alloc, job, master, store)?;
    Ok(compared(alloc, job, &ready, &playlists, steps)?)
}

/// Why a live MPD is rejected: no time is given.
fn live_refusal(job: &CompareJob) -> Option<Refusal>
    ensures { result ≡ spec.live_refusal job.now.instant }
{
    match job.instant {
        Some(_) => None,
        None => Some(Refusal::NotStatic),
    }
}

/// The presentation of the playlists, which may be live where a time is given.
fn listed_at<F: Store>(
    alloc: Global,
    job: &CompareJob,
    master: &StorePlace,
    store: &mut F,
) -> Result<Presentation, Halt>
    ensures reads { ReadsAs F.Store store.old store.new (λ presentation. presentation)
        (spec.listed_at job.now.instant master.now) result }
    ensures came { IfOk result CameFromPlaylists }
    ensures counted { IfOk result (λ p. counted p ≡ Ok (count_of_all p)) }
{
    match job.instant {
        Some(_) => presented_so_far(alloc, master, store),
        None => presented_at(alloc, master, store),
    }
}

/// The report on an MPD and playlists: the differences, the greatest one of time for each track, and how many there are.
fn compared<L: Ledger>(
    alloc: Global,
    job: &CompareJob,
    mpd: &Ready,
    playlists: &Presentation,
    steps: &mut Steps<L>,
) -> Result<(Verdict, Text), NoMemory>
    requires came { CameFromPlaylists playlists.now }
    requires counted { counted playlists.now ≡ Ok (count_of_all playlists.now) }
    ensures told { IfOk result (λ told. told ≡ spec.compared job.now (10 ^ mpd.now.digits) mpd.now.presentation playlists.now) }
    ensures verdict { IfOk result (λ told. status_by told.0 ≢ status.Words) }
{
    let (within, most) = (job.within.0, job.most);
    let presentation = &mpd.presentation;
    let found = differences(
        alloc,
        presentation,
        playlists,
        mpd.digits,
        within,
        most,
        steps,
    )?;
    let text = text_of(alloc, &found, presentation)?;
    Ok((verdict_of(&found), text))
}

fn verdict_of(found: &Deviations) -> Verdict
    ensures { result ≡ spec.verdict_of found.now.count }
{
    if found.count == 0 {
        Verdict::Done
    } else {
        Verdict::Differ
    }
}

/// The report's lines.
fn text_of(alloc: Global, found: &Deviations, mpd: &Presentation) -> Result<Text, NoMemory>
    requires { counted mpd.now ≡ Ok (count_of_all mpd.now) }
    ensures { IfOk result (λ text. text ≡ spec.text_of found.now mpd.now) }
{
    let last = last_line(alloc, found, mpd)?;
    let mut text = String::new(alloc);
    push_all(&mut text, found)?;
    text.push_str(last.as_str())?;
    Ok(Text::from(text))
}

fn last_line(alloc: Global, found: &Deviations, mpd: &Presentation) -> Result<Text, NoMemory>
    requires { counted mpd.now ≡ Ok (count_of_all mpd.now) }
    ensures { IfOk result (λ line. line ≡ spec.last_line found.now.count mpd.now) }
{
    if found.count == 0 {
        same_line(alloc, mpd)
    } else {
        count_line(alloc, found.count)
    }
}
