// Whether an MPD and a master playlist with its media playlists agree.
ghost use Rattle.std.specs.Prelude.{◌≡◌, ◌≢◌, ◌^◌, Ok, IfOk, true};
ghost use Rattle.bridge_courses.specs.declared.status.Status.TheVariants as status;
ghost use Rattle.bridge_courses.specs.Executions.{status_by};
ghost use Rattle.presentation.specs.Counting.{counted, count_of_all};
ghost use Rattle.presentation.specs.Origins.{CameFromPlaylists};
ghost use Rattle.presentation.specs.Presented.{is_finished};
ghost use Rattle.bridge_report.specs.Reading.{ReadsAs};
ghost use Rattle.bridge_steps.specs.Endings.{IsPlaced, JobEndsAs, NeverWrites, around};
ghost use Rattle.bridge_compare.specs.Check as spec;

use bridge_courses::{Ending, Verdict};
use bridge_io::{Ledger, NoMemory, Steps, Store, Text};
use bridge_jobs::CheckJob;
use bridge_playlists::{StorePlace, presented_at};
use bridge_report::{Halt, Refusal};
use bridge_steps::{Ready, count_of, mpd_at, place_in, told};
use comparison::compare;
use meaning::{Aspect, Difference};
use presentation::Presentation;
use std::alloc::Global;

/// Reports whether the command's master playlist and its media playlists mean what its MPD means, or their first difference,
/// unless one of the files is rejected. Nothing is written.
#[tactic(auto, unfolding(crate::specs::Check::check_outcome))]
pub fn run_check<F: Store, L: Ledger>(
    alloc: Global,
    job: &CheckJob,
    store: &mut F,
    steps: &mut Steps<L>,
) -> Ending
    ensures ends { JobEndsAs (spec.check_outcome job.now (F.files store.old)) result
        (around F.Store store.old steps.old) (around F.Store store.new steps.new) }
    ensures never_writes { NeverWrites result (F.write_faults store.old) (F.write_faults store.new) }
{
    match places_of(alloc, job) {
        Ok((mpd, master)) => told(alloc, judged(alloc, job, &mpd, &master, store, steps)),
        Err(told) => told,
    }
}

/// The locations of the command's MPD and master playlist.
#[tactic(auto, unfolding(crate::specs::Check::places_of))]
pub(crate) fn places_of(alloc: Global, job: &CheckJob) -> Result<(StorePlace, StorePlace), Ending>
    ensures { IsPlaced (spec.places_of job.now) result }
{
    let mpd = place_in(alloc, &job.base, &job.mpd)?;
    let master = place_in(alloc, &job.base, &job.master)?;
    Ok((mpd, master))
}

/// The report on the MPD and the master playlist at these locations, or why a file isn't read.
#[tactic(auto, unfolding(crate::specs::Check::judged))]
fn judged<F: Store, L: Ledger>(
    alloc: Global,
    job: &CheckJob,
    mpd: &StorePlace,
    master: &StorePlace,
    store: &mut F,
    steps: &mut Steps<L>,
) -> Result<(Verdict, Text), Halt>
    ensures reads { ReadsAs F.Store store.old store.new (λ told. told) (spec.judged job.now mpd.now master.now) result }
    ensures verdict { IfOk result (λ told. status_by told.0 ≢ status.Words) }
{
    let live = Some(Refusal::NotStatic);
    let ready = mpd_at(alloc, mpd, None, live, job.digits, store, steps)?;
    let playlists = presented_at(alloc, master, store)?;
    Ok(compared(alloc, &ready, &playlists, steps)?)
}

/// The report on an MPD and playlists.
fn compared<L: Ledger>(
    alloc: Global,
    mpd: &Ready,
    playlists: &Presentation,
    steps: &mut Steps<L>,
) -> Result<(Verdict, Text), NoMemory>
    requires finished { is_finished mpd.now.presentation ≡ true }
    requires came { CameFromPlaylists playlists.now }
    requires counted { counted playlists.now ≡ Ok (count_of_all playlists.now) }
    ensures told { IfOk result (λ told. told ≡ spec.compared (10 ^ mpd.now.digits) mpd.now.presentation playlists.now) }
    ensures verdict { IfOk result (λ told. status_by told.0 ≢ status.Words) }
{
    match compare(alloc, &mpd.presentation, playlists, mpd.digits, steps)? {
        None => Ok((Verdict::Done, same_line(alloc, &mpd.presentation)?)),
        Some(difference) => Ok((Verdict::Differ, differ_line(alloc, difference)?)),
    }
}

pub(crate) fn same_line(alloc: Global, mpd: &Presentation) -> Result<Text, NoMemory>
    requires counted { counted mpd.now ≡ Ok (count_of_all mpd.now) }
    ensures { IfOk result (λ line. line ≡ spec.same_line mpd.now) }
{
    let tracks = mpd.tracks().len() as u64;
    let sections = mpd.sections().len() as u64;
    same_text(alloc, tracks, sections, count_of(mpd))
}

#[tactic(auto, unfolding(crate::specs::Check::same_text))]
fn same_text(alloc: Global, tracks: u64, sections: u64, segments: u64) -> Result<Text, NoMemory>
    ensures { IfOk result (λ line. line ≡ spec.same_text tracks sections segments) }
{
    Ok(Text::from(format!(in alloc;
        "same tracks={tracks} sections={sections} segments={segments}\n"
    )?))
}

#[tactic(auto, unfolding(crate::specs::Check::differ_text))]
fn differ_line(alloc: Global, difference: Difference) -> Result<Text, NoMemory>
    ensures { IfOk result (λ line. line ≡ spec.differ_line difference) }
{
    let what = aspect_word(difference.what);
    let (section, track, segment) = (difference.section, difference.track, difference.segment);
    let line = format!(in alloc;
        "differ {what} section {section} track {track} segment {segment}\n"
    )?;
    Ok(Text::from(line))
}

pub(crate) fn aspect_word(what: Aspect) -> &'static str
    ensures { result.now ≡ spec.aspect_word what }
{
    match what {
        Aspect::Sections => "sections",
        Aspect::Tracks => "tracks",
        Aspect::Track => "track",
        Aspect::Initialization => "init",
        Aspect::Address => "address",
        Aspect::Range => "range",
        Aspect::Time => "time",
        Aspect::Count => "count",
    }
}
