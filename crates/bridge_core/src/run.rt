// The top call.
ghost use Rattle.std.specs.Prelude.{◌≡◌, ◌⊎◌, None, Some};
ghost use Rattle.std.specs.Option.{ForSome};
ghost use Rattle.bridge_io.specs.Fault.{Rose};
ghost use Rattle.bridge_jobs.specs.Jobs.{HasReadableNow, job_of};
ghost use Rattle.bridge_courses.specs.declared.status.Status.TheVariants as status;
ghost use Rattle.bridge_courses.specs.Executions.{IsExecution, status_by};
ghost use Rattle.bridge_courses.specs.Laws.{IsCalm};
ghost use Rattle.bridge_courses.specs.Steps.{Work};
ghost use Rattle.bridge_steps.specs.Endings.{JobEndsAs, around};
ghost use Rattle.bridge_steps.specs.Follow.{Grows, world_of};
ghost use Rattle.bridge_core.specs.Courses.{Follows, IsBlamed, ReadRose, ReadsNoFile, WritesNoFile};
ghost use Rattle.bridge_core.specs.Courses.{course_of, course_of_job, outcome_of_job};
ghost use Rattle.bridge_core.specs.Reports.{TellsItsEnd};

use crate::{dash, follow, hls, make, show};
use bridge_compare::{run_check, run_compare};
use bridge_courses::{Ending, Status, tell};
use bridge_io::{Ledger, NoMemory, Sink, Source, Steps, Store, Text};
use bridge_jobs::{Job, job};
use bridge_playlists::run_reload;
use bridge_reach::{
    run_agree, run_dash_times, run_follow_hls, run_follow_hls_times, run_hls_index,
};
use std::alloc::Global;

/// Runs the command of a command line, without the program's own name: it reads and writes the files of the store, and reports how it
/// ends, in one line except for `show`, `follow`, `follow-hls` and `follow-hls-times`. Only the last three read the input.
///
/// `hls` writes the playlists for an MPD, `t0.m3u8` and so on for each track and `master.m3u8` for all, to a folder, the master playlist
/// last; for a live one those that `follow` would write for it at a given time. `hls-index` writes the same for an MPD whose media files
/// have a `sidx`, and for these files. `dash` writes the MPD for a master playlist and its media playlists, `manifest.mpd`, and
/// `dash-times` the same with the decode times of the media files. None of them writes anything before all input is validated. `make`
/// writes an MPD that is generated from a seed, `source.mpd`, and then what `hls` writes for it, and reads nothing.
///
/// `follow` reads update frames from the input, each a version of a live MPD or only a time, and after each accepted one writes the live
/// playlists again; it reads nothing from the store. `follow-hls` reads a master playlist and then snapshots of its live media playlists
/// from the input, and after each accepted one writes the live MPD again, `live.mpd`; `follow-hls-times` the same with the decode times of
/// the media files. Each update frame and each snapshot has a line.
///
/// `show` lists the tracks and sections of an MPD or of a master playlist, a line for each track in each section. `check` reports
/// whether an MPD and a master playlist agree, or their first difference, and `agree` whether an MPD has the decode times of its media
/// files. `reload` reads two media playlists and reports whether the second is a valid update of the first, or the first rule that it
/// breaks.
pub fn bridge<I: Source, F: Store, P: Sink, L: Ledger>(
    alloc: Global,
    words: &[Text],
    input: &mut I,
    store: &mut F,
    report: &mut P,
    steps: &mut Steps<L>,
) -> Status
    // The run does what the command line, the store's files and the input say, unless an I/O error or out of memory
    // ends it. It reads no further of the input than for the update after those that are done.
    ensures run { ForSome (course_of words.now (F.files store.old) (I.remaining input.old)) (λ course. IsExecution course result
        (world_of I.Source F.Store P.Sink input.old store.old report.old steps.old)
        (world_of I.Source F.Store P.Sink input.new store.new report.new steps.new)) }

    // Where no count of faults rose, it ends as its course says, or out of memory.
    ensures complete { ForSome (course_of words.now (F.files store.old) (I.remaining input.old)) (λ course. IsCalm
        (world_of I.Source F.Store P.Sink input.old store.old report.old steps.old)
        (world_of I.Source F.Store P.Sink input.new store.new report.new steps.new)
        → (result ≡ status_by course.end.verdict) ⊎ (result ≡ status.Memory)) }

    // `Words` is returned only for a usage error, whatever the store contains.
    ensures words { result ≡ status.Words → job_of words.now ≡ None }

    // A read error has a cause, in what the command reads.
    ensures read_fault { result ≡ status.ReadFault → ReadRose (job_of words.now) (I.faults input.old) (I.faults input.new)
        (F.read_faults store.old) (F.read_faults store.new) }
    ensures write_fault { result ≡ status.WriteFault → Rose (F.write_faults store.old) (F.write_faults store.new)
        ⊎ Rose (P.faults report.old) (P.faults report.new) }

    // The end is reported, whatever the store contains.
    ensures told { TellsItsEnd result (P.faults report.old) (P.faults report.new) (P.written report.old) (P.written report.new) }

    // The input is read only by a command that follows, the store never by one that follows an MPD or generates one, and never
    // written by one that only reports on its files.
    ensures input { (Follows (job_of words.now) → ⊥) → input.new ≡ input.old }
    ensures reads { ReadsNoFile (job_of words.now) → F.read_faults store.new ≡ F.read_faults store.old }
    ensures writes { WritesNoFile (job_of words.now) → F.write_faults store.new ≡ F.write_faults store.old }
{
    let ending = work(alloc, words, input, store, report, steps);
    tell(&ending, report)
}

/// Does what the command line says.
#[tactic(auto, unfolding(crate::specs::Courses::course_of))]
fn work<I: Source, F: Store, P: Sink, L: Ledger>(
    alloc: Global,
    words: &[Text],
    input: &mut I,
    store: &mut F,
    report: &mut P,
    steps: &mut Steps<L>,
) -> Ending
    ensures work { ForSome (course_of words.now (F.files store.old) (I.remaining input.old)) (λ course. Work course result
        (world_of I.Source F.Store P.Sink input.old store.old report.old steps.old)
        (world_of I.Source F.Store P.Sink input.new store.new report.new steps.new)) }
    ensures blamed { IsBlamed (job_of words.now) result
        (world_of I.Source F.Store P.Sink input.old store.old report.old steps.old)
        (world_of I.Source F.Store P.Sink input.new store.new report.new steps.new) }
    ensures told { Grows (P.written report.old) (P.written report.new) }
    ensures input { (Follows (job_of words.now) → ⊥) → input.new ≡ input.old }
    ensures reads { ReadsNoFile (job_of words.now) → F.read_faults store.new ≡ F.read_faults store.old }
    ensures writes { WritesNoFile (job_of words.now) → F.write_faults store.new ≡ F.write_faults store.old }
{
    match job(alloc, words) {
        Ok(Some(job)) => run_job(alloc, job, input, store, report, steps),
        Ok(None) => Ending::Words,
        Err(NoMemory) => Ending::Memory,
    }
}

fn run_job<I: Source, F: Store, P: Sink, L: Ledger>(
    alloc: Global,
    job: Job,
    input: &mut I,
    store: &mut F,
    report: &mut P,
    steps: &mut Steps<L>,
) -> Ending
    requires { HasReadableNow job }
    ensures work { ForSome (course_of_job (Some job) (F.files store.old) (I.remaining input.old)) (λ course. Work course result
        (world_of I.Source F.Store P.Sink input.old store.old report.old steps.old)
        (world_of I.Source F.Store P.Sink input.new store.new report.new steps.new)) }
    ensures blamed { IsBlamed (Some job) result
        (world_of I.Source F.Store P.Sink input.old store.old report.old steps.old)
        (world_of I.Source F.Store P.Sink input.new store.new report.new steps.new) }
    ensures told { Grows (P.written report.old) (P.written report.new) }
    ensures input { (Follows (Some job) → ⊥) → input.new ≡ input.old }
    ensures reads { ReadsNoFile (Some job) → F.read_faults store.new ≡ F.read_faults store.old }
    ensures writes { WritesNoFile (Some job) → F.write_faults store.new ≡ F.write_faults store.old }
{
    match job {
        Job::Follow(job) => follow::run(alloc, job, input, store, report, steps),
        Job::FollowHls(job) => run_follow_hls(alloc, job, input, store, report, steps),
        Job::FollowHlsTimes(job) => run_follow_hls_times(alloc, job, input, store, report, steps),
        other => run_owned(alloc, other, store, steps),
    }
}

/// The same for a command that is passed by value.
fn run_owned<F: Store, L: Ledger>(
    alloc: Global,
    job: Job,
    store: &mut F,
    steps: &mut Steps<L>,
) -> Ending
    requires readable { HasReadableNow job }
    requires other { Follows (Some job) → ⊥ }
    ensures ends { JobEndsAs (outcome_of_job (Some job) (F.files store.old)) result
        (around F.Store store.old steps.old) (around F.Store store.new steps.new) }
    ensures reads { ReadsNoFile (Some job) → F.read_faults store.new ≡ F.read_faults store.old }
    ensures writes { WritesNoFile (Some job) → F.write_faults store.new ≡ F.write_faults store.old }
{
    let ending = run_command(alloc, &job, store, steps);
    drop(job);
    ending
}

/// Runs a command that reads everything before it writes, without using the input or the report.
fn run_command<F: Store, L: Ledger>(
    alloc: Global,
    job: &Job,
    store: &mut F,
    steps: &mut Steps<L>,
) -> Ending
    requires readable { HasReadableNow job.now }
    requires other { Follows (Some job.now) → ⊥ }
    ensures ends { JobEndsAs (outcome_of_job (Some job.now) (F.files store.old)) result
        (around F.Store store.old steps.old) (around F.Store store.new steps.new) }
    ensures reads { ReadsNoFile (Some job.now) → F.read_faults store.new ≡ F.read_faults store.old }
    ensures writes { WritesNoFile (Some job.now) → F.write_faults store.new ≡ F.write_faults store.old }
{
    match job {
        Job::Hls(job) => hls::run(alloc, job, store, steps),
        Job::HlsIndex(job) => run_hls_index(alloc, job, store, steps),
        Job::Make(job) => make::run(alloc, job, store, steps),
        Job::Dash(job) => dash::run(alloc, job, store, steps),
        Job::DashTimes(job) => run_dash_times(alloc, job, store, steps),
        Job::Show(job) => show::run(alloc, job, store, steps),
        Job::Check(job) => run_check(alloc, job, store, steps),
        Job::Compare(job) => run_compare(alloc, job, store, steps),
        Job::Agree(job) => run_agree(alloc, job, store, steps),
        Job::Reload(job) => run_reload(alloc, job, store),
        Job::Follow(_) | Job::FollowHls(_) | Job::FollowHlsTimes(_) => unreachable!(),
    }
}
