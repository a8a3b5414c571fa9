// `follow-hls` and `follow-hls-times`: from snapshots of live playlists to an MPD.
ghost use Rattle.std.specs.Prelude.{◌≡◌, IfOk, option_map};
ghost use Rattle.bridge_courses.specs.Steps.{IsCaused};
ghost use Rattle.bridge_steps.specs.Follow.{IsCausedByEither, RunsAs, world_of};
ghost use Rattle.bridge_reach.specs.Rounds as spec;
ghost use Rattle.bridge_reach.specs.TimedRounds as timed;

use crate::rounds::{BaseList, LiveHls, LiveRounds};
use crate::timed_rounds::TimedHls;
use bridge_courses::Ending;
use bridge_io::{Ledger, NoMemory, Sink, Source, Steps, Store};
use bridge_jobs::MasterJob;
use bridge_playlists::{StorePlace, base_at, master_at};
use bridge_report::halted;
use bridge_steps::{file_in, follow, place_in};
use hls_follow::Follow;
use hls_master::{Master, MasterTrack};
use std::alloc::Global;

/// Processes the snapshots of the input for the tracks of the command's master playlist, which is read once and first: the MPD
/// of each accepted one is written as `live.mpd`, and each snapshot has a line. [`Ending::ReadFault`] comes only where the
/// store's count of failed reads rose, or the input's.
#[tactic(auto, unfolding(crate::specs::Rounds::rounds_course))]
pub fn run_follow_hls<I: Source, F: Store, P: Sink, L: Ledger>(
    alloc: Global,
    job: MasterJob,
    input: &mut I,
    store: &mut F,
    report: &mut P,
    steps: &mut Steps<L>,
) -> Ending
    ensures runs { RunsAs (spec.rounds_course job (F.files store.old) (I.remaining input.old)) result
        (world_of I.Source F.Store P.Sink input.old store.old report.old steps.old)
        (world_of I.Source F.Store P.Sink input.new store.new report.new steps.new) }
    ensures caused { IsCausedByEither result
        (world_of I.Source F.Store P.Sink input.old store.old report.old steps.old)
        (world_of I.Source F.Store P.Sink input.new store.new report.new steps.new) }
{
    match place_in(alloc, &job.base, &job.master) {
        Ok(place) => follow_at(alloc, &place, &job, input, store, report, steps),
        Err(told) => told,
    }
}

/// The same for the master playlist at a location.
fn follow_at<I: Source, F: Store, P: Sink, L: Ledger>(
    alloc: Global,
    place: &StorePlace,
    job: &MasterJob,
    input: &mut I,
    store: &mut F,
    report: &mut P,
    steps: &mut Steps<L>,
) -> Ending
    ensures runs { RunsAs (spec.rounds_at job.now (F.files store.old) (I.remaining input.old) place.now) result
        (world_of I.Source F.Store P.Sink input.old store.old report.old steps.old)
        (world_of I.Source F.Store P.Sink input.new store.new report.new steps.new) }
    ensures caused { IsCausedByEither result
        (world_of I.Source F.Store P.Sink input.old store.old report.old steps.old)
        (world_of I.Source F.Store P.Sink input.new store.new report.new steps.new) }
{
    match master_at(alloc, place, store) {
        Ok(master) => follow_master(alloc, master, job, input, store, report, steps),
        Err(halt) => halted(alloc, halt),
    }
}

/// Processes the snapshots of the input for a master playlist's tracks.
fn follow_master<I: Source, F: Store, P: Sink, L: Ledger>(
    alloc: Global,
    master: Master,
    job: &MasterJob,
    input: &mut I,
    store: &mut F,
    report: &mut P,
    steps: &mut Steps<L>,
) -> Ending
    ensures runs { RunsAs (option_map (spec.course_with job.now master) (I.remaining input.old)) result
        (world_of I.Source F.Store P.Sink input.old store.old report.old steps.old)
        (world_of I.Source F.Store P.Sink input.new store.new report.new steps.new) }
    ensures caused { IsCaused result
        (world_of I.Source F.Store P.Sink input.old store.old report.old steps.old)
        (world_of I.Source F.Store P.Sink input.new store.new report.new steps.new) }
{
    match begin(alloc, master, job) {
        Ok(begun) => {
            let Begun { hls, rounds } = begun;
            follow(alloc, &hls, rounds, input, store, report, steps)
        }
        Err(NoMemory) => Ending::Memory,
    }
}

/// Processes the snapshots of the input as [`run_follow_hls`] does, with the decode times of their media files (ISO/IEC 14496-12, 8.4.2
/// and 8.8.12), which are read from the store. [`Ending::ReadFault`] comes only where the store's count of failed reads rose, or the
/// input's.
#[tactic(auto, unfolding(crate::specs::TimedRounds::timed_course))]
pub fn run_follow_hls_times<I: Source, F: Store, P: Sink, L: Ledger>(
    alloc: Global,
    job: MasterJob,
    input: &mut I,
    store: &mut F,
    report: &mut P,
    steps: &mut Steps<L>,
) -> Ending
    ensures runs { RunsAs (timed.timed_course job (F.files store.old) (I.remaining input.old)) result
        (world_of I.Source F.Store P.Sink input.old store.old report.old steps.old)
        (world_of I.Source F.Store P.Sink input.new store.new report.new steps.new) }
    ensures caused { IsCausedByEither result
        (world_of I.Source F.Store P.Sink input.old store.old report.old steps.old)
        (world_of I.Source F.Store P.Sink input.new store.new report.new steps.new) }
{
    match place_in(alloc, &job.base, &job.master) {
        Ok(place) => time_at(alloc, place, &job, input, store, report, steps),
        Err(told) => told,
    }
}

/// The same for the master playlist at a location.
fn time_at<I: Source, F: Store, P: Sink, L: Ledger>(
    alloc: Global,
    place: StorePlace,
    job: &MasterJob,
    input: &mut I,
    store: &mut F,
    report: &mut P,
    steps: &mut Steps<L>,
) -> Ending
    ensures runs { RunsAs (timed.timed_at job.now (F.files store.old) (I.remaining input.old) place) result
        (world_of I.Source F.Store P.Sink input.old store.old report.old steps.old)
        (world_of I.Source F.Store P.Sink input.new store.new report.new steps.new) }
    ensures caused { IsCausedByEither result
        (world_of I.Source F.Store P.Sink input.old store.old report.old steps.old)
        (world_of I.Source F.Store P.Sink input.new store.new report.new steps.new) }
{
    match master_at(alloc, &place, store) {
        Ok(master) => time_master(alloc, place, master, job, input, store, report, steps),
        Err(halt) => halted(alloc, halt),
    }
}

/// Processes the snapshots of the input for the tracks of a master playlist at a location, with the times of their media files.
fn time_master<I: Source, F: Store, P: Sink, L: Ledger>(
    alloc: Global,
    place: StorePlace,
    master: Master,
    job: &MasterJob,
    input: &mut I,
    store: &mut F,
    report: &mut P,
    steps: &mut Steps<L>,
) -> Ending
    ensures runs { RunsAs (timed.course_by_files job.now place master (F.files store.old) (I.remaining input.old)) result
        (world_of I.Source F.Store P.Sink input.old store.old report.old steps.old)
        (world_of I.Source F.Store P.Sink input.new store.new report.new steps.new) }
    ensures caused { IsCausedByEither result
        (world_of I.Source F.Store P.Sink input.old store.old report.old steps.old)
        (world_of I.Source F.Store P.Sink input.new store.new report.new steps.new) }
{
    match begin(alloc, master, job) {
        Ok(begun) => {
            let Begun { hls, rounds } = begun;
            let StorePlace { file, folder, .. } = place;
            let timed = TimedHls {
                hls,
                master: file,
                folder,
            };
            follow(alloc, &timed, rounds, input, store, report, steps)
        }
        Err(NoMemory) => Ending::Memory,
    }
}

/// What is followed, before the first snapshot.
#[derive(Drop)]
struct Begun {
    hls: LiveHls,
    rounds: LiveRounds,
}

fn begin(alloc: Global, master: Master, job: &MasterJob) -> Result<Begun, NoMemory>
    ensures { IfOk result (λ begun. begun ≡ record { hls = spec.hls_of job.now master; rounds = spec.no_rounds master }) }
{
    let urls = urls_of(alloc, master.tracks().as_slice())?;
    let name = file_in(alloc, &job.out, "live.mpd")?;
    let follow = Follow::new(alloc, master)?;
    Ok(Begun {
        hls: LiveHls {
            urls,
            form: job.form,
            name,
        },
        rounds: LiveRounds {
            follow,
            accepted: 0,
        },
    })
}

/// The URLs of tracks, in order.
fn urls_of(alloc: Global, tracks: &[MasterTrack]) -> Result<BaseList, NoMemory>
    ensures { IfOk result (λ urls. urls ≡ spec.urls_of tracks.now) }
{
    let mut urls = BaseList::new(alloc);
    for track in tracks {
        urls.push(base_at(alloc, &track.address)?)?;
    }
    Ok(urls)
}
