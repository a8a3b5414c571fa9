// `dash-times`: from playlists to an MPD with the decode times of the media files.
ghost use Rattle.std.specs.Prelude.{◌≡◌, ◌++◌, codes, length, Ok, Some, All, IfOk};
ghost use Rattle.dash_writer.specs.Timed.{CanBeTimed};
ghost use Rattle.fragment_times.specs.PeriodStarts.{IsStartOf};
ghost use Rattle.fragment_times.specs.Times.{FillPlaces, IsScaled};
ghost use Rattle.presentation.specs.Counting.{counted, count_of_all};
ghost use Rattle.presentation.specs.Origins.{CameFromPlaylists};
ghost use Rattle.bridge_report.specs.Reading.{ReadsAs, halted};
ghost use Rattle.bridge_steps.specs.Endings.{JobEndsAs, around};
ghost use Rattle.bridge_reach.specs.DashTimes as spec;

use crate::file_times::{durations_at, times_at};
use bridge_courses::Ending;
use bridge_io::{Ledger, NoMemory, Steps, Store};
use bridge_jobs::MasterJob;
use bridge_playlists::{StorePlace, presented_at};
use bridge_report::{Halt, halted};
use bridge_steps::{mpd_and_line, place_in, written};
use dash_writer::{TickList, TickRun, TickSeq, write_mpd_timed};
use fragment_times::{PeriodStart, SegmentTimes};
use presentation::{Presentation, playlists_can_be_listed};
use segment_forms::Form;
use std::alloc::Global;

/// A presentation that came from playlists, with the media times of its segments.
#[derive(Drop)]
struct Timed {
    presentation: Presentation,
    runs: TickList,
}

/// Writes the MPD for the command's master playlist and its media playlists with the decode times of the media files
/// (ISO/IEC 14496-12, 8.8.12), unless one of the files is rejected.
#[tactic(auto, unfolding(crate::specs::DashTimes::dash_times_outcome))]
pub fn run_dash_times<F: Store, L: Ledger>(
    alloc: Global,
    job: &MasterJob,
    store: &mut F,
    steps: &mut Steps<L>,
) -> Ending
    ensures { JobEndsAs (spec.dash_times_outcome job.now (F.files store.old)) result
        (around F.Store store.old steps.old) (around F.Store store.new steps.new) }
{
    match place_in(alloc, &job.base, &job.master) {
        Ok(place) => match timed_at(alloc, job.form, &place, store, steps) {
            Ok(timed) => write(alloc, job, &timed, store, steps),
            Err(halt) => halted(alloc, halt),
        },
        Err(told) => told,
    }
}

/// Writes the MPD of a presentation with the media times of its segments.
fn write<F: Store, L: Ledger>(
    alloc: Global,
    job: &MasterJob,
    timed: &Timed,
    store: &mut F,
    steps: &mut Steps<L>,
) -> Ending
    requires can { CanBeTimed timed.now.presentation timed.now.runs }
    requires counted { counted timed.now.presentation ≡ Ok (count_of_all timed.now.presentation) }
    ensures { JobEndsAs (Some (spec.outcome_of job.now (Ok (timed.now.presentation, timed.now.runs)))) result
        (around F.Store store.old steps.old) (around F.Store store.new steps.new) }
{
    let presentation = &timed.presentation;
    let Ok((name, line)) = mpd_and_line(alloc, &job.out, presentation) else {
        return Ending::Memory;
    };
    let wrote = write_mpd_timed(
        alloc,
        job.form,
        presentation,
        &timed.runs,
        store,
        &name,
        steps,
    );
    written(line, wrote)
}

/// The presentation of the master playlist at a location, with the decode times of its segments' files; or the first error.
/// [`Halt::ReadFault`] comes only where the store's count of failed reads rose.
#[tactic(auto, unfolding(crate::specs::DashTimes::timed_at))]
fn timed_at<F: Store, L: Ledger>(
    alloc: Global,
    form: Form,
    place: &StorePlace,
    store: &mut F,
    steps: &mut Steps<L>,
) -> Result<Timed, Halt>
    ensures reads { ReadsAs F.Store store.old store.new (λ timed. (timed.presentation, timed.runs)) (spec.timed_at form place.now) result }
    ensures can { IfOk result (λ timed. CanBeTimed timed.presentation timed.runs) }
    ensures counted { IfOk result (λ timed. counted timed.presentation ≡ Ok (count_of_all timed.presentation)) }
{
    let presentation = presented_at(alloc, place, store)?;
    let runs = runs_at(alloc, form, place, &presentation, store, steps)?;
    Ok(Timed { presentation, runs })
}

/// The media times of a presentation's segments, by their files, for a form of MPD.
#[tactic(auto, unfolding(crate::specs::DashTimes::runs_at))]
fn runs_at<F: Store, L: Ledger>(
    alloc: Global,
    form: Form,
    place: &StorePlace,
    presentation: &Presentation,
    store: &mut F,
    steps: &mut Steps<L>,
) -> Result<TickList, Halt>
    requires { CameFromPlaylists presentation.now }
    ensures reads { ReadsAs F.Store store.old store.new (λ runs. runs)
        (λ files. spec.runs_at form place.now files presentation.now) result }
    ensures can { IfOk result (CanBeTimed presentation.now) }
{
    playlists_can_be_listed();
    let times = times_at(alloc, place, presentation, store, steps)?;
    let durations = durations_at(alloc, form, place, presentation, &times, steps)?;
    let starts = times.as_slice();
    let ticks = durations.as_slice();
    Ok(runs_of(alloc, form, presentation, starts, ticks)?)
}

/// The starts and durations of segments, in ticks, section by section.
fn runs_of(
    alloc: Global,
    form: Form,
    presentation: &Presentation,
    times: &[SegmentTimes],
    durations: &[TickSeq],
) -> Result<TickList, NoMemory>
    requires filled { FillPlaces presentation.now (length times.now) }
    requires as_many { length durations.now ≡ length times.now }
    requires scaled { All IsScaled times.now }
    ensures { IfOk result (λ runs. runs ≡ spec.runs_of form presentation.now times.now durations.now) }
{
    let tracks = presentation.tracks().len();
    let mut times = times;
    let mut rows = durations;
    let mut runs = TickList::new(alloc);
    for _section in 0..presentation.sections().len() {
        let (own_times, later_times) = times.split_at(tracks);
        let (own_rows, later_rows) = rows.split_at(tracks);
        let start = PeriodStart::of(form, own_times);
        runs = with_section(alloc, start, own_times, own_rows, runs)?;
        times = later_times;
        rows = later_rows;
    }
    Ok(runs)
}

/// Adds those of the tracks of a section that starts then.
fn with_section(
    alloc: Global,
    start: PeriodStart,
    times: &[SegmentTimes],
    durations: &[TickSeq],
    former: TickList,
) -> Result<TickList, NoMemory>
    requires as_many { length durations.now ≡ length times.now }
    requires begins { All (IsStartOf start) times.now }
    ensures { IfOk result (λ runs. runs ≡ former ++ spec.section_runs start times.now durations.now) }
{
    let mut runs = former;
    for track in 0..times.len() {
        runs.push(run_of(alloc, start, &times[track], &durations[track])?)?;
    }
    Ok(runs)
}

/// The same for a track. A track without segments begins at 0.
fn run_of(
    alloc: Global,
    start: PeriodStart,
    times: &SegmentTimes,
    ticks: &TickSeq,
) -> Result<TickRun, NoMemory>
    requires { IsStartOf start times.now }
    ensures { IfOk result (λ run. run ≡ spec.run_of start times.now ticks.now) }
{
    let mut durations = TickSeq::new(alloc);
    durations.extend(ticks.as_slice())?;
    Ok(TickRun {
        scale: times.scale,
        offset: start.offset(times),
        first: times.first(),
        durations,
    })
}
