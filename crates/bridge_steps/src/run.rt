// The run of following.
ghost use Rattle.std.specs.Prelude.{◌≡◌, ◌⊎◌, ◌+◌, ◌<◌, ◌≤◌, List, ℕ, Option, Some, MatchResult, OnOk, IfOk, IfErr, false};
ghost use Rattle.bridge_io.specs.InOrder.{put_all};
ghost use Rattle.bridge_io.specs.Outside.{Changes, Appends, Files};
ghost use Rattle.bridge_jobs.specs.Frames.{most_frames};
ghost use Rattle.bridge_courses.specs.Executions.{NeverFalls};
ghost use Rattle.bridge_courses.specs.Steps.{Work, Leads, IsCaused, StepIsDone, Halts, IsCutOff};
ghost use Rattle.bridge_courses.specs.declared.ending.Ending.TheVariants as ending;
ghost use Rattle.bridge_report.specs.Following.{step_of, next_of, accepted_with, accepted_line, refused_frame};
ghost use Rattle.bridge_steps.specs.Follow.{EndsIn, ForFiles, Grows, IsBroken, IsCausedBy, IsGoing, RunsAs, beside_input, files_seen};
ghost use Rattle.bridge_steps.specs.Follow.{outside_at, rest_course, whole_course, world_beside, world_of};

use crate::frames::Follow;
use bridge_courses::Ending;
use bridge_io::{Ledger, NoMemory, Sink, Source, Steps, Store, Text};
use bridge_jobs::{FrameFault, FramePos};
use bridge_report::{
    FrameStop, Refusal, frame_accepted, frame_refused, refused, stream_done, tell_line,
};
use hls_writer::OutFault;
use std::alloc::Global;

/// The state of a run.
#[derive(Drop)]
pub struct Following<S> {
    /// The position of the next frame.
    pub at: FramePos,
    /// The state after the accepted frames.
    pub live: S,
    /// How many frames were accepted.
    pub accepted: u64,
}

/// Processes the update frames of the input one after another, and returns how that ends. The files of an accepted frame are
/// written, and then its line is reported; a rejected frame has only a line. [`Ending::ReadFault`] comes only where the
/// source's count of faults rose, or, where frames are judged by the store's files, its count of failed reads; otherwise the store is
/// never read.
pub fn follow<T: Follow, I: Source, F: Store, P: Sink, L: Ledger>(
    alloc: Global,
    followed: &T,
    live: T::Live,
    input: &mut I,
    store: &mut F,
    report: &mut P,
    steps: &mut Steps<L>,
) -> Ending
    requires none { T.accepted followed.now live ≡ 0 }
    requires kept { T.is_kept followed.now live }
    ensures runs { RunsAs (whole_course (T.reads followed.now) (T.told followed.now) (T.stream followed.now) live (F.files store.old)
        (I.remaining input.old)) result
        (world_of I.Source F.Store P.Sink input.old store.old report.old steps.old)
        (world_of I.Source F.Store P.Sink input.new store.new report.new steps.new) }
    ensures caused { IsCausedBy (T.reads followed.now) result
        (world_of I.Source F.Store P.Sink input.old store.old report.old steps.old)
        (world_of I.Source F.Store P.Sink input.new store.new report.new steps.new) }
    ensures reads { T.reads followed.now ≡ false → F.read_faults store.new ≡ F.read_faults store.old }
{
    let mut run = Following {
        at: FramePos::START,
        live,
        accepted: 0,
    };
    loop {
        match follow_next(alloc, followed, &mut run, input, store, report, steps) {
            Ok(()) => {}
            Err(told) => return told,
        }
    }
}

/// Processes the next frame, or returns how the work ends.
fn follow_next<T: Follow, I: Source, F: Store, P: Sink, L: Ledger>(
    alloc: Global,
    followed: &T,
    run: &mut Following<T::Live>,
    input: &mut I,
    store: &mut F,
    report: &mut P,
    steps: &mut Steps<L>,
) -> Result<(), Ending>
    requires { IsGoing (T.accepted followed.now) (T.is_kept followed.now) run.old }
    ensures next { (bytes : List ℕ) → I.remaining input.old ≡ Some bytes → ForFiles (T.reads followed.now) (F.files store.old) (λ files.
        let course = rest_course (T.reads followed.now) (T.told followed.now) (T.stream followed.now) in
        let before = world_of I.Source F.Store P.Sink input.old store.old report.old steps.old in
        let after = world_of I.Source F.Store P.Sink input.new store.new report.new steps.new in
        MatchResult result
        (λ _. (rest : List ℕ) × (I.remaining input.new ≡ Some rest)
        × (later : Files) × (files_seen (T.reads followed.now) (F.files store.new) ≡ Some later)
        × Leads (course run.old files bytes) (course run.new later rest) before after)
        (λ told. Work (course run.old files bytes) told before after)) }
    ensures going { OnOk result (IsGoing (T.accepted followed.now) (T.is_kept followed.now) run.new) }
    ensures counts { OnOk result (run.new.at.frames ≡ run.old.at.frames + 1) }
    ensures caused { IfErr result (λ told. IsCausedBy (T.reads followed.now) told
        (world_of I.Source F.Store P.Sink input.old store.old report.old steps.old)
        (world_of I.Source F.Store P.Sink input.new store.new report.new steps.new)) }
    ensures never_falls { NeverFalls
        (world_of I.Source F.Store P.Sink input.old store.old report.old steps.old)
        (world_of I.Source F.Store P.Sink input.new store.new report.new steps.new) }
    ensures told { Grows (P.written report.old) (P.written report.new) }
    ensures reads { T.reads followed.now ≡ false → F.read_faults store.new ≡ F.read_faults store.old }
{
    let index = run.at.frames;
    let accepted = run.accepted;
    match followed.next(alloc, input, &mut run.at) {
        Ok(Some(frame)) => {
            let live = &mut run.live;
            match follow_frame(
                alloc, followed, live, index, accepted, &frame, store, report, steps,
            ) {
                Ok(accepted) => {
                    run.accepted = accepted;
                    Ok(())
                }
                Err(told) => Err(told),
            }
        }
        Ok(None) => Err(stream_done(alloc, index, accepted)),
        Err(fault) => Err(broken(alloc, fault)),
    }
}

/// How the work ends where no frame is read.
fn broken(alloc: Global, fault: FrameFault) -> Ending
    ensures { IsBroken fault result }
{
    match fault {
        FrameFault::Fault => Ending::ReadFault,
        FrameFault::Memory => Ending::Memory,
        _ => refused(alloc, "-", Refusal::Frame(fault)),
    }
}

/// Processes a frame, and returns how many were accepted so far. Where it is accepted, the files are written; in either
/// case a line is reported.
fn follow_frame<T: Follow, F: Store, P: Sink, L: Ledger>(
    alloc: Global,
    followed: &T,
    live: &mut T::Live,
    index: u64,
    accepted: u64,
    frame: &T::Frame,
    store: &mut F,
    report: &mut P,
    steps: &mut Steps<L>,
) -> Result<u64, Ending>
    requires count { T.accepted followed.now live.old ≡ accepted }
    requires few { accepted < most_frames }
    requires kept { T.is_kept followed.now live.old }
    requires read { T.is_read followed.now frame.now }
    ensures done { IfOk result (λ n. ForFiles (T.reads followed.now) (F.files store.old) (λ files.
        StepIsDone (step_of (T.told followed.now files) live.old index frame.now)
        (beside_input F.Store P.Sink store.old report.old steps.old) (beside_input F.Store P.Sink store.new report.new steps.new))) }
    ensures next { IfOk result (λ n. ForFiles (T.reads followed.now) (F.files store.old) (λ files.
        (live.new ≡ next_of (T.told followed.now files) live.old frame.now)
        × (n ≡ accepted_with (T.told followed.now files) live.old frame.now accepted))) }
    ensures count { IfOk result (λ n. (T.accepted followed.now live.new ≡ n) × (n ≤ accepted + 1)) }
    ensures kept { T.is_kept followed.now live.new }
    ensures stops { IfErr result (λ told. ForFiles (T.reads followed.now) (F.files store.old) (λ files.
        EndsIn (step_of (T.told followed.now files) live.old index frame.now) told
        (beside_input F.Store P.Sink store.old report.old steps.old) (beside_input F.Store P.Sink store.new report.new steps.new))) }
    ensures caused { IfErr result (λ told. (input input' : Option (List ℕ) × ℕ) → IsCausedBy (T.reads followed.now) told
        (world_beside F.Store P.Sink input store.old report.old steps.old)
        (world_beside F.Store P.Sink input' store.new report.new steps.new)) }
    ensures told { Grows (P.written report.old) (P.written report.new) }
    ensures counts { (F.read_faults store.old ≤ F.read_faults store.new) × (F.write_faults store.old ≤ F.write_faults store.new)
        × (P.faults report.old ≤ P.faults report.new) }
    ensures reads { T.reads followed.now ≡ false → F.read_faults store.new ≡ F.read_faults store.old }
{
    match followed.accept(alloc, live, frame, store, steps) {
        Ok(appended) => match publish(alloc, followed, live, index, appended, store, report) {
            Ok(()) => Ok(accepted + 1),
            Err(told) => Err(told),
        },
        Err(FrameStop::Refused(why)) => match tell_refusal(alloc, index, &why, report) {
            Ok(()) => Ok(accepted),
            Err(told) => Err(told),
        },
        Err(FrameStop::ReadFault) => Err(Ending::ReadFault),
        Err(FrameStop::Memory) => Err(Ending::Memory),
    }
}

/// Writes the files for the state after the accepted frames, of which there is at least one, and reports the line of
/// the last one.
fn publish<T: Follow, F: Store, P: Sink>(
    alloc: Global,
    followed: &T,
    live: &T::Live,
    index: u64,
    appended: u64,
    store: &mut F,
    report: &mut P,
) -> Result<(), Ending>
    requires some { 0 < T.accepted followed.now live.now }
    requires kept { T.is_kept followed.now live.now }
    ensures files { OnOk result (ForFiles (T.reads followed.now) (F.files store.old) (λ files.
        Changes (put_all ((T.told followed.now files).files live.now)) (F.files store.old) (F.files store.new))) }
    ensures line { OnOk result (Appends (accepted_line index appended) (P.written report.old) (P.written report.new)) }
    ensures err { IfErr result (λ told. ForFiles (T.reads followed.now) (F.files store.old) (λ files.
        Halts ((T.told followed.now files).files live.now) (accepted_line index appended) told
        (outside_at F.Store P.Sink store.old report.old) (outside_at F.Store P.Sink store.new report.new))) }
    ensures caused { IfErr result (λ told. (input input' : Option (List ℕ) × ℕ) (made : ℕ) → IsCaused told
        (world_beside F.Store P.Sink input store.old report.old made) (world_beside F.Store P.Sink input' store.new report.new made)) }
    ensures told { Grows (P.written report.old) (P.written report.new) }
    ensures counts { (F.write_faults store.old ≤ F.write_faults store.new) × (P.faults report.old ≤ P.faults report.new) }
    ensures reads { F.read_faults store.new ≡ F.read_faults store.old }
{
    let Ok(line) = frame_accepted(alloc, index, appended) else {
        return Err(Ending::Memory);
    };
    match followed.publish(alloc, live, store) {
        Ok(()) => tell_line(&line, report),
        Err(OutFault::WriteFault) => Err(Ending::WriteFault),
        Err(OutFault::Memory) => Err(Ending::Memory),
    }
}

/// Reports the line of a rejected frame.
fn tell_refusal<P: Sink>(
    alloc: Global,
    index: u64,
    why: &Text,
    report: &mut P,
) -> Result<(), Ending>
    ensures line { OnOk result (Appends (refused_frame index why.now) (P.written report.old)
        (P.written report.new)) }
    ensures err { IfErr result (λ told. ((told ≡ ending.Memory) × (P.written report.new ≡ P.written report.old))
        ⊎ IsCutOff (refused_frame index why.now) told (P.faults report.old) (P.faults report.new)
        (P.written report.old) (P.written report.new)) }
    ensures told { Grows (P.written report.old) (P.written report.new) }
    ensures counts { P.faults report.old ≤ P.faults report.new }
{
    match frame_refused(alloc, index, why.as_str()) {
        Ok(line) => tell_line(&line, report),
        Err(NoMemory) => Err(Ending::Memory),
    }
}
