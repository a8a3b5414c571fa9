// `agree`: whether the times of an MPD are the decode times of its media files.
ghost use Rattle.std.specs.Prelude.{◌≡◌, ◌≢◌, Ok, IfOk};
ghost use Rattle.bridge_courses.specs.declared.status.Status.TheVariants as status;
ghost use Rattle.bridge_courses.specs.Executions.{status_by};
ghost use Rattle.presentation.specs.Counting.{counted, count_of_all};
ghost use Rattle.bridge_report.specs.Reading.{ReadsAs};
ghost use Rattle.bridge_steps.specs.Endings.{JobEndsAs, NeverWrites, around};
ghost use Rattle.bridge_reach.specs.Agree as spec;

use crate::file_times::times_at;
use bridge_courses::{Ending, Verdict};
use bridge_io::{Ledger, NoMemory, Steps, Store, Text};
use bridge_jobs::AgreeJob;
use bridge_playlists::StorePlace;
use bridge_report::{Halt, Refusal};
use bridge_steps::{count_of, mpd_at, place_in, told};
use exact_time::Digits;
use fragment_times::{SegmentSpot, first_apart};
use presentation::Presentation;
use std::alloc::Global;

/// Reports whether each listed segment of the command's MPD has the decode time of its media file (ISO/IEC 14496-12, 8.8.12),
/// or the first one that differs, unless a file is rejected. Nothing is written.
#[tactic(auto, unfolding(crate::specs::Agree::agree_outcome))]
pub fn run_agree<F: Store, L: Ledger>(
    alloc: Global,
    job: &AgreeJob,
    store: &mut F,
    steps: &mut Steps<L>,
) -> Ending
    ensures ends { JobEndsAs (spec.agree_outcome job.now (F.files store.old)) result
        (around F.Store store.old steps.old) (around F.Store store.new steps.new) }
    ensures never_writes { NeverWrites result (F.write_faults store.old) (F.write_faults store.new) }
{
    match place_in(alloc, &job.base, &job.mpd) {
        Ok(place) => told(alloc, judged(alloc, &place, store, steps)),
        Err(told) => told,
    }
}

/// The report on the MPD at a location, or why a file isn't read.
#[tactic(auto, unfolding(crate::specs::Agree::judged))]
fn judged<F: Store, L: Ledger>(
    alloc: Global,
    place: &StorePlace,
    store: &mut F,
    steps: &mut Steps<L>,
) -> Result<(Verdict, Text), Halt>
    ensures reads { ReadsAs F.Store store.old store.new (λ told. told) (spec.judged place.now) result }
    ensures verdict { IfOk result (λ told. status_by told.0 ≢ status.Words) }
{
    let live = Some(Refusal::NotStatic);
    let ready = mpd_at(alloc, place, None, live, Digits::default(), store, steps)?;
    let times = times_at(alloc, place, &ready.presentation, store, steps)?;
    let apart = first_apart(&ready.presentation, &times);
    Ok(verdict_of(alloc, &ready.presentation, apart)?)
}

/// The report on an MPD, given its first segment with a different time.
fn verdict_of(
    alloc: Global,
    mpd: &Presentation,
    apart: Option<SegmentSpot>,
) -> Result<(Verdict, Text), NoMemory>
    requires { counted mpd.now ≡ Ok (count_of_all mpd.now) }
    ensures told { IfOk result (λ told. told ≡ spec.verdict_of mpd.now apart) }
    ensures verdict { IfOk result (λ told. status_by told.0 ≢ status.Words) }
{
    match apart {
        None => Ok((Verdict::Done, agree_line(alloc, mpd)?)),
        Some(spot) => Ok((Verdict::Differ, apart_line(alloc, spot)?)),
    }
}

fn agree_line(alloc: Global, mpd: &Presentation) -> Result<Text, NoMemory>
    requires { counted mpd.now ≡ Ok (count_of_all mpd.now) }
    ensures { IfOk result (λ line. line ≡ spec.agree_line mpd.now) }
{
    let tracks = mpd.tracks().len() as u64;
    let sections = mpd.sections().len() as u64;
    agree_text(alloc, tracks, sections, count_of(mpd))
}

#[tactic(auto, unfolding(crate::specs::Agree::agree_text))]
fn agree_text(alloc: Global, tracks: u64, sections: u64, segments: u64) -> Result<Text, NoMemory>
    ensures { IfOk result (λ line. line ≡ spec.agree_text tracks sections segments) }
{
    Ok(Text::from(format!(in alloc;
        "agree tracks={tracks} sections={sections} segments={segments}\n"
    )?))
}

#[tactic(auto, unfolding(crate::specs::Agree::apart_text))]
fn apart_line(alloc: Global, spot: SegmentSpot) -> Result<Text, NoMemory>
    ensures { IfOk result (λ line. line ≡ spec.apart_text spot.section spot.track spot.segment) }
{
    let (section, track, segment) = (spot.section, spot.track, spot.segment);
    Ok(Text::from(format!(in alloc;
        "disagree section {section} track {track} segment {segment}\n"
    )?))
}
