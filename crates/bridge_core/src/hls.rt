// From an MPD to playlists.
ghost use Rattle.std.specs.Prelude.{◌≡◌, Ok, Some, IfOk, IfSome, OnOk, OnErr};
ghost use Rattle.bridge_io.specs.Answer.{Gives};
ghost use Rattle.bridge_io.specs.Fault.{HasCause};
ghost use Rattle.bridge_io.specs.InOrder.{put_all, AreBegun};
ghost use Rattle.bridge_io.specs.Outside.{Changes};
ghost use Rattle.bridge_io.specs.declared.out_fault.OutFault.TheVariants.{WriteFault};
ghost use Rattle.iso_time.specs.Instant.{IsReadable};
ghost use Rattle.mpd_rules.specs.Views.{segments_mpd};
ghost use Rattle.bridge_report.specs.Reading.{ReadsAs, halted};
ghost use Rattle.bridge_report.specs.Refusals.{refused_in};
ghost use Rattle.bridge_steps.specs.Endings.{JobEndsAs, around};
ghost use Rattle.bridge_core.specs.Hls as spec;

use bridge_courses::Ending;
use bridge_io::{Bytes, Ledger, NoMemory, Steps, Store, Text};
use bridge_jobs::HlsJob;
use bridge_live::{Channel, begin_session, write_live_files};
use bridge_playlists::StorePlace;
use bridge_report::{Halt, Refusal, Stop, content_of, halted};
use bridge_steps::{
    Output, Ready, done_line, place_in, ready_of, values_for, write_playlists, written,
};
use hls_writer::OutFault;
use mpd_rules::Mpd;
use presentation::PresentationFault;
use std::alloc::Global;
use track_hints::Hints;
use url_parts::Base;

/// What is written for an MPD.
#[derive(Drop)]
pub enum Translation {
    /// The presentation of a static one.
    Static(Ready),
    /// The channel of a live one, as after the first update frame of a stream.
    Live(Channel),
}

/// Writes the playlists for the command's MPD, unless it is rejected. For a live one they are those that `follow` writes after
/// a first update frame at the command's time.
#[tactic(auto, unfolding(crate::specs::Hls::hls_outcome))]
pub fn run<F: Store, L: Ledger>(
    alloc: Global,
    job: &HlsJob,
    store: &mut F,
    steps: &mut Steps<L>,
) -> Ending
    requires { IfSome job.now.instant IsReadable }
    ensures { JobEndsAs (spec.hls_outcome job.now (F.files store.old)) result
        (around F.Store store.old steps.old) (around F.Store store.new steps.new) }
{
    match place_in(alloc, &job.base, &job.mpd) {
        Ok(place) => match translation_at(alloc, job, &place, store, steps) {
            Ok(translation) => {
                let output = Output::of(job.addresses, &place.folder, &job.out);
                write(alloc, job, &output, &translation, store, steps)
            }
            Err(halt) => halted(alloc, halt),
        },
        Err(told) => told,
    }
}

/// What is written for the MPD at a location, or why it isn't read. [`Halt::ReadFault`] comes only where the store's count of
/// failed reads rose.
#[tactic(auto, unfolding(crate::specs::Hls::translation_at))]
fn translation_at<F: Store, L: Ledger>(
    alloc: Global,
    job: &HlsJob,
    place: &StorePlace,
    store: &mut F,
    steps: &mut Steps<L>,
) -> Result<Translation, Halt>
    requires { IfSome job.now.instant IsReadable }
    ensures { ReadsAs F.Store store.old store.new spec.translated (spec.translation_at job.now place.now) result }
{
    let bytes = content_of(alloc, store, &place.file)?;
    match translation_of(alloc, job, &place.url, bytes, steps) {
        Ok(translation) => Ok(translation),
        Err(Stop::Refused(refusal)) => Err(Halt::refused(alloc, &place.file, refusal)),
        Err(Stop::Memory) => Err(Halt::Memory),
    }
}

/// What is written for an MPD, or its first error.
#[tactic(auto, unfolding(crate::specs::Hls::translation_of, crate::specs::Hls::static_translation))]
fn translation_of<L: Ledger>(
    alloc: Global,
    job: &HlsJob,
    url: &Base,
    bytes: Bytes,
    steps: &mut Steps<L>,
) -> Result<Translation, Stop>
    requires { IfSome job.now.instant IsReadable }
    ensures { Gives spec.translated refused_in result (spec.translation_of job.now url.now bytes) }
{
    let (mpd, players) = values_for(alloc, bytes, job.form)?;
    if mpd.live() {
        return live_translation(alloc, job, url, players, &mpd, steps);
    }
    let ready = ready_of(alloc, &mpd, url, job.instant, job.digits, players, steps)?;
    Ok(Translation::Static(ready))
}

/// What is written for a live MPD at the command's time.
#[tactic(auto, unfolding(crate::specs::Hls::live_translation))]
fn live_translation<L: Ledger>(
    alloc: Global,
    job: &HlsJob,
    url: &Base,
    players: Option<Hints>,
    mpd: &Mpd,
    steps: &mut Steps<L>,
) -> Result<Translation, Stop>
    requires { IfSome job.now.instant IsReadable }
    ensures { Gives spec.translated refused_in result
        (spec.live_translation job.now url.now players job.now.instant (segments_mpd mpd.now)) }
{
    let Some(now) = job.instant else {
        return Err(Stop::Refused(Refusal::Presentation(PresentationFault::NeedsNow)));
    };
    let session = begin_session(alloc, url, job.digits, mpd, now, steps)?;
    Ok(Translation::Live(Channel { session, players }))
}

/// Writes the playlists of an MPD.
fn write<F: Store, L: Ledger>(
    alloc: Global,
    job: &HlsJob,
    output: &Output<'_>,
    translation: &Translation,
    store: &mut F,
    steps: &mut Steps<L>,
) -> Ending
    requires { output.now ≡ spec.output_of_job job.now }
    ensures { JobEndsAs (Some (spec.outcome_of job.now (Ok (spec.translated translation.now)))) result
        (around F.Store store.old steps.old) (around F.Store store.new steps.new) }
{
    let Ok(line) = line_of(alloc, translation) else {
        return Ending::Memory;
    };
    written(line, write_files(alloc, output, translation, store, steps))
}

/// The report line for what is written.
fn line_of(alloc: Global, translation: &Translation) -> Result<Text, NoMemory>
    ensures { IfOk result (λ line. line ≡ spec.line_of (spec.translated translation.now)) }
{
    match translation {
        Translation::Static(ready) => done_line(alloc, &ready.presentation),
        Translation::Live(channel) => done_line(alloc, channel.session.first()),
    }
}

/// Writes the files of an MPD, the master playlist last.
fn write_files<F: Store, L: Ledger>(
    alloc: Global,
    output: &Output<'_>,
    translation: &Translation,
    store: &mut F,
    steps: &mut Steps<L>,
) -> Result<(), OutFault>
    ensures ok { OnOk result (Changes (put_all (spec.files_of output.now (spec.translated translation.now))) (F.files store.old)
        (F.files store.new)) }
    ensures err { OnErr result (AreBegun (spec.files_of output.now (spec.translated translation.now)) (F.files store.old)
        (F.files store.new)) }
    ensures cause { HasCause WriteFault (F.write_faults store.old) (F.write_faults store.new) result }
    ensures reads { F.read_faults store.new ≡ F.read_faults store.old }
{
    match translation {
        Translation::Static(ready) => write_playlists(alloc, output, ready, store, steps),
        Translation::Live(channel) => {
            write_live_files(alloc, output, &channel.session, &channel.players, store)
        }
    }
}
