// From a generated MPD to playlists.
ghost use Rattle.std.specs.Prelude.{◌≡◌, ◌^◌, ◌++◌, Ok, Some, None, IfOk, OnOk, OnErr};
ghost use Rattle.std.specs.String.{string_bytes};
ghost use Rattle.bridge_io.specs.Fault.{HasCause};
ghost use Rattle.bridge_io.specs.InOrder.{put_all, MayBegin, AreBegun};
ghost use Rattle.bridge_io.specs.Outside.{put, Changes};
ghost use Rattle.bridge_io.specs.declared.out_fault.OutFault.TheVariants.{WriteFault};
ghost use Rattle.bridge_jobs.specs.Laws.{in_folder};
ghost use Rattle.bridge_steps.specs.Endings.{IsPlaced, JobEndsAs, NeverReads, around};
ghost use Rattle.bridge_core.specs.Make as spec;
ghost use Rattle.bridge_core.specs.Source.{source_text};

use crate::source::source_text;
use bridge_courses::Ending;
use bridge_io::{Bytes, FileWriter, Ledger, Name, NoMemory, Steps, Store, Text};
use bridge_jobs::MakeJob;
use bridge_playlists::StorePlace;
use bridge_report::{Refusal, halted};
use bridge_steps::{
    Output, Ready, file_in, mpd_in, place_in, push_seconds, write_playlists, written,
};
use exact_time::Digits;
use hls_writer::OutFault;
use presentation::answers_allow_listings;
use std::alloc::{AllocError, Global};

/// The assumed URL of the MPD's folder.
const BASE: &str = "https://make.example/";

/// The MPD's file.
const SOURCE: &str = "source.mpd";

/// Writes the MPD that is generated from the command's seed, and then its playlists. Nothing is read.
#[tactic(auto, unfolding(crate::specs::Make::make_outcome))]
pub fn run<F: Store, L: Ledger>(
    alloc: Global,
    job: &MakeJob,
    store: &mut F,
    steps: &mut Steps<L>,
) -> Ending
    ensures ends { JobEndsAs (spec.make_outcome job.now) result
        (around F.Store store.old steps.old) (around F.Store store.new steps.new) }
    ensures never_reads { NeverReads result (F.read_faults store.old) (F.read_faults store.new) }
{
    let Ok(text) = source_text(alloc, job.seed) else {
        return Ending::Memory;
    };
    let Ok(bytes) = bytes_of(alloc, &text) else {
        return Ending::Memory;
    };
    let live = Some(Refusal::NotStatic);
    match source_place(alloc) {
        Ok(place) => match mpd_in(alloc, &place, bytes, None, live, job.digits, steps) {
            Ok(ready) => write(alloc, job, &text, &ready, store, steps),
            Err(halt) => halted(alloc, halt),
        },
        Err(told) => told,
    }
}

/// A copy of a text's bytes.
fn bytes_of(alloc: Global, text: &Text) -> Result<Bytes, NoMemory>
    ensures { IfOk result (λ bytes. bytes ≡ text.now) }
{
    let bytes = Vec::from_slice(alloc, text.as_str().as_bytes())?;
    Ok(Bytes::from(bytes))
}

/// The assumed location of the MPD.
fn source_place(alloc: Global) -> Result<StorePlace, Ending>
    ensures { IsPlaced spec.source_place result }
{
    match (Text::copy_of(alloc, BASE), Name::read(alloc, SOURCE)) {
        (Ok(base), Ok(name)) => place_in(alloc, &base, &name),
        _ => Err(Ending::Memory),
    }
}

/// Writes the MPD and the playlists of its presentation.
fn write<F: Store, L: Ledger>(
    alloc: Global,
    job: &MakeJob,
    text: &Text,
    ready: &Ready,
    store: &mut F,
    steps: &mut Steps<L>,
) -> Ending
    requires text { text.now ≡ source_text job.now.seed }
    requires digits { ready.now.digits ≡ job.now.digits }
    requires plain { ready.now.players ≡ None }
    ensures ends { JobEndsAs (Some (spec.outcome_of job.now (Ok ready.now.presentation))) result
        (around F.Store store.old steps.old) (around F.Store store.new steps.new) }
    ensures never_reads { NeverReads result (F.read_faults store.old) (F.read_faults store.new) }
{
    let Ok(line) = made_line(alloc, ready) else {
        return Ending::Memory;
    };
    written(line, write_files(alloc, job, text, ready, store, steps))
}

/// Writes the MPD, and then the playlists.
fn write_files<F: Store, L: Ledger>(
    alloc: Global,
    job: &MakeJob,
    text: &Text,
    ready: &Ready,
    store: &mut F,
    steps: &mut Steps<L>,
) -> Result<(), OutFault>
    requires text { text.now ≡ source_text job.now.seed }
    requires digits { ready.now.digits ≡ job.now.digits }
    requires plain { ready.now.players ≡ None }
    ensures ok { OnOk result (Changes (put_all (spec.made_files job.now ready.now.presentation)) (F.files store.old) (F.files store.new)) }
    ensures err { OnErr result (AreBegun (spec.made_files job.now ready.now.presentation) (F.files store.old) (F.files store.new)) }
    ensures cause { HasCause WriteFault (F.write_faults store.old) (F.write_faults store.new) result }
    ensures reads { F.read_faults store.new ≡ F.read_faults store.old }
{
    write_source(alloc, &job.out, text, store)?;
    write_playlists(alloc, &Output::absolute(&job.out), ready, store, steps)
}

/// Writes the MPD.
fn write_source<F: Store>(
    alloc: Global,
    out: &Name,
    text: &Text,
    store: &mut F,
) -> Result<(), OutFault>
    ensures ok { OnOk result (Changes (put (in_folder out.now spec.source_name) text.now) (F.files store.old) (F.files store.new)) }
    ensures err { OnErr result (MayBegin (in_folder out.now spec.source_name, text.now) (F.files store.old) (F.files store.new)) }
    ensures cause { HasCause WriteFault (F.write_faults store.old) (F.write_faults store.new) result }
    ensures reads { F.read_faults store.new ≡ F.read_faults store.old }
{
    match file_in(alloc, out, SOURCE) {
        Ok(name) => write_text(alloc, &name, text, store),
        Err(NoMemory) => Err(OutFault::Memory),
    }
}

/// Writes a text to a file.
fn write_text<F: Store>(
    alloc: Global,
    name: &Name,
    text: &Text,
    store: &mut F,
) -> Result<(), OutFault>
    ensures ok { OnOk result (Changes (put name.now text.now) (F.files store.old) (F.files store.new)) }
    ensures err { OnErr result (MayBegin (name.now, text.now) (F.files store.old) (F.files store.new)) }
    ensures cause { HasCause WriteFault (F.write_faults store.old) (F.write_faults store.new) result }
    ensures reads { F.read_faults store.new ≡ F.read_faults store.old }
{
    let mut writer = FileWriter::create(alloc, store, name)?;
    writer.push(store, text.as_str().as_bytes())?;
    writer.flush(store)?;
    Ok(())
}

/// The line of the report.
fn made_line(alloc: Global, ready: &Ready) -> Result<Text, NoMemory>
    ensures { IfOk result (λ line. line ≡ spec.made_line ready.now.digits ready.now.presentation) }
{
    let mut line = String::new(alloc);
    push_lengths(
        &mut line,
        ready.digits,
        length_at(ready, 0),
        length_at(ready, 4),
    )?;
    Ok(Text::from(line))
}

#[tactic(auto, unfolding(crate::specs::Make::lengths_line))]
fn push_lengths(
    line: &mut String,
    digits: Digits,
    video: u128,
    audio: u128,
) -> Result<(), AllocError>
    ensures { OnOk result (string_bytes line.new ≡ string_bytes line.old ++ spec.lengths_line digits video audio) }
{
    line.push_str("made tracks=6 segments=120000 video=")?;
    push_seconds(line, digits, video)?;
    line.push_str(" audio=")?;
    push_seconds(line, digits, audio)?;
    line.push_str("\n")?;
    Ok(())
}

/// The duration of a track in the first section, in units of the last decimal of a second, and 0 where there is no such
/// track.
fn length_at(ready: &Ready, track: usize) -> u128
    ensures { result ≡ spec.length_at (10 ^ ready.now.digits) ready.now.presentation track }
{
    answers_allow_listings();
    let presentation = &ready.presentation;
    if track < presentation.tracks().len() && 0 < presentation.sections().len() {
        presentation.extent(0, track, ready.digits).units
    } else {
        0
    }
}
