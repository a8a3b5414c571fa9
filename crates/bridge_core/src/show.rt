// Listing the tracks and sections of an MPD or of a master playlist.
ghost use Rattle.std.specs.Prelude.{◌≡◌, ◌≢◌, Ok, IfOk};
ghost use Rattle.bridge_courses.specs.declared.status.Status.TheVariants as status;
ghost use Rattle.bridge_courses.specs.Executions.{status_by};
ghost use Rattle.presentation.specs.Counting.{counted, count_of_all};
ghost use Rattle.bridge_report.specs.Reading.{ReadsAs};
ghost use Rattle.bridge_steps.specs.Endings.{JobEndsAs, NeverWrites, around};
ghost use Rattle.bridge_steps.specs.Listing.{shown};
ghost use Rattle.bridge_core.specs.Show as spec;

use bridge_courses::{Ending, Verdict};
use bridge_io::{Ledger, NoMemory, Steps, Store, Text};
use bridge_jobs::ShowJob;
use bridge_playlists::{StorePlace, presented_in};
use bridge_report::{Halt, content_of};
use bridge_steps::{mpd_in, place_in, push_shown, told};
use exact_time::Digits;
use presentation::Presentation;
use std::alloc::Global;

/// Lists the tracks and sections of the command's manifest, unless it is rejected: the number and the total duration of each
/// track's segments in each section. Nothing is written.
#[tactic(auto, unfolding(crate::specs::Show::show_outcome))]
pub fn run<F: Store, L: Ledger>(
    alloc: Global,
    job: &ShowJob,
    store: &mut F,
    steps: &mut Steps<L>,
) -> Ending
    ensures ends { JobEndsAs (spec.show_outcome job.now (F.files store.old)) result
        (around F.Store store.old steps.old) (around F.Store store.new steps.new) }
    ensures never_writes { NeverWrites result (F.write_faults store.old) (F.write_faults store.new) }
{
    match place_in(alloc, &job.base, &job.file) {
        Ok(place) => told(alloc, shown_at(alloc, job, &place, store, steps)),
        Err(told) => told,
    }
}

/// The report on the manifest at a location, or why a file isn't read.
#[tactic(auto, unfolding(crate::specs::Show::shown_at))]
fn shown_at<F: Store, L: Ledger>(
    alloc: Global,
    job: &ShowJob,
    place: &StorePlace,
    store: &mut F,
    steps: &mut Steps<L>,
) -> Result<(Verdict, Text), Halt>
    ensures reads { ReadsAs F.Store store.old store.new (λ told. told) (spec.shown_at job.now place.now) result }
    ensures verdict { IfOk result (λ told. status_by told.0 ≢ status.Words) }
{
    let bytes = content_of(alloc, store, &place.file)?;
    if is_mpd(bytes.as_slice()) {
        let ready = mpd_in(alloc, place, bytes, job.instant, None, job.digits, steps)?;
        return Ok((
            Verdict::Done,
            shown(alloc, "mpd", &ready.presentation, job.digits)?,
        ));
    }
    let presentation = presented_in(alloc, place, bytes.as_slice(), store)?;
    Ok((
        Verdict::Done,
        shown(alloc, "hls", &presentation, job.digits)?,
    ))
}

/// The lines of a presentation.
fn shown(
    alloc: Global,
    word: &str,
    presentation: &Presentation,
    digits: Digits,
) -> Result<Text, NoMemory>
    requires counted { counted presentation.now ≡ Ok (count_of_all presentation.now) }
    ensures { IfOk result (λ lines. lines ≡ shown word.now digits presentation.now) }
{
    let mut lines = String::new(alloc);
    push_shown(&mut lines, word, presentation, digits)?;
    Ok(Text::from(lines))
}

/// Whether a manifest is an MPD: the first byte after a byte order mark and white space is `<`.
fn is_mpd(bytes: &[u8]) -> bool
    ensures { result ≡ spec.is_mpd bytes.now }
{
    begins_with_tag(without_mark(bytes))
}

fn without_mark(bytes: &[u8]) -> &[u8]
    ensures { result.now ≡ spec.without_mark bytes.now }
{
    if has_mark(bytes) { &bytes[3..] } else { bytes }
}

/// Whether there is a leading byte order mark.
fn has_mark(bytes: &[u8]) -> bool
    ensures { result ≡ spec.has_mark bytes.now }
{
    bytes.len() >= 3 && bytes[0] == 0xEF && bytes[1] == 0xBB && bytes[2] == 0xBF
}

fn begins_with_tag(bytes: &[u8]) -> bool
    ensures { result ≡ spec.begins_with_tag bytes.now }
{
    for byte in bytes {
        if !is_white(*byte) {
            return *byte == b'<';
        }
    }
    false
}

fn is_white(byte: u8) -> bool
    ensures { result ≡ spec.is_white byte }
{
    matches!(byte, b' ' | b'\t' | b'\n' | b'\r')
}
