// Whether a media playlist is a valid update of an older one.
ghost use Rattle.std.specs.Prelude.{◌≡◌, ◌≢◌, ◌≤◌, IfOk};
ghost use Rattle.std.specs.Option.{ForSome};
ghost use Rattle.bridge_io.specs.Fault.{Rose};
ghost use Rattle.bridge_courses.specs.declared.status.Status.TheVariants as status;
ghost use Rattle.bridge_courses.specs.Executions.{status_by, status_of};
ghost use Rattle.hls_media.specs.Laws.{IsBounded};
ghost use Rattle.reload_law.specs.Rules.{end_of};
ghost use Rattle.bridge_report.specs.Outcomes.{IsEnding};
ghost use Rattle.bridge_report.specs.Reading.{ReadsAs};
ghost use Rattle.bridge_playlists.specs.Reload as spec;

use bridge_courses::{Ending, Verdict};
use bridge_io::{NoMemory, Store, Text};
use bridge_jobs::ReloadJob;
use bridge_report::{Halt, Refusal, file_url, halted, media_at, refused, update_at};
use hls_media::Media;
use reload_law::{Unlawful, lawful};
use std::alloc::Global;
use url_parts::Base;

/// The URLs of the two playlists.
#[derive(Drop)]
struct Urls {
    old: Base,
    new: Base,
}

/// Reports whether the new playlist is a valid update of the old one, or the first rule that it breaks, unless one of them is
/// rejected. Nothing is written.
#[tactic(auto, unfolding(crate::specs::Reload::reload_outcome))]
pub fn run_reload<F: Store>(alloc: Global, job: &ReloadJob, store: &mut F) -> Ending
    ensures ending { ForSome (spec.reload_outcome job.now (F.files store.old))
        (λ outcome. IsEnding outcome result (F.files store.old) (F.files store.new)) }
    ensures read_fault { status_of result ≡ status.ReadFault → Rose (F.read_faults store.old) (F.read_faults store.new) }
    ensures write_fault { status_of result ≡ status.WriteFault → ⊥ }
    ensures job { status_of result ≡ status.Words → ⊥ }
    ensures reads { F.read_faults store.old ≤ F.read_faults store.new }
    ensures writes { F.write_faults store.new ≡ F.write_faults store.old }
{
    match urls_of(alloc, job) {
        Ok(Some(urls)) => reload_at(alloc, job, &urls, store),
        Ok(None) => refused(alloc, "-", Refusal::Base),
        Err(NoMemory) => Ending::Memory,
    }
}

#[tactic(auto, unfolding(crate::specs::Reload::urls_of))]
fn urls_of(alloc: Global, job: &ReloadJob) -> Result<Option<Urls>, NoMemory>
    ensures { IfOk result (λ urls. urls ≡ spec.urls_of job.now) }
{
    let Some(old) = file_url(alloc, job.base.as_str(), &job.old)? else {
        return Ok(None);
    };
    let Some(new) = file_url(alloc, job.base.as_str(), &job.new)? else {
        return Ok(None);
    };
    Ok(Some(Urls { old, new }))
}

/// The same for the playlists at these URLs.
fn reload_at<F: Store>(alloc: Global, job: &ReloadJob, urls: &Urls, store: &mut F) -> Ending
    ensures ending { ForSome (F.files store.old) (λ files. IsEnding (spec.outcome_at job.now urls.now files) result (F.files store.old)
        (F.files store.new)) }
    ensures read_fault { status_of result ≡ status.ReadFault → Rose (F.read_faults store.old) (F.read_faults store.new) }
    ensures write_fault { status_of result ≡ status.WriteFault → ⊥ }
    ensures job { status_of result ≡ status.Words → ⊥ }
    ensures reads { F.read_faults store.old ≤ F.read_faults store.new }
    ensures writes { F.write_faults store.new ≡ F.write_faults store.old }
{
    match judged(alloc, job, urls, store) {
        Ok((verdict, line)) => Ending::Ended(verdict, line),
        Err(halt) => halted(alloc, halt),
    }
}

/// The verdict on the playlists at these URLs, with its line, or why one of them isn't read. The old one is read completely
/// first.
#[tactic(auto, unfolding(crate::specs::Reload::judged))]
fn judged<F: Store>(
    alloc: Global,
    job: &ReloadJob,
    urls: &Urls,
    store: &mut F,
) -> Result<(Verdict, Text), Halt>
    ensures reads { ReadsAs F.Store store.old store.new (λ told. told) (spec.judged job.now urls.now) result }
    ensures verdict { IfOk result (λ told. status_by told.0 ≢ status.Words) }
{
    let old = media_at(alloc, store, &job.old, &urls.old)?;
    let new = update_at(alloc, store, &job.new, &urls.new, Some(&old))?;
    judgement(alloc, &old, &new).map_err(|_| Halt::Memory)
}

/// The verdict on a playlist as an update of an older one, with its line.
fn judgement(alloc: Global, old: &Media, new: &Media) -> Result<(Verdict, Text), NoMemory>
    requires old { IsBounded old.now }
    requires new { IsBounded new.now }
    ensures told { IfOk result (λ told. told ≡ spec.judgement old.now new.now) }
    ensures verdict { IfOk result (λ told. status_by told.0 ≢ status.Words) }
{
    match lawful(old, new) {
        Ok(()) => Ok((Verdict::Done, lawful_line(alloc, old, new)?)),
        Err(rule) => Ok((Verdict::Differ, unlawful_line(alloc, rule)?)),
    }
}

fn lawful_line(alloc: Global, old: &Media, new: &Media) -> Result<Text, NoMemory>
    requires old { IsBounded old.now }
    requires new { IsBounded new.now }
    ensures { IfOk result (λ line. line ≡ spec.lawful_line old.now new.now) }
{
    let kept = kept_count(old, new);
    counts_line(
        alloc,
        kept,
        (new.segments.len() as u64).saturating_sub(kept),
        (old.segments.len() as u64).saturating_sub(kept),
    )
}

/// How many sequence numbers both playlists have.
fn kept_count(old: &Media, new: &Media) -> u64
    requires old { IsBounded old.now }
    requires new { IsBounded new.now }
    ensures { result ≡ spec.kept_count old.now new.now }
{
    end_of(old)
        .min(end_of(new))
        .saturating_sub(old.sequence.max(new.sequence))
}

/// The sequence number after the last segment's.
fn end_of(media: &Media) -> u64
    requires { IsBounded media.now }
    ensures { result ≡ end_of media.now }
{
    media.sequence + media.segments.len() as u64
}

#[tactic(auto, unfolding(crate::specs::Reload::counts_line))]
fn counts_line(alloc: Global, kept: u64, added: u64, removed: u64) -> Result<Text, NoMemory>
    ensures { IfOk result (λ line. line ≡ spec.counts_line kept added removed) }
{
    Ok(Text::from(format!(in alloc; "lawful kept={kept} added={added} removed={removed}\n")?))
}

#[tactic(auto, unfolding(crate::specs::Reload::unlawful_line))]
fn unlawful_line(alloc: Global, rule: Unlawful) -> Result<Text, NoMemory>
    ensures { IfOk result (λ line. line ≡ spec.unlawful_line rule) }
{
    match rule {
        Unlawful::Target => Text::copy_of(alloc, "unlawful 1 Target\n"),
        Unlawful::Sequence => Text::copy_of(alloc, "unlawful 2 Sequence\n"),
        Unlawful::Segment { number } => {
            Ok(Text::from(format!(in alloc; "unlawful 3 Segment at {number}\n")?))
        }
        Unlawful::Discontinuity { number } => {
            Ok(Text::from(format!(in alloc; "unlawful 4 Discontinuity at {number}\n")?))
        }
        Unlawful::Shrunk => Text::copy_of(alloc, "unlawful 5 Shrunk\n"),
        Unlawful::AfterEnd => Text::copy_of(alloc, "unlawful 6 AfterEnd\n"),
        Unlawful::ThreeTargets => Text::copy_of(alloc, "unlawful 7 ThreeTargets\n"),
    }
}
