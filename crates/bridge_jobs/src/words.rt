// Parsing of command lines.
ghost use Rattle.std.specs.Prelude.{◌≡◌, IfOk, IfSome, IsTrue, map};
ghost use Rattle.bridge_jobs.specs.Given.{IsGiven, IsJob};
ghost use Rattle.bridge_jobs.specs.Jobs.{HasFolder, HasReadableNow, agree_of, check_of, compare_of, first_verb, follow_of, hls_of};
ghost use Rattle.bridge_jobs.specs.Jobs.{index_of, is_folder};
ghost use Rattle.bridge_jobs.specs.Jobs.{job_by, job_of, make_of, master_of, reload_of, show_of};
ghost use Rattle.iso_time.specs.Instant.{IsReadable};

use crate::given::WordsFault;
use crate::jobs::{
    AgreeJob, CheckJob, CompareJob, FollowJob, HlsJob, IndexJob, Job, MakeJob, MasterJob,
    ReloadJob, ShowJob,
};
use crate::values::Values;
use crate::verb::Verb;
use bridge_io::{NoMemory, Text};
use std::alloc::{AllocError, Global};

/// Parses a command line, without the program's own name. `None` is a usage error.
pub fn job(alloc: Global, words: &[Text]) -> Result<Option<Job>, NoMemory>
    ensures job { IfOk result (λ job. job ≡ job_of words.now) }
    ensures folder { IfOk result (λ job. IfSome job HasFolder) }
    ensures readable { IfOk result (λ job. IfSome job HasReadableNow) }
{
    let words = texts(alloc, words)?;
    match job_in(alloc, words.as_slice()) {
        Ok(job) => Ok(Some(job)),
        Err(WordsFault::NoJob) => Ok(None),
        Err(WordsFault::Memory) => Err(NoMemory),
    }
}

fn texts<'a>(alloc: Global, words: &'a [Text]) -> Result<Vec<&'a str>, AllocError>
    ensures { IfOk result (λ texts. map (λ text. text.now) texts.items ≡ words.entry.now) }
{
    let mut texts = Vec::with_capacity(alloc, words.len())?;
    for word in words {
        texts.push(word.as_str())?;
    }
    Ok(texts)
}

#[tactic(auto, unfolding(crate::specs::Jobs::job_of))]
fn job_in(alloc: Global, words: &[&str]) -> Result<Job, WordsFault>
    ensures { IsJob (job_of (map (λ word. word.now) words.now)) result }
{
    let verb = first_verb(words)?;
    let values = Values::of(alloc, verb, words)?;
    job_by(alloc, verb, &values)
}

/// The first word's command.
fn first_verb(words: &[&str]) -> Result<Verb, WordsFault>
    ensures { IsGiven (first_verb (map (λ word. word.now) words.now)) result }
{
    match words {
        [first, ..] => Verb::of(first).ok_or(WordsFault::NoJob),
        [] => Err(WordsFault::NoJob),
    }
}

fn job_by(alloc: Global, verb: Verb, values: &Values) -> Result<Job, WordsFault>
    ensures { IsJob (job_by verb values.now) result }
{
    let job = match verb {
        Verb::Hls => Job::Hls(hls(alloc, values)?),
        Verb::Dash => Job::Dash(master(alloc, values)?),
        Verb::Follow => Job::Follow(follow(alloc, values)?),
        Verb::Show => Job::Show(show(alloc, values)?),
        Verb::Check => Job::Check(check(alloc, values)?),
        Verb::Reload => Job::Reload(reload(alloc, values)?),
        Verb::Make => Job::Make(make(alloc, values)?),
        Verb::HlsIndex => Job::HlsIndex(index(alloc, values)?),
        Verb::DashTimes => Job::DashTimes(master(alloc, values)?),
        Verb::Agree => Job::Agree(agree(alloc, values)?),
        Verb::FollowHls => Job::FollowHls(master(alloc, values)?),
        Verb::FollowHlsTimes => Job::FollowHlsTimes(master(alloc, values)?),
        Verb::Compare => Job::Compare(compare(alloc, values)?),
    };
    Ok(job)
}

#[tactic(auto, unfolding(crate::specs::Jobs::hls_of))]
fn hls(alloc: Global, values: &Values) -> Result<HlsJob, WordsFault>
    ensures job { IsGiven (hls_of values.now) result }
    ensures folder { IfOk result (λ job. IsTrue (is_folder job.out)) }
    ensures readable { IfOk result (λ job. IfSome job.instant IsReadable) }
{
    Ok(HlsJob {
        mpd: values.file(alloc, "mpd")?,
        base: values.base(alloc)?,
        instant: values.now()?,
        out: values.out(alloc)?,
        digits: values.digits()?,
        addresses: values.addresses()?,
        form: values.form()?,
    })
}

#[tactic(auto, unfolding(crate::specs::Jobs::master_of))]
fn master(alloc: Global, values: &Values) -> Result<MasterJob, WordsFault>
    ensures job { IsGiven (master_of values.now) result }
    ensures folder { IfOk result (λ job. IsTrue (is_folder job.out)) }
{
    Ok(MasterJob {
        master: values.file(alloc, "master")?,
        base: values.base(alloc)?,
        out: values.out(alloc)?,
        form: values.form()?,
    })
}

#[tactic(auto, unfolding(crate::specs::Jobs::follow_of))]
fn follow(alloc: Global, values: &Values) -> Result<FollowJob, WordsFault>
    ensures job { IsGiven (follow_of values.now) result }
    ensures folder { IfOk result (λ job. IsTrue (is_folder job.out)) }
{
    Ok(FollowJob {
        name: values.file(alloc, "name")?,
        base: values.base(alloc)?,
        out: values.out(alloc)?,
        digits: values.digits()?,
        addresses: values.addresses()?,
        form: values.form()?,
    })
}

#[tactic(auto, unfolding(crate::specs::Jobs::show_of))]
fn show(alloc: Global, values: &Values) -> Result<ShowJob, WordsFault>
    ensures job { IsGiven (show_of values.now) result }
    ensures readable { IfOk result (λ job. IfSome job.instant IsReadable) }
{
    Ok(ShowJob {
        file: values.file(alloc, "file")?,
        base: values.base(alloc)?,
        instant: values.now()?,
        digits: values.digits()?,
    })
}

#[tactic(auto, unfolding(crate::specs::Jobs::check_of))]
fn check(alloc: Global, values: &Values) -> Result<CheckJob, WordsFault>
    ensures job { IsGiven (check_of values.now) result }
{
    Ok(CheckJob {
        mpd: values.file(alloc, "mpd")?,
        master: values.file(alloc, "master")?,
        base: values.base(alloc)?,
        digits: values.digits()?,
    })
}

#[tactic(auto, unfolding(crate::specs::Jobs::reload_of))]
fn reload(alloc: Global, values: &Values) -> Result<ReloadJob, WordsFault>
    ensures job { IsGiven (reload_of values.now) result }
{
    Ok(ReloadJob {
        old: values.file(alloc, "old")?,
        new: values.file(alloc, "new")?,
        base: values.base(alloc)?,
    })
}

#[tactic(auto, unfolding(crate::specs::Jobs::make_of))]
fn make(alloc: Global, values: &Values) -> Result<MakeJob, WordsFault>
    ensures job { IsGiven (make_of values.now) result }
    ensures folder { IfOk result (λ job. IsTrue (is_folder job.out)) }
{
    Ok(MakeJob {
        seed: values.seed()?,
        out: values.out(alloc)?,
        digits: values.digits()?,
    })
}

#[tactic(auto, unfolding(crate::specs::Jobs::index_of))]
fn index(alloc: Global, values: &Values) -> Result<IndexJob, WordsFault>
    ensures job { IsGiven (index_of values.now) result }
    ensures folder { IfOk result (λ job. IsTrue (is_folder job.out)) }
{
    Ok(IndexJob {
        mpd: values.file(alloc, "mpd")?,
        base: values.base(alloc)?,
        out: values.out(alloc)?,
        digits: values.digits()?,
        addresses: values.addresses()?,
        form: values.form()?,
    })
}

#[tactic(auto, unfolding(crate::specs::Jobs::agree_of))]
fn agree(alloc: Global, values: &Values) -> Result<AgreeJob, WordsFault>
    ensures job { IsGiven (agree_of values.now) result }
{
    Ok(AgreeJob {
        mpd: values.file(alloc, "mpd")?,
        base: values.base(alloc)?,
    })
}

#[tactic(auto, unfolding(crate::specs::Jobs::compare_of))]
fn compare(alloc: Global, values: &Values) -> Result<CompareJob, WordsFault>
    ensures job { IsGiven (compare_of values.now) result }
    ensures readable { IfOk result (λ job. IfSome job.instant IsReadable) }
{
    Ok(CompareJob {
        check: check(alloc, values)?,
        instant: values.now()?,
        within: values.within(alloc)?,
        most: values.most()?,
    })
}
