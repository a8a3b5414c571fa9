// The job that words are.
ghost use Rattle.std.specs.Prelude.{◌≡◌, ◌∷◌, false, map, IfOk, option_map};
ghost use Rattle.std.specs.Char.{is_ascii_digit};
ghost use Rattle.std.specs.List.{list_all};
ghost use Rattle.clap.specs.Words.{app_of, rule_of};
ghost use Rattle.bridge_jobs.specs.Numbers.{decimal_of};
ghost use Rattle.bridge_jobs.specs.Verbs.{option, positional};
ghost use Rattle.publish_core.specs.Words as spec;

use crate::job::PublishJob;
use bridge_io::{Name, NameFault, NoMemory, Text};
use clap::error::ErrorKind;
use clap::{Arg, ArgMatches, Command};
use publish_law::Options;
use std::alloc::{AllocError, Global};
use std::marker::Model;

/// How many bytes the name of a folder has at most, so that the names of the files in it are names.
const MAX_FOLDER: usize = 242;

/// One more than the largest target duration (RFC 8216, 4.3.3.1).
const TARGETS: u32 = 1 << 31;

/// Why words give no job.
#[derive(Clone, Copy)]
pub(crate) enum WordsFault {
    /// They are none.
    NoJob,
    /// Out of memory.
    Memory,
}

impl From<AllocError> for WordsFault {
    ghost use Rattle.std.specs.Prelude.{◌≡◌};
    ghost use Rattle.publish_core.specs.declared.words.WordsFault.TheVariants.{Memory};

    ghost from_gives = { λ _ fault. fault ≡ Memory };

    fn from(_: AllocError) -> WordsFault {
        WordsFault::Memory
    }
}

/// The job that the words of a command line are, without the program's own name, or none.
#[tactic(auto, unfolding(crate::specs::Words::job_of))]
pub(crate) fn publish_job(alloc: Global, words: &[Text]) -> Result<Option<PublishJob>, NoMemory>
    ensures { IfOk result (λ job. job ≡ spec.job_of words.now) }
{
    match job_in(alloc, words) {
        Ok(job) => Ok(Some(job)),
        Err(WordsFault::NoJob) => Ok(None),
        Err(WordsFault::Memory) => Err(NoMemory),
    }
}

#[tactic(auto, unfolding(crate::specs::Words::job_of))]
fn job_in(alloc: Global, words: &[Text]) -> Result<PublishJob, WordsFault>
    ensures { spec.IsGiven (spec.job_of words.now) result }
{
    let texts = texts(alloc, words)?;
    let values = Values::of(alloc, texts.as_slice())?;
    job_by(alloc, &values)
}

#[tactic(auto, unfolding(crate::specs::Words::job_by))]
fn job_by(alloc: Global, values: &Values<'_>) -> Result<PublishJob, WordsFault>
    ensures { spec.IsGiven (spec.job_by values.now) result }
{
    let new = folder(alloc, values.text("new"))?;
    let served = folder(alloc, values.text("served"))?;
    let target = target(values.text("target"))?;
    let end = flag(values.text("end"))?;
    let back = flag(values.text("back"))?;
    if new.as_str() == served.as_str() {
        return Err(WordsFault::NoJob);
    }
    Ok(PublishJob {
        new,
        served,
        target,
        options: Options { end, back },
    })
}

/// The words after the program's name.
fn texts<'a>(alloc: Global, words: &'a [Text]) -> Result<Vec<&'a str>, AllocError>
    ensures { IfOk result (λ texts. map (λ text. text.now) texts.items ≡ spec.program_word ∷ words.entry.now) }
{
    let mut texts = Vec::with_capacity(alloc, words.len().saturating_add(1))?;
    texts.push("bridge_publish")?;
    for word in words {
        texts.push(word.as_str())?;
    }
    Ok(texts)
}

/// What words give the command's parameters.
#[derive(Drop)]
struct Values<'a> {
    matches: ArgMatches<'a>,
}

impl<'a> Model for Values<'a> {
    ghost use Rattle.std.specs.Prelude.{List};
    ghost use Rattle.clap.specs.Words.{Row, found_of, rows_of};

    ghost Value = { List Row };

    ghost view = { λ v. rows_of (found_of v.matches) };
}

impl<'a> Values<'a> {
    ghost use Rattle.clap.specs.Words.{first_of};

    /// What the words, of which the first is the program's, give, where the command takes them.
    #[tactic(auto, unfolding(crate::specs::Words::values_of))]
    fn of(alloc: Global, words: &'a [&'a str]) -> Result<Values<'a>, WordsFault>
        ensures { spec.IsGiven (spec.values_of (map (λ word. word.now) words.entry.now)) result }
    {
        match syntax(alloc)?.try_get_matches_from(words) {
            Ok(matches) => Ok(Values { matches }),
            Err(error) => match error.kind() {
                ErrorKind::OutOfMemory => Err(WordsFault::Memory),
                _ => Err(WordsFault::NoJob),
            },
        }
    }

    fn text(&self, id: &str) -> Option<&'a str>
        ensures { option_map (λ text. text.now) result ≡ first_of id.now self.now }
    {
        self.matches.get_str(id)
    }
}

fn syntax<'a>(alloc: Global) -> Result<Command<'a>, AllocError>
    ensures { IfOk result (λ command. app_of command ≡ spec.syntax_of_words) }
{
    let mut command: Command<'a> = Command::new(alloc, "bridge_publish");
    command = command.arg(positional(alloc, "new"))?;
    command = command.arg(positional(alloc, "served"))?;
    command = command.arg(option(alloc, "target"))?;
    command = command.arg(option(alloc, "end"))?;
    command = command.arg(option(alloc, "back"))?;
    Ok(command)
}

fn positional<'a>(alloc: Global, name: &'a str) -> Arg<'a>
    ensures rule { rule_of result ≡ positional name.entry.now }
    ensures local { result.global ≡ false }
{
    Arg::new(alloc, name).required(true)
}

fn option<'a>(alloc: Global, name: &'a str) -> Arg<'a>
    ensures rule { rule_of result ≡ option name.entry.now }
    ensures local { result.global ≡ false }
{
    Arg::new(alloc, name).long(name)
}

fn folder(alloc: Global, text: Option<&str>) -> Result<Name, WordsFault>
    ensures { spec.IsGiven (spec.folder_of (option_map (λ text. text.now) text.entry)) result }
{
    let Some(text) = text else {
        return Err(WordsFault::NoJob);
    };
    if text.len() > MAX_FOLDER {
        return Err(WordsFault::NoJob);
    }
    match Name::read(alloc, text) {
        Ok(name) => Ok(name),
        Err(NameFault::Shape) => Err(WordsFault::NoJob),
        Err(NameFault::Memory) => Err(WordsFault::Memory),
    }
}

/// A number of 1 to 10 digits below 2^31: 0, unless one is written.
fn target(text: Option<&str>) -> Result<u64, WordsFault>
    ensures { spec.IsGiven (spec.target_of (option_map (λ text. text.now) text.entry)) result }
{
    let Some(text) = text else {
        return Ok(0);
    };
    match decimal(text) {
        Some(target) if target < TARGETS => Ok(u64::from(target)),
        _ => Err(WordsFault::NoJob),
    }
}

fn decimal(text: &str) -> Option<u32>
    ensures { result ≡ decimal_of 10 text.now }
{
    let digits = text.as_bytes();
    if digits.len() > 10 || !are_digits(digits) {
        return None;
    }
    text.parse::<u32>().ok()
}

fn are_digits(bytes: &[u8]) -> bool
    ensures { result ≡ list_all is_ascii_digit bytes.now }
{
    bytes.iter().all(|byte| byte.is_ascii_digit())
}

/// `yes` or `no`, which is taken where none is written.
fn flag(text: Option<&str>) -> Result<bool, WordsFault>
    ensures { spec.IsGiven (spec.flag_of (option_map (λ text. text.now) text.entry)) result }
{
    match text {
        None | Some("no") => Ok(false),
        Some("yes") => Ok(true),
        Some(_) => Err(WordsFault::NoJob),
    }
}
