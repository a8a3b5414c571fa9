// The values of a command's parameters.
ghost use Rattle.std.specs.Prelude.{◌≡◌, ℕ, List, map, option_map, IfOk, IfSome, IsTrue};
ghost use Rattle.bridge_jobs.specs.Given.{IsGiven};
ghost use Rattle.bridge_jobs.specs.Jobs.{addresses_in, addresses_of};
ghost use Rattle.bridge_jobs.specs.Jobs.{base_of, digits_in, digits_of, file_of, folder_in, form_in, form_of, is_decimal_byte};
ghost use Rattle.bridge_jobs.specs.Jobs.{is_folder, most_of, name_in, now_of, out_of, seconds_in, seed_of, within_of};
ghost use Rattle.std.specs.List.{list_all};
ghost use Rattle.bridge_jobs.specs.Verbs.{values_of};
ghost use Rattle.iso_time.specs.Instant.{IsReadable};

use crate::decimal::decimal;
use crate::given::WordsFault;
use crate::jobs::Addresses;
use crate::verb::Verb;
use bridge_io::{Name, Text};
use clap::ArgMatches;
use clap::error::ErrorKind;
use exact_time::{Digits, Nanos};
use iso_time::{Instant, read_duration, read_instant};
use segment_forms::Form;
use std::alloc::Global;
use std::marker::Model;

/// The values of a command's parameters, by the command line.
#[derive(Drop)]
pub struct Values<'a> {
    matches: ArgMatches<'a>,
}

impl<'a> Model for Values<'a> {
    ghost use Rattle.std.specs.Prelude.{List};
    ghost use Rattle.clap.specs.Words.{Row, found_of, rows_of};

    ghost Value = { List Row };

    ghost view = { λ v. rows_of (found_of v.matches) };
}

/// The most bytes that the name of a directory has, so that the names of the files in it are valid.
const MAX_FOLDER: usize = 242;

/// The greatest tolerance of times: 10 seconds.
const MAX_TOLERANCE: u64 = 10_000_000_000;

/// The most bytes that its text has.
const MAX_DECIMAL: usize = 12;

impl<'a> Values<'a> {
    ghost use Rattle.clap.specs.Words.{first_of};

    /// Parses the words, the first of which is the command's, as its parameters.
    #[tactic(auto, unfolding(crate::specs::Verbs::values_of))]
    pub fn of(alloc: Global, verb: Verb, words: &'a [&'a str]) -> Result<Values<'a>, WordsFault>
        ensures { IsGiven (values_of verb (map (λ word. word.now) words.entry.now)) result }
    {
        match verb.syntax(alloc)?.try_get_matches_from(words) {
            Ok(matches) => Ok(Values { matches }),
            Err(error) => match error.kind() {
                ErrorKind::OutOfMemory => Err(WordsFault::Memory),
                _ => Err(WordsFault::NoJob),
            },
        }
    }

    fn text(&self, id: &str) -> Option<&'a str>
        ensures { option_map (λ text. text.now) result ≡ first_of id.now self.now }
    {
        self.matches.get_str(id)
    }

    /// The name of a file.
    #[tactic(auto, unfolding(crate::specs::Jobs::file_of))]
    pub fn file(&self, alloc: Global, id: &str) -> Result<Name, WordsFault>
        ensures { IsGiven (file_of id.now self.now) result }
    {
        let text = self.text(id).ok_or(WordsFault::NoJob)?;
        Ok(Name::read(alloc, text)?)
    }

    /// The URL of the store's root, as it is written.
    #[tactic(auto, unfolding(crate::specs::Jobs::base_of))]
    pub fn base(&self, alloc: Global) -> Result<Text, WordsFault>
        ensures { IsGiven (base_of self.now) result }
    {
        let text = self.text("base").ok_or(WordsFault::NoJob)?;
        Ok(Text::copy_of(alloc, text)?)
    }

    /// The value of `--now`, where it is given.
    #[tactic(auto, unfolding(crate::specs::Jobs::now_of))]
    pub fn now(&self) -> Result<Option<Instant>, WordsFault>
        ensures now { IsGiven (now_of self.now) result }
        ensures readable { IfOk result (λ now. IfSome now IsReadable) }
    {
        match self.text("now") {
            Some(text) => match read_instant(text) {
                Ok(now) => Ok(Some(now)),
                Err(_) => Err(WordsFault::NoJob),
            },
            None => Ok(None),
        }
    }

    /// The directory of the files that are written: `out` by default.
    #[tactic(auto, unfolding(crate::specs::Jobs::out_of))]
    pub fn out(&self, alloc: Global) -> Result<Name, WordsFault>
        ensures name { IsGiven (out_of self.now) result }
        ensures folder { IfOk result (λ folder. IsTrue (is_folder folder)) }
    {
        folder(alloc, self.text("out").unwrap_or("out"))
    }

    /// The decimals of printed durations: `3` to `9`, by default 6.
    #[tactic(auto, unfolding(crate::specs::Jobs::digits_of))]
    pub fn digits(&self) -> Result<Digits, WordsFault>
        ensures { IsGiven (digits_of self.now) result }
    {
        match self.text("digits") {
            Some(text) => digits(text).ok_or(WordsFault::NoJob),
            None => Ok(Digits::default()),
        }
    }

    /// How an MPD gives the segments of its tracks: `plain` or `players`, by default `plain`.
    #[tactic(auto, unfolding(crate::specs::Jobs::form_of))]
    pub fn form(&self) -> Result<Form, WordsFault>
        ensures { IsGiven (form_of self.now) result }
    {
        match self.text("form") {
            Some(text) => form(text).ok_or(WordsFault::NoJob),
            None => Ok(Form::Plain),
        }
    }

    /// How playlists give URLs: `absolute` or `relative`, by default `absolute`.
    #[tactic(auto, unfolding(crate::specs::Jobs::addresses_of))]
    pub fn addresses(&self) -> Result<Addresses, WordsFault>
        ensures { IsGiven (addresses_of self.now) result }
    {
        match self.text("addresses") {
            Some(text) => addresses(text).ok_or(WordsFault::NoJob),
            None => Ok(Addresses::Absolute),
        }
    }

    /// The seed of a generated MPD: 1 to 10 digits, with a value below 2^32.
    #[tactic(auto, unfolding(crate::specs::Jobs::seed_of))]
    pub fn seed(&self) -> Result<u32, WordsFault>
        ensures { IsGiven (seed_of self.now) result }
    {
        let text = self.text("seed").ok_or(WordsFault::NoJob)?;
        decimal(text.as_bytes(), 10).ok_or(WordsFault::NoJob)
    }

    /// The greatest difference of times that counts as none, at most 10 seconds: by default only equal times.
    #[tactic(auto, unfolding(crate::specs::Jobs::within_of))]
    pub fn within(&self, alloc: Global) -> Result<Nanos, WordsFault>
        ensures { IsGiven (within_of self.now) result }
    {
        match self.text("within") {
            Some(text) => seconds(alloc, text),
            None => Ok(Nanos(0)),
        }
    }

    /// How many differences are listed at most: 1 to 100,000, by default 100.
    #[tactic(auto, unfolding(crate::specs::Jobs::most_of))]
    pub fn most(&self) -> Result<usize, WordsFault>
        ensures { IsGiven (most_of self.now) result }
    {
        let Some(text) = self.text("all") else {
            return Ok(100);
        };
        match decimal(text.as_bytes(), 6) {
            Some(count) if count >= 1 && count <= 100_000 => Ok(count as usize),
            _ => Err(WordsFault::NoJob),
        }
    }
}

fn folder(alloc: Global, text: &str) -> Result<Name, WordsFault>
    ensures name { IsGiven (folder_in text.now) result }
    ensures folder { IfOk result (λ folder. IsTrue (is_folder folder)) }
{
    if text.len() > MAX_FOLDER {
        return Err(WordsFault::NoJob);
    }
    Ok(Name::read(alloc, text)?)
}

fn digits(text: &str) -> Option<Digits>
    ensures { result ≡ digits_in text.now }
{
    match text.as_bytes() {
        [digit @ b'3'..=b'9'] => Digits::of(digit - b'0'),
        _ => None,
    }
}

fn form(text: &str) -> Option<Form>
    ensures { result ≡ form_in text.now }
{
    match text {
        "plain" => Some(Form::Plain),
        "players" => Some(Form::Players),
        _ => None,
    }
}

fn addresses(text: &str) -> Option<Addresses>
    ensures { result ≡ addresses_in text.now }
{
    match text {
        "absolute" => Some(Addresses::Absolute),
        "relative" => Some(Addresses::Relative),
        _ => None,
    }
}

/// A number of seconds with decimals, of which the first nine count. It is too short to be above the greatest tolerance by less
/// than a nanosecond.
fn seconds(alloc: Global, text: &str) -> Result<Nanos, WordsFault>
    ensures { IsGiven (seconds_in text.now) result }
{
    if text.len() > MAX_DECIMAL || !are_decimal(text.as_bytes()) {
        return Err(WordsFault::NoJob);
    }
    let duration = format!(in alloc; "PT{text}S")?;
    match read_duration(duration.as_str()) {
        Ok(nanos) if nanos.0 <= MAX_TOLERANCE => Ok(nanos),
        _ => Err(WordsFault::NoJob),
    }
}

fn are_decimal(bytes: &[u8]) -> bool
    ensures { result ≡ list_all is_decimal_byte bytes.now }
{
    bytes
        .iter()
        .all(|byte| byte.is_ascii_digit() || *byte == b'.')
}
