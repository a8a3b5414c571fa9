// The commands and their parameters.
ghost use Rattle.std.specs.Prelude.{◌≡◌, map, false, IfOk};
ghost use Rattle.clap.specs.Words.{app_of, rule_of};

use clap::{Arg, Command};
use std::alloc::{AllocError, Global};

/// A command, named by the first word of a command line.
#[derive(Clone, Copy, PartialEq, Eq)]
pub enum Verb {
    /// Converts an MPD to playlists.
    Hls,
    /// Converts playlists to an MPD.
    Dash,
    /// Converts the updates of a live MPD to live (sliding-window) playlists.
    Follow,
    /// Lists the tracks and sections of an MPD or of a master playlist.
    Show,
    /// Checks whether an MPD and a master playlist mean the same.
    Check,
    /// Checks whether a media playlist is a valid update of another.
    Reload,
    /// Generates an MPD of many segments, and converts it to playlists.
    Make,
    /// Converts an MPD whose files have a `sidx` to playlists.
    HlsIndex,
    /// Converts playlists to an MPD, with the decode times of their files.
    DashTimes,
    /// Checks whether an MPD's times are the decode times of its files.
    Agree,
    /// Converts snapshots of live playlists to an MPD.
    FollowHls,
    /// Converts snapshots of live playlists to an MPD, with the decode times of their files.
    FollowHlsTimes,
    /// Lists every difference of an MPD and a master playlist.
    Compare,
}

/// A parameter of a command, by its name.
#[derive(Clone, Copy)]
pub enum Parameter {
    /// A positional word.
    Positional(&'static str),
    /// `--name=value` or `--name value`, which is required.
    Required(&'static str),
    /// `--name=value` or `--name value`, which is optional.
    Optional(&'static str),
}

use Parameter::{Optional, Positional, Required};

static HLS: [Parameter; 7] = [
    Positional("mpd"),
    Required("base"),
    Optional("now"),
    Optional("out"),
    Optional("digits"),
    Optional("addresses"),
    Optional("form"),
];

static DASH: [Parameter; 4] = [
    Positional("master"),
    Required("base"),
    Optional("out"),
    Optional("form"),
];

static FOLLOW: [Parameter; 6] = [
    Positional("name"),
    Required("base"),
    Optional("out"),
    Optional("digits"),
    Optional("addresses"),
    Optional("form"),
];

static SHOW: [Parameter; 4] = [
    Positional("file"),
    Required("base"),
    Optional("now"),
    Optional("digits"),
];

static CHECK: [Parameter; 4] = [
    Positional("mpd"),
    Positional("master"),
    Required("base"),
    Optional("digits"),
];

static RELOAD: [Parameter; 3] = [Positional("old"), Positional("new"), Required("base")];

static HLS_INDEX: [Parameter; 6] = [
    Positional("mpd"),
    Required("base"),
    Optional("out"),
    Optional("digits"),
    Optional("addresses"),
    Optional("form"),
];

static AGREE: [Parameter; 2] = [Positional("mpd"), Required("base")];

static COMPARE: [Parameter; 7] = [
    Positional("mpd"),
    Positional("master"),
    Required("base"),
    Optional("now"),
    Optional("digits"),
    Optional("within"),
    Optional("all"),
];

static MAKE: [Parameter; 3] = [Required("seed"), Optional("out"), Optional("digits")];

impl Parameter {
    ghost use Rattle.bridge_jobs.specs.Parameters.{rule_of_parameter};

    fn argument<'a>(self, alloc: Global) -> Arg<'a>
        ensures rule { rule_of result ≡ rule_of_parameter self }
        ensures local { result.global ≡ false }
    {
        match self {
            Positional(name) => Arg::new(alloc, name).required(true),
            Required(name) => Arg::new(alloc, name).long(name).required(true),
            Optional(name) => Arg::new(alloc, name).long(name),
        }
    }
}

impl Verb {
    ghost use Rattle.std.specs.Option.{option_map};
    ghost use Rattle.bridge_jobs.specs.Verbs.{app_of_verb, parameters_of, verb_of, word_of};
    ghost use Rattle.bridge_jobs.specs.Parameters.{rule_of_parameter};

    /// The command of a word.
    pub fn of(word: &str) -> Option<Verb>
        ensures { result ≡ verb_of word.now }
    {
        match word {
            "hls" => Some(Verb::Hls),
            "dash" => Some(Verb::Dash),
            "follow" => Some(Verb::Follow),
            "show" => Some(Verb::Show),
            "check" => Some(Verb::Check),
            "reload" => Some(Verb::Reload),
            "make" => Some(Verb::Make),
            "hls-index" => Some(Verb::HlsIndex),
            "dash-times" => Some(Verb::DashTimes),
            "agree" => Some(Verb::Agree),
            "follow-hls" => Some(Verb::FollowHls),
            "follow-hls-times" => Some(Verb::FollowHlsTimes),
            "compare" => Some(Verb::Compare),
            _ => None,
        }
    }

    fn word<'a>(self) -> &'a str
        ensures { result.now ≡ word_of self }
    {
        match self {
            Verb::Hls => "hls",
            Verb::Dash => "dash",
            Verb::Follow => "follow",
            Verb::Show => "show",
            Verb::Check => "check",
            Verb::Reload => "reload",
            Verb::Make => "make",
            Verb::HlsIndex => "hls-index",
            Verb::DashTimes => "dash-times",
            Verb::Agree => "agree",
            Verb::FollowHls => "follow-hls",
            Verb::FollowHlsTimes => "follow-hls-times",
            Verb::Compare => "compare",
        }
    }

    fn parameters(self) -> &'static [Parameter]
        ensures { map rule_of_parameter result.now ≡ parameters_of self }
    {
        match self {
            Verb::Hls => &HLS,
            Verb::Dash | Verb::DashTimes | Verb::FollowHls | Verb::FollowHlsTimes => &DASH,
            Verb::Follow => &FOLLOW,
            Verb::Show => &SHOW,
            Verb::Check => &CHECK,
            Verb::Reload => &RELOAD,
            Verb::Make => &MAKE,
            Verb::HlsIndex => &HLS_INDEX,
            Verb::Agree => &AGREE,
            Verb::Compare => &COMPARE,
        }
    }

    /// The command's syntax, for `clap`.
    pub fn syntax<'a>(self, alloc: Global) -> Result<Command<'a>, AllocError>
        ensures { IfOk result (λ command. app_of command ≡ app_of_verb self) }
    {
        let mut command: Command<'a> = Command::new(alloc, self.word());
        for parameter in self.parameters() {
            command = command.arg(parameter.argument(alloc))?;
        }
        Ok(command)
    }
}
