// The words of the command line.
use bridge_io::Text;
use http::HeaderValue;
use http_header::HeaderValueError;
use std::alloc::{AllocError, Global};
use std::{env, io};

/// The line for a usage error.
pub const USAGE: &str =
    "usage: bridge_serve --base=<url> [--index=yes] [--now=<instant>] [--cache-control=<value>]";

/// What `--version` prints.
pub const VERSION: &str = "bridge_serve 1.5.4";

/// What `--help` prints.
pub const HELP: &str =
    "usage: bridge_serve --base=<url> [--index=yes] [--now=<instant>] [--cache-control=<value>]

Answers the HTTP/1.1 requests on standard input, on standard output, until the client closes the connection:

  GET /a/b.mpd/master.m3u8    the multivariant playlist of the MPD a/b.mpd below the current directory
  GET /a/b.mpd/t0.m3u8        the playlist of its first track
  GET /a/b.m3u8/manifest.mpd  the MPD of the multivariant playlist a/b.m3u8 and its media playlists
  POST /hls?base=<url>&file=master.m3u8
                              the same of the MPD in the body; in the query a URL is percent-encoded

  --base=<url>             the URL of the current directory; it ends in /
  --index=yes              MPDs are on-demand ones (SegmentBase), as hls-index reads them
  --now=<instant>          the time at which live MPDs are read, as 2026-11-30T12:00:00Z
  --cache-control=<value>  the Cache-Control of what is sent; no-cache without it

A manifest that is rejected is answered by 422 and the line that bridge prints.";

/// What the command line asks for.
#[derive(Drop)]
pub enum Command {
    /// To print the help.
    Help,
    /// To print the version.
    Version,
    /// A usage error.
    Wrong,
    /// To answer requests.
    Serve(Options),
}

/// How requests are answered.
#[derive(Drop)]
pub struct Options {
    /// The URL of the current directory.
    pub base: Text,
    /// Whether the media files of MPDs have a `sidx`.
    pub indexed: bool,
    /// The time at which live MPDs are read.
    pub now: Option<Text>,
    /// How caches may use the responses: the value of `Cache-Control`.
    pub cache: HeaderValue,
}

/// Parses the command line.
pub fn asked(rt: &HostRuntime) -> io::Result<Command> {
    let alloc = rt.alloc();
    let mut given = Given::default();
    for word in env::args(rt)?.skip(1) {
        match word.as_str() {
            "--help" => return Ok(Command::Help),
            "--version" => return Ok(Command::Version),
            word => {
                if !given.take(alloc, word)? {
                    return Ok(Command::Wrong);
                }
            }
        }
    }
    Ok(given.command())
}

/// The options so far.
#[derive(Default, Drop)]
struct Given {
    base: Option<Text>,
    indexed: Option<bool>,
    now: Option<Text>,
    cache: Option<HeaderValue>,
}

impl Given {
    /// Reads a word, and returns whether it is an option that wasn't given before.
    fn take(&mut self, alloc: Global, word: &str) -> Result<bool, AllocError> {
        let Some((option, value)) = word.split_once('=') else {
            return Ok(false);
        };
        match (option, value) {
            ("--base", base) => Ok(first(&mut self.base, text(alloc, base)?)),
            ("--index", "yes") => Ok(first(&mut self.indexed, true)),
            ("--now", now) => Ok(first(&mut self.now, text(alloc, now)?)),
            ("--cache-control", cache) => match HeaderValue::from_str(alloc, cache) {
                Ok(cache) => Ok(first(&mut self.cache, cache)),
                Err(HeaderValueError::Invalid) => Ok(false),
                Err(HeaderValueError::OutOfMemory) => Err(AllocError),
            },
            _ => Ok(false),
        }
    }

    fn command(self) -> Command {
        let Given {
            base,
            indexed,
            now,
            cache,
        } = self;
        let Some(base) = base else {
            return Command::Wrong;
        };
        let cache = match cache {
            Some(cache) => cache,
            None => HeaderValue::from_static("no-cache"),
        };
        Command::Serve(Options {
            base,
            indexed: indexed.unwrap_or(false),
            now,
            cache,
        })
    }
}

/// Sets a value, and returns whether there was none.
fn first<T: Drop>(place: &mut Option<T>, value: T) -> bool {
    let is_first = place.is_none();
    *place = Some(value);
    is_first
}

fn text(alloc: Global, value: &str) -> Result<Text, AllocError> {
    Ok(Text::from(String::from_str(alloc, value)?))
}
