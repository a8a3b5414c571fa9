//! Answers the HTTP/1.1 requests on standard input with the files that are made from the manifests below the current directory:
//! `GET /a/b.mpd/master.m3u8` with the multivariant playlist (master) of `a/b.mpd`, `GET /a/b.mpd/t0.m3u8` with the media
//! playlist of its first track, `GET /a/b.m3u8/manifest.mpd` with the MPD of the master playlist `a/b.m3u8` and its media
//! playlists, and `POST /hls` with a file of the MPD that is its body.
#![tactic(auto)]

ghost use Rattle.std.specs.Prelude.{◌≡◌, ◌<◌};

mod command;

use bridge_ends::FolderStore;
use bridge_io::{Ledger, Steps};
use bridge_pages::Playlists;
use command::{Command, HELP, Options, USAGE, VERSION, asked};
use http_server::Config;
use page_server::{Origin, Terms, serve_pages};
use std::hash::RandomState;
use std::io;
use std::io::ErrorKind;
use std::marker::Brand;
use std::process::ExitCode;
use std::sync::ledger::Blank;

/// The status of a usage error.
const WRONG_WORDS: u8 = 2;

/// The status of a failed connection.
const FAILED: u8 = 1;

/// The most bytes of a posted manifest, as of any.
const MANIFEST_LIMIT: usize = 8_388_608;

fn main(rt: HostRuntime) -> ExitCode {
    let ended = match asked(&rt) {
        Ok(Command::Help) => println!(rt; "{HELP}"),
        Ok(Command::Version) => println!(rt; "{VERSION}"),
        Ok(Command::Wrong) => {
            let _ = eprintln!(rt; "{USAGE}");
            return ExitCode::from(WRONG_WORDS);
        }
        Ok(Command::Serve(options)) => serve::<Brand>(rt, Blank::new(1), options),
        Err(error) => Err(error),
    };
    match ended {
        Ok(()) => ExitCode::SUCCESS,
        Err(_) => ExitCode::from(FAILED),
    }
}

/// Answers the requests until the connection is done.
fn serve<L: Ledger>(rt: HostRuntime, blank: Blank, options: Options) -> io::Result<()>
    requires name { blank.name ≡ L.name }
    requires parts { blank.parts ≡ L.parts }
    requires some { 0 < blank.parts }
{
    let alloc = rt.alloc();
    let keys = RandomState::new(&rt)?;
    let mut reader = rt.reader();
    let mut writer = io::writer(&rt);
    let Ok(folder) = FolderStore::new(rt, alloc, ".") else {
        return Err(ErrorKind::OutOfMemory.into());
    };
    let steps = Steps::<L>::new(blank);
    let maker = Playlists::new(alloc, options.indexed, options.now, steps);
    let terms = Terms {
        base: options.base,
        cache: options.cache,
    };
    let mut origin = Origin::new(alloc, terms, folder, maker);
    let config = Config {
        max_body_len: MANIFEST_LIMIT,
        ..Config::default()
    };
    serve_pages(alloc, keys, config, &mut origin, &mut reader, &mut writer)
}
