// What is done with a manifest.
ghost use Rattle.std.specs.Prelude.{◌≡◌};
ghost use Rattle.bridge_pages.specs.Runs as spec;

/// The command that makes the files of a manifest.
#[derive(Clone, Copy)]
pub enum Verb {
    /// Playlists of an MPD.
    Hls,
    /// Playlists of an MPD whose media files have a `sidx`.
    HlsIndex,
    /// The MPD of a master playlist and its media playlists.
    Dash,
}

impl Verb {
    /// The command for a manifest: the end of its name says whether it is a master playlist or an MPD, and `indexed`
    /// which kind of MPD.
    pub fn of(indexed: bool, manifest: &str) -> Verb
        ensures { result ≡ spec.verb_of indexed manifest.now }
    {
        if manifest.as_bytes().ends_with(b".m3u8") {
            Verb::Dash
        } else if indexed {
            Verb::HlsIndex
        } else {
            Verb::Hls
        }
    }

    /// Its word on the command line.
    pub fn word(self) -> &'static str
        ensures { result.now ≡ spec.word_of self }
    {
        match self {
            Verb::Hls => "hls",
            Verb::HlsIndex => "hls-index",
            Verb::Dash => "dash",
        }
    }
}
