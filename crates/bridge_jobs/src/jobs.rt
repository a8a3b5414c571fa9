// Commands.
use bridge_io::{Name, Text};
use exact_time::{Digits, Nanos};
use iso_time::Instant;
use segment_forms::Form;

/// A command with its arguments.
///
/// A `base` is the URL of the directory that the store's root stands for, as it is written. An `out` is the directory
/// of the files that are written, at most 242 bytes long. `digits` is the number of decimals of printed durations.
/// `instant` is the time at which a live MPD is read. `form` is whether what is written is plain or for players: how an MPD
/// gives the segments of its tracks, and what a master playlist says of them. `addresses` is how playlists give the URLs
/// of their segments.
#[derive(Drop)]
pub enum Job {
    /// Converts an MPD to playlists.
    Hls(HlsJob),
    /// Converts a multivariant playlist (master) and its media playlists to an MPD.
    Dash(MasterJob),
    /// Converts the updates of a live MPD to live (sliding-window) playlists.
    Follow(FollowJob),
    /// Lists the tracks and sections of an MPD or of a master playlist.
    Show(ShowJob),
    /// Compares what an MPD and a master playlist mean.
    Check(CheckJob),
    /// Checks whether a media playlist is a valid update of another (RFC 8216, 6.2.1).
    Reload(ReloadJob),
    /// Generates an MPD of many segments, and converts it to playlists.
    Make(MakeJob),
    /// Converts an MPD with SegmentBase (ISO/IEC 23009-1, 5.3.9.2), whose files have a `sidx`, to playlists.
    HlsIndex(IndexJob),
    /// Converts a master playlist and its media playlists to an MPD, with the decode times (`tfdt`) of the files.
    DashTimes(MasterJob),
    /// Checks whether the times of an MPD are the decode times (`tfdt`) of its files.
    Agree(AgreeJob),
    /// Converts snapshots of live media playlists to an MPD.
    FollowHls(MasterJob),
    /// Converts snapshots of live media playlists to an MPD, with the decode times (`tfdt`) of the files.
    FollowHlsTimes(MasterJob),
    /// Lists every difference of what an MPD and a master playlist mean.
    Compare(CompareJob),
}

/// How playlists give the URLs of their segments and init segments.
#[derive(Clone, Copy)]
pub enum Addresses {
    /// As absolute URLs.
    Absolute,
    /// Relative to the playlist, where they lie below the base and this gives the same URL.
    Relative,
}

/// The arguments of `hls`.
#[derive(Drop)]
pub struct HlsJob {
    /// The MPD's file.
    pub mpd: Name,
    /// The URL of the store's root.
    pub base: Text,
    /// The time at which a live MPD is read.
    pub instant: Option<Instant>,
    /// The directory of the playlists.
    pub out: Name,
    /// The decimals of printed durations.
    pub digits: Digits,
    /// How the playlists give URLs.
    pub addresses: Addresses,
    /// Whether the playlists are plain or for players.
    pub form: Form,
}

/// The arguments of the commands that convert a master playlist to an MPD.
#[derive(Drop)]
pub struct MasterJob {
    /// The master playlist's file.
    pub master: Name,
    /// The URL of the store's root.
    pub base: Text,
    /// The directory of the MPD.
    pub out: Name,
    /// How the MPD gives the segments of its tracks.
    pub form: Form,
}

/// The arguments of `follow`.
#[derive(Drop)]
pub struct FollowJob {
    /// The MPD's name below the base. The file isn't read.
    pub name: Name,
    /// The URL of the store's root.
    pub base: Text,
    /// The directory of the playlists.
    pub out: Name,
    /// The decimals of printed durations.
    pub digits: Digits,
    /// How the playlists give URLs.
    pub addresses: Addresses,
    /// Whether the playlists are plain or for players.
    pub form: Form,
}

/// The arguments of `show`.
#[derive(Drop)]
pub struct ShowJob {
    /// The file of an MPD or of a master playlist.
    pub file: Name,
    /// The URL of the store's root.
    pub base: Text,
    /// The time at which a live MPD is read.
    pub instant: Option<Instant>,
    /// The decimals of lengths.
    pub digits: Digits,
}

/// The arguments of `check`.
#[derive(Drop)]
pub struct CheckJob {
    /// The MPD's file.
    pub mpd: Name,
    /// The master playlist's file.
    pub master: Name,
    /// The URL of the store's root.
    pub base: Text,
    /// The decimals that the playlists' times may be rounded down to.
    pub digits: Digits,
}

/// The arguments of `reload`: two versions of a media playlist (RFC 8216, 6.2.1).
#[derive(Drop)]
pub struct ReloadJob {
    /// The file of the old version.
    pub old: Name,
    /// The file of the new version.
    pub new: Name,
    /// The URL of the store's root.
    pub base: Text,
}

/// The arguments of `make`.
#[derive(Drop)]
pub struct MakeJob {
    /// The seed that the MPD is generated from.
    pub seed: u32,
    /// The directory of the MPD and of the playlists.
    pub out: Name,
    /// The decimals of printed durations.
    pub digits: Digits,
}

/// The arguments of `hls-index`.
#[derive(Drop)]
pub struct IndexJob {
    /// The MPD's file.
    pub mpd: Name,
    /// The URL of the store's root.
    pub base: Text,
    /// The directory of the playlists.
    pub out: Name,
    /// The decimals of printed durations.
    pub digits: Digits,
    /// How the playlists give URLs.
    pub addresses: Addresses,
    /// Whether the playlists are plain or for players.
    pub form: Form,
}

/// The arguments of `agree`.
#[derive(Drop)]
pub struct AgreeJob {
    /// The MPD's file.
    pub mpd: Name,
    /// The URL of the store's root.
    pub base: Text,
}

/// The arguments of `compare`.
#[derive(Drop)]
pub struct CompareJob {
    /// What is compared, as by `check`.
    pub check: CheckJob,
    /// The time at which a live MPD is read.
    pub instant: Option<Instant>,
    /// The greatest difference of two times that counts as none, at most 10 seconds.
    pub within: Nanos,
    /// How many differences are listed at most: 1 to 100,000.
    pub most: usize,
}
