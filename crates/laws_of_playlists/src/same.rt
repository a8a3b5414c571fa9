//! Laws of what written playlists mean. The functions do nothing: what they ensure is the law.
ghost use Rattle.laws_of_playlists.specs.Same.{ReadMeanTheSame};
ghost use Rattle.laws_of_playlists.specs.SameFiles.{FoldersHoldFiles, TracksMeanTheSame, WrittenMeanTheSame};
ghost use Rattle.laws_of_playlists.specs.SameStatic.{WrittenMeansTheSame};

use crate::master::written_masters_are_read;
use crate::media::track_playlists_are_read_again;
use crate::origins::{
    static_parts_are_located, static_segments_are_in_pace, static_tracks_are_writable,
};
use exact_time::sums_are_floors;
use hls_meaning::sections_rise;
use mpd_presentation::static_mpds_are_finished;
use presentation::presentations_mean_what_they_list;

/// A presentation's playlists, read back, mean what the presentation means, with each time rounded down to the unit that
/// durations are written in.
pub fn read_playlists_mean_the_same()
    ensures { ReadMeanTheSame }
{
    sums_are_floors();
    sections_rise();
    presentations_mean_what_they_list();
}

/// Files with the text of a presentation's master playlist, plain or for players, and for each track a playlist with its
/// segments, mean what the presentation means, with each time rounded down, whatever else the playlists contain. A folder of a
/// store can hold them.
pub fn tracks_mean_the_same()
    ensures files { TracksMeanTheSame }
    ensures folders { FoldersHoldFiles }
{
    written_masters_are_read();
    read_playlists_mean_the_same();
}

/// So do files with the texts of a VOD presentation's master and media playlists.
pub fn written_playlists_mean_the_same()
    ensures { WrittenMeanTheSame }
{
    track_playlists_are_read_again();
    tracks_mean_the_same();
}

/// The playlists that are written for a static MPD mean what its presentation means, with each time rounded down to the
/// unit that durations are written in.
pub fn written_means_the_same()
    ensures { WrittenMeansTheSame }
{
    static_mpds_are_finished();
    static_tracks_are_writable();
    static_parts_are_located();
    static_segments_are_in_pace();
    written_playlists_mean_the_same();
}
