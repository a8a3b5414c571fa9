//! Laws of the definitions. The functions do nothing: what they ensure is the law.
ghost use Rattle.laws_of_reloads.specs.First.{FirstFilesMeanTheSame};
ghost use Rattle.laws_of_reloads.specs.Laws.{FollowedTextsAreRead, FollowedTextsAreTaken, FollowedTextsReload, ReadTextsReload};
ghost use Rattle.laws_of_reloads.specs.Laws.{TakenTextsReload};

use laws_of_playlists::{
    counted_segments_are_in_pace, parts_are_located, playlists_are_read_again,
    read_trees_are_of_bytes, static_segments_are_in_pace, tracks_are_writable,
    tracks_mean_the_same,
};
use live_meaning::{
    accepted_never_drift, histories_go_on, playlists_are_never_empty, reloads_are_lawful,
    sections_have_one_map,
};
use mpd_presentation::presentations_show_their_mpd;
use mpd_rules::laws::period_ids_differ;
use presentation::presentations_mean_what_they_list;
use reload_law::rules_are_sentences;

/// For an accepted history of MPDs that were read, the text of each playlist is read back as the playlist that it was
/// written from, however URLs are spelled, where each text stands for its URL in the playlist. The reader of playlists takes it as that
/// playlist, where the target duration is below 2^31 seconds, no segment is longer than 1,000,000 seconds, and no byte range ends at 2^63.
pub fn followed_texts_are_read()
    ensures told { FollowedTextsAreRead }
    ensures taken { FollowedTextsAreTaken }
{
    accepted_never_drift();
    sections_have_one_map();
    playlists_are_never_empty();
    presentations_mean_what_they_list();
    counted_segments_are_in_pace();
    static_segments_are_in_pace();
    parts_are_located();
    read_trees_are_of_bytes();
    playlists_are_read_again();
}

/// Where an update is accepted after others, each track's new text is read as a valid update of what its previous text
/// is read as (RFC 8216, 6.2). So are the results of a reader of playlists, where it rejects neither; and it takes both where their
/// numbers are such as it takes.
pub fn followed_texts_reload()
    ensures texts { FollowedTextsReload }
    ensures read { ReadTextsReload }
    ensures taken { TakenTextsReload }
{
    followed_texts_are_read();
    histories_go_on();
    reloads_are_lawful();
    rules_are_sentences();
}

/// The playlists that are written for a first MPD that was read mean what its presentation means at its time, with each time
/// rounded down to the unit that durations are written in.
pub fn first_files_mean_the_same()
    ensures { FirstFilesMeanTheSame }
{
    period_ids_differ();
    presentations_show_their_mpd();
    histories_go_on();
    presentations_mean_what_they_list();
    tracks_are_writable();
    counted_segments_are_in_pace();
    followed_texts_are_read();
    tracks_mean_the_same();
}
