// What the reader takes the texts of served and of published playlists for.
ghost use Rattle.laws_of_taken_texts.specs.Laws.{FirstTextsAreTaken, PublishedTextsAreTaken, ReadTextsAreTaken};

use hls_media::{
    segments_are_told_by_the_lines_before, what_is_read_is_bounded, what_is_read_is_meant,
};
use laws_of_mpds::what_is_read_has_addresses;
use laws_of_playlists::playlists_are_read_again;

/// The text of a list that was read is taken as that list, whatever its URL. So is that of the same list with a target duration
/// that isn't below its own, and is below 2^31, ended or not, as it is published first.
pub fn read_texts_are_taken()
    ensures own { ReadTextsAreTaken }
    ensures first { FirstTextsAreTaken }
{
    what_is_read_is_bounded();
    what_is_read_is_meant();
    segments_are_told_by_the_lines_before();
    what_is_read_has_addresses();
    playlists_are_read_again();
}

/// The text of a playlist that takes the place of a served one is taken as its list, whatever its URL, where both lists that it
/// came of were read, no number is 2^63 or more and there are at most 100,000 segments.
pub fn published_texts_are_taken()
    ensures { PublishedTextsAreTaken }
{
    what_is_read_is_bounded();
    what_is_read_is_meant();
    segments_are_told_by_the_lines_before();
    what_is_read_has_addresses();
    playlists_are_read_again();
}
