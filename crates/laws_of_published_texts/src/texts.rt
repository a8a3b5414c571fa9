// What the texts of served and of published playlists are read as.
ghost use Rattle.laws_of_published_texts.specs.Laws.{FirstTextsAreTold, PublishedTextsAreTold, PublishedTextsReload, ReadTextsAreTold};

use hls_media::{
    segments_are_told_by_the_lines_before, what_is_read_is_bounded, what_is_read_is_meant,
};
use laws_of_mpds::what_is_read_has_addresses;
use laws_of_playlists::playlists_are_read_again;
use laws_of_publishing::published_lists_reload;
use reload_law::rules_are_sentences;

/// The text of a list that was read is read as the list says, whatever its URL. So is that of the same list with any target
/// duration below 2^31, ended or not, as it is published first.
pub fn read_texts_are_told()
    ensures own { ReadTextsAreTold }
    ensures first { FirstTextsAreTold }
{
    what_is_read_is_bounded();
    what_is_read_is_meant();
    segments_are_told_by_the_lines_before();
    what_is_read_has_addresses();
    playlists_are_read_again();
}

/// The text of a playlist that takes the place of a served one is read as its list says, whatever its URL.
pub fn published_texts_are_read()
    ensures { PublishedTextsAreTold }
{
    what_is_read_is_bounded();
    what_is_read_is_meant();
    segments_are_told_by_the_lines_before();
    what_is_read_has_addresses();
    playlists_are_read_again();
}

/// It is a valid update of the served text (RFC 8216, 6.2.1 and 6.2.2).
pub fn published_texts_reload()
    ensures { PublishedTextsReload }
{
    read_texts_are_told();
    published_texts_are_read();
    published_lists_reload();
    rules_are_sentences();
}
