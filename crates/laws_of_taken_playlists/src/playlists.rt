// Written playlists, and the reader.
ghost use Rattle.laws_of_taken_playlists.specs.Laws.{WrittenAreTaken};

/// The reader takes the text of a followed playlist as that playlist, however URLs are spelled, where its target duration is below
/// 2^31 seconds, its other numbers are below 2^63, no byte range ends at 2^63 or behind, and it has at most 100,000 segments, each of at
/// most 1,000,000 seconds and of no more than the target duration.
pub fn written_playlists_are_taken()
    ensures { WrittenAreTaken }
{}
