//! Laws of what playlists mean. The functions do nothing: what they ensure is the law.
ghost use Rattle.hls_meaning.specs.Laws.{NumbersRise, NumbersAreTold, NumbersAreThoseTold};

/// The numbers of the sections rise, and they are those of some segment.
pub fn sections_rise()
    ensures rise { NumbersRise }
    ensures told { NumbersAreTold }
    ensures those { NumbersAreThoseTold }
{}
