// The law of written master playlists.
ghost use Rattle.laws_of_playlists.specs.Master.{MasterIsRead};

/// A written master playlist, plain or for players, is read back as the tracks for which it was written, in order, each with its
/// kind, its language and the name of its playlist beside the master (RFC 8216 4.3.4). This holds where the labels that it may
/// have as names are UTF-8 without control characters and quotes, and don't end in `-` and a number.
pub fn written_masters_are_read()
    ensures { MasterIsRead }
{}
