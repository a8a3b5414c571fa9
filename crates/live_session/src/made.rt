// Segments that were made.
use hls_writer::MediaItem;
use live_judge::Fact;

/// A segment that was made, and isn't stored yet.
#[derive(Drop)]
pub struct Made {
    /// Its playlist item.
    pub item: MediaItem,
    /// What else is stored of it.
    pub fact: Fact,
}

/// The segments that were made of a track.
#[derive(Drop)]
pub(crate) struct MadeTrack {
    pub(crate) segments: Vec<Made>,
}
