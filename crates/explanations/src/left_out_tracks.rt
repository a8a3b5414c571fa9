// What is dropped of a multivariant playlist (master), and why.

use crate::lines::Lines;
use crate::shown::push_short;
use bridge_io::{NoMemory, Text};
use hls_master::MasterTrack;
use hls_media::Media;
use hls_presentation::{is_left_out, sources_of};
use std::alloc::Global;

/// For the tracks of a multivariant playlist (master) and their media playlists, in order, a line for each track that is
/// dropped, as many as `left-out` counts: its URL, its language, and why. Otherwise as [`left_out_of_mpd`].
pub fn left_out_of_master(
    alloc: Global,
    tracks: &[MasterTrack],
    playlists: &[Media],
) -> Result<Text, NoMemory> {
    let mut lines = Lines::new(alloc);
    let sources = sources_of(alloc, tracks, playlists)?;
    for source in sources.as_slice() {
        if is_left_out(source) && lines.count_one() {
            push_track(&mut lines.text, source.track)?;
        }
    }
    lines.finish()
}

fn push_track(text: &mut String, track: &MasterTrack) -> Result<(), NoMemory> {
    text.push_str("  left out: subtitles ")?;
    push_short(text, track.address.as_str())?;
    if let Some(language) = &track.language {
        text.push_str(", ")?;
        push_short(text, language.as_str())?;
    }
    text.push_str(": a segment without EXT-X-MAP, such as WebVTT\n")?;
    Ok(())
}
