// What is reported of a presentation in one line.
ghost use Rattle.std.specs.Prelude.{◌≡◌, ◌++◌, codes, Ok, IfOk, OnOk};
ghost use Rattle.std.specs.String.{string_bytes};
ghost use Rattle.bridge_jobs.specs.Laws.{in_folder};
ghost use Rattle.presentation.specs.Counting.{counted, count_of_all};
ghost use Rattle.bridge_steps.specs.Done as spec;

use crate::playlists::file_in;
use bridge_io::{Name, NoMemory, Text};
use presentation::Presentation;
use std::alloc::{AllocError, Global};
use std::fmt::Write;

/// The line of the report for a presentation that is written.
pub fn done_line(alloc: Global, presentation: &Presentation) -> Result<Text, NoMemory>
    requires counted { counted presentation.now ≡ Ok (count_of_all presentation.now) }
    ensures { IfOk result (λ line. line ≡ spec.done_line presentation.now) }
{
    let mut line = String::new(alloc);
    push_counts(&mut line, "done", presentation)?;
    Ok(Text::from(line))
}

/// The name of the MPD in a folder and the line of the report, prepared before anything is written.
pub fn mpd_and_line(
    alloc: Global,
    out: &Name,
    presentation: &Presentation,
) -> Result<(Name, Text), NoMemory>
    requires counted { counted presentation.now ≡ Ok (count_of_all presentation.now) }
    ensures name { IfOk result (λ told. told.0 ≡ in_folder out.now (codes "manifest.mpd")) }
    ensures line { IfOk result (λ told. told.1 ≡ spec.done_line presentation.now) }
{
    let name = file_in(alloc, out, "manifest.mpd")?;
    Ok((name, done_line(alloc, presentation)?))
}

/// Appends how many tracks, sections and listed segments a presentation has, and how many were dropped.
#[tactic(auto, unfolding(crate::specs::Done::counts_text))]
pub fn push_counts(
    line: &mut String,
    word: &str,
    presentation: &Presentation,
) -> Result<(), AllocError>
    requires counted { counted presentation.now ≡ Ok (count_of_all presentation.now) }
    ensures { OnOk result (string_bytes line.new ≡ string_bytes line.old ++ spec.counts_line word.now presentation.now) }
{
    let (tracks, sections) = (presentation.tracks().len(), presentation.sections().len());
    push_tracks(line, word, tracks, sections)?;
    push_segments(line, count_of(presentation), presentation.left_out())
}

#[tactic(auto, unfolding(crate::specs::Done::tracks_text))]
fn push_tracks(
    line: &mut String,
    word: &str,
    tracks: usize,
    sections: usize,
) -> Result<(), AllocError>
    ensures { OnOk result (string_bytes line.new ≡ string_bytes line.old ++ spec.tracks_text word.now tracks sections) }
{
    write!(line, "{word} tracks={tracks} sections={sections} segments=")
}

#[tactic(auto, unfolding(crate::specs::Done::segments_text))]
fn push_segments(line: &mut String, segments: u64, left_out: u64) -> Result<(), AllocError>
    ensures { OnOk result (string_bytes line.new ≡ string_bytes line.old ++ spec.segments_text segments left_out) }
{
    write!(line, "{segments} left-out={left_out}\n")
}

/// How many segments are listed.
pub fn count_of(presentation: &Presentation) -> u64
    requires counted { counted presentation.now ≡ Ok (count_of_all presentation.now) }
    ensures { result ≡ count_of_all presentation.now }
{
    presentation.count().unwrap_or(0)
}
