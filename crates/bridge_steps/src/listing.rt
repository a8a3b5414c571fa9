// The report lines of a presentation's tracks and sections.
ghost use Rattle.std.specs.Prelude.{◌≡◌, ◌<◌, ◌++◌, length, codes, flat_map, Ok, OnOk};
ghost use Rattle.std.specs.String.{string_bytes};
ghost use Rattle.hls_writer.specs.Lines.{seconds_bytes};
ghost use Rattle.presentation.specs.Counting.{counted, count_of_all, sections_of, tracks_of};
ghost use Rattle.bridge_steps.specs.Listing as spec;

use crate::done::push_counts;
use crate::seconds::push_seconds;
use bridge_io::Kind;
use exact_time::Digits;
use presentation::{Extent, Presentation, Track, answers_allow_listings};
use std::alloc::AllocError;
use std::fmt::Write;

/// Appends how many tracks, sections and segments a presentation has, and then a line for each track and section.
pub fn push_shown(
    lines: &mut String,
    word: &str,
    presentation: &Presentation,
    digits: Digits,
) -> Result<(), AllocError>
    requires counted { counted presentation.now ≡ Ok (count_of_all presentation.now) }
    ensures { OnOk result (string_bytes lines.new ≡ string_bytes lines.old ++ spec.shown word.now digits presentation.now) }
{
    push_counts(lines, word, presentation)?;
    push_tracks(lines, presentation, digits)
}

/// Appends the lines of all tracks.
fn push_tracks(
    lines: &mut String,
    presentation: &Presentation,
    digits: Digits,
) -> Result<(), AllocError>
    requires counted { counted presentation.now ≡ Ok (count_of_all presentation.now) }
    ensures { OnOk result (string_bytes lines.new ≡ string_bytes lines.old ++ flat_map (spec.track_lines digits presentation.now)
        (tracks_of presentation.now)) }
{
    for track in 0..presentation.tracks().len() {
        push_track(lines, presentation, track, digits)?;
    }
    Ok(())
}

/// Appends the lines of a track.
fn push_track(
    lines: &mut String,
    presentation: &Presentation,
    track: usize,
    digits: Digits,
) -> Result<(), AllocError>
    requires track { track < length presentation.now.tracks }
    requires counted { counted presentation.now ≡ Ok (count_of_all presentation.now) }
    ensures { OnOk result (string_bytes lines.new ≡ string_bytes lines.old ++ spec.track_lines digits presentation.now track) }
{
    let told = &presentation.tracks().as_slice()[track];
    push_entries(lines, presentation, track, told, digits)
}

/// Appends a track's line for each section.
fn push_entries(
    lines: &mut String,
    presentation: &Presentation,
    track: usize,
    told: &Track,
    digits: Digits,
) -> Result<(), AllocError>
    requires track { track < length presentation.now.tracks }
    requires counted { counted presentation.now ≡ Ok (count_of_all presentation.now) }
    ensures { OnOk result (string_bytes lines.new ≡ string_bytes lines.old ++ spec.entry_lines digits presentation.now track told.now) }
{
    for section in 0..presentation.sections().len() {
        push_entry(lines, presentation, track, section, told, digits)?;
    }
    Ok(())
}

/// Appends a track's line in a section.
fn push_entry(
    lines: &mut String,
    presentation: &Presentation,
    track: usize,
    section: usize,
    told: &Track,
    digits: Digits,
) -> Result<(), AllocError>
    requires track { track < length presentation.now.tracks }
    requires section { section < length presentation.now.sections }
    requires counted { counted presentation.now ≡ Ok (count_of_all presentation.now) }
    ensures { OnOk result (string_bytes lines.new ≡ string_bytes lines.old
        ++ spec.entry_line digits presentation.now track section told.now) }
{
    answers_allow_listings();
    let extent = presentation.extent(section, track, digits);
    push_head(lines, track, told, section, extent.segments)?;
    push_length(lines, digits, extent.units)
}

/// Appends a line up to the length.
fn push_head(
    lines: &mut String,
    track: usize,
    told: &Track,
    section: usize,
    segments: u64,
) -> Result<(), AllocError>
    ensures { OnOk result (string_bytes lines.new ≡ string_bytes lines.old ++ spec.entry_text track (spec.kind_word told.now.kind)
        (spec.language_word told.now.language) section segments) }
{
    push_words(
        lines,
        track,
        kind_word(told.kind),
        language_word(told),
        section,
        segments,
    )
}

#[tactic(auto, unfolding(crate::specs::Listing::entry_text))]
fn push_words(
    lines: &mut String,
    track: usize,
    kind: &str,
    language: &str,
    section: usize,
    segments: u64,
) -> Result<(), AllocError>
    ensures { OnOk result (string_bytes lines.new ≡ string_bytes lines.old
        ++ spec.entry_text track kind.now language.now section segments) }
{
    write!(
        lines,
        "track {track} {kind} {language} section {section} segments={segments} length="
    )
}

fn kind_word(kind: Kind) -> &'static str
    ensures { result.now ≡ spec.kind_word kind }
{
    match kind {
        Kind::Video => "video",
        Kind::Audio => "audio",
        Kind::Text => "text",
    }
}

fn language_word(track: &Track) -> &str
    ensures { result.now ≡ spec.language_word track.now.language }
{
    match &track.language {
        Some(language) => language.as_str(),
        None => "-",
    }
}

/// Appends a number of units, of which 10 to the number of digits make a second, and ends the line.
fn push_length(lines: &mut String, digits: Digits, units: u128) -> Result<(), AllocError>
    ensures { OnOk result (string_bytes lines.new ≡ string_bytes lines.old ++ (seconds_bytes digits units ++ codes "\n")) }
{
    push_seconds(lines, digits, units)?;
    lines.push('\n')?;
    Ok(())
}
