// The lines of differences.
ghost use Rattle.std.specs.Prelude.{◌≡◌, ◌++◌, codes, flat_map, IfOk, OnOk};
ghost use Rattle.std.specs.String.{string_bytes};
ghost use Rattle.bridge_compare.specs.Check.{aspect_word};
ghost use Rattle.bridge_compare.specs.Lines as spec;

use crate::check::aspect_word;
use bridge_io::{NoMemory, Text};
use differences::{Apart, Deviation, Deviations, How};
use meaning::Difference;
use std::alloc::{AllocError, Global};
use std::fmt::Write;

/// Appends a line for each difference, and then one for each track that both have, with its greatest difference of time.
pub(crate) fn push_all(text: &mut String, found: &Deviations) -> Result<(), AllocError>
    ensures { OnOk result (string_bytes text.new ≡ string_bytes text.old ++ spec.all_lines found.now) }
{
    push_deviations(text, found.first.as_slice())?;
    push_tracks(text, found.greatest.as_slice())
}

/// The line that tells how many differences there are.
#[tactic(auto, unfolding(crate::specs::Lines::count_line))]
pub(crate) fn count_line(alloc: Global, count: u64) -> Result<Text, NoMemory>
    ensures { IfOk result (λ line. line ≡ spec.count_line count) }
{
    Ok(Text::from(format!(in alloc; "differ {count}\n")?))
}

fn push_deviations(text: &mut String, found: &[Deviation]) -> Result<(), AllocError>
    ensures { OnOk result (string_bytes text.new ≡ string_bytes text.old ++ flat_map spec.deviation_line found.now) }
{
    for deviation in found {
        push_deviation(text, deviation)?;
    }
    Ok(())
}

fn push_deviation(text: &mut String, deviation: &Deviation) -> Result<(), AllocError>
    ensures { OnOk result (string_bytes text.new ≡ string_bytes text.old ++ spec.deviation_line deviation.now) }
{
    push_place(text, deviation.at)?;
    push_how(text, deviation.how)?;
    text.push_str("\n")
}

/// Appends where a difference is, as `check` tells it.
#[tactic(auto, unfolding(crate::specs::Lines::place_text))]
fn push_place(text: &mut String, at: Difference) -> Result<(), AllocError>
    ensures { OnOk result (string_bytes text.new
        ≡ string_bytes text.old ++ spec.place_text (aspect_word at.what) at.section at.track at.segment) }
{
    let what = aspect_word(at.what);
    let (section, track, segment) = (at.section, at.track, at.segment);
    write!(
        text,
        "differ {what} section {section} track {track} segment {segment}"
    )
}

fn push_how(text: &mut String, how: How) -> Result<(), AllocError>
    ensures { OnOk result (string_bytes text.new ≡ string_bytes text.old ++ spec.how_text how) }
{
    match how {
        How::Counts { mpd, playlists } => push_counts(text, mpd, playlists),
        How::Head { kind, language } => push_head(text, kind, language),
        How::Missing => text.push_str(" missing"),
        How::Extra => text.push_str(" extra"),
        How::Value => Ok(()),
        How::Times { start, end } => push_times(text, start, end),
    }
}

#[tactic(auto, unfolding(crate::specs::Lines::counts_text))]
fn push_counts(text: &mut String, mpd: usize, playlists: usize) -> Result<(), AllocError>
    ensures { OnOk result (string_bytes text.new ≡ string_bytes text.old ++ spec.counts_text mpd playlists) }
{
    write!(text, " mpd={mpd} playlists={playlists}")
}

fn push_head(text: &mut String, kind: bool, language: bool) -> Result<(), AllocError>
    ensures { OnOk result (string_bytes text.new ≡ string_bytes text.old
        ++ spec.word_if kind (codes " kind") ++ spec.word_if language (codes " language")) }
{
    if kind {
        text.push_str(" kind")?;
    }
    if language {
        text.push_str(" language")?;
    }
    Ok(())
}

#[tactic(auto, unfolding(crate::specs::Lines::times_text))]
fn push_times(text: &mut String, start: Apart, end: Apart) -> Result<(), AllocError>
    ensures { OnOk result (string_bytes text.new ≡ string_bytes text.old ++ spec.times_text start end) }
{
    let (start_sign, end_sign) = (sign_of(start), sign_of(end));
    let (start, end) = (start.nanoseconds, end.nanoseconds);
    write!(text, " start={start_sign}{start} end={end_sign}{end}")
}

fn sign_of(apart: Apart) -> &'static str
    ensures { result.now ≡ spec.sign_of apart }
{
    if apart.later || apart.nanoseconds == 0 {
        "+"
    } else {
        "-"
    }
}

fn push_tracks(text: &mut String, greatest: &[u64]) -> Result<(), AllocError>
    ensures { OnOk result (string_bytes text.new ≡ string_bytes text.old ++ spec.track_lines 0 greatest.now) }
{
    for (track, nanoseconds) in greatest.iter().enumerate() {
        push_track(text, track, *nanoseconds)?;
    }
    Ok(())
}

#[tactic(auto, unfolding(crate::specs::Lines::track_line))]
fn push_track(text: &mut String, track: usize, nanoseconds: u64) -> Result<(), AllocError>
    ensures { OnOk result (string_bytes text.new ≡ string_bytes text.old ++ spec.track_line track nanoseconds) }
{
    write!(text, "track {track} apart={nanoseconds}\n")
}
