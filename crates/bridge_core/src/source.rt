// The text of a generated MPD.
ghost use Rattle.std.specs.Prelude.{◌≡◌, ◌≤◌, ◌++◌, IfOk, OnOk};
ghost use Rattle.std.specs.String.{string_bytes};
ghost use Rattle.bridge_core.specs.Source as spec;

use bridge_io::{NoMemory, Text};
use std::alloc::{AllocError, Global};
use std::fmt::Write;

/// How many bytes the text has.
const LENGTH: usize = 9_942;

/// How many S elements a SegmentTimeline has.
const RUNS: u64 = 200;

const HEAD: &str =
    "<MPD xmlns=\"urn:mpeg:dash:schema:mpd:2011\" profiles=\"urn:mpeg:dash:profile:full:2011\" \
    type=\"static\" minBufferTime=\"PT2S\">\n";

const PERIOD: &str = "<Period id=\"0\">\n";

const TAIL: &str = "</Period>\n</MPD>\n";

/// A set of tracks.
#[derive(Clone, Copy, PartialEq, Eq)]
pub enum Side {
    /// Four video tracks.
    Video,
    /// Two audio tracks.
    Audio,
}

impl Side {
    /// The lines of the AdaptationSet (ISO/IEC 23009-1 5.3.3) before its S elements.
    fn head(self) -> &'static str
        ensures { result.now ≡ spec.set_head self }
    {
        match self {
            Side::Video => {
                "<AdaptationSet mimeType=\"video/mp4\" codecs=\"avc1.64001f\">\n\
                <SegmentTemplate timescale=\"90000\" initialization=\"$RepresentationID$/i.mp4\" \
                media=\"$RepresentationID$/$Number%06d$.m4s\">\n\
                <SegmentTimeline>\n"
            }
            Side::Audio => {
                "<AdaptationSet mimeType=\"audio/mp4\" codecs=\"mp4a.40.2\" lang=\"en\">\n\
                <SegmentTemplate timescale=\"48000\" initialization=\"$RepresentationID$/i.mp4\" \
                media=\"$RepresentationID$/$Number%06d$.m4s\">\n\
                <SegmentTimeline>\n"
            }
        }
    }

    /// The lines after them.
    fn tail(self) -> &'static str
        ensures { result.now ≡ spec.set_tail self }
    {
        match self {
            Side::Video => {
                "</SegmentTimeline>\n</SegmentTemplate>\n\
                <Representation id=\"v0\" bandwidth=\"1000000\"/>\n\
                <Representation id=\"v1\" bandwidth=\"2000000\"/>\n\
                <Representation id=\"v2\" bandwidth=\"3000000\"/>\n\
                <Representation id=\"v3\" bandwidth=\"4000000\"/>\n\
                </AdaptationSet>\n"
            }
            Side::Audio => {
                "</SegmentTimeline>\n</SegmentTemplate>\n\
                <Representation id=\"a0\" bandwidth=\"64000\"/>\n\
                <Representation id=\"a1\" bandwidth=\"128000\"/>\n\
                </AdaptationSet>\n"
            }
        }
    }

    /// The ticks of a segment in the run of this number, counted from the seed.
    fn ticks(self, number: u64) -> u64
        ensures { result ≡ spec.ticks_of self number }
    {
        match self {
            Side::Video => 180_000 + 1_000 * (number % 7),
            Side::Audio if number % 2 == 0 => 96_256,
            Side::Audio => 95_232,
        }
    }
}

/// The text of the MPD that is generated from a seed: a static one with one Period, in which each of four video tracks
/// and two audio tracks has 20,000 segments.
#[tactic(auto, unfolding(crate::specs::Source::source_text))]
pub fn source_text(alloc: Global, seed: u32) -> Result<Text, NoMemory>
    ensures { IfOk result (λ text. text ≡ spec.source_text seed) }
{
    let mut text = String::with_capacity(alloc, LENGTH)?;
    text.push_str(HEAD)?;
    text.push_str(PERIOD)?;
    push_set(&mut text, Side::Video, seed)?;
    push_set(&mut text, Side::Audio, seed)?;
    text.push_str(TAIL)?;
    Ok(Text::from(text))
}

/// Appends the lines of an AdaptationSet.
#[tactic(auto, unfolding(crate::specs::Source::set_text))]
fn push_set(text: &mut String, side: Side, seed: u32) -> Result<(), AllocError>
    ensures { OnOk result (string_bytes text.new ≡ string_bytes text.old ++ spec.set_text side seed) }
{
    text.push_str(side.head())?;
    push_runs(text, side, seed, RUNS)?;
    text.push_str(side.tail())
}

/// Appends `count` S elements.
#[tactic(auto, unfolding(crate::specs::Source::runs_text))]
fn push_runs(text: &mut String, side: Side, seed: u32, count: u64) -> Result<(), AllocError>
    requires { count ≤ RUNS }
    ensures { OnOk result (string_bytes text.new ≡ string_bytes text.old ++ spec.runs_text side seed count) }
{
    for run in 0..count {
        push_run(text, side.ticks(u64::from(seed) + run))?;
    }
    Ok(())
}

/// Appends an S element of 100 segments (ISO/IEC 23009-1 5.3.9.6).
#[tactic(auto, unfolding(crate::specs::Source::run_text))]
fn push_run(text: &mut String, ticks: u64) -> Result<(), AllocError>
    ensures { OnOk result (string_bytes text.new ≡ string_bytes text.old ++ spec.run_text ticks) }
{
    write!(text, "<S d=\"{ticks}\" r=\"99\"/>\n")
}
