// Why the input of a command is rejected, and the report's line for it.
ghost use Rattle.std.specs.Prelude.{◌≡◌, ◌++◌, IfOk};
ghost use Rattle.bridge_report.specs.Refusals as spec;

use crate::fault_words::{
    frame_words, hls_words, live_words, master_words, media_words, presentation_words, rule_words,
    text_words, update_words,
};
use crate::index_refusal::{IndexRefusal, index_spot, index_words};
use crate::spot::Spot;
use crate::times_refusal::{TimesRefusal, times_spot, times_words};
use crate::update_fault::UpdateFault;
use bridge_io::{NoMemory, Place, Text};
use bridge_jobs::FrameFault;
use hls_lines::LineFault;
use hls_master::MasterFault;
use hls_media::MediaFault;
use layer_faults::{HlsFault, LiveFault};
use mpd_profile::RuleFault;
use mpd_tree::TextFault;
use presentation::PresentationFault;
use std::alloc::Global;

/// Why the input of a command is rejected.
#[derive(Clone, Copy, PartialEq, Eq)]
pub enum Refusal {
    /// The base isn't a folder's URL as the URL Standard serializes it, or it is too long for the file's URL.
    Base,
    /// The file has too many bytes: the first one past the limit.
    TooLong(Place),
    /// There is no such file.
    Absent,
    /// The bytes spell no tree.
    Text(TextFault),
    /// The tree isn't that of an MPD of the profile.
    Rules(RuleFault),
    /// The MPD gives no presentation.
    Presentation(PresentationFault),
    /// The file isn't a media playlist of the profile.
    Media(MediaFault),
    /// The file isn't a master playlist of the profile.
    Master(MasterFault),
    /// A media playlist of the master isn't a file under the base.
    OutsideBase,
    /// The master's playlists have more than 500,000 segments together.
    TooManySegments,
    /// The master's playlists give no presentation.
    Hls(HlsFault),
    /// The MPD is dynamic, where a static one is required (ISO/IEC 23009-1, 5.3.1.2).
    NotStatic,
    /// The stream of update frames isn't valid. I/O errors and out of memory don't occur here.
    Frame(FrameFault),
    /// The update frame is a tick or a reset, and no MPD was accepted before.
    NotOpen,
    /// The update frame breaks a rule of a followed presentation.
    Session(UpdateFault),
    /// Media files with a `sidx` give no presentation.
    Index(IndexRefusal),
    /// Media files give no decode times.
    Times(TimesRefusal),
    /// A snapshot of live playlists can't follow those that were accepted.
    Live(LiveFault),
}

/// Why the input of a command isn't read.
#[derive(Clone, Copy, PartialEq, Eq)]
pub enum Stop {
    /// It is rejected.
    Refused(Refusal),
    /// Out of memory, which says nothing about the input.
    Memory,
}

impl Stop {
    /// A fault of a text.
    pub fn of_text(fault: TextFault) -> Stop
        ensures { result ≡ spec.stop_of_text fault }
    {
        match fault {
            TextFault::Memory => Stop::Memory,
            _ => Stop::Refused(Refusal::Text(fault)),
        }
    }

    /// A fault against the rules of an MPD.
    pub fn of_rules(fault: RuleFault) -> Stop
        ensures { result ≡ spec.stop_of_rules fault }
    {
        match fault {
            RuleFault::Memory => Stop::Memory,
            _ => Stop::Refused(Refusal::Rules(fault)),
        }
    }

    /// A fault of a presentation.
    pub fn of_presentation(fault: PresentationFault) -> Stop
        ensures { result ≡ spec.stop_of_presentation fault }
    {
        match fault {
            PresentationFault::Memory => Stop::Memory,
            _ => Stop::Refused(Refusal::Presentation(fault)),
        }
    }

    /// A fault of a media playlist.
    pub fn of_media(fault: MediaFault) -> Stop
        ensures { result ≡ spec.stop_of_media fault }
    {
        match fault {
            MediaFault::Memory => Stop::Memory,
            _ => Stop::Refused(Refusal::Media(fault)),
        }
    }

    /// Why a snapshot of live playlists isn't accepted.
    pub fn of_live(fault: LiveFault) -> Stop
        ensures { result ≡ spec.stop_of_live fault }
    {
        match fault {
            LiveFault::Memory => Stop::Memory,
            _ => Stop::Refused(Refusal::Live(fault)),
        }
    }
}

/// The report's line for a rejected file; `-` stands for no file.
#[tactic(auto, unfolding(crate::specs::Refusals::refusal_line))]
pub fn refusal_line(alloc: Global, file: &str, refusal: Refusal) -> Result<Text, NoMemory>
    ensures { IfOk result (λ line. line ≡ spec.refusal_line file.now refusal) }
{
    let text = refusal_text(alloc, refusal)?;
    let text = text.as_str();
    Ok(Text::from(format!(in alloc; "refused {file} {text}\n")?))
}

/// The report's text for an error, without the file: the layer's word, the number and the name, and the position, if there is
/// one.
#[tactic(auto, unfolding(crate::specs::Refusals::refusal_text))]
pub fn refusal_text(alloc: Global, refusal: Refusal) -> Result<Text, NoMemory>
    ensures { IfOk result (λ text. text ≡ spec.refusal_text refusal) }
{
    told_text(alloc, words(refusal), &refusal)
}

/// The report's text for an error with the name of its file: the layer's word, the number and the name, the file, and the position, if
/// there is one.
#[tactic(auto, unfolding(crate::specs::Refusals::file_refusal_text))]
pub fn file_refusal_text(alloc: Global, file: &str, refusal: Refusal) -> Result<Text, NoMemory>
    ensures { IfOk result (λ text. text ≡ spec.file_refusal_text file.now refusal) }
{
    let words = words(refusal);
    let words = format!(in alloc; "{words} {file}")?;
    told_text(alloc, words.as_str(), &refusal)
}

/// Words with the position, if there is one.
fn told_text(alloc: Global, words: &str, refusal: &Refusal) -> Result<Text, NoMemory>
    ensures { IfOk result (λ text. text ≡ words.now ++ spec.spot_text (spec.spot_of refusal.now)) }
{
    match spot(*refusal) {
        None => Text::copy_of(alloc, words),
        Some(Spot::Byte(at)) => Ok(Text::from(format!(in alloc; "{words} at {at}")?)),
        Some(Spot::At(place)) => text_at(alloc, words, place),
        Some(
            Spot::Segment {
                section,
                track,
                segment,
            },
        ) => Ok(Text::from(format!(in alloc;
            "{words} section {section} track {track} segment {segment}"
        )?)),
    }
}

fn text_at(alloc: Global, words: &str, place: Place) -> Result<Text, NoMemory>
    ensures { IfOk result (λ text. text ≡ words.now ++ spec.spot_text (Some (Spot.At place))) }
{
    let (at, line) = (place.at, place.line);
    Ok(Text::from(format!(in alloc; "{words} at {at} line {line}")?))
}

/// The layer's word, the number and the name.
fn words(refusal: Refusal) -> &'static str
    ensures { result.now ≡ spec.words_of refusal }
{
    match refusal {
        Refusal::Base => "job 1 Base",
        Refusal::TooLong(_) => "io 1 TooLong",
        Refusal::Absent => "io 2 Absent",
        Refusal::Text(fault) => text_words(fault),
        Refusal::Rules(fault) => rule_words(fault),
        Refusal::Presentation(fault) => presentation_words(fault),
        Refusal::Media(fault) => media_words(fault),
        Refusal::Master(fault) => master_words(fault),
        Refusal::OutsideBase => "job 2 OutsideBase",
        Refusal::TooManySegments => "job 3 Limit",
        Refusal::Hls(fault) => hls_words(fault),
        Refusal::NotStatic => "job 4 NotStatic",
        Refusal::Frame(fault) => frame_words(fault),
        Refusal::NotOpen => "frame 4 NotOpen",
        Refusal::Session(fault) => update_words(fault),
        Refusal::Index(refusal) => index_words(refusal),
        Refusal::Times(refusal) => times_words(refusal),
        Refusal::Live(fault) => live_words(fault),
    }
}

/// The position, if there is one.
fn spot(refusal: Refusal) -> Option<Spot>
    ensures { result ≡ spec.spot_of refusal }
{
    match refusal {
        Refusal::Base
        | Refusal::Absent
        | Refusal::OutsideBase
        | Refusal::TooManySegments
        | Refusal::Hls(_)
        | Refusal::NotStatic
        | Refusal::NotOpen
        | Refusal::Session(_)
        | Refusal::Live(_) => None,
        Refusal::TooLong(place) => Some(Spot::At(place)),
        Refusal::Text(fault) => text_spot(fault),
        Refusal::Rules(fault) => rule_spot(fault),
        Refusal::Presentation(fault) => presentation_spot(fault),
        Refusal::Media(fault) => media_spot(fault),
        Refusal::Master(fault) => master_spot(fault),
        Refusal::Frame(fault) => frame_spot(fault),
        Refusal::Index(refusal) => index_spot(refusal),
        Refusal::Times(refusal) => times_spot(refusal),
    }
}

fn text_spot(fault: TextFault) -> Option<Spot>
    ensures { result ≡ spec.text_spot fault }
{
    match fault {
        TextFault::NotUtf8(place)
        | TextFault::BadChar(place)
        | TextFault::Cut(place)
        | TextFault::Syntax(place)
        | TextFault::TagMismatch(place)
        | TextFault::DoubleAttribute(place)
        | TextFault::Entity(place)
        | TextFault::Doctype(place)
        | TextFault::Cdata(place)
        | TextFault::Instruction(place)
        | TextFault::Depth(place) => Some(Spot::At(place)),
        TextFault::Memory => None,
    }
}

fn rule_spot(fault: RuleFault) -> Option<Spot>
    ensures { result ≡ spec.rule_spot fault }
{
    match fault {
        RuleFault::Root(place)
        | RuleFault::Namespace(place)
        | RuleFault::Missing(place)
        | RuleFault::Value(place)
        | RuleFault::NoStart(place)
        | RuleFault::PeriodOrder(place)
        | RuleFault::Encryption(place)
        | RuleFault::Events(place)
        | RuleFault::LowLatency(place)
        | RuleFault::Remote(place)
        | RuleFault::Essential(place)
        | RuleFault::Unsupported(place)
        | RuleFault::IndexNeeded(place)
        | RuleFault::NoTracks(place) => Some(Spot::At(place)),
        RuleFault::Memory => None,
    }
}

/// A track without segments is reported as its first segment.
fn presentation_spot(fault: PresentationFault) -> Option<Spot>
    ensures { result ≡ spec.presentation_spot fault }
{
    match fault {
        PresentationFault::NoSegments { section, track } => Some(Spot::Segment {
            section,
            track,
            segment: 0,
        }),
        PresentationFault::Url(_, spot) => Some(Spot::of(spot)),
        PresentationFault::PeriodsDiffer(place)
        | PresentationFault::Template(_, place)
        | PresentationFault::Timeline(_, place) => Some(Spot::At(place)),
        PresentationFault::Limit | PresentationFault::NeedsNow | PresentationFault::Memory => None,
    }
}

fn line_spot(fault: LineFault) -> Option<Spot>
    ensures { result ≡ spec.line_spot fault }
{
    match fault {
        LineFault::NotUtf8(place)
        | LineFault::BadChar(place)
        | LineFault::Header(place)
        | LineFault::Attribute(place)
        | LineFault::DoubleAttribute(place) => Some(Spot::At(place)),
        LineFault::Memory => None,
    }
}

fn media_spot(fault: MediaFault) -> Option<Spot>
    ensures { result ≡ spec.media_spot fault }
{
    match fault {
        MediaFault::Line(fault) => line_spot(fault),
        MediaFault::NoTarget(place)
        | MediaFault::Duration(place)
        | MediaFault::LongSegment(place)
        | MediaFault::RangeStart(place)
        | MediaFault::Limit(place)
        | MediaFault::Encryption(place)
        | MediaFault::Events(place)
        | MediaFault::LowLatency(place)
        | MediaFault::Unsupported(place)
        | MediaFault::Url(_, place)
        | MediaFault::Value(place)
        | MediaFault::Misplaced(place) => Some(Spot::At(place)),
        MediaFault::Memory => None,
    }
}

fn master_spot(fault: MasterFault) -> Option<Spot>
    ensures { result ≡ spec.master_spot fault }
{
    match fault {
        MasterFault::Line(fault) => line_spot(fault),
        MasterFault::Missing(place)
        | MasterFault::Value(place)
        | MasterFault::Misplaced(place)
        | MasterFault::Url(_, place)
        | MasterFault::Muxed(place)
        | MasterFault::GroupUnknown(place)
        | MasterFault::SameName(place)
        | MasterFault::Encryption(place)
        | MasterFault::Unsupported(place)
        | MasterFault::NoTracks(place)
        | MasterFault::Limit(place) => Some(Spot::At(place)),
        MasterFault::Memory => None,
    }
}

/// A position in the stream.
fn frame_spot(fault: FrameFault) -> Option<Spot>
    ensures { result ≡ spec.frame_spot fault }
{
    match fault {
        FrameFault::Header(place) | FrameFault::Cut(place) | FrameFault::TooMany(place) => {
            Some(Spot::At(place))
        }
        FrameFault::Fault | FrameFault::Memory => None,
    }
}
