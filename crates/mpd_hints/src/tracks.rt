// What an MPD says of the kept Representations of a Period.
ghost use Rattle.std.specs.Prelude.{◌≡◌, ◌++◌, IfOk, OnOk};
ghost use Rattle.bridge_io.specs.declared.media.Kind.TheVariants as kinds;
ghost use Rattle.mpd_tree.specs.Nodes.{element_of};
ghost use Rattle.mpd_rules.specs.Kept.{periods_of};
ghost use Rattle.mpd_hints.specs.Tracks as spec;

use crate::descriptors::{channels_over, describes, has_role, is_forced, transcribes};
use crate::elements::{is_period, is_representation, is_set, kind_or, kind_over};
use crate::labels::label_of;
use bridge_io::{Kind, NoMemory, Text};
use mpd_profile::value_named;
use mpd_tree::Node;
use std::alloc::Global;
use track_hints::{HintList, TrackHints};

/// A Representation's kind, and what is said of it.
#[derive(Drop)]
pub(crate) struct Told {
    pub(crate) kind: Kind,
    pub(crate) hints: TrackHints,
}

/// The kept Representations of the first Period, in document order.
pub(crate) fn told_in_first(alloc: Global, mpd: Node<'_>) -> Result<Vec<Told>, NoMemory>
    ensures { IfOk result (λ tolds. tolds.items ≡ spec.told_in_first (periods_of (element_of mpd.entry))) }
{
    for period in mpd.children() {
        if is_period(period) {
            return told_in(alloc, period);
        }
    }
    Ok(Vec::new(alloc))
}

fn told_in(alloc: Global, period: Node<'_>) -> Result<Vec<Told>, NoMemory>
    ensures { IfOk result (λ tolds. tolds.items ≡ spec.told_in (element_of period.entry)) }
{
    let mut tolds = Vec::new(alloc);
    for set in period.children() {
        if is_set(set) {
            add_set(alloc, &mut tolds, set)?;
        }
    }
    Ok(tolds)
}

fn add_set(alloc: Global, tolds: &mut Vec<Told>, set: Node<'_>) -> Result<(), NoMemory>
    ensures { OnOk result (tolds.new.items ≡ tolds.old.items ++ spec.told_in_set (element_of set.entry)) }
{
    let media_type = value_named(set, "mimeType");
    let kind = kind_or(set, None);
    let said = said_by(alloc, set)?;
    for child in set.children() {
        if is_representation(media_type, child) {
            tolds.push(told_over(alloc, kind, &said, child)?)?;
        }
    }
    Ok(())
}

fn told_over(
    alloc: Global,
    of_set: Option<Kind>,
    said: &TrackHints,
    representation: Node<'_>,
) -> Result<Told, NoMemory>
    ensures { IfOk result (λ told. told ≡ spec.told_over of_set said.now (element_of representation.entry)) }
{
    let kind = kind_over(of_set, representation);
    let hints = hints_over(alloc, said, kind, representation)?;
    Ok(Told { kind, hints })
}

/// What a set says, whatever the kind of its Representations.
fn said_by(alloc: Global, set: Node<'_>) -> Result<TrackHints, NoMemory>
    ensures { IfOk result (λ said. said ≡ spec.said_by (element_of set.entry)) }
{
    let label = label_of(alloc, set)?;
    Ok(TrackHints {
        label,
        main: has_role(set, "main"),
        describes: describes(set),
        transcribes: transcribes(set),
        forced: is_forced(set),
        channels: channels_over(None, set),
    })
}

/// What of it counts for a Representation of a kind, together with what that says itself.
fn hints_over(
    alloc: Global,
    of_set: &TrackHints,
    kind: Kind,
    representation: Node<'_>,
) -> Result<TrackHints, NoMemory>
    ensures { IfOk result (λ hints. hints ≡ spec.hints_over of_set.now kind (element_of representation.entry)) }
{
    let label = copy_of(alloc, &of_set.label)?;
    Ok(TrackHints {
        label,
        main: of_set.main,
        describes: kind == Kind::Audio && of_set.describes,
        transcribes: kind == Kind::Text && of_set.transcribes,
        forced: kind == Kind::Text && of_set.forced,
        channels: match kind {
            Kind::Audio => channels_over(of_set.channels, representation),
            _ => None,
        },
    })
}

fn copy_of(alloc: Global, text: &Option<Text>) -> Result<Option<Text>, NoMemory>
    ensures { IfOk result (λ copy. copy ≡ text.now) }
{
    match text {
        Some(text) => Ok(Some(Text::copy_of(alloc, text.as_str())?)),
        None => Ok(None),
    }
}

/// What is said of Representations, by their kind.
#[derive(Drop)]
struct ByKind {
    video: HintList,
    audio: HintList,
    text: HintList,
}

/// Video, then audio, then text, each in document order.
pub(crate) fn in_order(alloc: Global, tolds: Vec<Told>) -> Result<HintList, NoMemory>
    ensures { IfOk result (λ hints. hints ≡ spec.in_order tolds.items) }
{
    let ByKind {
        mut video,
        mut audio,
        text,
    } = by_kind(alloc, tolds)?;
    add_all(&mut audio, text)?;
    add_all(&mut video, audio)?;
    Ok(video)
}

fn by_kind(alloc: Global, tolds: Vec<Told>) -> Result<ByKind, NoMemory>
    ensures video { IfOk result (λ found. found.video ≡ spec.hints_of_kind kinds.Video tolds.items) }
    ensures audio { IfOk result (λ found. found.audio ≡ spec.hints_of_kind kinds.Audio tolds.items) }
    ensures text { IfOk result (λ found. found.text ≡ spec.hints_of_kind kinds.Text tolds.items) }
{
    let mut video = HintList::new(alloc);
    let mut audio = HintList::new(alloc);
    let mut text = HintList::new(alloc);
    for told in tolds {
        match told.kind {
            Kind::Video => video.push(told.hints)?,
            Kind::Audio => audio.push(told.hints)?,
            Kind::Text => text.push(told.hints)?,
        }
    }
    Ok(ByKind { video, audio, text })
}

fn add_all(hints: &mut HintList, more: HintList) -> Result<(), NoMemory>
    ensures { OnOk result (hints.new ≡ hints.old ++ more) }
{
    for one in more.into_vec() {
        hints.push(one)?;
    }
    Ok(())
}
