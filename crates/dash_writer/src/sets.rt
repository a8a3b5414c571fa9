// The tracks of a Period: AdaptationSets with their Representations.
ghost use Rattle.std.specs.Prelude.{◌≡◌, ℕ, ◌+◌, ◌<◌, ◌≤◌, ◌^◌, List, ◌∷◌, false, length, take, drop, decimal, option_map, option_and_then};
ghost use Rattle.bridge_io.specs.Adding.{Adds};
ghost use Rattle.presentation.specs.Order.{is_of, same_language};
ghost use Rattle.dash_writer.specs.Elements.{Element};
ghost use Rattle.dash_writer.specs.Outline as spec;
ghost use Rattle.dash_writer.specs.Runs.{longest_runs};
ghost use Rattle.dash_writer.specs.Values.{known_rate};
ghost use Rattle.dash_writer.specs.Written.{all_told, element_text, elements_text, is_childless, value_text};

use crate::attribute::{Attribute, Value};
use crate::element::{push_end, push_start};
use bridge_io::{Fail, Kind, Ratio, Sheet, Size, Store, Text};
use presentation::Track;
use std::alloc::Global;

/// The contents of tracks in Periods. `S` counts what is made.
pub(crate) trait TrackLists<S> {
    /// The elements of a Period's track, by the two indices.
    ghost lists: { Self → ℕ → ℕ → List Element };

    /// When they can be written.
    ghost can_list: { Self → ℕ → ℕ → Type 0 };

    /// Writes the content of a track in a Period, by the two indices.
    fn push_list<F: Store>(
        &self,
        alloc: Global,
        section: usize,
        track: usize,
        sheet: &mut Sheet<F>,
        steps: &mut S,
    ) -> Result<(), Fail>
        requires { can_list self.now section track }
        ensures { Adds F.Store (elements_text (lists self.now section track)) sheet.old sheet.new result };
}

/// Writes the AdaptationSets of the Period at an index (ISO/IEC 23009-1, 5.3.3).
pub(crate) fn push_sets<S, T: TrackLists<S>, F: Store>(
    alloc: Global,
    lists: &T,
    section: usize,
    tracks: &[Track],
    sheet: &mut Sheet<F>,
    steps: &mut S,
) -> Result<(), Fail>
    requires { spec.AreListed (T.can_list lists.now section) (T.lists lists.now section) 0 (length tracks.now) }
    ensures { Adds F.Store (elements_text (spec.sets_of (T.lists lists.now section) tracks.now)) sheet.old sheet.new result }
{
    let mut rest = tracks;
    while let Some((first, others)) = rest.split_first() {
        let place = tracks.len() - rest.len();
        let (set, behind) = rest.split_at(1 + standing_with(first, others));
        push_set(alloc, lists, section, place, set, sheet, steps)?;
        rest = behind;
    }
    Ok(())
}

/// How many tracks after a first one are in its AdaptationSet.
fn standing_with(first: &Track, others: &[Track]) -> usize
    ensures within { result ≤ length others.now }
    ensures run { longest_runs spec.stand_together (first.now ∷ others.now)
        ≡ (first.now ∷ take result others.now) ∷ longest_runs spec.stand_together (drop result others.now) }
{
    match others.split_first() {
        Some((next, rest)) if stand_together(first, next) => 1 + standing_with(next, rest),
        _ => 0,
    }
}

/// Whether two neighbours are in one AdaptationSet.
fn stand_together(one: &Track, other: &Track) -> bool
    ensures { result ≡ spec.stand_together one.now other.now }
{
    is_of(one.kind, other.kind)
        && (is_of(Kind::Video, one.kind) || one.set == other.set)
        && is_same_language(&one.language, &other.language)
}

fn is_of(kind: Kind, other: Kind) -> bool
    ensures { result ≡ is_of kind other }
{
    match (kind, other) {
        (Kind::Video, Kind::Video) | (Kind::Audio, Kind::Audio) | (Kind::Text, Kind::Text) => true,
        _ => false,
    }
}

fn is_same_language(one: &Option<Text>, other: &Option<Text>) -> bool
    ensures { result ≡ same_language one.now other.now }
{
    match (one, other) {
        (Some(one), Some(other)) => one.as_str() == other.as_str(),
        (None, None) => true,
        _ => false,
    }
}

/// Writes the AdaptationSet of tracks, given the index of the first one.
fn push_set<S, T: TrackLists<S>, F: Store>(
    alloc: Global,
    lists: &T,
    section: usize,
    place: usize,
    set: &[Track],
    sheet: &mut Sheet<F>,
    steps: &mut S,
) -> Result<(), Fail>
    requires listed { spec.AreListed (T.can_list lists.now section) (T.lists lists.now section) place (length set.now) }
    requires places { place + length set.now < 2 ^ 64 }
    ensures { Adds F.Store (elements_text (spec.set_element (T.lists lists.now section) place set.now)) sheet.old sheet.new result }
{
    let Some((first, _)) = set.split_first() else {
        return Ok(());
    };
    let attributes = set_attributes(first);
    push_start(sheet, "AdaptationSet", &attributes, false)?;
    for (index, track) in set.iter().enumerate() {
        let place = place + index;
        push_track(alloc, lists, section, place, track, sheet, steps)?;
    }
    push_end(sheet, "AdaptationSet", false)
}

/// The attributes of a track's AdaptationSet.
fn set_attributes(track: &Track) -> [Attribute<'_>; 2]
    ensures { all_told result ≡ spec.set_attributes track.now }
{
    [
        ("mimeType", Some(Value::Text(mime_type(track.kind)))),
        ("lang", text(&track.language)),
    ]
}

fn mime_type<'a>(kind: Kind) -> &'a str
    ensures { result.now ≡ spec.mime_type kind }
{
    match kind {
        Kind::Video => "video/mp4",
        Kind::Audio => "audio/mp4",
        Kind::Text => "application/mp4",
    }
}

/// A text as a value, where it is known.
fn text(known: &Option<Text>) -> Option<Value<'_>>
    ensures { option_map value_text result ≡ known.now }
{
    match known {
        Some(text) => Some(Value::Text(text.as_str())),
        None => None,
    }
}

/// Writes the Representation of the track at an index (5.3.5).
fn push_track<S, T: TrackLists<S>, F: Store>(
    alloc: Global,
    lists: &T,
    section: usize,
    place: usize,
    track: &Track,
    sheet: &mut Sheet<F>,
    steps: &mut S,
) -> Result<(), Fail>
    requires can { T.can_list lists.now section place }
    requires some { is_childless (T.lists lists.now section place) ≡ false }
    ensures { Adds F.Store (element_text (spec.track_element (T.lists lists.now section) place track.now)) sheet.old sheet.new result }
{
    let attributes = track_attributes(place, track);
    push_start(sheet, "Representation", &attributes, false)?;
    lists.push_list(alloc, section, place, sheet, steps)?;
    push_end(sheet, "Representation", false)
}

/// The attributes of the Representation of the track at an index.
fn track_attributes(place: usize, track: &Track) -> [Attribute<'_>; 6]
    ensures { all_told result ≡ spec.representation_attributes place track.now }
{
    [
        ("id", Some(Value::Id(place))),
        ("bandwidth", Some(Value::Number(track.bandwidth))),
        ("codecs", text(&track.codecs)),
        ("width", width(track.size)),
        ("height", height(track.size)),
        ("frameRate", frame_rate(track.frame_rate)),
    ]
}

fn width<'a>(size: Option<Size>) -> Option<Value<'a>>
    ensures { option_map value_text result ≡ option_map (λ size. decimal size.width) size }
{
    Some(Value::Number(u64::from(size?.width)))
}

fn height<'a>(size: Option<Size>) -> Option<Value<'a>>
    ensures { option_map value_text result ≡ option_map (λ size. decimal size.height) size }
{
    Some(Value::Number(u64::from(size?.height)))
}

/// A frame rate as a value, where it is known and not 0.
fn frame_rate<'a>(rate: Option<Ratio>) -> Option<Value<'a>>
    ensures { option_map value_text result ≡ option_and_then known_rate rate }
{
    let rate = rate?;
    if rate.n == 0 {
        return None;
    }
    Some(Value::Rate(rate))
}
