// What an MPD may not change.
ghost use Rattle.std.specs.Prelude.{◌≡◌, ◌+◌, ◌<◌, ◌≤◌, ◌≤ℤ◌, ◌^◌, not, true, false, pos, drop, length, map, IfOk, Some};
ghost use Rattle.std.specs.List.{list_all, list_any, starts_with};
ghost use Rattle.std.specs.Str.{bytes_eq};
ghost use Rattle.mpd_rules.specs.Laws.{are_once};
ghost use Rattle.mpd_rules.specs.Views.{segments_mpd};
ghost use Rattle.presentation.specs.Counting.{sections_of};
ghost use Rattle.presentation.specs.Order.{is_of, same_language};
ghost use Rattle.live_meaning.specs.Histories.{availability_start_of};
ghost use Rattle.live_meaning.specs.Known.{all_same, attributes_at, goes_on_from, ids_of, same_attributes};
ghost use Rattle.exact_time.specs.Tick.{time_of};
ghost use Rattle.reload_law.specs.Rules.{same_part};
ghost use Rattle.live_meaning.specs.Refusals as rules;
ghost use Rattle.live_meaning.specs.Updates.{mpd_of};
ghost use Rattle.live_judge.specs.Changed as spec;
ghost use Rattle.live_judge.specs.Coming.{update_of};
ghost use Rattle.live_judge.specs.Faults.{Judges};
ghost use Rattle.live_judge.specs.Known.{attributes_shown};
ghost use Rattle.live_judge.specs.Shown.{common_shown};

use crate::{Coming, KeptAttributes, KnownPeriods, RefreshFault, Standing};
use bridge_io::{Kind, Text};
use exact_time::Tick;
use iso_time::Instant;
use mpd_rules::Mpd;
use presentation::{Presentation, Section, Track};
use url_parts::Part;

/// Checks the MPD of an update, except kept segments, and returns the index of the first Period in force.
pub fn place_of(
    standing: &Standing,
    coming: Coming<'_>,
    force: &Presentation,
) -> Result<usize, RefreshFault>
    requires once { are_once (ids_of standing.now.known) ≡ true }
    requires starts { standing.now.availability_start ≡ availability_start_of standing.now.opened }
    requires room { length standing.now.known + length force.now.sections < 2 ^ 64 }
    ensures judged { Judges result (spec.listed_told (common_shown standing.now) (mpd_of (update_of coming.entry (pos 0))) force.now) }
    ensures place { IfOk result (λ place. spec.IsPlaceBy (mpd_of (update_of coming.entry (pos 0)))
        (common_shown standing.now) standing.now.place force.now place) }
{
    match coming.mpd() {
        Some(mpd) => check_mpd(standing, mpd, force),
        None => Ok(standing.place),
    }
}

fn check_mpd(standing: &Standing, mpd: &Mpd, force: &Presentation) -> Result<usize, RefreshFault>
    requires once { are_once (ids_of standing.now.known) ≡ true }
    requires starts { standing.now.availability_start ≡ availability_start_of standing.now.opened }
    requires room { length standing.now.known + length force.now.sections < 2 ^ 64 }
    ensures judged { Judges result (spec.listed_told (common_shown standing.now) (Some (segments_mpd mpd.now)) force.now) }
    ensures place { IfOk result (λ place. spec.IsPlaceBy (Some (segments_mpd mpd.now))
        (common_shown standing.now) standing.now.place force.now place) }
{
    check_older(standing.published, mpd.publish_time())?;
    let place = check_changed(standing, mpd, force)?;
    check_moved(standing, force, place)?;
    Ok(place)
}

fn check_older(former: Option<Instant>, new: Option<Instant>) -> Result<(), RefreshFault>
    ensures { Judges result (rules.older_than former new) }
{
    let (Some(former), Some(new)) = (former, new) else {
        return Ok(());
    };
    if new < former {
        return Err(RefreshFault::Older { former, new });
    }
    Ok(())
}

fn check_changed(
    standing: &Standing,
    mpd: &Mpd,
    force: &Presentation,
) -> Result<usize, RefreshFault>
    requires once { are_once (ids_of standing.now.known) ≡ true }
    requires starts { standing.now.availability_start ≡ availability_start_of standing.now.opened }
    requires room { length standing.now.known + length force.now.sections < 2 ^ 64 }
    ensures judged { Judges result (rules.told_if (rules.is_changed (common_shown standing.now)
        (segments_mpd mpd.now) force.now) rules.Changed) }
    ensures place { IfOk result (λ place. spec.place_among (ids_of standing.now.known) (rules.ids_in force.now) ≡ Some place) }
    ensures starts { IfOk result (λ _. rules.starts_otherwise (common_shown standing.now) (segments_mpd mpd.now) ≡ false) }
    ensures alike { IfOk result (λ _. rules.are_alike standing.now.opened.tracks force.now.tracks ≡ true) }
{
    if starts_otherwise(standing, mpd)
        || lack_ids(mpd)
        || !are_alike(
            standing.opened.tracks().as_slice(),
            force.tracks().as_slice(),
        )
    {
        return Err(RefreshFault::Changed);
    }
    let Some(place) = place_among(&standing.known, force.sections().as_slice()) else {
        return Err(RefreshFault::Changed);
    };
    if have_others(standing, force, place) {
        return Err(RefreshFault::Changed);
    }
    Ok(place)
}

/// Whether an MPD has another availabilityStartTime, or a dynamic one has none.
fn starts_otherwise(standing: &Standing, mpd: &Mpd) -> bool
    requires { standing.now.availability_start ≡ availability_start_of standing.now.opened }
    ensures { result ≡ rules.starts_otherwise (common_shown standing.now) (segments_mpd mpd.now) }
{
    match mpd.availability_start() {
        Some(start) => start < standing.availability_start || standing.availability_start < start,
        None => mpd.live(),
    }
}

/// Whether a Period has no id.
fn lack_ids(mpd: &Mpd) -> bool
    ensures { result ≡ rules.lack_ids (segments_mpd mpd.now) }
{
    let mut periods = mpd.periods();
    while let Some(period) = periods.next() {
        if period.id().is_none() {
            return true;
        }
    }
    false
}

// ---- ids

/// The index from which Periods continue the known ones: the known ones from there on come first, and the others were
/// never seen. `None` where that isn't so, or an id is repeated.
#[tactic(auto, using(crate::proofs::Places::goes_on_first))]
fn place_among(known: &KnownPeriods, sections: &[Section]) -> Option<usize>
    requires { are_once (ids_of known.now) ≡ true }
    ensures { result ≡ spec.place_among (ids_of known.now) (map (λ section. section.id) sections.now) }
{
    if !are_once(sections) {
        return None;
    }
    let place = first_place(known, sections);
    if !go_on_from(known, sections, place) {
        return None;
    }
    Some(place)
}

fn first_place(known: &KnownPeriods, sections: &[Section]) -> usize
    ensures place { result ≡ spec.first_place (ids_of known.now) (map (λ section. section.id) sections.now) }
    ensures within { result ≤ length known.now }
{
    match sections.first() {
        Some(first) => known.find(first.id.as_str()).unwrap_or(known.len()),
        None => known.len(),
    }
}

/// Whether no id is repeated.
fn are_once(sections: &[Section]) -> bool
    ensures { result ≡ are_once (map (λ section. section.id) sections.now) }
{
    let mut rest = sections;
    while let Some((first, later)) = rest.split_first() {
        if has_id(later, &first.id) {
            return false;
        }
        rest = later;
    }
    true
}

fn has_id(sections: &[Section], id: &Text) -> bool
    ensures { result ≡ list_any (bytes_eq id.now) (map (λ section. section.id) sections.now) }
{
    let mut rest = sections;
    while let Some((section, later)) = rest.split_first() {
        if id.as_str() == section.id.as_str() {
            return true;
        }
        rest = later;
    }
    false
}

#[tactic(auto, using(crate::proofs::Walks::in_lists))]
fn go_on_from(known: &KnownPeriods, sections: &[Section], place: usize) -> bool
    requires { place ≤ length known.now }
    ensures { result ≡ goes_on_from (ids_of known.now) (map (λ section. section.id) sections.now) place }
{
    begin_with(known, sections, place) && are_new(known, &sections[known.len() - place..])
}

/// Whether the known Periods from an index on come first.
#[tactic(auto, using(crate::proofs::Walks::in_lists))]
fn begin_with(known: &KnownPeriods, sections: &[Section], place: usize) -> bool
    requires { place ≤ length known.now }
    ensures is { result ≡ starts_with bytes_eq (map (λ section. section.id) sections.now) (drop place (ids_of known.now)) }
    ensures room { result ≡ true → length known.now ≤ place + length sections.now }
{
    let mut rest = sections;
    for at in place..known.len() {
        let (Some(period), Some((section, later))) = (known.get(at), rest.split_first()) else {
            return false;
        };
        if period.id.as_str() != section.id.as_str() {
            return false;
        }
        rest = later;
    }
    true
}

/// Whether no id was seen.
#[tactic(auto, using(crate::proofs::Finding::some_position))]
fn are_new(known: &KnownPeriods, sections: &[Section]) -> bool
    ensures { result ≡ list_all (λ id. not (list_any (bytes_eq id) (ids_of known.now))) (map (λ section. section.id) sections.now) }
{
    let mut rest = sections;
    while let Some((section, later)) = rest.split_first() {
        if known.find(section.id.as_str()).is_some() {
            return false;
        }
        rest = later;
    }
    true
}

// ---- tracks

/// Whether two lists of tracks have the same kinds and languages in order.
fn are_alike(ones: &[Track], others: &[Track]) -> bool
    ensures { result ≡ rules.are_alike ones.now others.now }
{
    match (ones.split_first(), others.split_first()) {
        (None, None) => true,
        (Some((one, ones)), Some((other, others))) => is_alike(one, other)
            && are_alike(ones, others),
        _ => false,
    }
}

fn is_alike(one: &Track, other: &Track) -> bool
    ensures { result ≡ rules.is_alike one.now other.now }
{
    is_of(one.kind, other.kind) && is_same_language(&one.language, &other.language)
}

fn is_of(kind: Kind, other: Kind) -> bool
    ensures { result ≡ is_of kind other }
{
    match (kind, other) {
        (Kind::Video, Kind::Video) | (Kind::Audio, Kind::Audio) | (Kind::Text, Kind::Text) => true,
        _ => false,
    }
}

fn is_same_language(one: &Option<Text>, other: &Option<Text>) -> bool
    ensures { result ≡ same_language one.now other.now }
{
    match (one, other) {
        (Some(one), Some(other)) => one.as_str() == other.as_str(),
        (None, None) => true,
        _ => false,
    }
}

// ---- known Periods

/// Whether a known Period has different attributes.
fn have_others(standing: &Standing, force: &Presentation, place: usize) -> bool
    requires room { place + length force.now.sections < 2 ^ 64 }
    requires once { are_once (ids_of standing.now.known) ≡ true }
    requires among { spec.place_among (ids_of standing.now.known) (rules.ids_in force.now) ≡ Some place }
    ensures { result ≡ list_any (rules.differs_at (common_shown standing.now) force.now) (sections_of force.now) }
{
    for section in 0..force.sections().len() {
        if has_other(&standing.known, force, place, section) {
            return true;
        }
    }
    false
}

fn has_other(known: &KnownPeriods, force: &Presentation, place: usize, section: usize) -> bool
    requires room { place + length force.now.sections < 2 ^ 64 }
    requires section { section < length force.now.sections }
    ensures { result ≡ spec.has_other known.now force.now place section }
{
    match known.get(place + section) {
        Some(period) => !are_same(period.attributes.as_slice(), force, section),
        None => false,
    }
}

/// Whether the tracks have these attributes in a section.
#[tactic(auto, using(crate::proofs::Walks::in_order))]
fn are_same(kept: &[KeptAttributes], force: &Presentation, section: usize) -> bool
    requires { section < length force.now.sections }
    ensures { result ≡ all_same (map attributes_shown kept.now) (attributes_at force.now section) }
{
    let mut rest = kept;
    for track in 0..force.tracks().len() {
        let offset = force.runs(section, track).offset();
        let initialization = force.initialization(section, track);
        let Some((first, later)) = rest.split_first() else {
            return false;
        };
        if !is_same(first, offset, initialization) {
            return false;
        }
        rest = later;
    }
    match rest.split_first() {
        Some(_) => false,
        None => true,
    }
}

fn is_same(kept: &KeptAttributes, offset: Tick, initialization: &Part) -> bool
    requires { pos 0 ≤ℤ offset.n }
    ensures { result ≡ same_attributes (attributes_shown kept.now) (spec.attributes_by (time_of offset) initialization.now) }
{
    kept.source.timescale == offset.scale
        && kept.time_offset == offset.n as u64
        && is_same_part(&kept.source.initialization, initialization)
}

pub(crate) fn is_same_part(one: &Part, other: &Part) -> bool
    ensures { result ≡ same_part one.now other.now }
{
    one.address.as_str() == other.address.as_str() && one.range == other.range
}

// ---- when known Periods begin

#[tactic(auto, using(crate::proofs::Walks::in_order))]
fn check_moved(standing: &Standing, force: &Presentation, place: usize) -> Result<(), RefreshFault>
    requires room { place + length force.now.sections < 2 ^ 64 }
    requires once { are_once (ids_of standing.now.known) ≡ true }
    requires among { spec.place_among (ids_of standing.now.known) (rules.ids_in force.now) ≡ Some place }
    ensures judged { Judges result (rules.moved_told (common_shown standing.now) force.now) }
    ensures unmoved { IfOk result (λ _. spec.AreUnmoved standing.now.known force.now place) }
{
    for section in 0..force.sections().len() {
        check_moved_at(&standing.known, force, place, section)?;
    }
    Ok(())
}

fn check_moved_at(
    known: &KnownPeriods,
    force: &Presentation,
    place: usize,
    section: usize,
) -> Result<(), RefreshFault>
    requires room { place + length force.now.sections < 2 ^ 64 }
    requires section { section < length force.now.sections }
    ensures { Judges result (spec.moved_at known.now force.now place section) }
{
    match known.get(place + section) {
        Some(period) if period.start != force.sections().as_slice()[section].start => {
            Err(RefreshFault::Moved {
                section: (place + section) as u64,
            })
        }
        _ => Ok(()),
    }
}
