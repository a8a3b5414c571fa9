// What an update changes apart from the tracks, and what it adds to them.
ghost use Rattle.std.specs.Prelude.{◌≡◌, ◌++◌, ◌-◌, ◌<◌, ◌==◌, [], length, map, pos, sum, true, false};
ghost use Rattle.std.specs.Prelude.{All, IfErr, IfOk, IfSome, IsErrOf, IsOk, MatchResult, None, OnErr, OnOk};
ghost use Rattle.std.specs.List.{range_with_len};
ghost use Rattle.iso_time.specs.Instant.{IsReadable};
ghost use Rattle.mpd_rules.specs.Laws.{are_once};
ghost use Rattle.live_meaning.specs.Histories.{published_by};
ghost use Rattle.live_meaning.specs.Known.{ids_of, known_at};
ghost use Rattle.live_meaning.specs.Refusals.{clock_told, ended_told};
ghost use Rattle.live_meaning.specs.Updates.{mpd_of};
ghost use Rattle.live_judge.specs.Coming.{IsJoined, IsNext, coming_of, update_of};
ghost use Rattle.live_judge.specs.Faults.{told};
ghost use Rattle.live_judge.specs.Known.{known_shown};
ghost use Rattle.live_judge.specs.Shown.{common_shown, state_shown, track_shown};
ghost use Rattle.live_judge.specs.declared.fault.RefreshFault.TheVariants.{Memory};
ghost use Rattle.live_session.specs.Changes as spec;
ghost use Rattle.live_session.specs.Growth.{grown, trimmed};
ghost use Rattle.live_session.specs.Kept.{AreSideBySide};
ghost use Rattle.live_session.specs.Making.{IsMakerFor, all_kept};
ghost use Rattle.live_session.specs.New.{CanMake};
ghost use Rattle.live_session.specs.Sessions.{IsSession};

use crate::growth::{count_made, grow_all, trim_all};
use crate::made::MadeTrack;
use crate::maker::Maker;
use bridge_io::{Ledger, NoMemory, Steps};
use iso_time::Instant;
use live_judge::{
    Coming, KnownPeriod, KnownPeriods, LiveTrack, Next, RefreshFault, Standing, periods_from,
};
use mpd_presentation::{from_mpd, presentations_show_their_mpd};
use presentation::Presentation;
use std::alloc::Global;

/// What is prepared for an update before anything is changed.
#[derive(Drop)]
pub(crate) struct Plan {
    pub(crate) change: Change,
    /// The Periods that were never seen.
    pub(crate) periods: Vec<KnownPeriod>,
    /// The new segments by track; empty where there are none at all.
    pub(crate) made: Vec<MadeTrack>,
}

/// What an update changes apart from the tracks.
#[derive(Drop)]
pub(crate) struct Change {
    published: Option<Instant>,
    place: usize,
    instant: Instant,
    resets: u64,
}

/// The presentation of the update's MPD, if it has one.
#[tactic(auto, using(crate::proofs::Presenting::presented_still, crate::proofs::Presenting::some_comes))]
pub(crate) fn presented(
    alloc: Global,
    standing: &Standing,
    coming: Coming<'_>,
    now: Instant,
) -> Result<Option<Presentation>, RefreshFault>
    ensures ok { IfOk result (λ newest. spec.IsPresented standing.now coming.entry now (spec.force_of standing.now newest)) }
    ensures err { IfErr result (λ fault. IfSome (told fault) (spec.IsUnpresented standing.now (update_of coming.entry now))) }
    ensures ticks { mpd_of (update_of coming.entry now) ≡ None → IsErrOf result Memory → ⊥ }
{
    presentations_show_their_mpd();
    match coming.mpd() {
        Some(mpd) => Ok(Some(from_mpd(alloc, mpd, &standing.base, Some(now))?)),
        None => Ok(None),
    }
}

/// The presentation that would be in force.
pub(crate) fn force_by<'a>(
    standing: &'a Standing,
    newest: &'a Option<Presentation>,
) -> &'a Presentation
    ensures { result.now ≡ spec.force_of standing.now newest.now }
{
    match newest {
        Some(newest) => newest,
        None => standing.force(),
    }
}

/// Checks an update, given its presentation, and prepares its changes.
#[tactic(auto, using(crate::proofs::Planning::unended))]
pub(crate) fn prepare<'a, L: Ledger>(
    alloc: Global,
    standing: &'a Standing,
    tracks: &'a [LiveTrack],
    coming: Coming<'a>,
    force: &'a Presentation,
    now: Instant,
    steps: &mut Steps<L>,
) -> Result<Plan, RefreshFault>
    requires session { IsSession standing.now tracks.now }
    requires timely { ended_told (common_shown standing.now) ++ clock_told (common_shown standing.now) now ≡ [] }
    requires presented { spec.IsPresented standing.now coming now force.now }
    ensures { MatchResult result
        (λ plan. spec.IsPlan standing.now tracks.now coming.entry now force.now plan steps.old steps.new)
        (λ fault. spec.IsRefused (state_shown standing.now tracks.now) (update_of coming.entry now) fault steps.old steps.new) }
{
    match Next::judge(standing, tracks, coming, force, now) {
        Ok(next) => plan_of(alloc, &next, steps),
        Err(fault) => Err(fault),
    }
}

/// Prepares the changes of an update that is valid except for URLs.
fn plan_of<L: Ledger>(
    alloc: Global,
    next: &Next<'_>,
    steps: &mut Steps<L>,
) -> Result<Plan, RefreshFault>
    requires next { IsNext next.now }
    requires joined { IsJoined next.now }
    requires readable { IsReadable (next.now.standing.now).availability_start }
    ensures { MatchResult result (λ plan. spec.IsPlanOf next.entry.now plan steps.old steps.new)
        (λ fault. spec.IsUnplanned next.entry.now fault steps.old steps.new) }
{
    let made = made_of(alloc, next, steps)?;
    let periods = new_periods(alloc, next)?;
    let change = Change {
        published: published_by(next.standing, next.coming),
        place: next.place,
        instant: next.now,
        resets: resets_with(next.standing, next.coming),
    };
    Ok(Plan {
        change,
        periods,
        made,
    })
}

/// The new segments of an update; empty where there are none at all, which allocates nothing.
fn made_of<L: Ledger>(
    alloc: Global,
    next: &Next<'_>,
    steps: &mut Steps<L>,
) -> Result<Vec<MadeTrack>, RefreshFault>
    requires next { IsNext next.now }
    requires joined { IsJoined next.now }
    requires readable { IsReadable (next.now.standing.now).availability_start }
    ensures { MatchResult result (λ made. spec.AreNewOf next.entry.now made.items steps.old steps.new)
        (λ fault. spec.AreNotMade next.entry.now fault steps.old steps.new) }
{
    if !has_new(next) {
        return Ok(Vec::new(alloc));
    }
    Ok(maker_of(alloc, next).make_all(next.tracks, steps)?)
}

/// Whether an update lists new segments.
#[tactic(auto, using(crate::proofs::NewTracks::none_left))]
fn has_new(next: &Next<'_>) -> bool
    requires { IsNext next.now }
    ensures some { result ≡ true → 0 < spec.new_in_all next.entry.now }
    ensures none { result ≡ false → spec.new_in_all next.entry.now ≡ 0 }
{
    for track in 0..next.tracks.len() {
        if next.of(track).new_count() > 0 {
            return true;
        }
    }
    false
}

/// The maker of the new segments.
#[tactic(auto, using(crate::proofs::NewTracks::resets_most))]
fn maker_of<'a>(alloc: Global, next: &Next<'a>) -> Maker<'a>
    requires next { IsNext next.now }
    requires readable { IsReadable (next.now.standing.now).availability_start }
    ensures made_for { IsMakerFor (coming_of next.entry.now) result }
    ensures can { CanMake result }
    ensures all { length result.presentation.now.tracks ≡ length next.entry.now.tracks.now }
{
    let standing = next.standing;
    Maker {
        alloc,
        presentation: next.force,
        now: next.now,
        digits: standing.digits,
        place: next.place,
        resets: resets_with(standing, next.coming),
        availability_start: standing.availability_start,
    }
}

/// The Periods of an update that were never seen: those after the known ones. It allocates nothing where there are
/// none.
fn new_periods(alloc: Global, next: &Next<'_>) -> Result<Vec<KnownPeriod>, NoMemory>
    requires { IsNext next.now }
    ensures ok { IfOk result (λ new. let first = spec.first_new next.entry.now in
        let p = next.entry.now.force.now in
        map known_shown new.items ≡ map (known_at p) (range_with_len first (length p.sections - first))) }
    ensures none { spec.first_new next.entry.now ≡ length (next.entry.now.force.now).sections → IsOk result }
{
    let first = next.standing.known.len() - next.place;
    if first == next.force.sections().len() {
        return Ok(Vec::new(alloc));
    }
    periods_from(alloc, next.force, first, &next.standing.known)
}

/// When the MPD in force after the update was published.
fn published_by(standing: &Standing, coming: Coming<'_>) -> Option<Instant>
    ensures { result ≡ published_by standing.now.published (mpd_of (update_of coming.entry (pos 0))) }
{
    match coming.mpd() {
        Some(mpd) => mpd.publish_time(),
        None => standing.published,
    }
}

/// How many resets there are, including the update.
fn resets_with(standing: &Standing, coming: Coming<'_>) -> u64
    requires { standing.now.resets < 10000001 }
    ensures { result ≡ spec.resets_with standing.now.resets (update_of coming.entry (pos 0)) }
{
    if coming.is_reset() {
        return standing.resets + 1;
    }
    standing.resets
}

/// Adds Periods that were never seen. An error leaves them as they were. It allocates nothing where there are none.
pub(crate) fn know(
    alloc: Global,
    known: &mut KnownPeriods,
    periods: Vec<KnownPeriod>,
) -> Result<(), NoMemory>
    requires { are_once (ids_of (known.old ++ map known_shown periods.items)) ≡ true }
    ensures ok { OnOk result (known.new ≡ known.old ++ map known_shown periods.items) }
    ensures err { OnErr result (known.new ≡ known.old) }
    ensures none { periods.items ≡ [] → IsOk result }
{
    if periods.is_empty() {
        return Ok(());
    }
    known.extend(alloc, periods)
}

/// Changes the state without the tracks.
pub(crate) fn advance(standing: &mut Standing, newest: Option<Presentation>, change: Change)
    requires { standing.old.accepted < 10000000 }
    ensures { standing.new ≡ spec.changed standing.old newest change }
{
    if let Some(newest) = newest {
        standing.newest = Some(newest);
    }
    standing.published = change.published;
    standing.place = change.place;
    standing.instant = change.instant;
    standing.resets = change.resets;
    standing.accepted += 1;
}

/// Adds the new segments to the tracks, and removes from their start what isn't available any more. Returns how many were
/// added.
pub(crate) fn go_on(standing: &Standing, tracks: &mut Vec<LiveTrack>, made: Vec<MadeTrack>) -> u64
    requires { spec.CanGoOn standing.now tracks.old.items made.items }
    ensures count { result ≡ sum (map length (all_kept made.items)) }
    ensures shown { map track_shown tracks.new.items
        ≡ map (trimmed standing.now) (grown (map track_shown tracks.old.items) (all_kept made.items)) }
    ensures paired { All AreSideBySide tracks.new.items }
{
    let count = count_made(made.as_slice());
    grow_all(tracks, made);
    trim_all(standing, tracks);
    count
}
