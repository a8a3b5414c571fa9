// Beginning a session with a first MPD.
ghost use Rattle.std.specs.Prelude.{◌≡◌, ℕ, ◌<◌, ◌≤◌, [], All, IfOk, MatchResult};
ghost use Rattle.std.specs.Prelude.{flat_map, length, map, pos, replicate, true, unwrap_or};
ghost use Rattle.iso_time.specs.Instant.{IsReadable};
ghost use Rattle.mpd_rules.specs.Laws.{are_once};
ghost use Rattle.mpd_rules.specs.Views.{segments_mpd};
ghost use Rattle.presentation.specs.Counting.{count_faults, sections_of};
ghost use Rattle.presentation.specs.Presented.{listed_at, looked_at};
ghost use Rattle.presentation.specs.Printing.{IsCounted};
ghost use Rattle.live_meaning.specs.Refusals.{counts_listed, window_told};
ghost use Rattle.live_meaning.specs.Histories.{Common};
ghost use Rattle.live_meaning.specs.Known.{ids_of, periods_of};
ghost use Rattle.live_meaning.specs.Updates.{Terms};
ghost use Rattle.live_judge.specs.Faults.{Judges, of_presentation};
ghost use Rattle.live_judge.specs.Shown.{track_shown};
ghost use Rattle.live_session.specs.Begun as spec;
ghost use Rattle.live_session.specs.Kept.{AreSideBySide, empty_track};
ghost use Rattle.live_session.specs.Making.{AreUnmade};

use crate::growth::{grow_all, make_room};
use crate::kept::empty_track;
use crate::longest::target_of;
use crate::maker::Maker;
use bridge_io::{Ledger, NoMemory, Steps};
use exact_time::Digits;
use iso_time::Instant;
use live_judge::{KnownPeriods, LiveTrack, RefreshFault, Standing, periods_from};
use mpd_rules::Mpd;
use presentation::{Presentation, PresentationFault};
use std::alloc::Global;
use url_parts::Base;

/// The most segments of a track that are kept.
const TRACK_LIMIT: u128 = 20_000;

/// Checks a first MPD, which has a presentation, by all rules except that on the URLs of segments. It allocates nothing.
#[tactic(auto, using(crate::proofs::Beginning::count_none))]
pub(crate) fn check_first(mpd: &Mpd, opened: &Presentation) -> Result<(), RefreshFault>
    ensures { Judges result (spec.first_judged (segments_mpd mpd.now) opened.now) }
{
    match opened.count() {
        Ok(_) => {}
        Err(fault) => return Err(RefreshFault::Presentation(fault)),
    }
    if !mpd.live() {
        return Err(RefreshFault::NotDynamic);
    }
    check_window(opened)
}

/// Rejects more listed segments of a track than may be kept. All tracks together are within their limit, since they were
/// counted.
#[tactic(auto, using(crate::proofs::Beginning::within_window))]
fn check_window(opened: &Presentation) -> Result<(), RefreshFault>
    requires { count_faults opened.now ≡ [] }
    ensures { Judges result (window_told (counts_listed opened.now)) }
{
    for track in 0..opened.tracks().len() {
        let count = count_of(opened, track);
        if count > TRACK_LIMIT {
            return Err(RefreshFault::Window { track, count });
        }
    }
    Ok(())
}

/// How many segments of a track are listed.
#[tactic(auto, using(crate::proofs::Beginning::reached))]
fn count_of(opened: &Presentation, track: usize) -> u128
    requires track { track < length opened.now.tracks }
    requires counted { count_faults opened.now ≡ [] }
    ensures { result ≡ length (flat_map (λ s. listed_at opened.now s track) (sections_of opened.now)) }
{
    let mut count: u128 = 0;
    for section in 0..opened.sections().len() {
        count += u128::from(count_in(opened, section, track));
    }
    count
}

/// How many of them are listed in a section.
fn count_in(opened: &Presentation, section: usize, track: usize) -> u64
    requires section { section < length opened.now.sections }
    requires track { track < length opened.now.tracks }
    requires counted { IsCounted opened.now section track }
    ensures { result ≡ length (listed_at opened.now section track) }
{
    let window = opened.window(section);
    opened.runs(section, track).count(&window).unwrap_or(0)
}

/// The tracks of a first MPD with all segments that it lists.
#[tactic(auto, using(crate::proofs::Accepting::same_paired))]
pub(crate) fn first_tracks<L: Ledger>(
    alloc: Global,
    opened: &Presentation,
    now: Instant,
    digits: Digits,
    availability_start: Instant,
    steps: &mut Steps<L>,
) -> Result<Vec<LiveTrack>, PresentationFault>
    requires readable { IsReadable availability_start }
    requires few { length opened.now.sections ≤ 1000 }
    requires counted { (s t : ℕ) → s < length opened.now.sections → t < length opened.now.tracks
        → IsCounted (looked_at now opened.now) s t }
    ensures { (c : Common) → spec.IsFirst c opened.now now digits availability_start → MatchResult result
        (λ tracks. spec.AreFirst c tracks.items steps.old steps.new)
        (λ fault. AreUnmade c (spec.empty_tracks c.force) (of_presentation fault) steps.old steps.new) }
{
    let mut tracks = empty_tracks(alloc, opened.tracks().len())?;
    let maker = Maker {
        alloc,
        presentation: opened,
        now,
        digits,
        place: 0,
        resets: 0,
        availability_start,
    };
    let made = match maker.make_all(tracks.as_slice(), steps) {
        Ok(made) => made,
        Err(fault) => return Err(fault),
    };
    make_room(&mut tracks, made.as_slice())?;
    grow_all(&mut tracks, made);
    Ok(tracks)
}

fn empty_tracks(alloc: Global, count: usize) -> Result<Vec<LiveTrack>, NoMemory>
    ensures shown { IfOk result (λ tracks. map track_shown tracks.items ≡ replicate count empty_track) }
    ensures paired { IfOk result (λ tracks. All AreSideBySide tracks.items) }
{
    let mut tracks = Vec::new(alloc);
    for _track in 0..count {
        tracks.push(empty_track(alloc)?)?;
    }
    Ok(tracks)
}

/// The availabilityStartTime of a dynamic MPD: the rules reject one without it.
pub(crate) fn start_of(mpd: &Mpd) -> Instant
    ensures start { result ≡ unwrap_or (segments_mpd mpd.now).facts.availability_start (pos 0) }
    ensures readable { IsReadable result }
{
    mpd.availability_start().unwrap_or(Instant(0))
}

/// The state after a first MPD without the tracks.
pub(crate) fn first_standing(
    alloc: Global,
    mpd: &Mpd,
    base: &Base,
    now: Instant,
    digits: Digits,
    opened: Presentation,
) -> Result<Standing, NoMemory>
    requires looked { looked_at now opened ≡ opened }
    requires once { are_once (ids_of (periods_of opened)) ≡ true }
    requires counted { (s t : ℕ) → s < length opened.sections → t < length opened.tracks → IsCounted (looked_at now opened) s t }
    ensures { let terms : Terms = record { url = base.now; digits = digits } in
        IfOk result (spec.IsFirstStanding terms (segments_mpd mpd.now) now opened) }
{
    let mut known = KnownPeriods::new(alloc);
    let periods = periods_from(alloc, &opened, 0, &known)?;
    known.extend(alloc, periods)?;
    Ok(Standing {
        base: base.copy(alloc)?,
        digits,
        target: target_of(&opened, now, digits, mpd.max_segment()),
        availability_start: start_of(mpd),
        opened,
        newest: None,
        place: 0,
        published: mpd.publish_time(),
        instant: now,
        known,
        resets: 0,
        accepted: 1,
    })
}
