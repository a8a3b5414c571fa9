// Which segments come to the served lists of all tracks, in which sections, and when none may.
ghost use Rattle.std.specs.Prelude.{◌≡◌, ◌+◌, IfOk, None, map, option_map};
ghost use Rattle.std.specs.List.{list_all, list_any};
ghost use Rattle.bridge_io.specs.Answer.{Gives};
ghost use Rattle.publish_law.specs.Plans as spec;

use crate::PublishFault;
use crate::joint::Shift;
use crate::track::{Change, Track};
use bridge_io::{NoMemory, Sequence};
use std::alloc::Global;

/// How the served playlists go on.
#[derive(Clone, Copy, PartialEq, Eq)]
pub enum Course {
    /// No segment comes.
    Unchanged,
    /// Without a discontinuity before them.
    Joined,
    /// Behind a discontinuity in all tracks that get segments (EXT-X-DISCONTINUITY: RFC 8216, 4.3.2.3).
    Stepped,
    /// To their end (EXT-X-ENDLIST: RFC 8216, 4.3.3.4).
    Ended,
}

/// What a publication may do.
#[derive(Clone, Copy)]
pub struct Options {
    /// The playlists end where all new ones are ended.
    pub end: bool,
    /// All segments of a version of long ago may come.
    pub back: bool,
}

/// How section numbers rise.
#[derive(Clone, Copy)]
pub struct Share {
    pub course: Course,
    pub shift: Shift,
}

/// Which segments come.
#[derive(Clone, Copy)]
pub struct Plan {
    pub share: Share,
    /// Some playlists are ended already: only those that are found go on, each with its own numbers.
    pub cut: bool,
    /// All new segments come.
    pub all: bool,
    /// The playlists end.
    pub ending: bool,
}

/// What becomes of the tracks' served playlists, in the order of the tracks.
pub type ChangeList = Sequence<Change>;

/// What becomes of all served playlists.
#[derive(Drop)]
pub struct Publication {
    /// How they go on.
    pub course: Course,
    /// What becomes of each.
    pub changes: ChangeList,
}

/// What becomes of the served playlists of all tracks.
///
/// [`PublishFault::Digits`], [`PublishFault::Ended`], [`PublishFault::Back`] and [`PublishFault::LongSegment`] come exactly
/// where they hold, the first of them in this order.
#[tactic(auto, unfolding(crate::specs::Plans::published))]
pub fn published(
    alloc: Global,
    tracks: &[Track],
    options: Options,
) -> Result<Publication, PublishFault>
    ensures { Gives (λ publication. publication) spec.refusal result (spec.published options tracks.now) }
{
    let plan = plan_of(tracks, options)?;
    if let Some((track, segment)) = first_long(&plan, tracks) {
        return Err(PublishFault::LongSegment(track, segment));
    }
    let changes = changes_of(alloc, &plan, tracks)?;
    Ok(Publication {
        course: plan.share.course,
        changes,
    })
}

fn changes_of(alloc: Global, plan: &Plan, tracks: &[Track]) -> Result<ChangeList, NoMemory>
    ensures { IfOk result (λ changes. changes ≡ map (spec.change_of plan.now) tracks.now) }
{
    let mut changes = Vec::with_capacity(alloc, tracks.len())?;
    for track in tracks {
        let (fresh, shift) = plan.part_of(track);
        changes.push(track.change(alloc, fresh, shift, plan.ending)?)?;
    }
    Ok(ChangeList::from(changes))
}

/// The first fresh segment that is above its served target duration: the places of its track and in the track's new list.
fn first_long(plan: &Plan, tracks: &[Track]) -> Option<(usize, usize)>
    ensures { result ≡ spec.long_from plan.now 0 tracks.now }
{
    for (place, track) in tracks.iter().enumerate() {
        let (fresh, _) = plan.part_of(track);
        if let Some(segment) = track.long_in(fresh) {
            return Some((place, segment));
        }
    }
    None
}

impl Plan {
    /// How many segments come to a track, and by how much their section numbers rise.
    fn part_of(&self, track: &Track) -> (usize, Shift)
        ensures { result ≡ spec.part_of self.now track.now }
    {
        if !self.cut {
            return (fresh_of(self.all, track), self.share.shift);
        }
        match track.joint.found {
            Some(shift) if !track.served.head.ended => (track.joint.fresh, shift),
            _ => (0, NO_SHIFT),
        }
    }
}

const NO_SHIFT: Shift = Shift { up: 0, down: 0 };

#[tactic(auto, unfolding(crate::specs::Plans::plan_of))]
fn plan_of(tracks: &[Track], options: Options) -> Result<Plan, PublishFault>
    ensures { result ≡ spec.plan_of options tracks.now }
{
    match first_with_other_digits(tracks) {
        Some(track) => Err(PublishFault::Digits(track)),
        None => plan_live(tracks, options),
    }
}

fn first_with_other_digits(tracks: &[Track]) -> Option<usize>
    ensures { result ≡ spec.first_place spec.has_other_digits 0 tracks.now }
{
    for (place, track) in tracks.iter().enumerate() {
        if track.served.head.digits != track.new.head.digits {
            return Some(place);
        }
    }
    None
}

fn plan_live(tracks: &[Track], options: Options) -> Result<Plan, PublishFault>
    ensures { result ≡ spec.plan_live options tracks.now }
{
    if are_all_ended(tracks) {
        return Err(PublishFault::Ended);
    }
    if is_any_ended(tracks) {
        return Ok(CUT_PLAN);
    }
    let back = are_all_back(tracks);
    if back && !options.back {
        return Err(PublishFault::Back);
    }
    let ending = options.end && are_all_new_ended(tracks);
    Ok(plan_with(back, ending, share_of(back, tracks)))
}

fn are_all_ended(tracks: &[Track]) -> bool
    ensures { result ≡ list_all spec.is_served_ended tracks.now }
{
    tracks.iter().all(|track| track.served.head.ended)
}

fn is_any_ended(tracks: &[Track]) -> bool
    ensures { result ≡ list_any spec.is_served_ended tracks.now }
{
    tracks.iter().any(|track| track.served.head.ended)
}

fn are_all_new_ended(tracks: &[Track]) -> bool
    ensures { result ≡ list_all spec.is_new_ended tracks.now }
{
    tracks.iter().all(|track| track.new.head.ended)
}

fn are_all_back(tracks: &[Track]) -> bool
    ensures { result ≡ list_all spec.is_back tracks.now }
{
    tracks.iter().all(|track| is_back(track))
}

/// Ended lists beside others: a former publication was cut off.
const CUT_PLAN: Plan = Plan {
    share: Share {
        course: Course::Ended,
        shift: NO_SHIFT,
    },
    cut: true,
    all: false,
    ending: true,
};

fn plan_with(all: bool, ending: bool, share: Share) -> Plan
    ensures { result ≡ spec.plan_with all ending share }
{
    Plan {
        share: Share {
            course: if ending { Course::Ended } else { share.course },
            shift: share.shift,
        },
        cut: false,
        all,
        ending,
    }
}

/// Whether nothing of a track's new list is served, and nothing of it is fresh.
fn is_back(track: &Track) -> bool
    ensures { result ≡ spec.is_back track.now }
{
    !track.joint.met && track.joint.fresh == 0
}

fn fresh_of(all: bool, track: &Track) -> usize
    ensures { result ≡ spec.fresh_of all track.now }
{
    if all {
        track.new.items.len()
    } else {
        track.joint.fresh
    }
}

/// By how much the section numbers of all fresh segments rise.
#[tactic(auto, unfolding(crate::specs::Plans::share_of))]
fn share_of(all: bool, tracks: &[Track]) -> Share
    ensures { result ≡ spec.share_of all tracks.now }
{
    let Some(least) = least_of_all(all, tracks) else {
        return Share {
            course: Course::Unchanged,
            shift: NO_SHIFT,
        };
    };
    if let Some(shift) = greatest_shift(tracks) {
        if are_all_clear(least, shift, tracks) {
            return Share {
                course: Course::Joined,
                shift,
            };
        }
    }
    step_of(least, tracks)
}

/// Behind a discontinuity, above all served section numbers.
fn step_of(least: u64, tracks: &[Track]) -> Share
    ensures { result ≡ spec.step_of least tracks.now }
{
    let shift = Shift {
        up: greatest_last(tracks).saturating_add(1),
        down: least,
    };
    Share {
        course: Course::Stepped,
        shift,
    }
}

/// The least section number of all fresh segments.
fn least_of_all(all: bool, tracks: &[Track]) -> Option<u64>
    ensures { result ≡ spec.least_of_all all tracks.now }
{
    let mut least = None;
    for track in tracks {
        least = lesser(least, least_of(all, track));
    }
    least
}

/// That of a track's fresh segments: the first one's, since section numbers don't fall.
fn least_of(all: bool, track: &Track) -> Option<u64>
    ensures { result ≡ spec.least_of all track.now }
{
    let item = track.fresh_items(fresh_of(all, track)).get(0)?;
    Some(item.section)
}

fn lesser(a: Option<u64>, b: Option<u64>) -> Option<u64>
    ensures { result ≡ spec.lesser a b }
{
    match (a, b) {
        (Some(a), Some(b)) => Some(a.min(b)),
        (None, b) => b,
        (a, None) => a,
    }
}

/// The greatest rise of the tracks that are found.
fn greatest_shift(tracks: &[Track]) -> Option<Shift>
    ensures { result ≡ spec.greatest_shift tracks.now }
{
    let mut shift = None;
    for track in tracks {
        shift = greater(shift, track.joint.found);
    }
    shift
}

fn greater(a: Option<Shift>, b: Option<Shift>) -> Option<Shift>
    ensures { result ≡ spec.greater a b }
{
    match (a, b) {
        (Some(a), Some(b)) => Some(if is_above(b, a) { b } else { a }),
        (None, b) => b,
        (a, None) => a,
    }
}

fn is_above(a: Shift, b: Shift) -> bool
    ensures { result ≡ spec.is_above a b }
{
    sum(b.up, a.down) < sum(a.up, b.down)
}

fn sum(a: u64, b: u64) -> u128
    ensures { result ≡ a + b }
{
    u128::from(a) + u128::from(b)
}

/// The greatest section number that is served.
fn greatest_last(tracks: &[Track]) -> u64
    ensures { result ≡ spec.greatest_last tracks.now }
{
    let mut last = 0;
    for track in tracks {
        last = last.max(last_section(track));
    }
    last
}

/// The section number of a served list's last segment.
fn last_section(track: &Track) -> u64
    ensures { result ≡ spec.last_section track.now }
{
    match track.served.items.as_slice().last() {
        Some(item) => item.section,
        None => 0,
    }
}

/// Whether the least fresh section number comes above a track's served ones, unless the track is found.
fn is_clear(least: u64, shift: Shift, track: &Track) -> bool
    ensures { result ≡ spec.is_clear least shift track.now }
{
    track.joint.found.is_some() || sum(last_section(track), shift.down) < sum(least, shift.up)
}

fn are_all_clear(least: u64, shift: Shift, tracks: &[Track]) -> bool
    ensures { result ≡ list_all (spec.is_clear least shift) tracks.now }
{
    tracks.iter().all(|track| is_clear(least, shift, track))
}
