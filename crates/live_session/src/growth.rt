// The tracks of a session as they change.
ghost use Rattle.std.specs.Prelude.{◌≡◌, ◌*◌, ◌+◌, ◌<◌, ◌≤◌, ◌^◌, [], All, IsOk, OnOk, length, map, sum};
ghost use Rattle.live_judge.specs.Shown.{track_shown};
ghost use Rattle.live_session.specs.Growth as spec;
ghost use Rattle.live_session.specs.Kept.{AreSideBySide, without_front};
ghost use Rattle.live_session.specs.Making.{all_kept};

use crate::kept::{push_all, remove, reserve};
use crate::made::MadeTrack;
use bridge_io::NoMemory;
use live_judge::{LiveTrack, Standing, removed_of};

/// Reserves room for the new segments of each track. It allocates nothing where there are none. An error leaves the segments as
/// they were.
#[tactic(auto, using(crate::proofs::Growing::none_changed, crate::proofs::Growing::have_room))]
pub(crate) fn make_room(tracks: &mut Vec<LiveTrack>, made: &[MadeTrack]) -> Result<(), NoMemory>
    requires { length made.now ≤ length tracks.old.items }
    ensures same { map spec.inside_of tracks.new.items ≡ map spec.inside_of tracks.old.items }
    ensures room { OnOk result (spec.HaveRoom tracks.new.items made.now) }
    ensures none { made.now ≡ [] → IsOk result }
{
    for track in 0..made.len() {
        reserve(&mut tracks[track], made[track].segments.len())?;
    }
    Ok(())
}

/// How many segments were made.
pub(crate) fn count_made(made: &[MadeTrack]) -> u64
    requires { sum (map length (all_kept made.now)) < 2 ^ 63 }
    ensures { result ≡ sum (map length (all_kept made.now)) }
{
    let mut count = 0;
    for track in made {
        count += track.segments.len() as u64;
    }
    count
}

/// Adds the new segments of each track after its segments.
#[tactic(auto, using(crate::proofs::Growing::none_changed, crate::proofs::Growing::all_grown))]
pub(crate) fn grow_all(tracks: &mut Vec<LiveTrack>, made: Vec<MadeTrack>)
    requires room { spec.HaveRoom tracks.old.items made.items }
    requires tracks { length made.items ≤ length tracks.old.items }
    requires paired { All AreSideBySide tracks.old.items }
    ensures shown { map track_shown tracks.new.items ≡ spec.grown (map track_shown tracks.old.items) (all_kept made.items) }
    ensures paired { All AreSideBySide tracks.new.items }
{
    let mut track = 0;
    for made in made {
        push_all(&mut tracks[track], made.segments);
        track += 1;
    }
}

/// Removes from the start of each track what isn't available any more, unless too little is left.
#[tactic(auto, using(crate::proofs::Growing::none_changed))]
pub(crate) fn trim_all(standing: &Standing, tracks: &mut Vec<LiveTrack>)
    requires target { 1 ≤ standing.now.target }
    requires paired { All AreSideBySide tracks.old.items }
    requires can { All spec.IsTrimmable (map track_shown tracks.old.items) }
    ensures shown { map track_shown tracks.new.items ≡ map (spec.trimmed standing.now) (map track_shown tracks.old.items) }
    ensures paired { All AreSideBySide tracks.new.items }
{
    for track in 0..tracks.len() {
        trim(standing, &mut tracks[track]);
    }
}

/// Removes from the start of a track what isn't available any more, unless too little is left.
#[tactic(auto, using(crate::proofs::Accepting::fewer))]
fn trim(standing: &Standing, track: &mut LiveTrack)
    requires target { 1 ≤ standing.now.target }
    requires paired { AreSideBySide track.old }
    requires can { spec.IsTrimmable (track_shown track.old) }
    ensures shown { track_shown track.new ≡ spec.trimmed standing.now (track_shown track.old) }
    ensures paired { AreSideBySide track.new }
{
    let count = unavailable_of(standing, track);
    remove(track, count);
}

/// How many of its segments aren't available any more, or may be removed where three target durations have to be
/// left.
fn unavailable_of(standing: &Standing, track: &LiveTrack) -> usize
    requires { AreSideBySide track.now }
    ensures { spec.trimmed standing.now (track_shown track.now) ≡ without_front result (track_shown track.now) }
{
    let least = three_targets(standing);
    removed_of(track, standing.force(), standing.instant, least)
}

/// Three target durations in units of the last decimal: the least that is kept.
fn three_targets(standing: &Standing) -> u128
    ensures { result ≡ 3 * standing.now.target * 10 ^ standing.now.digits }
{
    3 * u128::from(standing.target) * u128::from(standing.digits.unit())
}
