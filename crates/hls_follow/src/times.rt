// Times of segments.
ghost use Rattle.std.specs.Prelude.{◌≡◌, ◌<◌, ◌^◌, IfOk, length, map};
ghost use Rattle.std.specs.Option.{option_copied};
ghost use Rattle.bridge_io.specs.Answer.{Gives};
ghost use Rattle.hls_media.specs.Laws.{IsBounded};
ghost use Rattle.hls_presentation.specs.Views.{source_of};
ghost use Rattle.hls_follow.specs.Faults.{told};
ghost use Rattle.hls_follow.specs.Kept.{AreBounded};
ghost use Rattle.hls_follow.specs.Times as spec;

use crate::LiveFault;
use crate::state::{FollowedTrack, Last, TimedList, TimedSegment};
use bridge_io::{NoMemory, Sequence};
use hls_media::{Media, MediaSegment};
use hls_presentation::Source;
use std::alloc::Global;

/// The segments of all kept tracks.
pub(crate) type TimedTracks<'a> = Sequence<TimedList<'a>>;

/// The segments of the kept tracks with their times.
pub(crate) fn time_all<'a>(
    alloc: Global,
    formers: &[FollowedTrack],
    kept: &[Source<'a>],
) -> Result<TimedTracks<'a>, LiveFault>
    requires { AreBounded (map source_of kept.now) }
    ensures timed { Gives (λ timed. timed) told result (spec.timed_all formers.now 0 (map source_of kept.now)) }
    ensures all { IfOk result (λ timed. length timed ≡ length kept.now) }
{
    let mut all = TimedTracks::new(alloc);
    let mut place = 0;
    for source in kept {
        let timed = time_segments(alloc, formers.get(place), source.media)?;
        all.push(timed)?;
        place += 1;
    }
    Ok(all)
}

/// The segments of a playlist with their times.
#[tactic(auto, unfolding(crate::specs::Times::timed_of))]
fn time_segments<'a>(
    alloc: Global,
    former: Option<&FollowedTrack>,
    media: &'a Media,
) -> Result<TimedList<'a>, LiveFault>
    requires { IsBounded media.now }
    ensures { Gives (λ timed. timed) told result (spec.unless_late (spec.timed_of (option_copied former.entry) media.now)) }
{
    let mut timed = TimedList::new(alloc);
    let mut last = last_of(former);
    let mut number = media.sequence;
    for segment in media.segments.as_slice() {
        let time = time_of(former, media.target, number, segment.section, last);
        let next = timed_segment(segment, time)?;
        last = Some(behind(number, &next));
        timed.push(next)?;
        number += 1;
    }
    Ok(timed)
}

/// A segment with its time, where it doesn't end too late.
fn timed_segment<'a>(segment: &'a MediaSegment, time: u128) -> Result<TimedSegment<'a>, LiveFault>
    requires { time < 2 ^ 127 }
    ensures { Gives (λ timed. timed) told result (spec.timed_within segment.now time) }
{
    if 1 << 63 <= time + u128::from(segment.duration.0) {
        return Err(LiveFault::Limit);
    }
    Ok(TimedSegment::new(segment, time as u64))
}

fn behind(number: u64, timed: &TimedSegment<'_>) -> Last
    ensures { result ≡ spec.behind_segment number timed.now.time timed.now.segment }
{
    Last {
        next: u128::from(number) + 1,
        section: timed.segment().section,
        time: timed.time(),
        duration: timed.segment().duration,
    }
}

/// When a segment begins.
fn time_of(
    former: Option<&FollowedTrack>,
    target: u64,
    number: u64,
    section: u64,
    last: Option<Last>,
) -> u128
    requires { target < 2 ^ 31 }
    ensures time { result ≡ spec.time_of (option_copied former.entry) target number section last }
    ensures bounded { result < 2 ^ 127 }
{
    match former_time(former, number) {
        Some(time) => u128::from(time),
        None => new_time(target, number, section, last),
    }
}

/// The time of a sequence number in the previous snapshot.
fn former_time(former: Option<&FollowedTrack>, number: u64) -> Option<u64>
    ensures { result ≡ spec.former_time (option_copied former.entry) number }
{
    let former = former?;
    if number < former.media.sequence {
        return None;
    }
    let place = number - former.media.sequence;
    former.times.as_slice().get(place as usize).copied()
}

fn new_time(target: u64, number: u64, section: u64, last: Option<Last>) -> u128
    requires { target < 2 ^ 31 }
    ensures time { result ≡ spec.new_time target number section last }
    ensures bounded { result < 2 ^ 127 }
{
    match last {
        Some(last) if last.section == section => {
            let missed = u128::from(number).saturating_sub(last.next);
            let end = u128::from(last.time) + u128::from(last.duration.0);
            end + missed * (u128::from(target) * 1_000_000_000)
        }
        _ => 0,
    }
}

/// The last segment of the previous snapshot.
pub(crate) fn last_of(former: Option<&FollowedTrack>) -> Option<Last>
    ensures { result ≡ spec.last_of (option_copied former.entry) }
{
    let former = former?;
    let segments = former.media.segments.as_slice();
    let segment = segments.last()?;
    let time = *former.times.as_slice().last()?;
    Some(Last {
        next: u128::from(former.media.sequence) + segments.len() as u128,
        section: segment.section,
        time,
        duration: segment.duration,
    })
}
