// Accepting a snapshot of playlists.
ghost use Rattle.std.specs.Prelude.{◌≡◌, ◌<◌, ◌≤◌, ◌^◌, All, length, map, IfOk, IfSome};
ghost use Rattle.std.specs.Option.{option_copied};
ghost use Rattle.bridge_io.specs.Answer.{Gives};
ghost use Rattle.iso_time.specs.Instant.{IsReadable, IsWritable};
ghost use Rattle.dash_writer.specs.Live.{IsLive};
ghost use Rattle.hls_media.specs.Laws.{IsBounded};
ghost use Rattle.hls_presentation.specs.Views.{source_of};
ghost use Rattle.hls_presentation.specs.Tracks.{sources};
ghost use Rattle.hls_follow.specs.Faults.{told};
ghost use Rattle.hls_follow.specs.Kept.{AreBounded, HasScales, IsEarly, IsSound, formers_of, periods_of as former_periods};
ghost use Rattle.hls_follow.specs.Groups.{groups_of};
ghost use Rattle.hls_follow.specs.Periods as periods;
ghost use Rattle.hls_follow.specs.Rules.{appended_from, count_of};
ghost use Rattle.hls_follow.specs.Rounds as spec;

use crate::LiveFault;
use crate::groups::groups_of_all;
use crate::kept::{flags_of, formers_of, kept_by, periods_of as former_periods};
use crate::periods::{last_end, periods_of};
use crate::rules::{SectionList, appended_by, check_count, check_now, check_tracks, check_updates};
use crate::state::{Followed, FollowedList, FollowedTrack, KeptList, TimeList, TimedList};
use crate::times::time_all;
use bridge_io::{NoMemory, Sequence};
use dash_writer::{LiveMpd, LivePeriodList};
use hls_master::MasterTrack;
use hls_media::Media;
use hls_presentation::{MediaFiles, Source, sources_of, tracks_of};
use iso_time::Instant;
use std::alloc::Global;

/// The times of the segments of tracks.
pub(crate) type TimeLists = Sequence<TimeList>;

/// What a snapshot's playlists become, before they are kept.
#[derive(Drop)]
pub(crate) struct Placed {
    /// Which tracks are kept.
    pub(crate) flags: KeptList,
    /// When the segments of the kept tracks begin.
    pub(crate) times: TimeLists,
    /// The MPD.
    pub(crate) mpd: LiveMpd,
    /// How many segments are appended.
    pub(crate) appended: u64,
}

/// The result of an accepted snapshot.
#[derive(Drop)]
pub(crate) struct Round {
    /// The new state.
    pub(crate) followed: Followed,
    /// How many segments it appended.
    pub(crate) appended: u64,
}

/// The result of a snapshot after those that were accepted, or why it is rejected.
pub(crate) fn follow_round(
    alloc: Global,
    tracks: &[MasterTrack],
    former: Option<&Followed>,
    now: Instant,
    medias: MediaFiles,
) -> Result<Round, LiveFault>
    requires now { IsReadable now }
    requires one_each { length medias ≡ length tracks.now }
    requires bounded { All IsBounded medias }
    requires sound { IfSome (option_copied former) IsSound }
    ensures sound { IfOk result (λ round. IsSound round.followed) }
    ensures next { Gives (λ round. round.followed) told result (spec.followed_of tracks.now (option_copied former.entry) now medias) }
    ensures appended { IfOk result (λ round. round.appended
        ≡ appended_from (formers_of (option_copied former.entry)) 0
        (spec.kept_in (option_copied former.entry) (sources tracks.now medias))) }
{
    let placed = place_round(alloc, tracks, former, now, medias.as_slice())?;
    Ok(keep(alloc, placed, medias)?)
}

#[tactic(auto, unfolding(crate::specs::Rounds::followed_of))]
fn place_round(
    alloc: Global,
    tracks: &[MasterTrack],
    former: Option<&Followed>,
    now: Instant,
    medias: &[Media],
) -> Result<Placed, LiveFault>
    requires now { IsReadable now }
    requires bounded { All IsBounded medias.now }
    requires sound { IfSome (option_copied former) IsSound }
    ensures sound { IfOk result (λ placed. IsSound (spec.placed_from placed (sources tracks.now medias.now))) }
    ensures next { Gives (λ placed. spec.placed_from placed (sources tracks.now medias.now)) told result
        (spec.followed_of tracks.now (option_copied former.entry) now medias.now) }
    ensures appended { IfOk result (λ placed. placed.appended
        ≡ appended_from (formers_of (option_copied former.entry)) 0
        (spec.kept_in (option_copied former.entry) (sources tracks.now medias.now))) }
{
    check_now(former, now)?;
    let sources = sources_of(alloc, tracks, medias)?;
    place_sources(alloc, former, now, &sources)
}

fn place_sources(
    alloc: Global,
    former: Option<&Followed>,
    now: Instant,
    sources: &[Source<'_>],
) -> Result<Placed, LiveFault>
    requires now { IsReadable now }
    requires bounded { AreBounded (map source_of sources.now) }
    requires sound { IfSome (option_copied former) IsSound }
    ensures sound { IfOk result (λ placed. IsSound (spec.placed_from placed (map source_of sources.now))) }
    ensures next { Gives (λ placed. spec.placed_from placed (map source_of sources.now)) told result
        (spec.followed_by (option_copied former.entry) now (map source_of sources.now)) }
    ensures appended { IfOk result (λ placed. placed.appended
        ≡ appended_from (formers_of (option_copied former.entry)) 0
        (spec.kept_in (option_copied former.entry) (map source_of sources.now))) }
{
    let flags = flags_of(alloc, former, sources)?;
    let kept = kept_by(alloc, flags.as_slice(), sources)?;
    let sections = judge_tracks(alloc, formers_of(former), &kept)?;
    place(alloc, former, now, flags, &kept, sections.as_slice())
}

/// The sections of the kept tracks, or their first error.
#[tactic(auto, unfolding(crate::specs::Rounds::judged_tracks))]
fn judge_tracks(
    alloc: Global,
    formers: &[FollowedTrack],
    kept: &[Source<'_>],
) -> Result<SectionList, LiveFault>
    requires early { All IsEarly formers.now }
    requires bounded { AreBounded (map source_of kept.now) }
    ensures sections { Gives (λ sections. sections) told result (spec.judged_tracks formers.now (map source_of kept.now)) }
    ensures few { IfOk result (λ sections. count_of (map source_of kept.now) ≤ 500_000) }
{
    check_tracks(kept)?;
    let sections = check_updates(alloc, formers, kept)?;
    check_count(sections.as_slice(), kept)?;
    Ok(sections)
}

/// The times and the Periods of checked playlists with these sections.
#[tactic(auto, unfolding(crate::specs::Rounds::placed_of))]
fn place(
    alloc: Global,
    former: Option<&Followed>,
    now: Instant,
    flags: KeptList,
    kept: &[Source<'_>],
    sections: &[u64],
) -> Result<Placed, LiveFault>
    requires now { IsReadable now }
    requires bounded { AreBounded (map source_of kept.now) }
    requires few { count_of (map source_of kept.now) ≤ 500_000 }
    requires sound { IfSome (option_copied former) IsSound }
    ensures sound { IfOk result (λ placed. IsSound (spec.followed_from placed (map source_of kept.now))) }
    ensures placed { Gives (λ placed. spec.followed_from placed (map source_of kept.now)) told result
        (spec.placed_of (option_copied former.entry) now flags (map source_of kept.now) sections.now) }
    ensures flags { IfOk result (λ placed. placed.flags ≡ flags) }
    ensures appended { IfOk result (λ placed. placed.appended
        ≡ appended_from (formers_of (option_copied former.entry)) 0 (map source_of kept.now)) }
{
    let timed = time_all(alloc, formers_of(former), kept)?;
    let periods = periods_with(alloc, former, timed.as_slice(), sections)?;
    let end = last_end(periods.as_slice());
    let mpd = mpd_of(alloc, former, now, end, kept, periods)?;
    let times = times_of_all(alloc, timed.as_slice())?;
    let appended = appended_by(formers_of(former), kept);
    Ok(Placed {
        flags,
        times,
        mpd,
        appended,
    })
}

/// The Periods of the tracks' segments.
fn periods_with(
    alloc: Global,
    former: Option<&Followed>,
    timed: &[TimedList<'_>],
    sections: &[u64],
) -> Result<LivePeriodList, LiveFault>
    ensures periods { Gives (λ periods. periods) told result
        (periods.periods_from (former_periods (option_copied former.entry)) (map groups_of timed.now)
        (periods.last_end (former_periods (option_copied former.entry))) 0 sections.now) }
    ensures filled { IfOk result (All (λ p. length p.runs ≡ length timed.now)) }
    ensures scaled { IfOk result (All HasScales) }
{
    let groups = groups_of_all(alloc, timed)?;
    periods_of(alloc, former_periods(former), &groups, sections)
}

/// The MPD of these Periods. What a first snapshot lists is available `end` nanoseconds after the presentation begins.
pub(crate) fn mpd_of(
    alloc: Global,
    former: Option<&Followed>,
    now: Instant,
    end: u128,
    kept: &[Source<'_>],
    periods: LivePeriodList,
) -> Result<LiveMpd, LiveFault>
    requires now { IsReadable now }
    requires sound { IfSome (option_copied former) IsSound }
    requires near { end < 2 ^ 66 }
    requires filled { All (λ p. length p.runs ≡ length kept.now) periods }
    ensures live { IfOk result (λ mpd. IsLive mpd) }
    ensures listed { IfOk result (λ mpd. mpd.periods ≡ periods) }
    ensures mpd { Gives (λ mpd. mpd) told result (spec.mpd_or_fault (option_copied former.entry) now end periods (map source_of kept.now)) }
{
    let start = start_of(former, now, end)?;
    let tracks = tracks_of(alloc, kept)?;
    Ok(LiveMpd {
        start,
        published: now,
        target: target_of(kept),
        ended: are_ended(kept),
        tracks,
        periods,
    })
}

/// When the presentation begins.
fn start_of(former: Option<&Followed>, now: Instant, end: u128) -> Result<Instant, LiveFault>
    requires now { IsReadable now }
    requires near { end < 2 ^ 66 }
    requires sound { IfSome (option_copied former) IsSound }
    ensures writable { IfOk result (λ start. IsWritable start) }
    ensures start { result ≡ spec.start_of (option_copied former.entry) now end }
{
    match former {
        Some(former) => Ok(former.mpd.start),
        None => first_start(now, end),
    }
}

/// The timestamp `end` nanoseconds earlier, rounded down to milliseconds.
fn first_start(now: Instant, end: u128) -> Result<Instant, LiveFault>
    requires now { IsReadable now }
    requires near { end < 2 ^ 66 }
    ensures writable { IfOk result (λ start. IsWritable start) }
    ensures start { result ≡ spec.first_start now end }
{
    let start = (now.0 - end as i128).div_euclid(1_000_000) * 1_000_000;
    if start < -12_212_553_600_000_000_000 {
        return Err(LiveFault::Limit);
    }
    Ok(Instant(start))
}

/// The greatest target duration.
pub(crate) fn target_of(kept: &[Source<'_>]) -> u64
    ensures { result ≡ spec.target_of (map source_of kept.now) }
{
    let mut target = 0;
    for source in kept {
        target = target.max(source.media.target);
    }
    target
}

/// Whether all playlists have EXT-X-ENDLIST.
fn are_ended(kept: &[Source<'_>]) -> bool
    ensures { result ≡ spec.are_ended (map source_of kept.now) }
{
    for source in kept {
        if !source.media.ended {
            return false;
        }
    }
    true
}

/// The new state, which has the playlists that are kept.
pub(crate) fn keep(alloc: Global, placed: Placed, medias: MediaFiles) -> Result<Round, NoMemory>
    ensures followed { IfOk result (λ round. round.followed ≡ spec.moved_from placed medias) }
    ensures appended { IfOk result (λ round. round.appended ≡ placed.appended) }
{
    let Placed {
        flags,
        times,
        mpd,
        appended,
    } = placed;
    let tracks = followed_tracks(alloc, flags.as_slice(), medias, times)?;
    let followed = Followed {
        kept: flags,
        tracks,
        mpd,
    };
    Ok(Round { followed, appended })
}

/// The playlists that are kept, with their times.
fn followed_tracks(
    alloc: Global,
    mut flags: &[bool],
    medias: MediaFiles,
    times: TimeLists,
) -> Result<FollowedList, NoMemory>
    ensures { IfOk result (λ tracks. tracks ≡ spec.tracks_by flags.entry.now medias times) }
{
    let mut tracks = FollowedList::new(alloc);
    let mut left = medias.into_vec().into_iter();
    let mut rest = times.into_vec().into_iter();
    while let Some(media) = left.next() {
        let Some((flag, later)) = flags.split_first() else {
            return Ok(tracks);
        };
        flags = later;
        if *flag {
            let Some(times) = rest.next() else {
                return Ok(tracks);
            };
            tracks.push(FollowedTrack { media, times })?;
        }
    }
    Ok(tracks)
}

/// The times of the segments of each track.
fn times_of_all(alloc: Global, tracks: &[TimedList<'_>]) -> Result<TimeLists, NoMemory>
    ensures { IfOk result (λ times. times ≡ map spec.times_in tracks.now) }
{
    let mut all = TimeLists::new(alloc);
    for timed in tracks {
        all.push(times_of(alloc, timed)?)?;
    }
    Ok(all)
}

fn times_of(alloc: Global, timed: &TimedList<'_>) -> Result<TimeList, NoMemory>
    ensures { IfOk result (λ times. times ≡ spec.times_in timed.now) }
{
    let mut times = Vec::with_capacity(alloc, timed.len())?;
    for segment in timed.as_slice() {
        times.push(segment.time())?;
    }
    Ok(TimeList::from(times))
}
