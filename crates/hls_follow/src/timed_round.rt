// Accepting a snapshot of playlists whose media files are read.
ghost use Rattle.std.specs.Prelude.{◌≡◌, ◌*◌, ◌^◌, ◌<◌, ◌≤◌, All, IfOk, IfSome, length, map};
ghost use Rattle.std.specs.Option.{ForSome, option_copied};
ghost use Rattle.bridge_io.specs.Answer.{Gives};
ghost use Rattle.bridge_io.specs.Fault.{HasCause};
ghost use Rattle.iso_time.specs.Instant.{IsReadable};
ghost use Rattle.hls_media.specs.Laws.{IsBounded};
ghost use Rattle.hls_presentation.specs.Views.{source_of};
ghost use Rattle.hls_presentation.specs.Tracks.{sources};
ghost use Rattle.hls_follow.specs.Faults.{told};
ghost use Rattle.hls_follow.specs.Kept.{AreBounded, IsSound, formers_of};
ghost use Rattle.hls_follow.specs.OwnTimes.{timed_told, unread};
ghost use Rattle.hls_follow.specs.Rounds.{followed_from, kept_in, placed_from, tracks_with};
ghost use Rattle.hls_follow.specs.Rules.{appended_from, count_of};
ghost use Rattle.hls_follow.specs.TimedRounds as spec;

use crate::kept::{flags_of, formers_of, kept_by, periods_of};
use crate::maps::check_maps_of_all;
use crate::periods::last_end;
use crate::round::{Placed, Round, TimeLists, keep, mpd_of, target_of};
use crate::rules::{SectionList, appended_by, check_count, check_now, check_updates};
use crate::snapshot::Snapshot;
use crate::state::{Followed, KeptList, TimeList};
use crate::stretches::stretches_of_all;
use crate::{LiveFault, TimedFault};
use bridge_io::{NoMemory, Store};
use dash_writer::LivePeriod;
use fragment_times::SegmentTimes;
use hls_master::MasterTrack;
use hls_media::Media;
use hls_presentation::{MediaFiles, Source, sources_of};
use iso_time::Instant;
use std::alloc::Global;
use url_parts::Base;

/// The result of a snapshot after those that were accepted, with the times of its media files, or why it is rejected.
pub(crate) fn time_round<F: Store>(
    alloc: Global,
    tracks: &[MasterTrack],
    former: Option<&Followed>,
    now: Instant,
    medias: MediaFiles,
    folder: &Base,
    store: &mut F,
) -> Result<Round, TimedFault>
    requires now { IsReadable now }
    requires one_each { length medias ≡ length tracks.now }
    requires bounded { All IsBounded medias }
    requires sound { IfSome (option_copied former) IsSound }
    ensures sound { IfOk result (λ round. IsSound round.followed) }
    ensures next { ForSome (F.files store.old) (λ files. Gives (λ round. round.followed) timed_told result
        (spec.timed_of tracks.now (option_copied former.entry) now medias folder.now files)) }
    ensures appended { IfOk result (λ round. round.appended ≡ appended_from (formers_of (option_copied former.entry)) 0
        (kept_in (option_copied former.entry) (sources tracks.now medias))) }
    ensures cause { HasCause unread (F.read_faults store.old) (F.read_faults store.new) result }
    ensures files { F.files store.new ≡ F.files store.old }
    ensures writes { F.write_faults store.new ≡ F.write_faults store.old }
{
    let placed = time_medias(alloc, tracks, former, now, medias.as_slice(), folder, store)?;
    Ok(keep(alloc, placed, medias)?)
}

#[tactic(auto, unfolding(crate::specs::TimedRounds::timed_of))]
fn time_medias<F: Store>(
    alloc: Global,
    tracks: &[MasterTrack],
    former: Option<&Followed>,
    now: Instant,
    medias: &[Media],
    folder: &Base,
    store: &mut F,
) -> Result<Placed, TimedFault>
    requires now { IsReadable now }
    requires bounded { All IsBounded medias.now }
    requires sound { IfSome (option_copied former) IsSound }
    ensures sound { IfOk result (λ placed. IsSound (placed_from placed (sources tracks.now medias.now))) }
    ensures next { ForSome (F.files store.old) (λ files. Gives (λ placed. placed_from placed (sources tracks.now medias.now)) timed_told
        result (spec.timed_of tracks.now (option_copied former.entry) now medias.now folder.now files)) }
    ensures appended { IfOk result (λ placed. placed.appended ≡ appended_from (formers_of (option_copied former.entry)) 0
        (kept_in (option_copied former.entry) (sources tracks.now medias.now))) }
    ensures cause { HasCause unread (F.read_faults store.old) (F.read_faults store.new) result }
    ensures files { F.files store.new ≡ F.files store.old }
    ensures writes { F.write_faults store.new ≡ F.write_faults store.old }
{
    check_now(former, now)?;
    let sources = sources_of(alloc, tracks, medias)?;
    time_sources(alloc, former, now, &sources, folder, store)
}

fn time_sources<F: Store>(
    alloc: Global,
    former: Option<&Followed>,
    now: Instant,
    sources: &[Source<'_>],
    folder: &Base,
    store: &mut F,
) -> Result<Placed, TimedFault>
    requires now { IsReadable now }
    requires bounded { AreBounded (map source_of sources.now) }
    requires sound { IfSome (option_copied former) IsSound }
    ensures sound { IfOk result (λ placed. IsSound (placed_from placed (map source_of sources.now))) }
    ensures next { ForSome (F.files store.old) (λ files. Gives (λ placed. placed_from placed (map source_of sources.now)) timed_told result
        (spec.timed_by (option_copied former.entry) now (map source_of sources.now) folder.now files)) }
    ensures appended { IfOk result (λ placed. placed.appended ≡ appended_from (formers_of (option_copied former.entry)) 0
        (kept_in (option_copied former.entry) (map source_of sources.now))) }
    ensures cause { HasCause unread (F.read_faults store.old) (F.read_faults store.new) result }
    ensures files { F.files store.new ≡ F.files store.old }
    ensures writes { F.write_faults store.new ≡ F.write_faults store.old }
{
    let flags = flags_of(alloc, former, sources)?;
    let kept = kept_by(alloc, flags.as_slice(), sources)?;
    let sections = judge_tracks(alloc, former, &kept)?;
    place_timed(
        alloc,
        former,
        now,
        flags,
        &kept,
        sections.as_slice(),
        folder,
        store,
    )
}

/// The sections of the kept tracks, or their first error. No section has another map than before. That they are few is known before any
/// file is read.
fn judge_tracks(
    alloc: Global,
    former: Option<&Followed>,
    kept: &[Source<'_>],
) -> Result<SectionList, LiveFault>
    requires sound { IfSome (option_copied former) IsSound }
    requires bounded { AreBounded (map source_of kept.now) }
    ensures sections { Gives (λ sections. sections) told result (spec.judged_tracks (option_copied former.entry) (map source_of kept.now)) }
    ensures few { IfOk result (λ sections. count_of (map source_of kept.now) ≤ 500_000) }
{
    check_maps_of_all(periods_of(former), kept)?;
    let sections = check_updates(alloc, formers_of(former), kept)?;
    check_count(sections.as_slice(), kept)?;
    Ok(sections)
}

/// The times and the Periods of checked playlists with these sections.
fn place_timed<'a, F: Store>(
    alloc: Global,
    former: Option<&'a Followed>,
    now: Instant,
    flags: KeptList,
    kept: &'a [Source<'a>],
    sections: &'a [u64],
    folder: &'a Base,
    store: &mut F,
) -> Result<Placed, TimedFault>
    requires now { IsReadable now }
    requires bounded { AreBounded (map source_of kept.now) }
    requires few { count_of (map source_of kept.now) ≤ 500_000 }
    requires sound { IfSome (option_copied former) IsSound }
    ensures sound { IfOk result (λ placed. IsSound (followed_from placed (map source_of kept.now))) }
    ensures flags { IfOk result (λ placed. placed.flags ≡ flags) }
    ensures appended { IfOk result (λ placed. placed.appended
        ≡ appended_from (formers_of (option_copied former.entry)) 0 (map source_of kept.now)) }
    ensures placed { ForSome (F.files store.old) (λ files. Gives (λ placed. followed_from placed (map source_of kept.now)) timed_told result
        (spec.placed_of (option_copied former.entry) now flags (map source_of kept.now) sections.now folder.now files)) }
    ensures cause { HasCause unread (F.read_faults store.old) (F.read_faults store.new) result }
    ensures files { F.files store.new ≡ F.files store.old }
    ensures writes { F.write_faults store.new ≡ F.write_faults store.old }
{
    let tracks = stretches_of_all(alloc, formers_of(former), kept)?;
    let snapshot = Snapshot {
        formers: formers_of(former),
        periods: periods_of(former),
        sections,
        tracks: &tracks,
        folder,
    };
    let times = snapshot.times(alloc, store)?;
    let runs = snapshot.runs(alloc, times.as_slice())?;
    let periods = snapshot.periods_of(alloc, runs.as_slice())?;
    let end = listed_by(periods.as_slice(), kept);
    let mpd = mpd_of(alloc, former, now, end, kept, periods)?;
    let times = times_by_track(alloc, kept, times.as_slice())?;
    let appended = appended_by(formers_of(former), kept);
    Ok(Placed {
        flags,
        times,
        mpd,
        appended,
    })
}

/// When the last section ends, and two of the greatest target durations later, in nanoseconds: what a first snapshot lists is
/// available by the snapshot's time also where segments come late.
fn listed_by(periods: &[LivePeriod], kept: &[Source<'_>]) -> u128
    requires { AreBounded (map source_of kept.now) }
    ensures listed { result ≡ spec.listed_by periods.now (map source_of kept.now) }
    ensures near { result < 2 ^ 66 }
{
    last_end(periods) + 2 * u128::from(target_of(kept)) * 1_000_000_000
}

/// The times of the kept tracks, given by section, then by track.
fn times_by_track(
    alloc: Global,
    kept: &[Source<'_>],
    times: &[SegmentTimes],
) -> Result<TimeLists, NoMemory>
    ensures { IfOk result (λ all. tracks_with (map source_of kept.now) all ≡ spec.timed_tracks (map source_of kept.now) times.now) }
{
    let mut all = TimeLists::new(alloc);
    for place in 0..kept.len() {
        all.push(times_of(alloc, kept.len(), place, times)?)?;
    }
    Ok(all)
}

/// The times of the track at an index of so many.
fn times_of(
    alloc: Global,
    count: usize,
    place: usize,
    times: &[SegmentTimes],
) -> Result<TimeList, NoMemory>
    requires { place < count }
    ensures { IfOk result (λ own. own ≡ spec.times_of count place times.now) }
{
    let mut own = TimeList::new(alloc);
    let mut rest = times;
    while let Some((row, later)) = rest.split_at_checked(count) {
        own.extend(row[place].starts.as_slice())?;
        rest = later;
    }
    Ok(own)
}
