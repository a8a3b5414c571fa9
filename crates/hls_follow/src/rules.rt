// Checks of a snapshot, rule by rule.
ghost use Rattle.std.specs.Prelude.{◌≡◌, ◌<◌, ◌≤◌, ◌^◌, All, map, IfOk, IfSome};
ghost use Rattle.std.specs.List.{list_all};
ghost use Rattle.std.specs.Option.{option_copied};
ghost use Rattle.bridge_io.specs.Answer.{Gives};
ghost use Rattle.hls_presentation.specs.Tracks.{segment_faults};
ghost use Rattle.hls_presentation.specs.Views.{source_of};
ghost use Rattle.hls_follow.specs.Faults.{told};
ghost use Rattle.hls_follow.specs.Kept.{AreBounded, IsEarly};
ghost use Rattle.hls_follow.specs.Rules as spec;

use crate::LiveFault;
use crate::state::{Followed, FollowedTrack};
use bridge_io::{NoMemory, Sequence};
use hls_media::{Media, MediaSegment};
use hls_presentation::{HlsFault, Source, check_segments};
use iso_time::Instant;
use reload_law::{Unlawful, lawful};
use std::alloc::Global;

/// Section numbers in order.
pub(crate) type SectionList = Sequence<u64>;

/// Checks the time of a snapshot.
pub(crate) fn check_now(former: Option<&Followed>, now: Instant) -> Result<(), LiveFault>
    ensures { result ≡ spec.judged_at (option_copied former.entry) now }
{
    let Some(former) = former else {
        return Ok(());
    };
    if former.mpd.ended {
        return Err(LiveFault::Ended);
    }
    if now < former.mpd.published {
        return Err(LiveFault::ClockBack {
            former: former.mpd.published,
            now,
        });
    }
    Ok(())
}

/// The first error of the tracks' segments.
pub(crate) fn check_tracks(kept: &[Source<'_>]) -> Result<(), LiveFault>
    ensures { result ≡ spec.judged_segments (map source_of kept.now) }
{
    for source in kept {
        check_track(source.media)?;
    }
    Ok(())
}

pub(crate) fn check_track(media: &Media) -> Result<(), LiveFault>
    ensures { result ≡ spec.judged_segments_of media.now }
{
    match check_segments(media) {
        Ok(()) => Ok(()),
        Err(fault) => Err(fault_of_track(fault)),
    }
}

fn fault_of_track(fault: HlsFault) -> LiveFault
    ensures { result ≡ spec.fault_of_track fault }
{
    match fault {
        HlsFault::NoMap => LiveFault::NoMap,
        HlsFault::MapChanged => LiveFault::MapChanged,
        _ => LiveFault::ZeroDuration,
    }
}

/// The sections of the tracks, or the first error of all playlists together and as updates of those before.
#[tactic(auto, unfolding(crate::specs::Rules::judged_updates))]
pub(crate) fn check_updates(
    alloc: Global,
    formers: &[FollowedTrack],
    kept: &[Source<'_>],
) -> Result<SectionList, LiveFault>
    requires early { All IsEarly formers.now }
    requires bounded { AreBounded (map source_of kept.now) }
    ensures { Gives (λ sections. sections) told result (spec.judged_updates formers.now (map source_of kept.now)) }
{
    let sections = common_sections(alloc, kept)?;
    check_reloads(formers, kept)?;
    check_sections(formers, kept)?;
    Ok(sections)
}

/// The section numbers that all tracks have.
fn common_sections(alloc: Global, kept: &[Source<'_>]) -> Result<SectionList, LiveFault>
    ensures { Gives (λ sections. sections) told result (spec.common_sections (map source_of kept.now)) }
{
    let sections = sections_in(alloc, kept)?;
    if !have_all(alloc, sections.as_slice(), kept)? {
        return Err(LiveFault::SectionsDiffer);
    }
    if sections.is_empty() {
        return Err(LiveFault::NoTracks);
    }
    Ok(sections)
}

/// The section numbers of the first track.
fn sections_in(alloc: Global, kept: &[Source<'_>]) -> Result<SectionList, NoMemory>
    ensures { IfOk result (λ sections. sections ≡ spec.sections_in (map source_of kept.now)) }
{
    match kept.first() {
        Some(source) => sections_of(alloc, source.media),
        None => Ok(SectionList::new(alloc)),
    }
}

fn have_all(alloc: Global, sections: &[u64], kept: &[Source<'_>]) -> Result<bool, NoMemory>
    ensures { IfOk result (λ all. all ≡ list_all (spec.has_sections sections.now) (map source_of kept.now)) }
{
    for source in kept {
        let others = sections_of(alloc, source.media)?;
        if sections != others.as_slice() {
            return Ok(false);
        }
    }
    Ok(true)
}

fn sections_of(alloc: Global, media: &Media) -> Result<SectionList, NoMemory>
    ensures { IfOk result (λ sections. sections ≡ spec.sections_of media.now) }
{
    let mut sections = SectionList::new(alloc);
    let mut former = None;
    for segment in media.segments.as_slice() {
        if former != Some(segment.section) {
            sections.push(segment.section)?;
            former = Some(segment.section);
        }
    }
    Ok(sections)
}

/// Whether each track's playlist is a valid update of its previous one.
fn check_reloads(formers: &[FollowedTrack], kept: &[Source<'_>]) -> Result<(), LiveFault>
    requires early { All IsEarly formers.now }
    requires bounded { AreBounded (map source_of kept.now) }
    ensures { result ≡ spec.judged_all spec.judged_reload formers.now 0 (map source_of kept.now) }
{
    let mut place = 0;
    for source in kept {
        check_reload(place, formers.get(place), source.media)?;
        place += 1;
    }
    Ok(())
}

fn check_reload(
    track: usize,
    former: Option<&FollowedTrack>,
    media: &Media,
) -> Result<(), LiveFault>
    requires former { IfSome (option_copied former) IsEarly }
    requires media { media.now.sequence < 2 ^ 63 }
    ensures { result ≡ spec.judged_reload track (option_copied former.entry) media.now }
{
    let Some(former) = former else {
        return Ok(());
    };
    match lawful(&former.media, media) {
        Ok(()) | Err(Unlawful::ThreeTargets) => Ok(()),
        Err(rule) => Err(LiveFault::Unlawful { track, rule }),
    }
}

/// Whether no track continues in a section before that of its last segment.
fn check_sections(formers: &[FollowedTrack], kept: &[Source<'_>]) -> Result<(), LiveFault>
    ensures { result ≡ spec.judged_all spec.judged_section formers.now 0 (map source_of kept.now) }
{
    let mut place = 0;
    for source in kept {
        check_section(place, formers.get(place), source.media)?;
        place += 1;
    }
    Ok(())
}

fn check_section(
    track: usize,
    former: Option<&FollowedTrack>,
    media: &Media,
) -> Result<(), LiveFault>
    ensures { result ≡ spec.judged_section track (option_copied former.entry) media.now }
{
    let Some(track_before) = former else {
        return Ok(());
    };
    let last = track_before.media.segments.as_slice().last();
    match (last, new_segments(former, media).first()) {
        (Some(last), Some(first)) if first.section < last.section => Err(LiveFault::SectionBack {
            track,
            former: last.section,
            new: first.section,
        }),
        _ => Ok(()),
    }
}

/// The segments after the last sequence number of the previous snapshot.
fn new_segments<'a>(former: Option<&FollowedTrack>, media: &'a Media) -> &'a [MediaSegment]
    ensures { result.now ≡ spec.new_segments (option_copied former.entry) media.now }
{
    let segments = media.segments.as_slice();
    let known = match former {
        Some(former) => known_in(&former.media, media),
        None => 0,
    };
    if known < segments.len() as u128 {
        &segments[known as usize..]
    } else {
        &[]
    }
}

/// How many sequence numbers of a playlist are before the end of the previous one.
fn known_in(former: &Media, media: &Media) -> u128
    ensures { result ≡ spec.known_in former.now media.now }
{
    let end = u128::from(former.sequence) + former.segments.len() as u128;
    end.saturating_sub(u128::from(media.sequence))
}

/// Checks the limits of sections and segments.
pub(crate) fn check_count(sections: &[u64], kept: &[Source<'_>]) -> Result<(), LiveFault>
    ensures { result ≡ spec.judged_count sections.now (map source_of kept.now) }
{
    if 500_000 < count_of(kept) || 1_000 < sections.len() {
        return Err(LiveFault::Limit);
    }
    Ok(())
}

fn count_of(kept: &[Source<'_>]) -> u128
    ensures { result ≡ spec.count_of (map source_of kept.now) }
{
    let mut count = 0;
    for source in kept {
        count += source.media.segments.len() as u128;
    }
    count
}

/// How many segments have sequence numbers above all accepted ones.
pub(crate) fn appended_by(formers: &[FollowedTrack], kept: &[Source<'_>]) -> u64
    requires { spec.count_of (map source_of kept.now) ≤ 500_000 }
    ensures { result ≡ spec.appended_from formers.now 0 (map source_of kept.now) }
{
    let mut count = 0;
    let mut place = 0;
    for source in kept {
        count += new_segments(formers.get(place), source.media).len() as u64;
        place += 1;
    }
    count
}
