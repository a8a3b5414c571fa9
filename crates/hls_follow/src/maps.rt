// Whether sections keep their maps.
ghost use Rattle.std.specs.Prelude.{◌≡◌, map};
ghost use Rattle.std.specs.Option.{option_copied};
ghost use Rattle.hls_presentation.specs.Views.{source_of};
ghost use Rattle.hls_follow.specs.Maps as spec;

use crate::LiveFault;
use crate::rules::check_track;
use crate::snapshot::{period_in, run_at};
use dash_writer::{LivePeriod, LiveRun};
use hls_media::MediaSegment;
use hls_presentation::{Source, is_same_part};

/// The first error of the tracks' segments: for each track those of its playlist, and then that a section has another map than in the
/// last accepted snapshot.
pub(crate) fn check_maps_of_all(
    periods: &[LivePeriod],
    kept: &[Source<'_>],
) -> Result<(), LiveFault>
    ensures { result ≡ spec.judged_maps_of_all periods.now 0 (map source_of kept.now) }
{
    let mut place = 0;
    for source in kept {
        check_track(source.media)?;
        check_maps(periods, place, source.media.segments.as_slice())?;
        place += 1;
    }
    Ok(())
}

/// Whether the sections of the track at an index keep their maps. A section has one map in a playlist.
fn check_maps(
    periods: &[LivePeriod],
    track: usize,
    segments: &[MediaSegment],
) -> Result<(), LiveFault>
    ensures { result ≡ spec.judged_maps periods.now track None segments.now }
{
    let mut former = None;
    for segment in segments {
        if former != Some(segment.section) {
            check_map(run_at(period_in(segment.section, periods), track), segment)?;
            former = Some(segment.section);
        }
    }
    Ok(())
}

fn check_map(known: Option<&LiveRun>, segment: &MediaSegment) -> Result<(), LiveFault>
    ensures { result ≡ spec.judged_map (option_copied known.entry) segment.now }
{
    match (known, &segment.map) {
        (Some(run), Some(map)) if !is_same_part(&run.initialization, map) => {
            Err(LiveFault::MapChanged)
        }
        _ => Ok(()),
    }
}
