// Tracks and sections of an MPD, however the segments of its Representations are addressed.
ghost use Rattle.std.specs.Prelude.{◌≡◌, IfOk, map, option_map, codes};
ghost use Rattle.mpd_rules.specs.Views.{period_in, track_in};
ghost use Rattle.mpd_values.specs.Codecs.{codes_of};
ghost use Rattle.mpd_presentation.specs.Rows as spec;
ghost use Rattle.presentation.specs.Ratios.{rate_of};

use crate::lineup::views_in_order;
use bridge_io::{NoMemory, Ratio, Text};
use exact_time::Nanos;
use mpd_rules::{PeriodWalk, RepView, SegmentRow, TrackView, TypedPeriod};
use mpd_values::{Blank, trimmed};
use presentation::{Section, SectionList, Track, TrackList};
use std::alloc::Global;

/// The tracks of a Period: video, then audio, then text, each in document order (ISO/IEC 23009-1, 5.3.5).
pub fn tracks_in<X>(alloc: Global, period: &TypedPeriod<'_, X>) -> Result<TrackList, NoMemory>
    ensures { IfOk result (λ tracks. tracks ≡ map spec.track_of (spec.in_order (period_in period.now).tracks)) }
{
    let views = views_in_order(alloc, period)?;
    tracks_seen(alloc, &views)
}

/// The tracks of Representations in order.
pub(crate) fn tracks_of(alloc: Global, rows: &[RepView<'_>]) -> Result<TrackList, NoMemory>
    ensures { IfOk result (λ tracks. tracks ≡ map spec.track_of (map spec.row_of rows.now)) }
{
    tracks_seen(alloc, rows)
}

fn tracks_seen<X>(alloc: Global, views: &[TrackView<'_, X>]) -> Result<TrackList, NoMemory>
    ensures { IfOk result (λ tracks. tracks ≡ map (λ view. spec.track_of (track_in view)) views.now) }
{
    let mut tracks = TrackList::new(alloc);
    for view in views {
        tracks.push(track_of(alloc, view)?)?;
    }
    Ok(tracks)
}

fn track_of<X>(alloc: Global, row: &TrackView<'_, X>) -> Result<Track, NoMemory>
    ensures { IfOk result (λ track. track ≡ spec.track_of (track_in row.now)) }
{
    let language = copy_of(alloc, row.language())?;
    let codecs = codes_in(alloc, row.codecs())?;
    Ok(Track {
        kind: row.kind(),
        set: row.set(),
        language,
        codecs,
        bandwidth: row.bandwidth(),
        size: row.size(),
        frame_rate: rate_of(row),
    })
}

fn rate_of<X>(row: &TrackView<'_, X>) -> Option<Ratio>
    ensures { result ≡ option_map rate_of (track_in row.now).description.frame_rate }
{
    row.frame_rate()
}

fn copy_of(alloc: Global, text: Option<&str>) -> Result<Option<Text>, NoMemory>
    ensures { IfOk result (λ copy. copy ≡ option_map (λ text. text.now) text.entry) }
{
    match text {
        Some(text) => Ok(Some(Text::copy_of(alloc, text)?)),
        None => Ok(None),
    }
}

fn codes_in(alloc: Global, codecs: Option<&str>) -> Result<Option<Text>, NoMemory>
    ensures { IfOk result (λ codes. codes ≡ option_map spec.joined_codes (option_map (λ text. text.now) codecs.entry)) }
{
    match codecs {
        Some(codecs) => Ok(Some(joined_codes(alloc, codecs)?)),
        None => Ok(None),
    }
}

/// Codecs, joined by `,` without the spaces around them.
fn joined_codes(alloc: Global, codecs: &str) -> Result<Text, NoMemory>
    ensures { IfOk result (λ codes. codes ≡ spec.joined_codes codecs.now) }
{
    let mut joined = String::with_capacity(alloc, codecs.len())?;
    let mut is_first = true;
    for code in codecs.split(',') {
        if !is_first {
            joined.push(',')?;
        }
        is_first = false;
        joined.push_str(trimmed(code, Blank::Space))?;
    }
    Ok(Text::from(joined))
}

/// The sections of Periods.
pub(crate) fn sections_of(
    alloc: Global,
    periods: PeriodWalk<'_, SegmentRow>,
) -> Result<SectionList, NoMemory>
    ensures { IfOk result (λ sections. sections ≡ map spec.section_of (spec.all_left periods.entry)) }
{
    let mut sections = SectionList::new(alloc);
    for period in periods {
        sections.push(section_in(alloc, &period)?)?;
    }
    Ok(sections)
}

/// The section of a Period (ISO/IEC 23009-1, 5.3.2).
pub fn section_in<X>(alloc: Global, period: &TypedPeriod<'_, X>) -> Result<Section, NoMemory>
    ensures { IfOk result (λ section. section ≡ spec.section_of (period_in period.now)) }
{
    let id = Text::copy_of(alloc, period.id().unwrap_or(""))?;
    Ok(Section {
        id,
        start: period.start(),
        length: length_of(period),
    })
}

/// How long a Period lasts, where its end is known.
pub(crate) fn length_of<X>(period: &TypedPeriod<'_, X>) -> Option<Nanos>
    ensures { result ≡ (spec.section_of (period_in period.now)).length }
{
    let end = period.end()?;
    Some(Nanos(end.0.saturating_sub(period.start().0)))
}
