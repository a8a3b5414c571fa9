// The Representations of a Period in the order of the tracks.
ghost use Rattle.std.specs.Prelude.{◌≡◌, ◌++◌, IfOk, OnOk, map, filter, option_map};
ghost use Rattle.std.specs.Option.{option_eq};
ghost use Rattle.mpd_rules.specs.Views.{period_in, track_in, tracks_left};
ghost use Rattle.mpd_presentation.specs.Rows as spec;
ghost use Rattle.presentation.specs.Order.{is_of, same_language};

use bridge_io::{Kind, NoMemory};
use mpd_rules::{PeriodView, RepView, RepWalk, TrackView, TypedPeriod};
use std::alloc::Global;

/// Video, then audio, then text, each in document order.
pub(crate) fn rows_in_order<'a>(
    alloc: Global,
    period: &PeriodView<'a>,
) -> Result<Vec<RepView<'a>>, NoMemory>
    ensures { IfOk result (λ rows. map spec.row_of rows.items ≡ spec.in_order (spec.period_of period.now).tracks) }
{
    views_in_order(alloc, period)
}

/// The same, however their segments are addressed.
pub(crate) fn views_in_order<'a, X>(
    alloc: Global,
    period: &TypedPeriod<'a, X>,
) -> Result<Vec<TrackView<'a, X>>, NoMemory>
    ensures { IfOk result (λ views. map track_in views.items ≡ spec.in_order (period_in period.now).tracks) }
{
    let mut views = Vec::new(alloc);
    add_kind(&mut views, period.tracks(), Kind::Video)?;
    add_kind(&mut views, period.tracks(), Kind::Audio)?;
    add_kind(&mut views, period.tracks(), Kind::Text)?;
    Ok(views)
}

/// Adds the Representations of a kind after the others.
fn add_kind<'a, X>(
    views: &mut Vec<TrackView<'a, X>>,
    walk: RepWalk<'a, X>,
    kind: Kind,
) -> Result<(), NoMemory>
    ensures { OnOk result (map track_in views.new.items
        ≡ map track_in views.old.items ++ filter (λ row. is_of kind row.description.kind) (tracks_left walk.entry)) }
{
    for view in walk {
        if is_of(kind, view.kind()) {
            views.push(view)?;
        }
    }
    Ok(())
}

/// Whether two kinds are the same.
pub(crate) fn is_of(kind: Kind, other: Kind) -> bool
    ensures { result ≡ is_of kind other }
{
    match (kind, other) {
        (Kind::Video, Kind::Video) | (Kind::Audio, Kind::Audio) | (Kind::Text, Kind::Text) => true,
        _ => false,
    }
}

/// Whether two Periods have the same tracks, by kinds and languages in order.
pub(crate) fn are_alike(ones: &[RepView<'_>], others: &[RepView<'_>]) -> bool
    ensures { result ≡ spec.are_alike (map spec.row_of ones.now) (map spec.row_of others.now) }
{
    match (ones.split_first(), others.split_first()) {
        (None, None) => true,
        (Some((one, ones)), Some((other, others))) => is_alike(one, other)
            && are_alike(ones, others),
        _ => false,
    }
}

fn is_alike(one: &RepView<'_>, other: &RepView<'_>) -> bool
    ensures { result ≡ spec.is_alike (spec.row_of one.now) (spec.row_of other.now) }
{
    is_of(one.kind(), other.kind()) && is_same_language(one.language(), other.language())
}

fn is_same_language(one: Option<&str>, other: Option<&str>) -> bool
    ensures { result ≡ same_language (option_map (λ text. text.now) one.entry) (option_map (λ text. text.now) other.entry) }
{
    match (one, other) {
        (Some(one), Some(other)) => one == other,
        (None, None) => true,
        _ => false,
    }
}
