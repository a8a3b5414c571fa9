// The rules.
ghost use Rattle.std.specs.Prelude.{◌≡◌, flat_map};
ghost use Rattle.bridge_io.specs.Answer.{Gives};
ghost use Rattle.mpd_tree.specs.Nodes.{element_of, root_of};
ghost use Rattle.mpd_profile.specs.Refusals.{refusal};
ghost use Rattle.mpd_rules.specs.Fits.{FitsMpd};
ghost use Rattle.mpd_rules.specs.Laws.{HasIdsOnce};
ghost use Rattle.mpd_rules.specs.Rules.{indexed_mpd_of, refusals_behind, typed_mpd_of, unless_refused, silence_in, silence_told};
ghost use Rattle.mpd_rules.specs.Rules.{static_told, is_silent, is_played};
ghost use Rattle.mpd_rules.specs.Typed.{values_with};
ghost use Rattle.mpd_rules.specs.Views.{index_mpd, mpd_shown, segments_mpd};

use crate::build::Building;
use crate::children::kept_children;
use crate::common::bases_below;
use crate::facts::facts_of;
use crate::file_index::FileIndex;
use crate::from_levels::FromLevels;
use crate::periods::read_bounds;
use crate::rows::PeriodRow;
use crate::typed::TypedMpd;
use bridge_io::{Kind, Place, Sequence};
use mpd_levels::{SegmentRow, Tables};
use mpd_profile::{Addressing, Listed, RuleFault, check, is_dynamic};
use mpd_tree::{Node, Tree};
use std::alloc::Global;

/// The values of an MPD with SegmentTemplate or SegmentList, or the first error.
///
/// `Memory` is returned only where memory runs out.
pub fn rules(alloc: Global, tree: &Tree) -> Result<TypedMpd<SegmentRow>, RuleFault>
    ensures { Gives segments_mpd refusal result (typed_mpd_of (root_of tree.now)) }
{
    check(alloc, tree, Addressing::Segments)?;
    values(alloc, tree.root(), true)
}

/// The values of an MPD with SegmentBase, or the first error: the MPD has to be static, with one Period.
///
/// `Memory` is returned only where memory runs out.
pub fn rules_indexed(alloc: Global, tree: &Tree) -> Result<TypedMpd<FileIndex>, RuleFault>
    ensures { Gives index_mpd refusal result (indexed_mpd_of (root_of tree.now)) }
{
    check(alloc, tree, Addressing::Index)?;
    values(alloc, tree.root(), false)
}

/// The values of an MPD whose elements and attributes are all valid, or the error of the first invalid Period or
/// Representation. Unless `many` Periods are allowed, it has to be static with one Period.
fn values<X: FromLevels>(alloc: Global, mpd: Node<'_>, many: bool) -> Result<TypedMpd<X>, RuleFault>
    requires fits { FitsMpd (element_of mpd) }
    requires ids { HasIdsOnce (element_of mpd) }
    ensures { Gives (mpd_shown X.shown) refusal result (unless_refused (refusals_behind many X.refused X.of (element_of mpd.entry))
        (values_with X.of (element_of mpd.entry))) }
{
    let mut left_out = Sequence::new(alloc);
    let periods = kept_children(alloc, mpd, Listed::Period, "Period", &mut left_out)?;
    let bounds = read_bounds(alloc, mpd, &periods)?;
    check_static(mpd, many)?;
    let bases = bases_below(alloc, &Sequence::new(alloc), mpd)?;
    let mut building = Building {
        tables: Tables::new(alloc),
        left_out,
    };
    let rows = building.periods(alloc, &periods, bounds.as_slice(), &bases, many)?;
    let Building { tables, left_out } = building;
    check_silence(mpd.place(), rows.as_slice())?;
    Ok(TypedMpd::of(facts_of(mpd), left_out, tables, rows))
}

/// Rejects a dynamic MPD, unless `many` Periods are allowed.
fn check_static(mpd: Node<'_>, many: bool) -> Result<(), RuleFault>
    ensures { result ≡ unless_refused (static_told many (element_of mpd.entry)) tt }
{
    if many || !is_dynamic(mpd) {
        return Ok(());
    }
    Err(RuleFault::Unsupported(mpd.place()))
}

/// Rejects an MPD with no Period, or with one without video and audio.
fn check_silence<X>(place: Place, periods: &[PeriodRow<X>]) -> Result<(), RuleFault>
    ensures { result ≡ unless_refused (silence_in place periods.now) tt }
{
    if periods.is_empty() {
        return Err(RuleFault::NoTracks(place));
    }
    check_each(periods)
}

fn check_each<X>(periods: &[PeriodRow<X>]) -> Result<(), RuleFault>
    ensures { result ≡ unless_refused (flat_map silence_told periods.now) tt }
{
    for period in periods {
        if is_silent(period) {
            return Err(RuleFault::NoTracks(period.place));
        }
    }
    Ok(())
}

fn is_silent<X>(period: &PeriodRow<X>) -> bool
    ensures { result ≡ is_silent period.now }
{
    !period
        .tracks
        .as_slice()
        .iter()
        .any(|track| is_played(track.description.kind))
}

fn is_played(kind: Kind) -> bool
    ensures { result ≡ is_played kind }
{
    kind != Kind::Text
}
