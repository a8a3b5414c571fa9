// Putting together the values of an MPD.
ghost use Rattle.std.specs.Prelude.{◌≡◌, ◌+◌, ◌∷◌, ◌++◌, Bool, IfOk, List, OnOk, flat_map, length, map, sum_by};
ghost use Rattle.std.specs.List.{All};
ghost use Rattle.bridge_io.specs.Answer.{Gives};
ghost use Rattle.bridge_io.specs.Firsts.{first_fault};
ghost use Rattle.mpd_tree.specs.Nodes.{element_of};
ghost use Rattle.mpd_tree.specs.Trees.{Element};
ghost use Rattle.mpd_profile.specs.Refusals.{refusal};
ghost use Rattle.mpd_levels.specs.declared.tables.Tables.{Tables};
ghost use Rattle.mpd_levels.specs.Shown.{Grows, Says};
ghost use Rattle.mpd_rules.specs.Built as spec;
ghost use Rattle.mpd_rules.specs.Fits.{FitsPeriod, FitsSet, FitsTrack};
ghost use Rattle.mpd_rules.specs.Kept.{left_in_period, left_in_set, representations_of, sets_of};
ghost use Rattle.mpd_rules.specs.Rules.{second_told, unless_refused};
ghost use Rattle.mpd_rules.specs.Typed.{common_of, track_in};

use crate::children::kept_children;
use crate::common::{Common, bases_below};
use crate::from_levels::FromLevels;
use crate::periods::Bounds;
use crate::readings::id;
use crate::rows::{PeriodRow, TrackRow};
use bridge_io::{Place, Sequence};
use mpd_levels::{Level, SharedText, Tables};
use mpd_profile::{Listed, RuleFault};
use mpd_tree::Node;
use std::alloc::Global;

/// The state while an MPD's values are put together.
#[derive(Drop)]
pub(crate) struct Building {
    pub(crate) tables: Tables,
    /// The positions of dropped AdaptationSets and Representations.
    pub(crate) left_out: Sequence<Place>,
}

/// What AdaptationSets inherit from their Period.
#[derive(Drop)]
struct Above {
    level: Level,
    /// The first BaseURL of the MPD and of the Period.
    bases: Sequence<SharedText>,
}

impl Building {
    /// A Representation of an AdaptationSet.
    fn track<X: FromLevels>(
        &mut self,
        alloc: Global,
        node: Node<'_>,
        common: &Common,
        above: &Level,
    ) -> Result<TrackRow<X>, RuleFault>
        requires fits { FitsTrack (element_of node) }
        requires said { (levels : List Element) × Says self.now.tables above.now levels }
        ensures grows { Grows self.old.tables self.new.tables }
        ensures left_out { self.new.left_out ≡ self.old.left_out }
        ensures refused { (levels : List Element) → Says self.old.tables above.now levels
            → Gives (λ _. tt) refusal result (first_fault (spec.refused_in X.refused X.of levels (element_of node.entry))) }
        ensures row { (levels : List Element) (later : Tables) → Says self.old.tables above.now levels → Grows self.new.tables later
            → IfOk result (λ row. spec.track_shown X.shown later row ≡ track_in X.of common.now levels (element_of node.entry)) }
    {
        let level = above.below(alloc, &mut self.tables, node)?;
        let segments = X::told(&level, node.place())?;
        let description = common.describe(alloc, node)?;
        Ok(TrackRow {
            description,
            segments,
        })
    }

    /// Adds the Representations of an AdaptationSet after the others.
    fn add_tracks<X: FromLevels>(
        &mut self,
        alloc: Global,
        tracks: &mut Sequence<TrackRow<X>>,
        representations: &[Node<'_>],
        common: &Common,
        above: &Level,
    ) -> Result<(), RuleFault>
        requires fits { All FitsTrack (map element_of representations.now) }
        requires said { (levels : List Element) × Says self.now.tables above.now levels }
        ensures grows { Grows self.old.tables self.new.tables }
        ensures left_out { self.new.left_out ≡ self.old.left_out }
        ensures refused { (levels : List Element) → Says self.old.tables above.now levels
            → Gives (λ _. tt) refusal result (first_fault (flat_map (spec.refused_in X.refused X.of levels)
            (map element_of representations.now))) }
        ensures rows { (levels : List Element) (later : Tables) → Says self.old.tables above.now levels → Grows self.new.tables later
            → OnOk result (spec.tracks_shown X.shown later tracks.new
            ≡ spec.tracks_shown X.shown later tracks.old ++ map (track_in X.of common.now levels) (map element_of representations.now)) }
    {
        for representation in representations {
            tracks.push(self.track(alloc, *representation, common, above)?)?;
        }
        Ok(())
    }

    /// Adds the Representations of an AdaptationSet, given its index in its Period.
    fn add_set<X: FromLevels>(
        &mut self,
        alloc: Global,
        tracks: &mut Sequence<TrackRow<X>>,
        set: Node<'_>,
        place: usize,
        above: &Above,
    ) -> Result<(), RuleFault>
        requires fits { FitsSet (element_of set) }
        requires said { (levels : List Element) × Says self.now.tables above.now.level levels }
        ensures grows { Grows self.old.tables self.new.tables }
        ensures left_out { OnOk result (length self.new.left_out ≡ length self.old.left_out + left_in_set (element_of set.entry)) }
        ensures refused { (levels : List Element) → Says self.old.tables above.now.level levels
            → Gives (λ _. tt) refusal result (first_fault (spec.set_refused X.refused X.of levels (element_of set.entry))) }
        ensures rows { (levels : List Element) (later : Tables) → Says self.old.tables above.now.level levels → Grows self.new.tables later
            → OnOk result (spec.tracks_shown X.shown later tracks.new
            ≡ spec.tracks_shown X.shown later tracks.old ++ spec.set_tracks X.of place above.now.bases levels (element_of set.entry)) }
    {
        let level = above.level.below(alloc, &mut self.tables, set)?;
        let common = Common::of(alloc, set, place, &above.bases)?;
        let representations = kept_children(
            alloc,
            set,
            Listed::Representation,
            "Representation",
            &mut self.left_out,
        )?;
        self.add_tracks(alloc, tracks, &representations, &common, &level)
    }

    /// The Representations of the AdaptationSets of a Period.
    fn tracks<X: FromLevels>(
        &mut self,
        alloc: Global,
        sets: &[Node<'_>],
        above: &Above,
    ) -> Result<Sequence<TrackRow<X>>, RuleFault>
        requires fits { All FitsSet (map element_of sets.now) }
        requires said { (levels : List Element) × Says self.now.tables above.now.level levels }
        ensures grows { Grows self.old.tables self.new.tables }
        ensures left_out { OnOk result (length self.new.left_out ≡ length self.old.left_out + sum_by left_in_set
            (map element_of sets.now)) }
        ensures refused { (levels : List Element) → Says self.old.tables above.now.level levels
            → Gives (λ _. tt) refusal result (first_fault (flat_map (spec.set_refused X.refused X.of levels) (map element_of sets.now))) }
        ensures rows { (levels : List Element) (later : Tables) → Says self.old.tables above.now.level levels → Grows self.new.tables later
            → IfOk result (λ tracks. spec.tracks_shown X.shown later tracks ≡ spec.sets_tracks X.of 0 above.now.bases levels
            (map element_of sets.now)) }
    {
        let mut tracks = Sequence::new(alloc);
        for (place, set) in sets.iter().enumerate() {
            self.add_set(alloc, &mut tracks, *set, place, above)?;
        }
        Ok(tracks)
    }

    /// A Period with these bounds, below the BaseURLs of the MPD.
    fn period<X: FromLevels>(
        &mut self,
        alloc: Global,
        period: Node<'_>,
        bounds: Bounds,
        bases: &Sequence<SharedText>,
    ) -> Result<PeriodRow<X>, RuleFault>
        requires { FitsPeriod (element_of period) }
        ensures grows { Grows self.old.tables self.new.tables }
        ensures left_out { OnOk result (length self.new.left_out ≡ length self.old.left_out + left_in_period (element_of period.entry)) }
        ensures refused { Gives (λ _. tt) refusal result (first_fault (spec.period_refused X.refused X.of (element_of period.entry))) }
        ensures row { (later : Tables) → Grows self.new.tables later
            → IfOk result (λ row. spec.period_shown X.shown later row ≡ spec.period_in X.of bases.now (element_of period.entry) bounds) }
    {
        let level = Level::top().below(alloc, &mut self.tables, period)?;
        let bases = bases_below(alloc, bases, period)?;
        let sets = kept_children(
            alloc,
            period,
            Listed::AdaptationSet,
            "AdaptationSet",
            &mut self.left_out,
        )?;
        let tracks = self.tracks(alloc, &sets, &Above { level, bases })?;
        let id = id(alloc, period)?;
        Ok(PeriodRow {
            id,
            bounds,
            place: period.place(),
            tracks,
        })
    }

    /// The Periods with these bounds. Those after the first one are rejected unless `many` are allowed.
    pub(crate) fn periods<X: FromLevels>(
        &mut self,
        alloc: Global,
        periods: &[Node<'_>],
        bounds: &[Bounds],
        bases: &Sequence<SharedText>,
        many: bool,
    ) -> Result<Sequence<PeriodRow<X>>, RuleFault>
        requires fits { All FitsPeriod (map element_of periods.now) }
        requires count { length bounds.now ≡ length periods.now }
        ensures left_out { OnOk result (length self.new.left_out ≡ length self.old.left_out + sum_by left_in_period
            (map element_of periods.now)) }
        ensures refused { Gives (λ _. tt) refusal result
            (first_fault (spec.periods_refused many X.refused X.of 0 (map element_of periods.now))) }
        ensures rows { IfOk result (λ rows. spec.periods_shown X.shown self.new.tables rows
            ≡ spec.periods_in X.of bases.now (map element_of periods.now) bounds.now) }
    {
        let mut rows = Sequence::new(alloc);
        for (place, period) in periods.iter().enumerate() {
            check_second(*period, place, many)?;
            rows.push(self.period(alloc, *period, bounds[place], bases)?)?;
        }
        Ok(rows)
    }
}

/// Rejects a Period after the first one, unless `many` are allowed.
fn check_second(period: Node<'_>, place: usize, many: bool) -> Result<(), RuleFault>
    ensures { result ≡ unless_refused (second_told many place (element_of period.entry)) tt }
{
    if many || place == 0 {
        return Ok(());
    }
    Err(RuleFault::Unsupported(period.place()))
}
