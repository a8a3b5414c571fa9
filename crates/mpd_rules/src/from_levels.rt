// How the segments of a Representation are addressed.
ghost use Rattle.std.specs.Prelude.{◌≡◌, IfOk, List, Option, Some};
ghost use Rattle.bridge_io.specs.Answer.{Gives};
ghost use Rattle.bridge_io.specs.Firsts.{first_fault};
ghost use Rattle.bridge_io.specs.declared.place.Place.{Place};
ghost use Rattle.mpd_tree.specs.Trees.{Element};
ghost use Rattle.mpd_profile.specs.declared.fault.RuleFault.{RuleFault};
ghost use Rattle.mpd_profile.specs.Refusals.{refusal};
ghost use Rattle.mpd_levels.specs.declared.indexed.IndexRow.{IndexRow};
ghost use Rattle.mpd_levels.specs.declared.tables.Tables.{Tables};
ghost use Rattle.mpd_levels.specs.Indexed.{index_of};
ghost use Rattle.mpd_levels.specs.Segments.{Segments, segments_of};
ghost use Rattle.mpd_levels.specs.Shown.{Says, segments_shown};
ghost use Rattle.mpd_rules.specs.Rules.{index_refused, segments_refused};

use crate::file_index::FileIndex;
use bridge_io::Place;
use mpd_levels::{Level, SegmentRow};
use mpd_profile::RuleFault;

/// A row with the segment values of a Representation, by its levels.
pub(crate) trait FromLevels: Drop {
    /// The value of a row.
    ghost Shown: { Type 0 };

    ghost shown: { Tables → Self → Shown };

    /// The value by the levels, from the lowest one on.
    ghost of: { List Element → Option Shown };

    /// The errors of a Representation at a position.
    ghost refused: { Place → Option Shown → List RuleFault };

    /// The row of a Representation at a position, or why it is rejected.
    fn told(level: &Level, place: Place) -> Result<Self, RuleFault>
        requires { (tables : Tables) × (levels : List Element) × Says tables level.now levels }
        ensures refused { (tables : Tables) (levels : List Element) → Says tables level.now levels
            → Gives (λ _. tt) refusal result (first_fault (refused place (of levels))) }
        ensures row { (tables : Tables) (levels : List Element) → Says tables level.now levels
            → IfOk result (λ row. of levels ≡ Some (shown tables row)) };
}

impl FromLevels for SegmentRow {
    ghost Shown = { Segments };

    ghost shown = { segments_shown };

    ghost of = { segments_of };

    ghost refused = { segments_refused };

    fn told(level: &Level, place: Place) -> Result<SegmentRow, RuleFault> {
        match level.segments()? {
            None => Err(RuleFault::IndexNeeded(place)),
            Some(row) if row.is_incomplete() => Err(RuleFault::Missing(place)),
            Some(row) => Ok(row),
        }
    }
}

impl FromLevels for FileIndex {
    ghost Shown = { IndexRow };

    ghost shown = { λ _ index. index.row };

    ghost of = { index_of };

    ghost refused = { index_refused };

    fn told(level: &Level, place: Place) -> Result<FileIndex, RuleFault> {
        let Some(row) = level.index()? else {
            return Err(RuleFault::Unsupported(place));
        };
        match FileIndex::of(row) {
            Some(index) => Ok(index),
            None => Err(RuleFault::Missing(place)),
        }
    }
}
