// The values of an MPD, owned.
ghost use Rattle.std.specs.Prelude.{◌≡◌};

use crate::facts::Facts;
use crate::rows::PeriodRow;
use crate::view::PeriodWalk;
use bridge_io::{Place, Sequence};
use exact_time::Nanos;
use iso_time::Instant;
use mpd_levels::Tables;
use std::marker::Model;

/// The effective values of an MPD for each kept Representation. An `X` holds the segment values.
#[derive(Drop)]
pub struct TypedMpd<X> {
    facts: Facts,
    // The positions of dropped AdaptationSets and Representations.
    left_out: Sequence<Place>,
    tables: Tables,
    periods: Sequence<PeriodRow<X>>,
}

impl<X> Model for TypedMpd<X> {
    ghost use Rattle.std.specs.Prelude.{IfSome, length};
    ghost use Rattle.iso_time.specs.Instant.{IsReadable};
    ghost use Rattle.mpd_rules.specs.Held.{Held, held_of};
    ghost use Rattle.mpd_rules.specs.Laws.{HaveIdsOnce};

    ghost Value = { Held X };

    ghost view = { λ m. held_of m.tables m.facts (length m.left_out) m.periods };

    ghost invariant = { λ m. IfSome m.facts.availability_start IsReadable
        × HaveIdsOnce m.facts.live (held_of m.tables m.facts (length m.left_out) m.periods).values.periods };
}

impl<X> TypedMpd<X> {
    ghost use Rattle.std.specs.Prelude.{IfSome, length};
    ghost use Rattle.iso_time.specs.Instant.{IsReadable};
    ghost use Rattle.mpd_rules.specs.Held.{held_of};
    ghost use Rattle.mpd_rules.specs.Laws.{HaveIdsOnce};
    ghost use Rattle.mpd_rules.specs.Views.{periods_left, tables_under};

    pub(crate) fn of(
        facts: Facts,
        left_out: Sequence<Place>,
        tables: Tables,
        periods: Sequence<PeriodRow<X>>,
    ) -> TypedMpd<X>
        requires start { IfSome facts.availability_start IsReadable }
        requires ids { HaveIdsOnce facts.live (held_of tables facts (length left_out) periods).values.periods }
        ensures { result ≡ held_of tables facts (length left_out) periods }
    {
        TypedMpd {
            facts,
            left_out,
            tables,
            periods,
        }
    }

    /// Whether it is dynamic (ISO/IEC 23009-1, 5.3.1.2). Then no two Periods have one id.
    pub fn live(&self) -> bool
        ensures live { result ≡ self.now.values.facts.live }
        ensures ids { HaveIdsOnce result self.now.values.periods }
    {
        self.facts.live
    }

    /// When the presentation begins to be available (ISO/IEC 23009-1, 5.3.1.2).
    pub fn availability_start(&self) -> Option<Instant>
        ensures value { result ≡ self.now.values.facts.availability_start }
        ensures readable { IfSome result IsReadable }
    {
        self.facts.availability_start
    }

    /// When this MPD was published (ISO/IEC 23009-1, 5.3.1.2).
    pub fn publish_time(&self) -> Option<Instant>
        ensures { result ≡ self.now.values.facts.publish_time }
    {
        self.facts.publish_time
    }

    /// How long a segment stays available, in nanoseconds (ISO/IEC 23009-1, 5.3.1.2, `timeShiftBufferDepth`).
    pub fn depth(&self) -> Option<Nanos>
        ensures { result ≡ self.now.values.facts.depth }
    {
        self.facts.depth
    }

    /// How long a segment is at most, in nanoseconds (ISO/IEC 23009-1, 5.3.1.2, `maxSegmentDuration`).
    pub fn max_segment(&self) -> Option<Nanos>
        ensures { result ≡ self.now.values.facts.max_segment }
    {
        self.facts.max_segment
    }

    /// How many AdaptationSets, plus Representations of kept AdaptationSets, were dropped.
    pub fn left_out(&self) -> u64
        ensures { result ≡ self.now.values.left_out }
    {
        self.left_out.len() as u64
    }

    /// The timelines and lists that the keys of its Representations refer to.
    pub fn tables(&self) -> &Tables
        ensures { result.now ≡ self.now.tables }
    {
        &self.tables
    }

    /// The Periods, in order.
    pub fn periods(&self) -> PeriodWalk<'_, X>
        ensures periods { periods_left result ≡ self.now.values.periods }
        ensures tables { tables_under result ≡ self.now.tables }
    {
        PeriodWalk::over(&self.tables, self.periods.as_slice())
    }
}
