// Views of Periods and Representations.
ghost use Rattle.std.specs.Prelude.{◌≡◌, ◌+◌, ◌<◌, ◌≤◌, ◌^◌, Some, option_map};

use crate::file_index::FileIndex;
use crate::rows::{PeriodRow, TrackRow};
use bridge_io::{Kind, Place, Ratio, Size};
use exact_time::Nanos;
use mpd_levels::{Addressing, InitView, SegmentRow, SharedText, Tables};
use url_parts::Range;

/// An iterator over the Periods of an MPD, in order.
#[derive(Drop)]
pub struct PeriodWalk<'a, X> {
    tables: &'a Tables,
    rest: &'a [PeriodRow<X>],
}

/// A Period.
#[derive(Drop)]
pub struct TypedPeriod<'a, X> {
    tables: &'a Tables,
    row: &'a PeriodRow<X>,
}

/// An iterator over the kept Representations of a Period, in document order.
#[derive(Drop)]
pub struct RepWalk<'a, X> {
    tables: &'a Tables,
    rest: &'a [TrackRow<X>],
}

/// A kept Representation.
#[derive(Drop)]
pub struct TrackView<'a, X> {
    tables: &'a Tables,
    row: &'a TrackRow<X>,
}

/// An iterator over the effective BaseURL references of a Representation, from the MPD down.
#[derive(Drop)]
pub struct BaseWalk<'a> {
    rest: &'a [SharedText],
}

impl<'a, X> PeriodWalk<'a, X> {
    ghost use Rattle.std.specs.Prelude.{map};
    ghost use Rattle.mpd_rules.specs.Held.{keyed};
    ghost use Rattle.mpd_rules.specs.Typed.{period_with};
    ghost use Rattle.mpd_rules.specs.Views.{periods_left, tables_under};

    pub(crate) fn over(tables: &'a Tables, periods: &'a [PeriodRow<X>]) -> PeriodWalk<'a, X>
        ensures periods { periods_left result ≡ map (period_with (keyed tables.now)) periods.now }
        ensures tables { tables_under result ≡ tables.now }
    {
        PeriodWalk {
            tables,
            rest: periods,
        }
    }
}

impl<'a, X> Iterator for PeriodWalk<'a, X> {
    ghost use Rattle.std.specs.Iterator.{YieldsFirstBy, item_count};
    ghost use Rattle.mpd_rules.specs.Views.{period_in, periods_left};

    type Item = TypedPeriod<'a, X>;

    ghost next_gives = { YieldsFirstBy period_in periods_left };

    ghost remaining = { item_count periods_left };

    fn next(&mut self) -> Option<TypedPeriod<'a, X>> {
        let (row, rest) = self.rest.split_first()?;
        self.rest = rest;
        Some(TypedPeriod {
            tables: self.tables,
            row,
        })
    }
}

impl<'a, X> TypedPeriod<'a, X> {
    ghost use Rattle.mpd_rules.specs.Views.{period_in, tracks_left};

    /// Its id (ISO/IEC 23009-1, 5.3.2.2).
    pub fn id(&self) -> Option<&'a str>
        ensures { option_map (λ text. text.now) result ≡ (period_in self.now).id }
    {
        match &self.row.id {
            Some(text) => Some(text.as_str()),
            None => None,
        }
    }

    /// When it begins, in nanoseconds (ISO/IEC 23009-1, 5.3.2.1).
    pub fn start(&self) -> Nanos
        ensures { result ≡ (period_in self.now).bounds.start }
    {
        self.row.bounds.start
    }

    /// When it ends, in nanoseconds; an open one has no end (ISO/IEC 23009-1, 5.3.2.1).
    pub fn end(&self) -> Option<Nanos>
        ensures { result ≡ (period_in self.now).bounds.end }
    {
        self.row.bounds.end
    }

    /// The position of its `<`.
    pub fn place(&self) -> Place
        ensures { result ≡ (period_in self.now).place }
    {
        self.row.place
    }

    /// The kept Representations, in document order.
    pub fn tracks(&self) -> RepWalk<'a, X>
        ensures { tracks_left result ≡ (period_in self.now).tracks }
    {
        RepWalk {
            tables: self.tables,
            rest: self.row.tracks.as_slice(),
        }
    }
}

impl<'a, X> Iterator for RepWalk<'a, X> {
    ghost use Rattle.std.specs.Iterator.{YieldsFirstBy, item_count};
    ghost use Rattle.mpd_rules.specs.Views.{track_in, tracks_left};

    type Item = TrackView<'a, X>;

    ghost next_gives = { YieldsFirstBy track_in tracks_left };

    ghost remaining = { item_count tracks_left };

    fn next(&mut self) -> Option<TrackView<'a, X>> {
        let (row, rest) = self.rest.split_first()?;
        self.rest = rest;
        Some(TrackView {
            tables: self.tables,
            row,
        })
    }
}

impl<'a, X> TrackView<'a, X> {
    ghost use Rattle.mpd_rules.specs.Views.{bases_left, track_in};

    /// Its kind, by its media type (ISO/IEC 23009-1, 5.3.7.2).
    pub fn kind(&self) -> Kind
        ensures { result ≡ (track_in self.now).description.kind }
    {
        self.row.description.kind
    }

    /// The index of its AdaptationSet among the Period's kept ones.
    pub fn set(&self) -> usize
        ensures { result ≡ (track_in self.now).description.set }
    {
        self.row.description.set
    }

    /// Its id (ISO/IEC 23009-1, 5.3.5.2).
    pub fn id(&self) -> &'a str
        ensures { result.now ≡ (track_in self.now).description.id }
    {
        self.row.description.id.as_str()
    }

    /// Its bandwidth, in bits per second (ISO/IEC 23009-1, 5.3.5.2).
    pub fn bandwidth(&self) -> u64
        ensures { result ≡ (track_in self.now).description.bandwidth }
    {
        u64::from(self.row.description.bandwidth)
    }

    /// The language of its AdaptationSet (ISO/IEC 23009-1, 5.3.3.2).
    pub fn language(&self) -> Option<&'a str>
        ensures { option_map (λ text. text.now) result ≡ (track_in self.now).description.language }
    {
        text_of(&self.row.description.language)
    }

    /// Its list of codecs (ISO/IEC 23009-1, 5.3.7.2; RFC 6381).
    pub fn codecs(&self) -> Option<&'a str>
        ensures { option_map (λ text. text.now) result ≡ (track_in self.now).description.codecs }
    {
        text_of(&self.row.description.codecs)
    }

    /// Width and height (ISO/IEC 23009-1, 5.3.7.2); `None` exactly where one of them is absent.
    pub fn size(&self) -> Option<Size>
        ensures { result ≡ (track_in self.now).description.size }
    {
        self.row.description.size
    }

    /// Its frame rate (ISO/IEC 23009-1, 5.3.7.2).
    pub fn frame_rate(&self) -> Option<Ratio>
        ensures { option_map (λ rate. (rate.n, rate.m)) result ≡ (track_in self.now).description.frame_rate }
    {
        match &self.row.description.frame_rate {
            Some(rate) => Some(rate.ratio()),
            None => None,
        }
    }

    /// The first BaseURL of each level that has one, from the MPD down (ISO/IEC 23009-1, 5.6).
    pub fn base_references(&self) -> BaseWalk<'a>
        ensures { bases_left result ≡ (track_in self.now).description.bases }
    {
        BaseWalk {
            rest: self.row.description.bases.as_slice(),
        }
    }

    /// The position of its `<`.
    pub fn place(&self) -> Place
        ensures { result ≡ (track_in self.now).description.place }
    {
        self.row.description.place
    }
}

impl<'a> TrackView<'a, SegmentRow> {
    ghost use Rattle.mpd_levels.specs.Shown.{addressed};
    ghost use Rattle.mpd_rules.specs.Views.{segments_told, tables_of, track_in};

    /// How its segments are addressed (ISO/IEC 23009-1, 5.3.9).
    pub fn addressing(&self) -> Addressing<'a>
        ensures segments { segments_told (track_in self.now).segments ≡ Some (addressed result) }
        ensures tables { tables_of result ≡ (track_in self.now).segments.tables }
    {
        Addressing::of(self.tables, &self.row.segments)
    }
}

impl<'a> TrackView<'a, FileIndex> {
    ghost use Rattle.mpd_levels.specs.Shown.{initialization_shown};
    ghost use Rattle.mpd_rules.specs.Views.{index_in, track_in};

    /// The byte range of its file's `sidx` (ISO/IEC 23009-1, 5.3.9.2).
    pub fn index_range(&self) -> Range
        ensures told { (index_in (track_in self.now).segments).range ≡ Some result }
        ensures some { 0 < result.count }
        ensures bounded { result.first + result.count ≤ 2 ^ 63 }
    {
        self.row.segments.range()
    }

    /// Its Initialization (ISO/IEC 23009-1, 5.3.9.2); `None` exactly where no such element is effective.
    pub fn initialization(&self) -> Option<InitView<'a>>
        ensures { option_map initialization_shown result ≡ (index_in (track_in self.now).segments).initialization }
    {
        self.row.segments.initialization()
    }
}

impl<'a> Iterator for BaseWalk<'a> {
    ghost use Rattle.std.specs.Iterator.{YieldsFirstBy, item_count};
    ghost use Rattle.mpd_rules.specs.Views.{bases_left};

    type Item = &'a str;

    ghost next_gives = { YieldsFirstBy (λ text. text.now) bases_left };

    ghost remaining = { item_count bases_left };

    fn next(&mut self) -> Option<&'a str> {
        let (first, rest) = self.rest.split_first()?;
        self.rest = rest;
        Some(first.as_str())
    }
}

fn text_of(text: &Option<SharedText>) -> Option<&str>
    ensures { option_map (λ text. text.now) result ≡ text.now }
{
    match text {
        Some(text) => Some(text.as_str()),
        None => None,
    }
}
