// The Periods that were seen.
ghost use Rattle.std.specs.Prelude.{◌≡◌, ◌++◌, ◌-◌, ◌<◌, ◌≤◌, true, length, map, option_map, IfOk, OnErr, OnOk, Some};
ghost use Rattle.std.specs.List.{position, range_with_len};
ghost use Rattle.std.specs.Str.{bytes_eq};
ghost use Rattle.mpd_rules.specs.Laws.{are_once};
ghost use Rattle.live_meaning.specs.Known.{attributes_at, attributes_of, ids_of, known_at};
ghost use Rattle.presentation.specs.Presented.{content_at};
ghost use Rattle.live_judge.specs.Known.{attributes_shown, if_there, known_shown};

use crate::changed::is_same_part;
use crate::order::{order_with, rank_of};
use bridge_io::{NoMemory, Text};
use exact_time::Nanos;
use presentation::Presentation;
use std::alloc::Global;
use std::marker::Model;
use std::rc::Rc;
use url_parts::Part;

/// What may not change of a track in a Period (ISO/IEC 23009-1, 5.3.9.2).
#[derive(Drop)]
pub struct KeptAttributes {
    /// `@presentationTimeOffset`, in ticks.
    pub time_offset: u64,
    /// The rest of it, shared with the Period before where that has the same.
    pub source: Rc<Source>,
}

/// What may not change of a track, and is often the same in the next Period.
#[derive(Drop)]
pub struct Source {
    /// How many ticks make a second.
    pub timescale: u32,
    /// The init segment.
    pub initialization: Part,
}

/// A Period as it was accepted first.
#[derive(Drop)]
pub struct KnownPeriod {
    /// Its id (ISO/IEC 23009-1, 5.3.2.2).
    pub id: Text,
    /// When it begins, from the presentation's start.
    pub start: Nanos,
    /// What may not change of each track.
    pub attributes: Vec<KeptAttributes>,
}

/// The Periods that were seen, in the order of first sight.
///
/// In a contract it is that list. Their indices are found by an ordered search, since ids are untrusted input.
#[derive(Drop)]
pub struct KnownPeriods {
    periods: Vec<KnownPeriod>,
    /// Their indices in the order of their ids.
    order: Vec<usize>,
}

impl Model for KnownPeriods {
    ghost use Rattle.std.specs.Prelude.{List, map};
    ghost use Rattle.live_meaning.specs.Known.{Known, ids_of};

    ghost Value = { List Known };

    ghost use Rattle.live_judge.specs.Known.{known_shown};
    ghost use Rattle.live_judge.specs.Order.{IsOrder};

    ghost view = { λ k. map known_shown k.periods.items };

    ghost invariant = { λ k. IsOrder (ids_of (map known_shown k.periods.items)) k.order.items };
}

impl KnownPeriods {
    ghost use Rattle.std.specs.Prelude.{[]};
    ghost use Rattle.std.specs.Option.{option_copied};
    ghost use Rattle.std.specs.List.{slice_get};

    /// No Periods.
    pub fn new(alloc: Global) -> KnownPeriods
        ensures { result ≡ [] }
    {
        KnownPeriods {
            periods: Vec::new(alloc),
            order: Vec::new(alloc),
        }
    }

    /// How many there are.
    pub fn len(&self) -> usize
        ensures { result ≡ length self.now }
    {
        self.periods.len()
    }

    /// The one at an index, counted from 0; `None` exactly where the index isn't below their number.
    pub fn get(&self, place: usize) -> Option<&KnownPeriod>
        ensures { option_map (λ k. known_shown k.now) result ≡ slice_get self.now place }
    {
        self.periods.get(place)
    }

    /// The index of an id.
    pub fn find(&self, id: &str) -> Option<usize>
        ensures { result ≡ position (bytes_eq id.now) (ids_of self.now) }
    {
        let rank = rank_of(&self.periods, &self.order, id);
        self.if_there(id, self.order.get(rank).copied())
    }

    /// An index, where the id is at it.
    #[tactic(auto, using(crate::proofs::Walks::in_lists))]
    fn if_there(&self, id: &str, place: Option<usize>) -> Option<usize>
        ensures { result ≡ if_there (ids_of self.now) id.now place }
    {
        match self.get(place?) {
            Some(period) if period.id.as_str() == id => place,
            _ => None,
        }
    }

    /// What may not change of the tracks in the Period that was seen last.
    fn latest(&self) -> &[KeptAttributes] {
        match self.periods.last() {
            Some(period) => &period.attributes,
            None => &[],
        }
    }

    /// Adds Periods that weren't seen. An error leaves them as they were.
    ///
    /// Requires that no id is repeated among all of them.
    pub fn extend(&mut self, alloc: Global, mut new: Vec<KnownPeriod>) -> Result<(), NoMemory>
        requires { are_once (ids_of (self.old ++ map known_shown new.items)) ≡ true }
        ensures ok { OnOk result (self.new ≡ self.old ++ map known_shown new.items) }
        ensures err { OnErr result (self.new ≡ self.old) }
    {
        let count = self.periods.len();
        self.periods.append(&mut new)?;
        match order_with(alloc, &self.periods, count, &self.order) {
            Ok(order) => {
                self.order = order;
                Ok(())
            }
            Err(fault) => {
                self.periods.truncate(count);
                Err(fault)
            }
        }
    }
}

/// The Periods of a presentation from a section on, as they are stored once they are accepted after the known ones.
#[tactic(auto, using(crate::proofs::Walks::in_order))]
pub fn periods_from(
    alloc: Global,
    force: &Presentation,
    section: usize,
    known: &KnownPeriods,
) -> Result<Vec<KnownPeriod>, NoMemory>
    requires { section ≤ length force.now.sections }
    ensures { IfOk result (λ new. map known_shown new.items ≡ map (known_at force.now)
        (range_with_len section (length force.now.sections - section))) }
{
    let mut new = Vec::new(alloc);
    for at in section..force.sections().len() {
        let period = period_of(alloc, force, at, before(&new, known))?;
        new.push(period)?;
    }
    Ok(new)
}

/// What may not change of the tracks in the last Period: of the new ones, or else of the known ones.
fn before<'a>(new: &'a [KnownPeriod], known: &'a KnownPeriods) -> &'a [KeptAttributes] {
    match new.last() {
        Some(period) => &period.attributes,
        None => known.latest(),
    }
}

fn period_of(
    alloc: Global,
    force: &Presentation,
    section: usize,
    before: &[KeptAttributes],
) -> Result<KnownPeriod, NoMemory>
    requires { section < length force.now.sections }
    ensures { IfOk result (λ k. known_shown k ≡ known_at force.now section) }
{
    let described = &force.sections().as_slice()[section];
    let id = Text::copy_of(alloc, described.id.as_str())?;
    let start = described.start;
    let attributes = attributes_of(alloc, force, section, before)?;
    Ok(KnownPeriod {
        id,
        start,
        attributes,
    })
}

#[tactic(auto, using(crate::proofs::Walks::in_order))]
fn attributes_of(
    alloc: Global,
    force: &Presentation,
    section: usize,
    before: &[KeptAttributes],
) -> Result<Vec<KeptAttributes>, NoMemory>
    requires { section < length force.now.sections }
    ensures { IfOk result (λ all. map attributes_shown all.items ≡ attributes_at force.now section) }
{
    let mut all = Vec::with_capacity(alloc, force.tracks().len())?;
    for track in 0..force.tracks().len() {
        all.push(attributes_in(alloc, force, section, track, before.get(track))?)?;
    }
    Ok(all)
}

fn attributes_in(
    alloc: Global,
    force: &Presentation,
    section: usize,
    track: usize,
    before: Option<&KeptAttributes>,
) -> Result<KeptAttributes, NoMemory>
    requires section { section < length force.now.sections }
    requires track { track < length force.now.tracks }
    ensures { IfOk result (λ kept. option_map attributes_of (content_at force.now section track) ≡ Some (attributes_shown kept)) }
{
    let offset = force.runs(section, track).offset();
    let initialization = force.initialization(section, track);
    Ok(KeptAttributes {
        time_offset: offset.n as u64,
        source: source_of(alloc, offset.scale, initialization, before)?,
    })
}

/// A timescale and an init segment: those of the Period before, where they are the same.
#[tactic(auto, using(crate::proofs::Changing::same_parts))]
fn source_of(
    alloc: Global,
    timescale: u32,
    initialization: &Part,
    before: Option<&KeptAttributes>,
) -> Result<Rc<Source>, NoMemory>
    ensures timescale { IfOk result (λ source. source.value.timescale ≡ timescale) }
    ensures initialization { IfOk result (λ source. source.value.initialization ≡ initialization.now) }
{
    if let Some(kept) = before {
        let source = &kept.source;
        if source.timescale == timescale && is_same_part(&source.initialization, initialization) {
            return Ok(source.clone()?);
        }
    }
    let initialization = initialization.copy(alloc)?;
    let source = Source {
        timescale,
        initialization,
    };
    Ok(Rc::new(alloc, source)?)
}
