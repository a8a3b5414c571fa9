// The segments of a track in a section.
ghost use Rattle.std.specs.Prelude.{◌≡◌, ◌+◌, ◌<◌, length, OnOk};
ghost use Rattle.meaning.specs.Differences.{is_same_part, is_same_range};
ghost use Rattle.std.specs.Option.{option_eq};
ghost use Rattle.comparison.specs.Comparing.{behind, entry_made, segment_made};
ghost use Rattle.differences.specs.Segments as spec;

use crate::collected::Collected;
use crate::times::{Times, Tolerance};
use crate::{Deviation, How};
use bridge_io::{Ledger, NoMemory, Steps};
use comparison::{Spot, Stretch, Walk};
use exact_time::Tick;
use meaning::Aspect;
use std::alloc::Global;
use timeline::Segment;
use url_parts::{Part, Range};

/// The starts of the first segments, the origin of times, and how far times may be apart.
#[derive(Clone, Copy)]
struct Begins {
    mine: Tick,
    theirs: Tick,
    tolerance: Tolerance,
}

impl Begins {
    /// Two times of segments at one place.
    fn times(&self, mine: Tick, theirs: Tick) -> Times
        ensures { result ≡ spec.times_since self.now mine theirs }
    {
        Times {
            mine: Stretch {
                begin: self.mine,
                end: mine,
            },
            theirs: Stretch {
                begin: self.theirs,
                end: theirs,
            },
        }
    }

    /// Adds what differs of a segment: its URL, its byte range, its time.
    fn add_segment(
        &self,
        at: Spot,
        mine: &Segment,
        theirs: &Segment,
        found: &mut Collected,
    ) -> Result<(), NoMemory>
        ensures { OnOk result (found.new ≡ spec.segment_noted self.now at found.old (segment_made mine.now) (segment_made theirs.now)) }
    {
        let same_address = mine.address().as_str() == theirs.address().as_str();
        found.add_unless(
            same_address,
            Deviation::found_at(at, Aspect::Address, How::Value),
        )?;
        let same_range = is_same_range(mine.range(), theirs.range());
        found.add_unless(
            same_range,
            Deviation::found_at(at, Aspect::Range, How::Value),
        )?;
        self.add_time(at, mine, theirs, found)
    }

    /// Adds that the times differ, and notes by how much the ends do.
    fn add_time(
        &self,
        at: Spot,
        mine: &Segment,
        theirs: &Segment,
        found: &mut Collected,
    ) -> Result<(), NoMemory>
        ensures { OnOk result (found.new ≡ spec.time_noted self.now at found.old (segment_made mine.now) (segment_made theirs.now)) }
    {
        let ends = self.times(mine.span().end, theirs.span().end);
        let gap = ends.gap();
        found.widen(gap.apart().nanoseconds);
        if ends.are_alike(gap, self.tolerance) {
            return Ok(());
        }
        let starts = self.times(mine.span().start, theirs.span().start);
        let how = How::Times {
            start: starts.gap().apart(),
            end: gap.apart(),
        };
        found.add(Deviation::found_at(at, Aspect::Time, how))
    }

    /// Makes the next segment of each, and adds what differs of them.
    fn add_next<L: Ledger>(
        &self,
        alloc: Global,
        at: Spot,
        mine: &mut Walk<'_>,
        theirs: &mut Walk<'_>,
        found: &mut Collected,
        steps: &mut Steps<L>,
    ) -> Result<(), NoMemory>
        requires mine { 0 < length mine.old }
        requires theirs { 0 < length theirs.old }
        ensures found { OnOk result (spec.noted_from self.now at found.old mine.old theirs.old
            ≡ spec.noted_from self.now (behind at) found.new mine.new theirs.new) }
        ensures mine { OnOk result (length mine.old ≡ length mine.new + 1) }
        ensures theirs { OnOk result (length theirs.old ≡ length theirs.new + 1) }
    {
        let (Some(a), Some(b)) = (mine.next(alloc, steps)?, theirs.next(alloc, steps)?) else {
            unreachable!()
        };
        self.add_segment(at, &a, &b, found)
    }

    /// Adds what differs of the segments after the first ones. The presentations list `listed` of them in all.
    fn add_rest<L: Ledger>(
        &self,
        alloc: Global,
        spot: Spot,
        mut mine: Walk<'_>,
        mut theirs: Walk<'_>,
        listed: Listed,
        found: &mut Collected,
        steps: &mut Steps<L>,
    ) -> Result<(), NoMemory>
        requires mine { 1 + length mine ≡ listed.mine }
        requires theirs { 1 + length theirs ≡ listed.theirs }
        requires first { spot.segment ≡ 1 }
        ensures { OnOk result (found.new ≡ spec.noted_from self.now spot found.old mine.entry theirs.entry) }
    {
        let both = listed.mine.min(listed.theirs);
        for segment in 1..both {
            let at = spot.at(segment);
            self.add_next(alloc, at, &mut mine, &mut theirs, found, steps)?;
        }
        let end = spot.at(both).of(Aspect::Count);
        found.add_counts(end, listed.mine, listed.theirs)
    }
}

/// How many segments of a track are listed in a section.
#[derive(Clone, Copy)]
pub(crate) struct Listed {
    pub(crate) mine: usize,
    pub(crate) theirs: usize,
}

/// The content of a track in a section.
#[derive(Drop)]
pub(crate) struct Entry<'a> {
    pub(crate) initialization: &'a Part,
    pub(crate) segments: Walk<'a>,
}

/// Adds what differs of a track in a section: whether it has content there, its init segment, and its segments in order.
/// The presentations list `listed` segments there.
pub(crate) fn add_entry<L: Ledger>(
    alloc: Global,
    spot: Spot,
    tolerance: Tolerance,
    mut mine: Entry<'_>,
    mut theirs: Entry<'_>,
    listed: Listed,
    found: &mut Collected,
    steps: &mut Steps<L>,
) -> Result<(), NoMemory>
    requires first { spot.segment ≡ 0 }
    requires mine { length mine.segments ≡ listed.mine }
    requires theirs { length theirs.segments ≡ listed.theirs }
    ensures { OnOk result (found.new ≡ spec.entry_noted tolerance spot found.old
        (entry_made mine.entry.initialization.now mine.entry.segments) (entry_made theirs.entry.initialization.now theirs.entry.segments)) }
{
    let a = mine.segments.next(alloc, steps)?;
    let b = theirs.segments.next(alloc, steps)?;
    let (a, b) = match (a, b) {
        (None, None) => return Ok(()),
        (Some(_), None) => return found.add(Deviation::found_at(
            spot,
            Aspect::Initialization,
            How::Missing,
        )),
        (None, Some(_)) => return found.add(Deviation::found_at(
            spot,
            Aspect::Initialization,
            How::Extra,
        )),
        (Some(a), Some(b)) => (a, b),
    };
    let same_part = is_same_part(mine.initialization, theirs.initialization);
    found.add_unless(
        same_part,
        Deviation::found_at(spot, Aspect::Initialization, How::Value),
    )?;
    let begins = Begins {
        mine: a.span().start,
        theirs: b.span().start,
        tolerance,
    };
    begins.add_segment(spot, &a, &b, found)?;
    begins.add_rest(
        alloc,
        spot.at(1),
        mine.segments,
        theirs.segments,
        listed,
        found,
        steps,
    )
}

fn is_same_part(mine: &Part, theirs: &Part) -> bool
    ensures { result ≡ is_same_part mine.now theirs.now }
{
    mine.address.as_str() == theirs.address.as_str() && is_same_range(mine.range, theirs.range)
}

fn is_same_range(mine: Option<Range>, theirs: Option<Range>) -> bool
    ensures { result ≡ option_eq is_same_range mine theirs }
{
    match (mine, theirs) {
        (Some(mine), Some(theirs)) => mine.first == theirs.first && mine.count == theirs.count,
        (None, None) => true,
        _ => false,
    }
}
