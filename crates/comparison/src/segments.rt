// The segments of a track in a section.
ghost use Rattle.std.specs.Prelude.{◌≡◌, ◌+◌, ◌≤◌, ◌<◌, ◌^◌, ◌∷◌, [], length, bytes_eq, IfOk, None};
ghost use Rattle.std.specs.Option.{option_eq, option_or};
ghost use Rattle.exact_time.specs.Tick.{time_of};
ghost use Rattle.meaning.specs.Differences.{entry_difference, in_entry, is_same_part, is_same_range, segment_difference};
ghost use Rattle.meaning.specs.Differences.{segments_difference};
ghost use Rattle.comparison.specs.Comparing.{entry_made, segment_made};
ghost use Rattle.comparison.specs.Comparing as spec;

use crate::spot::Spot;
use crate::stretch::{Stretch, is_same_or_rounded};
use crate::walk::Walk;
use bridge_io::{Ledger, NoMemory, Steps};
use exact_time::{Digits, Tick};
use meaning::{Aspect, Difference};
use std::alloc::Global;
use timeline::Segment;
use url_parts::{Part, Range};

/// The starts of the first segments, the origin of times, and the decimals that times may be rounded down to.
#[derive(Clone, Copy)]
struct Begins {
    mine: Tick,
    theirs: Tick,
    digits: Digits,
}

impl Begins {
    /// The first difference of a segment: its URL, its byte range, its time.
    fn difference(&self, at: Spot, mine: &Segment, theirs: &Segment) -> Option<Difference>
        ensures { result ≡ segment_difference (10 ^ self.now.digits) (in_entry at.track at.section at.segment) (time_of self.now.mine)
            (time_of self.now.theirs) (segment_made mine.now) (segment_made theirs.now) }
    {
        if mine.address().as_str() != theirs.address().as_str() {
            return Some(at.of(Aspect::Address));
        }
        if !is_same_range(mine.range(), theirs.range()) {
            return Some(at.of(Aspect::Range));
        }
        if !self.is_same_time(mine, theirs) {
            return Some(at.of(Aspect::Time));
        }
        None
    }

    fn is_same_time(&self, mine: &Segment, theirs: &Segment) -> bool
        ensures { result ≡ spec.is_same_end (10 ^ self.now.digits) (time_of self.now.mine) (time_of self.now.theirs)
            (segment_made mine.now) (segment_made theirs.now) }
    {
        let mine = Stretch {
            begin: self.mine,
            end: mine.span().end,
        };
        let theirs = Stretch {
            begin: self.theirs,
            end: theirs.span().end,
        };
        is_same_or_rounded(mine, theirs, self.digits.unit())
    }

    /// Makes the next segment of each, and returns their first difference.
    fn next_difference<L: Ledger>(
        &self,
        alloc: Global,
        at: Spot,
        mine: &mut Walk<'_>,
        theirs: &mut Walk<'_>,
        steps: &mut Steps<L>,
    ) -> Result<Option<Difference>, NoMemory>
        requires { 0 < length theirs.old }
        ensures found { IfOk result (λ found. spec.segments_from (10 ^ self.now.digits) at (time_of self.now.mine)
            (time_of self.now.theirs) mine.old theirs.old
            ≡ option_or found (spec.segments_from (10 ^ self.now.digits) (spec.behind at) (time_of self.now.mine)
            (time_of self.now.theirs) mine.new theirs.new)) }
        ensures fewer { IfOk result (λ found. found ≡ None → length theirs.old ≡ length theirs.new + 1) }
    {
        let (Some(a), Some(b)) = (mine.next(alloc, steps)?, theirs.next(alloc, steps)?) else {
            return Ok(Some(at.of(Aspect::Count)));
        };
        Ok(self.difference(at, &a, &b))
    }

    /// The first difference of the segments, where the first one of each is made. The second presentation has `listed`
    /// segments in all.
    fn segments_difference<L: Ledger>(
        &self,
        alloc: Global,
        a: &Segment,
        b: &Segment,
        spot: Spot,
        mine: Walk<'_>,
        theirs: Walk<'_>,
        listed: usize,
        steps: &mut Steps<L>,
    ) -> Result<Option<Difference>, NoMemory>
        requires first { spot.segment ≡ 0 }
        requires listed { 1 + length theirs ≡ listed }
        ensures { IfOk result (λ found. found ≡ segments_difference (10 ^ self.now.digits) spot.track spot.section 0
            (time_of self.now.mine) (time_of self.now.theirs)
            (segment_made a.now ∷ mine.entry) (segment_made b.now ∷ theirs.entry)) }
    {
        match self.difference(spot, a, b) {
            Some(found) => Ok(Some(found)),
            None => self.rest_difference(alloc, spot, mine, theirs, listed, steps),
        }
    }

    /// The first difference of the segments after the first ones. The second presentation has `listed` segments in
    /// all.
    fn rest_difference<L: Ledger>(
        &self,
        alloc: Global,
        spot: Spot,
        mut mine: Walk<'_>,
        mut theirs: Walk<'_>,
        listed: usize,
        steps: &mut Steps<L>,
    ) -> Result<Option<Difference>, NoMemory>
        requires { 1 + length theirs ≡ listed }
        ensures { IfOk result (λ found. found ≡ segments_difference (10 ^ self.now.digits) spot.track spot.section 1
            (time_of self.now.mine) (time_of self.now.theirs) mine.entry theirs.entry) }
    {
        for segment in 1..listed {
            let at = spot.at(segment);
            if let Some(found) = self.next_difference(alloc, at, &mut mine, &mut theirs, steps)? {
                return Ok(Some(found));
            }
        }
        match mine.next(alloc, steps)? {
            None => Ok(None),
            Some(_) => Ok(Some(spot.at(listed).of(Aspect::Count))),
        }
    }
}

/// The content of a track in a section.
#[derive(Drop)]
pub(crate) struct Entry<'a> {
    pub(crate) initialization: &'a Part,
    pub(crate) segments: Walk<'a>,
}

/// The first difference of a track in a section: whether it has content there, its init segment, and its segments in order.
/// The second presentation has `listed` segments there.
pub(crate) fn entry_difference<L: Ledger>(
    alloc: Global,
    spot: Spot,
    digits: Digits,
    mut mine: Entry<'_>,
    mut theirs: Entry<'_>,
    listed: usize,
    steps: &mut Steps<L>,
) -> Result<Option<Difference>, NoMemory>
    requires first { spot.segment ≡ 0 }
    requires listed { length theirs.segments ≡ listed }
    ensures { IfOk result (λ found. found ≡ entry_difference (10 ^ digits) spot.track spot.section
        (entry_made mine.entry.initialization.now mine.entry.segments) (entry_made theirs.entry.initialization.now theirs.entry.segments)) }
{
    let a = mine.segments.next(alloc, steps)?;
    let b = theirs.segments.next(alloc, steps)?;
    if a.is_none() && b.is_none() {
        return Ok(None);
    }
    let (Some(a), Some(b)) = (a, b) else {
        return Ok(Some(spot.of(Aspect::Initialization)));
    };
    if !is_same_part(mine.initialization, theirs.initialization) {
        return Ok(Some(spot.of(Aspect::Initialization)));
    }
    let begins = Begins {
        mine: a.span().start,
        theirs: b.span().start,
        digits,
    };
    begins.segments_difference(
        alloc,
        &a,
        &b,
        spot,
        mine.segments,
        theirs.segments,
        listed,
        steps,
    )
}

fn is_same_part(mine: &Part, theirs: &Part) -> bool
    ensures { result ≡ is_same_part mine.now theirs.now }
{
    mine.address.as_str() == theirs.address.as_str() && is_same_range(mine.range, theirs.range)
}

fn is_same_range(mine: Option<Range>, theirs: Option<Range>) -> bool
    ensures { result ≡ option_eq is_same_range mine theirs }
{
    match (mine, theirs) {
        (Some(mine), Some(theirs)) => mine.first == theirs.first && mine.count == theirs.count,
        (None, None) => true,
        _ => false,
    }
}
