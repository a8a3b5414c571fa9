// The last kept segments of a Period.
ghost use Rattle.std.specs.Prelude.{◌≡◌, ◌-◌, ◌<◌, ◌≤◌, length, option_map, reverse, slice_get};
ghost use Rattle.timeline.specs.Listed.{timing_of};
ghost use Rattle.live_meaning.specs.Segments.{times_of};
ghost use Rattle.live_judge.specs.Blocks.{AreOf, IsBlock, IsEndOf, IsWithin, StandBefore, in_block, segments_in};
ghost use Rattle.live_judge.specs.Sound.{AreOrdered};

use crate::LiveTrack;
use timeline::Span;

/// A range of kept segments: the index of the first one, and the one after the last.
#[derive(Clone, Copy)]
pub(crate) struct Block {
    pub(crate) begin: usize,
    pub(crate) end: usize,
}

impl Block {
    /// How many segments there are.
    pub(crate) fn len(&self) -> u64
        ensures { result ≡ self.now.end - self.now.begin }
    {
        self.end.saturating_sub(self.begin) as u64
    }
}

impl LiveTrack {
    /// The segments of a Period with the greatest section number. All before index `from` are of earlier Periods.
    pub(crate) fn latest(&self, from: usize, place: usize) -> Block
        requires paired { length self.now.items.items ≡ length self.now.facts.items }
        requires ordered { AreOrdered (segments_in self.now) }
        requires within { from ≤ length self.now.facts.items }
        requires before { StandBefore place (segments_in self.now) from }
        ensures { IsBlock place self.now result }
    {
        let end = self.end_of(from, place);
        if end == 0 {
            return Block { begin: end, end };
        }
        let section = self.get(end - 1).0.section;
        let begin = self.begin_of(end, place, section);
        Block { begin, end }
    }

    /// The first index of a segment of a later Period.
    fn end_of(&self, from: usize, place: usize) -> usize
        requires paired { length self.now.items.items ≡ length self.now.facts.items }
        requires within { from ≤ length self.now.facts.items }
        requires before { StandBefore place (segments_in self.now) from }
        ensures is { IsEndOf place (segments_in self.now) result }
        ensures within { result ≤ length self.now.facts.items }
    {
        let mut end = from;
        while end < self.facts.len() && self.get(end).1.place <= place {
            end += 1;
        }
        end
    }

    /// The index of the first of the segments of a Period and a section that are directly before index `end`.
    fn begin_of(&self, end: usize, place: usize, section: u64) -> usize
        requires paired { length self.now.items.items ≡ length self.now.facts.items }
        requires within { end ≤ length self.now.facts.items }
        ensures { AreOf place section (segments_in self.now) result end }
    {
        let mut begin = end;
        while begin > 0 {
            let (item, fact) = self.get(begin - 1);
            if fact.place != place || item.section != section {
                return begin;
            }
            begin -= 1;
        }
        begin
    }

    /// The segment of a block, by the number of segments after it.
    pub(crate) fn from_back(&self, block: Block, left: u64) -> Option<Span>
        requires { IsWithin block self.now }
        ensures { option_map timing_of result ≡ slice_get (reverse (times_of (in_block block self.now))) left }
    {
        if left < block.len() {
            Some(self.get(block.end - 1 - left as usize).1.span)
        } else {
            None
        }
    }
}
