// Kept segments that a new MPD has with different times.
ghost use Rattle.std.specs.Prelude.{◌≡◌, ◌+◌, ◌<◌, ◌≤◌, None, flat_map, is_some, length, map, option_map, take, true};
ghost use Rattle.exact_time.specs.Tick.{time_of};
ghost use Rattle.presentation.specs.Counting.{sections_of};
ghost use Rattle.timeline.specs.Listed.{IsReached, IsWindowOf, expansion, listed, listed_from, timing_of};
ghost use Rattle.live_meaning.specs.Updates.{mpd_of};
ghost use Rattle.live_meaning.specs.Refusals.{expansion_at, is_same_time, rewritten_by, rewritten_in, rewritten_told};
ghost use Rattle.live_meaning.specs.Segments.{times_of};
ghost use Rattle.live_judge.specs.Blocks.{IsBlock, IsWithin, in_block};
ghost use Rattle.live_judge.specs.Changed.{AreUnmoved};
ghost use Rattle.live_judge.specs.Coming.{Comes, IsNext, IsTrackNext, p_of, t_of, update_of};
ghost use Rattle.live_judge.specs.Faults.{Judges};
ghost use Rattle.live_judge.specs.Rewriting.{EndAtTimes, IsLastEnded, held, is_same_as, kept_told, or_other, pair_of};
ghost use Rattle.live_judge.specs.Shown.{common_shown, track_shown};

use crate::block::Block;
use crate::walk::Rule;
use crate::{LiveTrack, Next, RefreshFault, TrackNext};
use exact_time::Tick;
use timeline::{Cursor, Runs, Span, TimeWalk, Window, closed_ends};

/// A kept segment and the new one instead of it. There is no kept one where there are more new ones.
#[derive(Clone, Copy)]
pub(crate) struct Pair {
    pub(crate) kept: Option<Span>,
    pub(crate) new: Span,
}

/// Segments in order, some of which are the last ones that end by a time.
#[derive(Drop)]
pub(crate) struct Ended<'a> {
    pub(crate) walk: TimeWalk<'a>,
    /// How many of them.
    pub(crate) count: u64,
}

impl Next<'_> {
    /// Rejects kept segments that the update's MPD has with different times. It allocates nothing, and visits at most one
    /// more new segment than are kept of a Period's last section.
    pub(crate) fn check_kept(&self) -> Result<(), RefreshFault>
        requires next { IsNext self.now }
        requires comes { Comes self.now.standing.now self.now.coming self.now.force.now self.now.now }
        requires unmoved { is_some (mpd_of (update_of self.now.coming self.now.now)) ≡ true
            → AreUnmoved self.now.standing.now.known (p_of self.now) self.now.place }
        ensures { Judges result (kept_told (common_shown self.entry.now.standing.now)
            (mpd_of (update_of self.entry.now.coming self.entry.now.now)) (p_of self.entry.now)
            (map track_shown self.entry.now.tracks.now)) }
    {
        if self.coming.mpd().is_none() {
            return Ok(());
        }
        self.check_each(Rule::Rewritten)
    }
}

impl TrackNext<'_> {
    #[tactic(auto, using(crate::proofs::Walks::in_order))]
    pub(crate) fn check_rewritten(&self) -> Result<(), RefreshFault>
        requires next { IsTrackNext self.now }
        requires timed { EndAtTimes (p_of self.now.next.now) }
        requires unmoved { AreUnmoved self.now.next.now.standing.now.known (p_of self.now.next.now) self.now.next.now.place }
        ensures { Judges result (flat_map (rewritten_in (common_shown self.entry.now.next.now.standing.now)
            (p_of self.entry.now.next.now) self.entry.now.index (t_of self.entry.now)) (sections_of (p_of self.entry.now.next.now))) }
    {
        let mut from = 0;
        for section in 0..self.next.force.sections().len() {
            let block = self.track.latest(from, self.next.place + section);
            self.check_block(section, block)?;
            from = block.end;
        }
        Ok(())
    }

    fn check_block(&self, section: usize, block: Block) -> Result<(), RefreshFault>
        requires next { IsTrackNext self.now }
        requires timed { EndAtTimes (p_of self.now.next.now) }
        requires unmoved { AreUnmoved self.now.next.now.standing.now.known (p_of self.now.next.now) self.now.next.now.place }
        requires section { section < length (p_of self.now.next.now).sections }
        requires block { IsBlock (self.now.next.now.place + section) self.now.track.now block }
        ensures { Judges result (rewritten_in (common_shown self.entry.now.next.now.standing.now)
            (p_of self.entry.now.next.now) self.entry.now.index (t_of self.entry.now) section) }
    {
        match self.rewritten(section, block) {
            Some(pair) => Err(RefreshFault::Rewritten {
                track: self.index,
                kept: pair.kept,
                new: pair.new,
            }),
            None => Ok(()),
        }
    }

    /// The first segment of a block, from the end, that the presentation has with different times.
    fn rewritten(&self, section: usize, block: Block) -> Option<Pair>
        requires next { IsTrackNext self.now }
        requires timed { EndAtTimes (p_of self.now.next.now) }
        requires unmoved { AreUnmoved self.now.next.now.standing.now.known (p_of self.now.next.now) self.now.next.now.place }
        requires section { section < length (p_of self.now.next.now).sections }
        requires block { IsBlock (self.now.next.now.place + section) self.now.track.now block }
        ensures { option_map pair_of result ≡ rewritten_by (times_of (in_block block self.entry.now.track.now))
            (expansion_at (p_of self.entry.now.next.now) self.entry.now.index section) }
    {
        if block.begin == block.end {
            return None;
        }
        closed_ends();
        let first = self.track.get(block.begin).1.span.end;
        let last = self.track.get(block.end - 1).1.span.end;
        let window = Window {
            after: None,
            until: self.next.window(section).until,
        };
        let ended = last_ended(self.runs(section), &window, last, block.len() + 1);
        last_other(ended, first, self.track, block)
    }
}

/// The last listed segments that end by a time, at most `most`.
fn last_ended<'a>(runs: &'a Runs, window: &Window, last: Tick, most: u64) -> Ended<'a>
    requires window { IsWindowOf runs.now window.now }
    requires reached { IsReached runs.now window.now }
    ensures { IsLastEnded (listed window.now (expansion runs.now window.now)) (time_of last) most result }
{
    let behind = runs.seek_end(last);
    let later = runs.count_from(&behind, window);
    let whole = runs.seek(window);
    let _paced = runs.walk(&whole, window);
    let all = runs.count_from(&whole, window);
    let wanted = all.min(later.saturating_add(most));
    let cursor = place_before(runs, window, behind, wanted);
    Ended {
        walk: runs.walk(&cursor, window),
        count: wanted - later,
    }
}

/// The index from which `wanted` segments are listed, at or before another one.
#[tactic(auto, using(crate::proofs::Holding::back_adds))]
fn place_before(runs: &Runs, window: &Window, behind: Cursor, wanted: u64) -> Cursor
    requires window { IsWindowOf runs.now window.now }
    requires reached { IsReached runs.now window.now }
    requires few { wanted ≤ length (listed window.now (expansion runs.now window.now)) }
    requires more { length (listed_from behind runs.now window.now) ≤ wanted }
    ensures { length (listed_from result runs.now window.now) ≡ wanted }
{
    let mut cursor = behind;
    let mut count = runs.count_from(&cursor, window);
    while count < wanted {
        cursor = cursor.back(wanted - count);
        count = runs.count_from(&cursor, window);
    }
    cursor
}

/// The first pair of kept and new segments that differs, both from the end, among those that end at or after a time.
#[tactic(auto, using(crate::proofs::Holding::held_steps), unfolding(crate::specs::Rewriting::held))]
fn last_other(ended: Ended<'_>, first: Tick, track: &LiveTrack, block: Block) -> Option<Pair>
    requires block { IsWithin block track.now }
    requires within { ended.count ≤ length ended.walk }
    ensures { option_map pair_of result ≡ held (times_of (in_block block track.now))
        (time_of first) (take ended.entry.count ended.entry.walk) None }
{
    let mut walk = ended.walk;
    let mut left = ended.count;
    let mut found = None;
    while left > 0 {
        left -= 1;
        let Some(new) = walk.next() else {
            return found;
        };
        found = or_pair(track, block, left, first, new, found);
    }
    found
}

/// The pair of a new segment, by the number of segments after it, where it ends at or after a time and differs; otherwise
/// another pair.
fn or_pair(
    track: &LiveTrack,
    block: Block,
    left: u64,
    first: Tick,
    new: Span,
    found: Option<Pair>,
) -> Option<Pair>
    requires { IsWithin block track.now }
    ensures { option_map pair_of result ≡ or_other (times_of (in_block block track.now)) left (time_of first) (timing_of new)
        (option_map pair_of found) }
{
    let kept = track.from_back(block, left);
    if first <= new.end && !is_same(kept, new) {
        Some(Pair { kept, new })
    } else {
        found
    }
}

/// Whether a kept segment has the times of a new one.
fn is_same(kept: Option<Span>, new: Span) -> bool
    ensures { result ≡ is_same_as (option_map timing_of kept) (timing_of new) }
{
    match kept {
        Some(kept) => is_same_time(kept.start, new.start) && is_same_time(kept.end, new.end),
        None => false,
    }
}

fn is_same_time(one: Tick, other: Tick) -> bool
    ensures { result ≡ is_same_time (time_of one) (time_of other) }
{
    one <= other && other <= one
}
