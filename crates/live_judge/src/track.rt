// The state of a track.
ghost use Rattle.std.specs.Prelude.{◌≡◌, ◌<◌, ◌∷◌, Some, length, slice_get};
ghost use Rattle.live_judge.specs.Shown.{kept_of, kepts_of, last_of, track_shown};

use circular_buffer::HeapCircularBuffer;
use exact_time::{Nanos, Tick};
use hls_writer::MediaItem;
use timeline::Span;

/// What is stored of a segment besides its playlist item.
#[derive(Clone, Copy)]
pub struct Fact {
    /// Its times relative to the Period's start, and its number.
    pub span: Span,
    /// The index of its Period's id in the order in which ids were first seen.
    pub place: usize,
    /// When its Period begins, from the presentation's start.
    pub period_start: Nanos,
}

/// The state of a track: the segments of its playlist in order. In a contract it is `track_shown`.
#[derive(Drop)]
pub struct LiveTrack {
    /// Their playlist items.
    pub items: HeapCircularBuffer<MediaItem>,
    /// What else is stored of them, parallel to the items.
    pub facts: HeapCircularBuffer<Fact>,
    /// How many segments were removed before them.
    pub first: u64,
    /// When the first segment ever listed of the last one's section begins, relative to the Period's start.
    pub begin: Tick,
}

/// The last segment of a track.
#[derive(Clone, Copy)]
pub struct LastKept {
    /// The index of its Period's id in the order in which ids were first seen.
    pub place: usize,
    /// Its section's number.
    pub section: u64,
    /// When that section's first segment begins, relative to the Period's start.
    pub begin: Tick,
    /// When it ends.
    pub end: Tick,
}

impl LiveTrack {
    /// The last segment.
    ///
    /// Requires that one is kept, and that the two buffers are parallel.
    #[tactic(auto, using(crate::proofs::Keeping::side_by_side))]
    pub fn last(&self) -> LastKept
        requires paired { length self.now.items.items ≡ length self.now.facts.items }
        requires some { 0 < length self.now.facts.items }
        ensures last { (track_shown self.now).last ≡ Some (last_of result) }
        ensures place { (track_shown self.now).place ≡ result.place }
    {
        let fact = self.facts.back().unwrap();
        LastKept {
            place: fact.place,
            section: self.items.back().unwrap().section,
            begin: self.begin,
            end: fact.span.end,
        }
    }

    /// The segment at an index: its playlist item, and what else is stored of it.
    ///
    /// Requires that the index is in range.
    #[tactic(auto, using(crate::proofs::Keeping::side_by_side))]
    pub(crate) fn get(&self, place: usize) -> (&MediaItem, &Fact)
        requires paired { length self.now.items.items ≡ length self.now.facts.items }
        requires within { place < length self.now.facts.items }
        ensures { slice_get (kepts_of self.now.items.items self.now.facts.items) place ≡ Some (kept_of result.0.now result.1.now) }
    {
        (
            self.items.get(place).unwrap(),
            self.facts.get(place).unwrap(),
        )
    }
}
