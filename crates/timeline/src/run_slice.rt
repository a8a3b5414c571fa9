// The rest of a table of runs.
use crate::bound::Bound;
use crate::limits::Limits;
use crate::media_run::MediaRun;
use crate::run::Run;

/// Runs in order: first those in media time, then those with times of their own.
#[derive(Clone, Copy)]
pub struct RunSlice<'a> {
    media: &'a [MediaRun],
    /// The scale of the runs in media time.
    limits: Limits,
    own: &'a [Run],
}

/// What runs are searched by.
#[derive(Clone, Copy)]
pub enum Test {
    /// All segments of the run are before this index.
    EndsBy(u64),
    /// The first segment of the run ends at or before this bound.
    BeginsBy(Bound),
}

impl Test {
    ghost use Rattle.std.specs.Prelude.{◌≡◌};
    ghost use Rattle.timeline.specs.RunSegments.{timed};
    ghost use Rattle.timeline.specs.RunTables.{passes};

    fn passes(self, run: Run) -> bool
        ensures { result ≡ passes self (timed run) }
    {
        match self {
            Test::EndsBy(place) => run.before.saturating_add(run.count) <= place,
            Test::BeginsBy(bound) => run.first_ends_by(bound),
        }
    }
}

impl<'a> RunSlice<'a> {
    ghost use Rattle.std.specs.Prelude.{◌≡◌, ◌-◌, ◌<◌, ◌≤◌, [], ◌∷◌, ◌++◌, map, length, drop, get_or, true, false, MatchOption};
    ghost use Rattle.std.specs.List.Sorted.{IsPartitionedBy, IsPartitionPoint};
    ghost use Rattle.timeline.specs.RunSegments.{TimedRun, placed_run, timed};
    ghost use Rattle.timeline.specs.RunTables.{IsNarrowed, passes, slice_runs};

    pub fn of(media: &'a [MediaRun], limits: Limits, own: &'a [Run]) -> RunSlice<'a>
        ensures { slice_runs result ≡ map (placed_run limits.ticks limits.origin) media.now ++ map timed own.now }
    {
        RunSlice { media, limits, own }
    }

    /// How many runs there are.
    #[inline(always)]
    pub fn len(&self) -> usize
        ensures { result ≡ length (slice_runs self.now) }
    {
        self.media.len() + self.own.len()
    }

    /// The run at an index.
    #[inline(always)]
    pub fn get(&self, place: usize) -> Run
        requires { place < length (slice_runs self.now) }
        ensures { (other : TimedRun) → timed result ≡ get_or (slice_runs self.now) place other }
    {
        match self.media.get(place) {
            Some(run) => run.at(self.limits),
            None => self.own[place - self.media.len()],
        }
    }

    /// The runs after the first `count`.
    #[inline(always)]
    #[tactic(auto, using(crate::proofs::WalkLemmas::skip_front, crate::proofs::WalkLemmas::skip_all))]
    pub fn skip(&self, count: usize) -> RunSlice<'a>
        requires { count ≤ length (slice_runs self.now) }
        ensures { slice_runs result ≡ drop count (slice_runs self.now) }
    {
        if count <= self.media.len() {
            return RunSlice {
                media: &self.media[count..],
                limits: self.limits,
                own: self.own,
            };
        }
        RunSlice {
            media: &[],
            limits: self.limits,
            own: &self.own[count - self.media.len()..],
        }
    }

    /// The first run, and those after it.
    #[inline(always)]
    pub fn split_first(&self) -> Option<(Run, RunSlice<'a>)>
        ensures { MatchOption result (slice_runs self.now ≡ []) (λ parts. slice_runs self.now ≡ timed parts.0 ∷ slice_runs parts.1) }
    {
        if self.len() == 0 {
            return None;
        }
        Some((self.get(0), self.skip(1)))
    }

    /// How many leading runs pass a test that no run passes after one that doesn't.
    pub fn count_front(&self, test: Test) -> usize
        requires { IsPartitionedBy (passes test) (slice_runs self.now) }
        ensures within { result ≤ length (slice_runs self.now) }
        ensures point { IsPartitionPoint (λ run. passes test run ≡ true) (λ run. passes test run ≡ false) (slice_runs self.now) result }
    {
        let mut low = 0;
        let mut high = self.len();
        while low < high {
            (low, high) = self.halve(test, low, high);
        }
        low
    }

    /// Halves the range that contains the first run that doesn't pass.
    fn halve(&self, test: Test, low: usize, high: usize) -> (usize, usize)
        requires sorted { IsPartitionedBy (passes test) (slice_runs self.now) }
        requires narrowed { IsNarrowed test (slice_runs self.now) low high }
        requires some { low < high }
        ensures narrowed { IsNarrowed test (slice_runs self.now) result.0 result.1 }
        ensures less { result.1 - result.0 < high - low }
    {
        let middle = low + (high - low) / 2;
        if test.passes(self.get(middle)) {
            (middle + 1, high)
        } else {
            (low, middle)
        }
    }
}
