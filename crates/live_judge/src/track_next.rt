// The update of a track.
ghost use Rattle.std.specs.Prelude.{◌≡◌, ◌+◌, ◌<◌, ◌≤◌, ◌^◌, [], All, MatchOption, Some, length, option_map, slice_get};
ghost use Rattle.presentation.specs.Presented.{content_at, start_of, window_of};
ghost use Rattle.timeline.specs.Listed.{IsReached, IsWindowOf, timing_of};
ghost use Rattle.timeline.specs.Steady.{ArePaced, IsWithinLimits};
ghost use Rattle.live_meaning.specs.States.{new_of};
ghost use Rattle.live_judge.specs.Coming.{IsNext, IsTrackNext, c_of, coming_of, p_of, t_of};
ghost use Rattle.live_judge.specs.New.{IsFirstNew, StartsNew, new_timings};

use crate::{LiveTrack, Next};
use exact_time::Nanos;
use timeline::{Cursor, Runs, Span, TimeWalk, Window};

/// The update of a track. [`Next::of`] makes it.
#[derive(Clone, Copy)]
pub struct TrackNext<'a> {
    /// The update.
    pub next: &'a Next<'a>,
    /// The track.
    pub track: &'a LiveTrack,
    /// Its index among the tracks.
    pub index: usize,
}

/// The first new segment of a track.
#[derive(Clone, Copy)]
pub(crate) struct FirstNew {
    /// Its section's number.
    pub(crate) number: u64,
    pub(crate) span: Span,
}

impl<'a> Next<'a> {
    /// When a section's Period begins.
    pub(crate) fn start(&self, section: usize) -> Nanos
        requires { section < length (p_of self.now).sections }
        ensures { result ≡ start_of (p_of self.entry.now) section }
    {
        self.force.sections().as_slice()[section].start
    }

    /// The window of the listed segments in a section.
    pub(crate) fn window(&self, section: usize) -> Window
        requires { section < length (p_of self.now).sections }
        ensures { result ≡ window_of (p_of self.entry.now) section }
    {
        self.force.window_from(self.start(section), self.now)
    }

    /// The number of the section of a Period's new segments: its index, plus one for each reset.
    ///
    /// Requires that the section is in range.
    pub fn number(&self, section: usize) -> u64
        requires next { IsNext self.now }
        requires section { section < length (p_of self.now).sections }
        ensures { result ≡ self.entry.now.place + section + (coming_of self.entry.now).resets }
    {
        (self.place + section) as u64 + self.resets()
    }

    /// How many resets there are, including this one.
    #[tactic(auto, using(crate::proofs::Listing::reset_at))]
    fn resets(&self) -> u64
        requires { IsNext self.now }
        ensures resets { result ≡ (coming_of self.entry.now).resets }
        ensures few { result ≤ 10000001 }
    {
        if self.coming.is_reset() {
            return self.standing.resets + 1;
        }
        self.standing.resets
    }
}

impl<'a> TrackNext<'a> {
    /// The segments of the track in a section.
    pub(crate) fn runs(&self, section: usize) -> &'a Runs
        requires next { IsTrackNext self.now }
        requires section { section < length (p_of self.now.next.now).sections }
        ensures content { option_map (λ content. content.runs) (content_at (p_of self.entry.now.next.now) section self.entry.now.index)
            ≡ Some result.now }
        ensures fits { IsWindowOf result.now (window_of (p_of self.entry.now.next.now) section) }
        ensures reached { IsReached result.now (window_of (p_of self.entry.now.next.now) section) }
    {
        self.next.force.runs(section, self.index)
    }

    /// The index of a section's first new segment; `None` where nothing in the section is new. It divides.
    ///
    /// Requires that the section is in range.
    pub fn cursor(&self, section: usize) -> Option<Cursor>
        requires next { IsTrackNext self.now }
        requires section { section < length (p_of self.now.next.now).sections }
        ensures { MatchOption result (new_timings (p_of self.entry.now.next.now) self.entry.now.next.now.place
            (t_of self.entry.now) self.entry.now.index section ≡ [])
            (λ cursor. StartsNew (p_of self.entry.now.next.now) self.entry.now.next.now.place
            (t_of self.entry.now) self.entry.now.index section cursor) }
    {
        if self.next.is_quiet {
            return None;
        }
        let last = self.track.last();
        let place = self.next.place + section;
        if place < last.place {
            return None;
        }
        if place == last.place {
            return Some(self.runs(section).seek_end(last.end));
        }
        Some(self.runs(section).seek(&self.next.window(section)))
    }

    /// The times of a section's new segments.
    pub(crate) fn walk(&self, section: usize) -> Option<TimeWalk<'a>>
        requires next { IsTrackNext self.now }
        requires section { section < length (p_of self.now.next.now).sections }
        ensures { MatchOption result (new_timings (p_of self.entry.now.next.now) self.entry.now.next.now.place
            (t_of self.entry.now) self.entry.now.index section ≡ [])
            (λ walk. (walk ≡ new_timings (p_of self.entry.now.next.now) self.entry.now.next.now.place
            (t_of self.entry.now) self.entry.now.index section)
            × ArePaced walk × All IsWithinLimits walk) }
    {
        let cursor = self.cursor(section)?;
        let window = self.next.window(section);
        Some(self.runs(section).walk(&cursor, &window))
    }

    /// How many segments of a section are new. It divides.
    pub(crate) fn new_count_in(&self, section: usize) -> u64
        requires next { IsTrackNext self.now }
        requires section { section < length (p_of self.now.next.now).sections }
        ensures { result ≡ length (new_timings (p_of self.entry.now.next.now) self.entry.now.next.now.place
            (t_of self.entry.now) self.entry.now.index section) }
    {
        match self.cursor(section) {
            Some(cursor) => {
                let window = self.next.window(section);
                self.runs(section).count_from(&cursor, &window)
            }
            None => 0,
        }
    }

    /// How many segments are new. It divides, however many they are.
    #[tactic(auto, using(crate::proofs::Walks::in_order))]
    pub fn new_count(&self) -> u128
        requires { IsTrackNext self.now }
        ensures count { result ≡ length (new_of (c_of self.entry.now) self.entry.now.index (t_of self.entry.now)) }
        ensures bounded { result < 2 ^ 127 }
    {
        let mut count: u128 = 0;
        for section in 0..self.next.force.sections().len() {
            count += u128::from(self.new_count_in(section));
        }
        count
    }

    /// The first new segment of a section.
    pub(crate) fn first_new_in(&self, section: usize) -> Option<Span>
        requires next { IsTrackNext self.now }
        requires section { section < length (p_of self.now.next.now).sections }
        ensures { MatchOption result (new_timings (p_of self.entry.now.next.now) self.entry.now.next.now.place
            (t_of self.entry.now) self.entry.now.index section ≡ [])
            (λ span. (slice_get (new_timings (p_of self.entry.now.next.now) self.entry.now.next.now.place
            (t_of self.entry.now) self.entry.now.index section) 0 ≡ Some (timing_of span))
            × IsWithinLimits (timing_of span)) }
    {
        let mut walk = self.walk(section)?;
        walk.next()
    }

    /// The first new segment.
    #[tactic(auto, using(crate::proofs::Walks::in_order))]
    pub(crate) fn first_new(&self) -> Option<FirstNew>
        requires { IsTrackNext self.now }
        ensures { MatchOption result (new_of (c_of self.entry.now) self.entry.now.index (t_of self.entry.now) ≡ [])
            (λ first. IsFirstNew first.number (timing_of first.span)
            (new_of (c_of self.entry.now) self.entry.now.index (t_of self.entry.now))) }
    {
        for section in 0..self.next.force.sections().len() {
            if let Some(span) = self.first_new_in(section) {
                let number = self.next.number(section);
                return Some(FirstNew { number, span });
            }
        }
        None
    }
}
