// The segments that a presentation lists.
ghost use Rattle.std.specs.Prelude.{◌≡◌, ◌<◌, ◌^◌, All, length, MatchOption, MatchResult};
ghost use Rattle.bridge_io.specs.declared.outside.Fail.TheVariants.{Memory};
ghost use Rattle.bridge_io.specs.Adding.{Adds};
ghost use Rattle.timeline.specs.Listed.{IsDone, IsMade};
ghost use Rattle.presentation.specs.Laws.{HasAddress};
ghost use Rattle.presentation.specs.Origins.{IsAddressed};
ghost use Rattle.presentation.specs.Presented.{listed_in};
ghost use Rattle.dash_writer.specs.Forms.{own_segments, segments_with};
ghost use Rattle.dash_writer.specs.Lists.{parts_of};
ghost use Rattle.dash_writer.specs.Manifest.{CanBeListed, segment_lists};
ghost use Rattle.dash_writer.specs.Written.{element_text};

use crate::segments::{Files, ListHead, push_segments, push_url};
use crate::sets::TrackLists;
use crate::times::Durations;
use bridge_io::{Fail, Ledger, Sheet, Steps, Store};
use presentation::Presentation;
use segment_forms::{Form, PatternFinder};
use std::alloc::Global;
use timeline::{ListFault, Listing, Runs, Segment, Window};
use url_parts::Part;

/// The contents of the tracks of a presentation in its sections, in a form.
#[derive(Clone, Copy)]
pub(crate) struct OwnLists<'a> {
    pub(crate) form: Form,
    pub(crate) presentation: &'a Presentation,
}

impl<L: Ledger> TrackLists<Steps<L>> for OwnLists<'_> {
    ghost lists = { λ lists. segment_lists lists.form lists.presentation.now };

    ghost can_list = { λ lists. CanBeListed lists.presentation.now };

    fn push_list<F: Store>(
        &self,
        alloc: Global,
        section: usize,
        track: usize,
        sheet: &mut Sheet<F>,
        steps: &mut Steps<L>,
    ) -> Result<(), Fail> {
        let presentation = self.presentation;
        let listed = Listed {
            form: self.form,
            runs: presentation.runs(section, track),
            window: presentation.window(section),
        };
        let part = presentation.initialization(section, track);
        listed.push_own(alloc, part, sheet, steps)
    }
}

/// The segments of a track in a section that a window lists, in a form.
#[derive(Clone, Copy)]
pub(crate) struct Listed<'a> {
    pub(crate) form: Form,
    pub(crate) runs: &'a Runs,
    pub(crate) window: Window,
}

impl Listed<'_> {
    /// Writes them with their own durations.
    fn push_own<F: Store, L: Ledger>(
        &self,
        alloc: Global,
        part: &Part,
        sheet: &mut Sheet<F>,
        steps: &mut Steps<L>,
    ) -> Result<(), Fail>
        requires { IsAddressed self.now.runs.now }
        ensures { Adds F.Store (element_text (own_segments self.now.form self.now.runs.now part.now
            (listed_in self.now.window self.now.runs.now))) sheet.old sheet.new result }
    {
        let runs = self.runs;
        let window = &self.window;
        let _ = runs.count(window).unwrap_or(0); // which fits a number
        let head = ListHead {
            ticks: u64::from(runs.offset().scale),
            offset: None,
            first: 0,
            initialization: part,
        };
        let mut walk = runs.walk(&runs.seek(window), window);
        self.push(alloc, &head, &mut walk, sheet, steps)
    }

    /// Writes them with these durations.
    pub(crate) fn push<D: Durations, F: Store, L: Ledger>(
        &self,
        alloc: Global,
        head: &ListHead<'_>,
        durations: &mut D,
        sheet: &mut Sheet<F>,
        steps: &mut Steps<L>,
    ) -> Result<(), Fail>
        requires few { length (D.durations durations.old) < 2 ^ 64 }
        requires addressed { IsAddressed self.now.runs.now }
        ensures { Adds F.Store (element_text (segments_with self.now.form head.now.ticks head.now.offset head.now.first
            head.now.initialization.now (D.durations durations.old)
            (parts_of self.now.runs.now (listed_in self.now.window self.now.runs.now)))) sheet.old sheet.new result }
    {
        let mut files = self.listing();
        let mut again = self.listing();
        let form = self.form;
        push_segments(
            alloc, form, head, durations, &mut files, &mut again, sheet, steps,
        )
    }

    /// The segments one after another.
    fn listing(&self) -> Listing<'_>
        requires { IsAddressed self.now.runs.now }
        ensures timeline { result.timeline ≡ self.now.runs.now }
        ensures left { result.left ≡ listed_in self.now.window self.now.runs.now }
    {
        let runs = self.runs;
        runs.resume(&runs.seek(&self.window), &self.window)
    }
}

impl<L: Ledger> Files<Steps<L>> for Listing<'_> {
    ghost parts = { λ rest. parts_of rest.timeline rest.left };

    ghost can_push = { λ rest. All (HasAddress rest.timeline) rest.left };

    fn push_urls<F: Store>(
        &mut self,
        alloc: Global,
        sheet: &mut Sheet<F>,
        steps: &mut Steps<L>,
    ) -> Result<(), Fail> {
        while let Some(segment) = next_segment(alloc, self, steps)? {
            push_url(segment.address().as_str(), segment.range(), sheet)?;
        }
        Ok(())
    }

    fn push_addresses(
        &mut self,
        alloc: Global,
        finder: &mut PatternFinder,
        steps: &mut Steps<L>,
    ) -> Result<bool, Fail> {
        while let Some(segment) = next_segment(alloc, self, steps)? {
            if segment.range().is_some() {
                return Ok(false);
            }
            finder.push(segment.address().as_str())?;
        }
        Ok(true)
    }
}

/// Makes the next segment of those that all have URLs.
fn next_segment<L: Ledger>(
    alloc: Global,
    listing: &mut Listing<'_>,
    steps: &mut Steps<L>,
) -> Result<Option<Segment>, Fail>
    requires { All (HasAddress listing.old.timeline) listing.old.left }
    ensures { MatchResult result
        (λ next. MatchOption next (IsDone listing.old listing.new) (λ made. IsMade listing.old made listing.new))
        (λ fail. fail ≡ Memory) }
{
    match listing.next(alloc, steps) {
        Ok(next) => Ok(next),
        Err(ListFault::Memory) => Err(Fail::Memory),
        Err(ListFault::Url(_)) => unreachable!(),
    }
}
