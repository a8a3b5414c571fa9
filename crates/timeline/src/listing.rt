// Segments one by one.
ghost use Rattle.std.specs.Prelude.{◌≡◌, ◌+◌, MatchOption, MatchResult};
ghost use Rattle.bridge_io.specs.Answer.{Gives};
ghost use Rattle.timeline.specs.Listed.{CanBeNamed, part_of_timing, timing_of};
ghost use Rattle.timeline.specs.Makers.{IsMakerOf};
ghost use Rattle.timeline.specs.Names.{list_refusal};

use crate::maker::Maker;
use crate::{AddressWriter, ListFault, Runs, Span, TimeWalk};
use bridge_io::{Ledger, NoMemory, Steps};
use std::alloc::Global;
use std::marker::Model;
use url_parts::{Address, Part, Range, Spelling};

/// A segment: its URL, its byte range and its times. Only a `Listing` makes one.
#[derive(Drop)]
pub struct Segment {
    part: Part,
    span: Span,
}

impl Model for Segment {
    ghost use Rattle.timeline.specs.Listed.{Made, timing_of};

    ghost Value = { Made };

    ghost view = { λ s. record { part = s.part; times = timing_of s.span } };
}

impl Segment {
    ghost use Rattle.timeline.specs.Listed.{timing_of};

    /// Its URL.
    pub fn address(&self) -> &Address
        ensures { result.now ≡ self.now.part.address }
    {
        &self.part.address
    }

    /// Its byte range in the file; `None` is the whole file.
    pub fn range(&self) -> Option<Range>
        ensures { result ≡ self.now.part.range }
    {
        self.part.range
    }

    /// Its URL and byte range. Consumes the segment.
    pub fn into_part(self) -> Part
        ensures { result ≡ self.part }
    {
        let Segment { part, span: _ } = self;
        part
    }

    /// When it begins and ends, and its number.
    pub fn span(&self) -> Span
        ensures { timing_of result ≡ self.now.times }
    {
        self.span
    }
}

/// An iterator over the segments of a Representation in order.
///
/// In a contract it is the segments with their names, and the times of those that are left.
#[derive(Drop)]
pub struct Listing<'a> {
    runs: &'a Runs,
    walk: TimeWalk<'a>,
    maker: Maker,
}

impl<'a> Model for Listing<'a> {
    ghost use Rattle.timeline.specs.Listed.{Rest};

    ghost Value = { Rest };

    ghost use Rattle.timeline.specs.Listed.{IsWithin};

    ghost view = { λ l. record { timeline = l.runs.now; left = l.walk } };

    ghost use Rattle.timeline.specs.Makers.{IsMakerOf};

    ghost invariant = { λ l. IsWithin l.runs.now l.walk × IsMakerOf l.runs.now.names l.maker };
}

impl<'a> Listing<'a> {
    ghost use Rattle.std.specs.Prelude.{IfOk, true};
    ghost use Rattle.timeline.specs.FileNames.{AreInFolder, are_files};
    ghost use Rattle.timeline.specs.Listed.{IsDone, IsHeld, IsMade, IsPassed, IsWithin, made_count, passed_count};

    pub(crate) fn over(runs: &'a Runs, walk: TimeWalk<'a>) -> Listing<'a>
        requires { IsWithin runs.now walk }
        ensures timeline { result.timeline ≡ runs.now }
        ensures left { result.left ≡ walk.entry }
    {
        Listing {
            runs,
            walk,
            maker: Maker::new(),
        }
    }

    /// Makes the next segment, and counts it; `None` exactly at the end. After an error the position is still before
    /// the same segment, and nothing is counted.
    #[inline(always)]
    pub fn next<L: Ledger>(
        &mut self,
        alloc: Global,
        steps: &mut Steps<L>,
    ) -> Result<Option<Segment>, ListFault>
        ensures segment { MatchResult result
            (λ next. MatchOption next (IsDone self.old self.new) (λ made. IsMade self.old made self.new))
            (λ fault. IsHeld self.old fault self.new) }
        ensures counted { steps.new ≡ steps.old + made_count result }
    {
        let Some(span) = self.walk.peek() else {
            return Ok(None);
        };
        let part = part_of(self.runs, alloc, &mut self.maker, &span)?;
        self.walk.advance();
        steps.tick();
        Ok(Some(Segment { part, span }))
    }

    /// Skips the next segment without making its URL, and counts it; `None` exactly at the end.
    #[inline(always)]
    pub fn pass<L: Ledger>(&mut self, steps: &mut Steps<L>) -> Option<Span>
        ensures segment { MatchOption result (IsDone self.old self.new) (λ span. IsPassed self.old (timing_of span) self.new) }
        ensures counted { steps.new ≡ steps.old + passed_count result }
    {
        let span = self.walk.peek()?;
        self.walk.advance();
        steps.tick();
        Some(span)
    }

    /// Whether each segment's name is a valid file name in one folder, so that no URL is rejected.
    pub fn are_files(&self, alloc: Global) -> Result<bool, NoMemory>
        ensures told { IfOk result (λ files. files ≡ are_files self.now.timeline.names) }
        ensures named { IfOk result (λ files. files ≡ true → AreInFolder self.now.timeline.names) }
    {
        let runs = self.runs;
        runs.names.are_files(alloc)
    }

    /// A writer of the segments' URLs, spelled so.
    pub fn addresses(
        &self,
        alloc: Global,
        spelling: &'a Spelling,
    ) -> Result<AddressWriter<'a>, NoMemory>
        ensures timeline { IfOk result (λ addresses. addresses.timeline ≡ self.now.timeline) }
        ensures place { IfOk result (λ addresses. addresses.place ≡ spelling.now) }
    {
        AddressWriter::over(alloc, self.runs, spelling)
    }
}

/// The URL and byte range of a segment.
#[inline(always)]
pub(crate) fn part_of(
    runs: &Runs,
    alloc: Global,
    maker: &mut Maker,
    span: &Span,
) -> Result<Part, ListFault>
    requires named { CanBeNamed runs.now (timing_of span.now) }
    requires maker { IsMakerOf runs.now.names maker.old }
    ensures part { Gives (λ part. part) list_refusal result (part_of_timing runs.now (timing_of span.now)) }
    ensures kept { IsMakerOf runs.now.names maker.new }
{
    let place = span.number - runs.scale.start_number;
    runs.names.part(
        alloc,
        maker,
        place,
        span.number,
        runs.media_time(span.start),
    )
}
