// The listed segments of a track in a section, by their meaning.
ghost use Rattle.std.specs.Prelude.{◌≡◌, ◌∷◌, [], MatchOption, IfOk};
ghost use Rattle.comparison.specs.Comparing.{AreAddressed, segments_left, segment_made};

use bridge_io::{Ledger, NoMemory, Steps};
use presentation::PrintedSegments;
use std::alloc::Global;
use std::marker::Model;
use timeline::{ListFault, Segment};

/// An iterator over segments that all have URLs.
///
/// In a contract it is the meaning of those that are left.
#[derive(Drop)]
pub struct Walk<'a> {
    segments: PrintedSegments<'a>,
}

impl<'a> Model for Walk<'a> {
    ghost use Rattle.std.specs.Prelude.{List};
    ghost use Rattle.meaning.specs.Meanings.{Segment as Meant};
    ghost use Rattle.comparison.specs.Comparing.{AreAddressed, segments_left};

    ghost Value = { List Meant };

    ghost view = { λ w. segments_left w.segments };

    ghost invariant = { λ w. AreAddressed w.segments };
}

impl<'a> Walk<'a> {
    /// An iterator over the listed segments of a track in a section.
    pub fn over(segments: PrintedSegments<'a>) -> Walk<'a>
        requires { AreAddressed segments }
        ensures { result ≡ segments_left segments.entry }
    {
        Walk { segments }
    }

    /// Makes the next segment; `None` exactly at the end.
    pub fn next<L: Ledger>(
        &mut self,
        alloc: Global,
        steps: &mut Steps<L>,
    ) -> Result<Option<Segment>, NoMemory>
        ensures { IfOk result (λ next. MatchOption next (self.old ≡ []) (λ made. self.old ≡ segment_made made ∷ self.new)) }
    {
        next_segment(alloc, &mut self.segments, steps)
    }
}

/// Makes the next segment of those that all have URLs.
fn next_segment<L: Ledger>(
    alloc: Global,
    segments: &mut PrintedSegments<'_>,
    steps: &mut Steps<L>,
) -> Result<Option<Segment>, NoMemory>
    requires { AreAddressed segments.old }
    ensures next { IfOk result (λ next. MatchOption next (segments_left segments.old ≡ [])
        (λ made. segments_left segments.old ≡ segment_made made ∷ segments_left segments.new)) }
    ensures addressed { AreAddressed segments.new }
{
    match segments.next(alloc, steps) {
        Ok(None) => Ok(None),
        Ok(Some((segment, _))) => Ok(Some(segment)),
        Err(ListFault::Memory) => Err(NoMemory),
        Err(ListFault::Url(_)) => unreachable!(),
    }
}
