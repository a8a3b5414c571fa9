// A timeline shared by many Representations.
ghost use Rattle.std.specs.Prelude.{◌≡◌, false, IfOk, MatchResult};

use crate::builder::RunsBuilder;
use crate::media_run::MediaRun;
use crate::media_runs::MediaRuns;
use crate::timelines::have_no_time;
use crate::{SEntry, SList, Scale, TimeFault};
use bridge_io::NoMemory;
use std::alloc::Global;
use std::marker::Model;
use std::rc::Rc;

/// The S elements of a timeline: the runs of the leading ones, and the others.
#[derive(Drop)]
pub struct LaidTimeline {
    /// The runs of the leading S elements, up to one that has no run common to all timescales.
    pub media: MediaRuns,
    /// The S elements after them.
    pub rest: SList,
    /// Whether some S has duration 0.
    pub no_time: bool,
}

impl LaidTimeline {
    pub fn runs(&self) -> &[MediaRun]
        ensures { result.now ≡ self.now.media.runs.items }
    {
        self.media.runs.as_slice()
    }
}

/// The S elements of a SegmentTimeline (ISO/IEC 23009-1, 5.3.9.6), laid out once for all Representations that have it,
/// whatever their timescales, their `@presentationTimeOffset` and the Period's end. The `Runs` of each of them
/// share it, without a copy.
///
/// In a contract it is what was laid out, and `LaysOut` relates it to S elements.
#[derive(Drop)]
pub struct SharedTimeline {
    laid: Rc<LaidTimeline>,
}

impl Model for SharedTimeline {
    ghost use Rattle.timeline.specs.declared.shared_timeline.LaidTimeline.{LaidTimeline};

    ghost Value = { LaidTimeline };

    ghost use Rattle.timeline.specs.MediaTimelines.{IsLaidTimeline};

    ghost view = { λ t. t.laid.value };

    ghost invariant = { λ t. IsLaidTimeline t.laid.value };
}

impl SharedTimeline {
    ghost use Rattle.timeline.specs.declared.entry.End.{End};
    ghost use Rattle.timeline.specs.Limits.{breaks_limits};
    ghost use Rattle.timeline.specs.Reaches.{IsSoFar, IsTheirFault};
    ghost use Rattle.timeline.specs.MediaTimelines.{IsLaidTimeline, LaysOut, expansion_of_laid};

    /// Lays out S elements.
    pub fn of(alloc: Global, entries: &[SEntry]) -> Result<SharedTimeline, NoMemory>
        ensures { IfOk result (LaysOut entries.now) }
    {
        let no_time = have_no_time(entries);
        let media = MediaRuns::of(alloc, entries)?;
        let mut rest = SList::new(alloc);
        rest.extend(&entries[media.runs.as_slice().len()..])?;
        let laid = LaidTimeline {
            media,
            rest,
            no_time,
        };
        let laid = Rc::new(alloc, laid)?;
        Ok(SharedTimeline { laid })
    }

    /// The S elements after the runs that were laid out.
    pub(crate) fn rest(&self) -> &[SEntry]
        ensures rest { result.now ≡ self.now.rest }
        ensures laid { IsLaidTimeline self.now }
    {
        self.laid.rest.as_slice()
    }

    /// Whether some S has duration 0.
    pub(crate) fn has_no_time(&self) -> bool
        ensures { result ≡ self.now.no_time }
    {
        self.laid.no_time
    }

    /// The runs that were laid out, in a scale, and the remaining S elements; or the fault of a segment of these runs.
    pub(crate) fn begin(
        &self,
        alloc: Global,
        scale: Scale,
    ) -> Result<(RunsBuilder, &[SEntry]), TimeFault>
        requires lasting { self.now.no_time ≡ false }
        ensures { MatchResult result
            (λ parts. (end : End) → IsSoFar scale end (expansion_of_laid scale end self.now) parts.0 parts.1.now)
            (λ fault. (end : End) → IsTheirFault (breaks_limits scale.ticks scale.offset)
            (expansion_of_laid scale end self.now) fault) }
    {
        let limits = scale.limits(scale.offset);
        if self.laid.media.are_passed(limits) {
            return Err(TimeFault::Range);
        }
        let laid = self.laid.clone()?;
        Ok((RunsBuilder::upon(alloc, laid, limits), self.rest()))
    }
}
