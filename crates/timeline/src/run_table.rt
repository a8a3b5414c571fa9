// The runs of a Representation.
use crate::Scale;
use crate::run::Run;
use crate::run_slice::RunSlice;
use crate::shared_timeline::LaidTimeline;
use std::rc::Rc;

/// The runs of a Representation: those of a shared timeline, and after them its own.
#[derive(Drop)]
pub struct RunTable {
    pub laid: Option<Rc<LaidTimeline>>,
    pub own: Vec<Run>,
}

impl RunTable {
    ghost use Rattle.std.specs.Prelude.{◌≡◌};
    ghost use Rattle.timeline.specs.RunTables.{runs_at, slice_runs};

    /// The runs in a scale, relative to the media time of the Period's start.
    pub fn as_slice(&self, scale: Scale, origin: u64) -> RunSlice<'_>
        ensures { slice_runs result ≡ runs_at scale.ticks origin self.now }
    {
        let limits = scale.limits(origin);
        match &self.laid {
            None => RunSlice::of(&[], limits, self.own.as_slice()),
            Some(laid) => RunSlice::of(laid.runs(), limits, self.own.as_slice()),
        }
    }
}
