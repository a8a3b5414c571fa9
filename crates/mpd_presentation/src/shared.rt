// What is shared by many Representations.
ghost use Rattle.std.specs.Prelude.{◌≡◌, IfOk, List, MatchOption, None, Some, option_and_then, slice_get};
ghost use Rattle.std.specs.Option.{option_copied};
ghost use Rattle.meaning.specs.Same.{Pairwise};
ghost use Rattle.timeline.specs.MediaTimelines.{LaysOut};
ghost use Rattle.mpd_entries.specs.declared.entry.SEntry.{SEntry};
ghost use Rattle.mpd_presentation.specs.Shared.{IsShared};

use bridge_io::NoMemory;
use mpd_rules::Tables;
use std::alloc::Global;
use timeline::SharedTimeline;

/// The timelines of an MPD, each laid out once for all Representations that have it.
#[derive(Drop)]
pub(crate) struct Shared {
    pub(crate) timelines: Vec<SharedTimeline>,
}

impl Shared {
    pub(crate) fn of(alloc: Global, tables: &Tables) -> Result<Shared, NoMemory>
        ensures { IfOk result (IsShared tables.now) }
    {
        let mut timelines = Vec::new(alloc);
        let lists = tables.timelines();
        for entries in lists {
            timelines.push(SharedTimeline::of(alloc, entries.as_slice())?)?;
        }
        Ok(Shared { timelines })
    }

    /// The timeline of a key.
    pub(crate) fn timeline(&self, key: Option<usize>) -> Option<&SharedTimeline>
        ensures { (timelines : List (List SEntry)) → Pairwise LaysOut timelines self.now.timelines.items
            → MatchOption result (option_and_then (slice_get timelines) key ≡ None)
            (λ laid. (entries : List SEntry) × (option_and_then (slice_get timelines) key ≡ Some entries) × LaysOut entries laid.now) }
    {
        match key {
            Some(key) => self.timeline_at(key),
            None => None,
        }
    }

    fn timeline_at(&self, key: usize) -> Option<&SharedTimeline>
        ensures { option_copied result ≡ slice_get self.now.timelines.items key }
    {
        self.timelines.get(key)
    }
}
