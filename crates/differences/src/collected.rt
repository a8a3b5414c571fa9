// The differences that were found so far.
ghost use Rattle.std.specs.Prelude.{◌≡◌, OnOk};
ghost use Rattle.differences.specs.Collecting as spec;
ghost use Rattle.differences.specs.Deviating.{number_deviations, unless};

use crate::{Deviation, How};
use bridge_io::{NoMemory, Sequence};
use meaning::Difference;
use std::alloc::Global;

/// The differences that were found so far: the first ones, and how many.
#[derive(Drop)]
pub(crate) struct Collected {
    pub(crate) first: Sequence<Deviation>,
    /// How many of them are kept at most.
    pub(crate) most: usize,
    /// How many there are, at most `u64::MAX`.
    pub(crate) count: u64,
    /// The greatest difference of two ends of the track so far, in nanoseconds.
    pub(crate) greatest: u64,
}

impl Collected {
    pub(crate) fn new(alloc: Global, most: usize) -> Collected
        ensures { result ≡ spec.none_yet most }
    {
        Collected {
            first: Sequence::new(alloc),
            most,
            count: 0,
            greatest: 0,
        }
    }

    pub(crate) fn add(&mut self, found: Deviation) -> Result<(), NoMemory>
        ensures { OnOk result (self.new ≡ spec.added self.old found) }
    {
        if self.first.len() < self.most {
            self.first.push(found)?;
        }
        self.count = self.count.saturating_add(1);
        Ok(())
    }

    pub(crate) fn add_unless(&mut self, same: bool, found: Deviation) -> Result<(), NoMemory>
        ensures { OnOk result (self.new ≡ spec.all_added self.old (unless same found)) }
    {
        if same {
            return Ok(());
        }
        self.add(found)
    }

    /// Adds that two numbers differ.
    pub(crate) fn add_counts(
        &mut self,
        at: Difference,
        mpd: usize,
        playlists: usize,
    ) -> Result<(), NoMemory>
        ensures { OnOk result (self.new ≡ spec.all_added self.old (number_deviations at mpd playlists)) }
    {
        let how = How::Counts { mpd, playlists };
        self.add_unless(mpd == playlists, Deviation { at, how })
    }

    /// Notes the difference of two ends.
    pub(crate) fn widen(&mut self, size: u64)
        ensures { self.new ≡ spec.widened self.old size }
    {
        self.greatest = self.greatest.max(size);
    }

    /// The greatest difference of two ends of a track, after which the next track begins.
    pub(crate) fn take_greatest(&mut self) -> u64
        ensures greatest { result ≡ self.old.greatest }
        ensures next { self.new ≡ spec.of_next_track self.old }
    {
        let greatest = self.greatest;
        self.greatest = 0;
        greatest
    }
}
