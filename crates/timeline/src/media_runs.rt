// Runs of S elements in media time.
ghost use Rattle.std.specs.Prelude.{◌≡◌, ◌≤◌, ◌<◌, ◌^◌, [], ◌*◌, ◌+◌, false, IfOk, OnOk, MatchOption};

use crate::limits::Limits;
use crate::media_run::MediaRun;
use crate::timelines::{Reach, reach_of};
use crate::{End, SEntry, Scale};
use bridge_io::NoMemory;
use std::alloc::Global;

/// The runs of S elements in media time so far.
#[derive(Drop)]
pub struct MediaRuns {
    pub runs: Vec<MediaRun>,
    /// How many segments they have.
    pub total: u64,
    /// The media time at which the last segment ends.
    pub former: u64,
    /// How long the longest segment lasts, in media ticks.
    pub longest: u64,
}

impl MediaRuns {
    ghost use Rattle.timeline.specs.MediaTimelines.{IsMedia, IsNextRun, IsPushed, are_passed};

    fn new(alloc: Global) -> MediaRuns
        ensures none { result.runs.items ≡ [] }
        ensures total { result.total ≡ 0 }
        ensures former { result.former ≡ 0 }
        ensures longest { result.longest ≡ 0 }
    {
        MediaRuns {
            runs: Vec::new(alloc),
            total: 0,
            former: 0,
            longest: 0,
        }
    }

    /// The runs of the leading S elements, up to one that has no run common to all timescales.
    pub fn of(alloc: Global, entries: &[SEntry]) -> Result<MediaRuns, NoMemory>
        ensures { IfOk result (λ media. IsMedia entries.now media) }
    {
        let mut media = MediaRuns::new(alloc);
        let mut rest = entries;
        while let Some((entry, later)) = rest.split_first() {
            let Some(next) = media.next_run(entry, later) else {
                return Ok(media);
            };
            media.push(next)?;
            rest = later;
        }
        Ok(media)
    }

    /// Whether the longest segment is too long, or the last one too late.
    pub fn are_passed(&self, limits: Limits) -> bool
        ensures { result ≡ are_passed limits self.now.longest self.now.former }
    {
        limits.are_passed(self.longest, self.former)
    }

    /// The run of an S, followed by others, where it has one common to all timescales.
    fn next_run(&self, entry: &SEntry, later: &[SEntry]) -> Option<MediaRun>
        requires room { self.now.total ≤ self.now.former }
        requires near { self.now.former < 2 ^ 63 }
        ensures { MatchOption result (0 ≤ 0) (λ run. IsNextRun self.now entry.now later.now run) }
    {
        if entry.d == 0 {
            return None;
        }
        let start = entry.t.unwrap_or(self.former);
        let Reach::Count(count) = reach_of(
            entry,
            u128::from(start),
            later,
            &End::Unbounded,
            any_scale(),
        ) else {
            return None;
        };
        let lasts = count.checked_mul(u128::from(entry.d))?;
        if self.is_apart(start, entry.d) || ends_late(start, lasts) {
            return None;
        }
        Some(MediaRun {
            start,
            step: entry.d,
            count: count as u64,
            before: self.total,
        })
    }

    /// Whether a segment begins more than half its duration before or after the end of the last one.
    fn is_apart(&self, start: u64, step: u64) -> bool
        requires { self.now.former < 2 ^ 63 }
        ensures { result ≡ false → 0 < self.now.total → (2 * self.now.former ≤ 2 * start + step)
            × (2 * start ≤ 2 * self.now.former + step) }
    {
        let gap = u128::from(start.abs_diff(self.former));
        self.total > 0 && u128::from(step) < 2 * gap
    }

    /// Adds a run.
    fn push(&mut self, run: MediaRun) -> Result<(), NoMemory>
        requires room { self.old.total ≤ self.old.former }
        requires countable { self.old.total + run.count < 2 ^ 64 }
        requires near { run.start + run.count * run.step < 2 ^ 64 }
        ensures { OnOk result (IsPushed self.old run self.new) }
    {
        self.runs.push(run)?;
        self.total += run.count;
        self.former = run.start + run.count * run.step;
        self.longest = self.longest.max(run.step);
        Ok(())
    }
}

/// Whether segments from a start on end at 2^63 ticks or later.
fn ends_late(start: u64, lasts: u128) -> bool
    ensures { result ≡ false → start + lasts < 2 ^ 63 }
{
    u128::from(start).saturating_add(lasts) >= 1 << 63
}

/// Any timescale: the number of segments of an S depends on it only where the S continues to the Period's end.
fn any_scale() -> Scale {
    Scale {
        ticks: 1,
        offset: 0,
        start_number: 0,
    }
}
