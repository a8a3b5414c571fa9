// Whether each listed segment has a URL.
ghost use Rattle.std.specs.Prelude.{◌≡◌, ◌+◌, ◌^◌, ◌<◌, length, true, IfOk, OnOk};
ghost use Rattle.bridge_io.specs.Answer.{Gives};
ghost use Rattle.timeline.specs.FileNames.{AreInFolder};
ghost use Rattle.presentation.specs.Counting.{refusal, count_of_all, count_of_track};
ghost use Rattle.presentation.specs.Presented.{listed_at};
ghost use Rattle.presentation.specs.Printing.{IsCounted};
ghost use Rattle.presentation.specs.Verifying as spec;

use crate::{Longest, Presentation, PresentationFault, PrintedSegments, Spot};
use bridge_io::{Ledger, Sequence, Steps};
use exact_time::Digits;
use std::alloc::Global;
use timeline::ListFault;

impl Presentation {
    /// Visits each listed segment once, and returns the longest printed duration of each track. A fault of `count` comes
    /// first; then that of the first segment whose URL is rejected, track by track and section by section.
    pub fn verify<L: Ledger>(
        &self,
        alloc: Global,
        digits: Digits,
        steps: &mut Steps<L>,
    ) -> Result<Longest, PresentationFault>
        ensures longest { Gives (λ longest. longest) refusal result (spec.verified self.now (10 ^ digits)) }
        ensures tracks { IfOk result (λ longest. length longest ≡ length self.now.tracks) }
        ensures made { OnOk result (steps.new ≡ steps.old + count_of_all self.now) }
    {
        if let Err(fault) = self.count() {
            return Err(fault);
        }
        let mut durations = Sequence::new(alloc);
        for track in 0..self.tracks.len() {
            match self.verify_track(alloc, track, digits, steps) {
                Ok(duration) => durations.push(duration)?,
                Err(fault) => return Err(fault),
            }
        }
        Ok(Longest::new(durations))
    }

    /// The longest printed duration of a track.
    fn verify_track<L: Ledger>(
        &self,
        alloc: Global,
        track: usize,
        digits: Digits,
        steps: &mut Steps<L>,
    ) -> Result<u64, PresentationFault>
        requires track { track < length self.now.tracks }
        requires counted { spec.IsTrackCounted self.now track }
        ensures longest { Gives (λ n. n) refusal result (spec.verified_track self.now (10 ^ digits) track) }
        ensures made { OnOk result (steps.new ≡ steps.old + count_of_track self.now track) }
    {
        let mut longest: u64 = 0;
        for section in 0..self.sections.len() {
            match self.verify_section(alloc, section, track, digits, steps) {
                Ok(duration) => longest = longest.max(duration),
                Err(fault) => return Err(fault),
            }
        }
        Ok(longest)
    }

    /// The longest printed duration of a track in a section.
    fn verify_section<L: Ledger>(
        &self,
        alloc: Global,
        section: usize,
        track: usize,
        digits: Digits,
        steps: &mut Steps<L>,
    ) -> Result<u64, PresentationFault>
        requires section { section < length self.now.sections }
        requires track { track < length self.now.tracks }
        requires counted { IsCounted self.now section track }
        ensures longest { Gives (λ n. n) refusal result (spec.verified_at self.now (10 ^ digits) track section) }
        ensures made { OnOk result (steps.new ≡ steps.old + length (listed_at self.now section track)) }
    {
        let window = self.window(section);
        let listed = self
            .content(section, track)
            .runs
            .count(&window)
            .unwrap_or(0);
        let mut segments = self.segments(section, track, digits);
        let files = segments.are_files(alloc)?;
        segments.longest(alloc, files, listed, section, track, steps)
    }
}

impl PrintedSegments<'_> {
    /// Moves past all `listed` segments, and returns the longest printed duration. The URL of each is made where their
    /// names may be rejected.
    fn longest<L: Ledger>(
        &mut self,
        alloc: Global,
        files: bool,
        listed: u64,
        section: usize,
        track: usize,
        steps: &mut Steps<L>,
    ) -> Result<u64, PresentationFault>
        requires listed { listed ≡ length self.old.left }
        requires files { files ≡ true → AreInFolder self.old.timeline.names }
        ensures longest { Gives (λ n. n) refusal result (spec.verified_rest self.old section track) }
        ensures made { OnOk result (steps.new ≡ steps.old + length self.old.left) }
    {
        let mut longest = 0;
        for segment in 0..listed {
            match self.step(alloc, files, steps) {
                Ok(Some(duration)) => longest = longest.max(duration),
                Ok(None) => return Ok(longest),
                Err(fault) => return Err(fault_at(fault, section, track, segment)),
            }
        }
        Ok(longest)
    }
}

/// The fault of a segment that has no URL, or for which memory runs out.
fn fault_at(fault: ListFault, section: usize, track: usize, segment: u64) -> PresentationFault
    ensures { result ≡ spec.fault_at section track segment fault }
{
    match fault {
        ListFault::Memory => PresentationFault::Memory,
        ListFault::Url(fault) => {
            let spot = Spot::Segment {
                section,
                track,
                segment,
            };
            PresentationFault::Url(fault, spot)
        }
    }
}
