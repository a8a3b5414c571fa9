// The contents of the tracks in the sections.
ghost use Rattle.std.specs.Prelude.{◌≡◌, ◌^◌, ◌<◌, length, IfOk};
ghost use Rattle.presentation.specs.Presented.{listed_at};
ghost use Rattle.presentation.specs.Meanings.{entry_at};
ghost use Rattle.comparison.specs.Comparing as spec;

use crate::segments::{Entry, entry_difference};
use crate::spot::Spot;
use crate::walk::Walk;
use bridge_io::{Ledger, NoMemory, Steps};
use exact_time::Digits;
use meaning::Difference;
use presentation::Presentation;
use std::alloc::Global;

/// The presentation of an MPD, that of playlists, and the decimals that the latter's times may be rounded down to.
#[derive(Clone, Copy)]
pub(crate) struct Both<'a> {
    pub(crate) mpd: &'a Presentation,
    pub(crate) playlists: &'a Presentation,
    pub(crate) digits: Digits,
}

impl Both<'_> {
    /// The first difference of the contents of the tracks, where both have as many sections and tracks.
    pub(crate) fn difference<L: Ledger>(
        &self,
        alloc: Global,
        steps: &mut Steps<L>,
    ) -> Result<Option<Difference>, NoMemory>
        requires comparable { spec.AreComparable (10 ^ self.now.digits) self.now.mpd.now self.now.playlists.now }
        requires tracks { length self.now.mpd.now.tracks ≡ length self.now.playlists.now.tracks }
        requires sections { 0 < length self.now.mpd.now.tracks → length self.now.mpd.now.sections ≡ length self.now.playlists.now.sections }
        ensures { IfOk result (λ found. found ≡ spec.contents_difference (10 ^ self.now.digits) self.now.mpd.now self.now.playlists.now) }
    {
        for track in 0..self.mpd.tracks().len() {
            if let Some(found) = self.track_difference(alloc, track, steps)? {
                return Ok(Some(found));
            }
        }
        Ok(None)
    }

    /// The same for a track.
    fn track_difference<L: Ledger>(
        &self,
        alloc: Global,
        track: usize,
        steps: &mut Steps<L>,
    ) -> Result<Option<Difference>, NoMemory>
        requires comparable { spec.AreComparable (10 ^ self.now.digits) self.now.mpd.now self.now.playlists.now }
        requires mine { track < length self.now.mpd.now.tracks }
        requires theirs { track < length self.now.playlists.now.tracks }
        requires sections { length self.now.mpd.now.sections ≡ length self.now.playlists.now.sections }
        ensures { IfOk result (λ found. found ≡ spec.difference_of (10 ^ self.now.digits) self.now.mpd.now self.now.playlists.now track) }
    {
        for section in 0..self.mpd.sections().len() {
            if let Some(found) = self.section_difference(alloc, section, track, steps)? {
                return Ok(Some(found));
            }
        }
        Ok(None)
    }

    /// The same for a track in a section.
    fn section_difference<L: Ledger>(
        &self,
        alloc: Global,
        section: usize,
        track: usize,
        steps: &mut Steps<L>,
    ) -> Result<Option<Difference>, NoMemory>
        requires comparable { spec.AreComparable (10 ^ self.now.digits) self.now.mpd.now self.now.playlists.now }
        requires mine { (section < length self.now.mpd.now.sections) × (track < length self.now.mpd.now.tracks) }
        requires theirs { (section < length self.now.playlists.now.sections) × (track < length self.now.playlists.now.tracks) }
        ensures { IfOk result (λ found. found ≡ spec.difference_at
            (10 ^ self.now.digits) self.now.mpd.now self.now.playlists.now track section) }
    {
        let spot = Spot {
            section,
            track,
            segment: 0,
        };
        let mine = self.entry_of_mpd(section, track);
        let theirs = self.entry_of_playlists(section, track);
        let listed = self.listed(section, track);
        entry_difference(alloc, spot, self.digits, mine, theirs, listed, steps)
    }

    fn entry_of_mpd(&self, section: usize, track: usize) -> Entry<'_>
        requires comparable { spec.AreComparable (10 ^ self.now.digits) self.now.mpd.now self.now.playlists.now }
        requires section { section < length self.now.mpd.now.sections }
        requires track { track < length self.now.mpd.now.tracks }
        ensures { spec.entry_made result.initialization.now result.segments ≡ entry_at self.now.mpd.now section track }
    {
        Entry {
            initialization: self.mpd.initialization(section, track),
            segments: Walk::over(self.mpd.segments(section, track, self.digits)),
        }
    }

    fn entry_of_playlists(&self, section: usize, track: usize) -> Entry<'_>
        requires comparable { spec.AreComparable (10 ^ self.now.digits) self.now.mpd.now self.now.playlists.now }
        requires section { section < length self.now.playlists.now.sections }
        requires track { track < length self.now.playlists.now.tracks }
        ensures entry { spec.entry_made result.initialization.now result.segments ≡ entry_at self.now.playlists.now section track }
        ensures listed { length result.segments ≡ length (listed_at self.now.playlists.now section track) }
    {
        Entry {
            initialization: self.playlists.initialization(section, track),
            segments: Walk::over(self.playlists.segments(section, track, self.digits)),
        }
    }

    /// How many segments the playlist has in a section.
    fn listed(&self, section: usize, track: usize) -> usize
        requires comparable { spec.AreComparable (10 ^ self.now.digits) self.now.mpd.now self.now.playlists.now }
        requires section { section < length self.now.playlists.now.sections }
        requires track { track < length self.now.playlists.now.tracks }
        ensures { result ≡ length (listed_at self.now.playlists.now section track) }
    {
        let window = self.playlists.window(section);
        self.playlists
            .runs(section, track)
            .count(&window)
            .unwrap_or(0) as usize
    }
}
