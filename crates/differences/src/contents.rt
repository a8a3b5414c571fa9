// The contents of the tracks in the sections.
ghost use Rattle.meaning.specs.declared.difference.Aspect.TheVariants as aspect;
ghost use Rattle.std.specs.Prelude.{◌≡◌, ◌<◌, ◌==◌, length, IfOk, OnOk};
ghost use Rattle.meaning.specs.Differences.{in_all, in_entry};
ghost use Rattle.presentation.specs.Meanings.{entry_at};
ghost use Rattle.differences.specs.Collecting.{all_added};
ghost use Rattle.differences.specs.Contents as spec;
ghost use Rattle.differences.specs.Deviating.{deviation, unless};
ghost use Rattle.differences.specs.Segments.{entry_noted};

use crate::collected::Collected;
use crate::heads::add_heads;
use crate::segments::{Listed, add_entry};
use crate::side::Side;
use crate::times::Tolerance;
use crate::{Deviation, How};
use bridge_io::{Ledger, NoMemory, Sequence, Steps};
use comparison::Spot;
use meaning::{Aspect, Difference};
use std::alloc::Global;

/// The presentation of an MPD, that of playlists, and how far times may be apart.
#[derive(Drop)]
pub(crate) struct Both<'a> {
    pub(crate) mpd: Side<'a>,
    pub(crate) playlists: Side<'a>,
    pub(crate) tolerance: Tolerance,
}

impl Both<'_> {
    /// Adds what differs of the numbers of sections and of tracks, and of the tracks' kinds and languages.
    pub(crate) fn add_heads(&self, found: &mut Collected) -> Result<(), NoMemory>
        ensures { OnOk result (found.new ≡ spec.heads_noted self.now found.old) }
    {
        let (mpd, playlists) = (&self.mpd, &self.playlists);
        let sections = in_all(Aspect::Sections);
        found.add_counts(sections, mpd.sections.len(), playlists.sections.len())?;
        let mine = mpd.presentation.tracks().as_slice();
        let theirs = playlists.presentation.tracks().as_slice();
        found.add_counts(in_all(Aspect::Tracks), mine.len(), theirs.len())?;
        add_heads(mine, theirs, found)
    }

    /// Adds what differs of the contents of the tracks that both have, and returns the greatest difference of the ends of
    /// each.
    pub(crate) fn add_tracks<L: Ledger>(
        &self,
        alloc: Global,
        found: &mut Collected,
        steps: &mut Steps<L>,
    ) -> Result<Sequence<u64>, NoMemory>
        requires sides { spec.AreSides self.now }
        requires first { found.old.greatest ≡ 0 }
        ensures greatest { IfOk result (λ greatest. greatest ≡ spec.greatest_of self.now 0 (spec.tracks_of_both self.now)) }
        ensures found { OnOk result (found.new ≡ spec.contents_noted self.now 0 (spec.tracks_of_both self.now) found.old) }
    {
        let mine = self.mpd.presentation.tracks().len();
        let theirs = self.playlists.presentation.tracks().len();
        let mut greatest = Sequence::new(alloc);
        for track in 0..mine.min(theirs) {
            self.add_track(alloc, track, found, steps)?;
            greatest.push(found.take_greatest())?;
        }
        Ok(greatest)
    }

    /// Adds what differs of a track, section by section.
    fn add_track<L: Ledger>(
        &self,
        alloc: Global,
        track: usize,
        found: &mut Collected,
        steps: &mut Steps<L>,
    ) -> Result<(), NoMemory>
        requires sides { spec.AreSides self.now }
        requires mine { track < length self.now.mpd.presentation.now.tracks }
        requires theirs { track < length self.now.playlists.presentation.now.tracks }
        ensures { OnOk result (found.new ≡ spec.track_noted self.now track 0 found.old) }
    {
        let sections = self.mpd.sections.len().max(self.playlists.sections.len());
        for place in 0..sections {
            self.add_section(alloc, place, track, found, steps)?;
        }
        Ok(())
    }

    /// Adds what differs of a track in a section, which one of them may not have.
    fn add_section<L: Ledger>(
        &self,
        alloc: Global,
        place: usize,
        track: usize,
        found: &mut Collected,
        steps: &mut Steps<L>,
    ) -> Result<(), NoMemory>
        requires sides { spec.AreSides self.now }
        requires mine { track < length self.now.mpd.presentation.now.tracks }
        requires theirs { track < length self.now.playlists.presentation.now.tracks }
        ensures { OnOk result (found.new ≡ spec.section_noted self.now track place found.old) }
    {
        let spot = Spot {
            section: place,
            track,
            segment: 0,
        };
        match (self.mpd.section(place), self.playlists.section(place)) {
            (Some(mine), Some(theirs)) => self.add_both(alloc, spot, mine, theirs, found, steps),
            (Some(mine), None) => add_only(spot, self.mpd.listed(mine, track), How::Missing, found),
            (None, Some(theirs)) => add_only(
                spot,
                self.playlists.listed(theirs, track),
                How::Extra,
                found,
            ),
            (None, None) => Ok(()),
        }
    }

    /// Adds what differs of a track in a section of each.
    fn add_both<L: Ledger>(
        &self,
        alloc: Global,
        spot: Spot,
        mine: usize,
        theirs: usize,
        found: &mut Collected,
        steps: &mut Steps<L>,
    ) -> Result<(), NoMemory>
        requires sides { spec.AreSides self.now }
        requires first { spot.segment ≡ 0 }
        requires mine { mine < length self.now.mpd.presentation.now.sections }
        requires my_track { spot.track < length self.now.mpd.presentation.now.tracks }
        requires theirs { theirs < length self.now.playlists.presentation.now.sections }
        requires their_track { spot.track < length self.now.playlists.presentation.now.tracks }
        ensures { OnOk result (found.new ≡ entry_noted self.now.tolerance spot found.old
            (entry_at self.now.mpd.presentation.now mine spot.track) (entry_at self.now.playlists.presentation.now theirs spot.track)) }
    {
        let listed = Listed {
            mine: self.mpd.listed(mine, spot.track),
            theirs: self.playlists.listed(theirs, spot.track),
        };
        let mine = self.mpd.entry(mine, spot.track);
        let theirs = self.playlists.entry(theirs, spot.track);
        add_entry(
            alloc,
            spot,
            self.tolerance,
            mine,
            theirs,
            listed,
            found,
            steps,
        )
    }
}

/// Adds that only one of them has content in a section, where it lists segments there.
fn add_only(spot: Spot, listed: usize, how: How, found: &mut Collected) -> Result<(), NoMemory>
    ensures { OnOk result (found.new ≡ all_added found.old (unless (listed == 0)
        (deviation (in_entry spot.track spot.section spot.segment aspect.Initialization) how))) }
{
    let only = Deviation::found_at(spot, Aspect::Initialization, how);
    found.add_unless(listed == 0, only)
}

/// A difference of the whole.
fn in_all(what: Aspect) -> Difference
    ensures { result ≡ in_all what }
{
    Difference {
        what,
        section: 0,
        track: 0,
        segment: 0,
    }
}
