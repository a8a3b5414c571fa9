// The new segments of a presentation, made track by track.
ghost use Rattle.std.specs.Prelude.{◌≡◌, ◌+◌, ◌^◌, ◌<◌, [], length, map, IfOk, MatchResult};
ghost use Rattle.iso_time.specs.Instant.{IsReadable, IsWritable};
ghost use Rattle.exact_time.specs.Tick.{time_of};
ghost use Rattle.presentation.specs.Presented.{start_of, window_of};
ghost use Rattle.presentation.specs.Verifying.{fault_at};
ghost use Rattle.live_judge.specs.Faults.{of_presentation};
ghost use Rattle.live_judge.specs.Shown.{track_shown};
ghost use Rattle.live_meaning.specs.Histories.{Common};
ghost use Rattle.live_meaning.specs.Segments.{whole_nanos};
ghost use Rattle.live_session.specs.Made.{all_made, date_of, kept_as, made_kept};
ghost use Rattle.live_session.specs.Making as spec;
ghost use Rattle.live_session.specs.Paced.{IsDatable};
ghost use Rattle.live_session.specs.New.{CanMake, new_all, new_faults_in, new_faults_of};
ghost use Rattle.live_session.specs.New.{new_in, numbers_of, shown_by, track_at};

use crate::kept::last_kept;
use crate::made::{Made, MadeTrack};
use crate::new_segments::{NewSegments, begin_at};
use bridge_io::{Ledger, Steps};
use exact_time::{Digits, Nanos, Tick};
use hls_writer::MediaItem;
use iso_time::Instant;
use live_judge::{Fact, LastKept, LiveTrack};
use presentation::{
    Behind, Presentation, PresentationFault, Spot, presentations_mean_what_they_list,
};
use std::alloc::Global;
use timeline::{ListFault, Segment, Window};
use url_parts::Part;

/// Makes the new segments of a presentation at a time.
#[derive(Drop)]
pub(crate) struct Maker<'a> {
    pub(crate) alloc: Global,
    pub(crate) presentation: &'a Presentation,
    pub(crate) now: Instant,
    pub(crate) digits: Digits,
    /// The index of its first Period. The others have the next ones.
    pub(crate) place: usize,
    /// How many resets there were.
    pub(crate) resets: u64,
    pub(crate) availability_start: Instant,
}

/// The new segments of a track in a section.
#[derive(Drop)]
struct Section<'a> {
    segments: NewSegments<'a>,
    /// How many listed ones aren't new.
    before: u64,
    /// How many are new.
    count: u64,
}

impl<'a> Maker<'a> {
    /// The new segments of all tracks, or the fault of the first one without a URL.
    #[tactic(auto, using(crate::proofs::TrackMaking::no_track_yet))]
    pub(crate) fn make_all<L: Ledger>(
        &self,
        tracks: &[LiveTrack],
        steps: &mut Steps<L>,
    ) -> Result<Vec<MadeTrack>, PresentationFault>
        requires can { CanMake self.now }
        requires tracks { spec.AreMakeable self.now tracks.now }
        requires many { length tracks.now ≡ length self.now.presentation.now.tracks }
        ensures many { IfOk result (λ made. length made.items ≡ length tracks.now) }
        ensures made { (c : Common) → spec.IsMakerFor c self.entry.now → MatchResult result
            (λ made. spec.AreMade c (map track_shown tracks.now) made.items steps.old steps.new)
            (λ fault. spec.AreUnmade c (map track_shown tracks.now) (of_presentation fault) steps.old steps.new) }
    {
        let mut all = Vec::new(self.alloc);
        for track in 0..tracks.len() {
            match self.make_track(track, &tracks[track], steps) {
                Ok(segments) => all.push(MadeTrack { segments })?,
                Err(fault) => return Err(fault),
            }
        }
        Ok(all)
    }

    /// The new segments of a track.
    fn make_track<L: Ledger>(
        &self,
        track: usize,
        kept: &LiveTrack,
        steps: &mut Steps<L>,
    ) -> Result<Vec<Made>, PresentationFault>
        requires can { CanMake self.now }
        requires track { track < length self.now.presentation.now.tracks }
        requires kept { spec.IsMakeable self.now track kept.now }
        ensures { let p = shown_by self.entry.now in let k = self.entry.now.place in let shown = track_shown kept.now in
            let new = new_all (numbers_of self.entry.now) p k shown track in
            MatchResult result
            (λ made. spec.IsMadeBehind (10 ^ self.entry.now.digits) shown.last new (new_faults_of p k shown track) []
            (all_made made.items) steps.old steps.new)
            (λ fault. spec.IsNotMade (new_faults_of p k shown track) (length new) fault steps.old steps.new) }
    {
        let last = last_kept(kept);
        let mut made = Vec::new(self.alloc);
        for section in self.first_section(last)..self.presentation.sections().len() {
            match self.make_section(section, track, last, &mut made, steps) {
                Ok(()) => {}
                Err(fault) => return Err(fault),
            }
        }
        Ok(made)
    }

    /// The section whose Period contains the last segment, or one before the first new one.
    fn first_section(&self, last: Option<LastKept>) -> usize
        ensures { result ≡ spec.first_section self.entry.now.place last }
    {
        match last {
            Some(last) => last.place.saturating_sub(self.place),
            None => 0,
        }
    }

    /// Adds the new segments of a track in a section to those that were made before it.
    fn make_section<L: Ledger>(
        &self,
        section: usize,
        track: usize,
        last: Option<LastKept>,
        made: &mut Vec<Made>,
        steps: &mut Steps<L>,
    ) -> Result<(), PresentationFault>
        requires can { CanMake self.now }
        requires section { section < length self.now.presentation.now.sections }
        requires track { track < length self.now.presentation.now.tracks }
        requires stands { spec.IsSectionMakeable self.now section track last (all_made made.old.items) }
        ensures { let p = shown_by self.entry.now in let k = self.entry.now.place in
            let new = new_in (numbers_of self.entry.now) p k (track_at last) track section in
            MatchResult result
            (λ _. spec.IsMadeBehind (10 ^ self.entry.now.digits) (track_at last).last new (new_faults_in p k (track_at last) track section)
            (all_made made.old.items) (all_made made.new.items) steps.old steps.new)
            (λ fault. spec.IsNotMade (new_faults_in p k (track_at last) track section) (length new) fault steps.old steps.new) }
    {
        presentations_mean_what_they_list();
        let map = self.presentation.initialization(section, track);
        let Section {
            mut segments,
            before,
            count,
        } = self.section(section, track, last);
        for k in 0..count {
            match self.make(section, map, &mut segments, steps) {
                Ok(Some(next)) => made.push(next)?,
                Ok(None) => return Ok(()),
                Err(fault) => return Err(fault_of(fault, section, track, before + k)),
            }
        }
        Ok(())
    }

    /// What is new of a track in a section.
    fn section(&self, section: usize, track: usize, last: Option<LastKept>) -> Section<'a>
        requires can { CanMake self.now }
        requires section { section < length self.now.presentation.now.sections }
        requires track { track < length self.now.presentation.now.tracks }
        requires goes_on { spec.GoesOnIn self.now section track last }
        ensures section { spec.IsSection self.entry.now section track last result }
        ensures fits { result.before + result.count < 2 ^ 64 }
    {
        let presentation = self.presentation;
        let runs = presentation.runs(section, track);
        let window = self.window(section);
        let end = end_in(last, self.place + section);
        let behind = behind_in(last, self.number(section));
        let count = runs.count_from(&begin_at(runs, &window, end), &window);
        Section {
            segments: NewSegments::of(runs, &window, end, behind, self.digits),
            before: runs.count(&window).unwrap_or(0).saturating_sub(count),
            count,
        }
    }

    /// The window of the listed segments in a section.
    fn window(&self, section: usize) -> Window
        requires { section < length self.now.presentation.now.sections }
        ensures { result ≡ window_of (shown_by self.entry.now) section }
    {
        self.presentation
            .window_from(self.start_of(section), self.now)
    }

    /// When a section's Period begins.
    fn start_of(&self, section: usize) -> Nanos
        requires { section < length self.now.presentation.now.sections }
        ensures { result ≡ start_of (shown_by self.entry.now) section }
    {
        self.presentation.sections().as_slice()[section].start
    }

    /// The number of a section.
    fn number(&self, section: usize) -> u64
        requires can { CanMake self.now }
        requires section { section < length self.now.presentation.now.sections }
        ensures { result ≡ self.entry.now.place + section + self.entry.now.resets }
    {
        (self.place + section) as u64 + self.resets
    }

    /// Makes the next segment of a section, and counts it.
    fn make<L: Ledger>(
        &self,
        section: usize,
        map: &Part,
        segments: &mut NewSegments<'_>,
        steps: &mut Steps<L>,
    ) -> Result<Option<Made>, ListFault>
        requires can { CanMake self.now }
        requires section { section < length self.now.presentation.now.sections }
        ensures { spec.IsNextMade self.entry.now section map.now segments.old segments.new steps.old steps.new result }
    {
        let map = map.copy(self.alloc)?;
        match segments.next(self.alloc, steps)? {
            Some((segment, duration)) => Ok(Some(self.made(section, segment, duration, map))),
            None => Ok(None),
        }
    }

    /// A segment with what else is stored of it.
    fn made(&self, section: usize, segment: Segment, duration: u64, map: Part) -> Made
        requires can { CanMake self.now }
        requires section { section < length self.now.presentation.now.sections }
        requires datable { IsDatable segment.times }
        ensures kept { made_kept result ≡ kept_as (numbers_of self.entry.now) (self.entry.now.place + section)
            (start_of (shown_by self.entry.now) section) map segment duration }
        ensures writable { IsWritable result.item.date }
    {
        let span = segment.span();
        let period_start = self.start_of(section);
        let Part { address, range } = segment.into_part();
        Made {
            item: MediaItem {
                address,
                range,
                map,
                duration,
                section: self.number(section),
                date: date_of(self.availability_start, period_start, span.start),
            },
            fact: Fact {
                span,
                place: self.place + section,
                period_start,
            },
        }
    }
}

/// When the last segment ends, where it is in the Period with this index.
fn end_in(last: Option<LastKept>, place: usize) -> Option<Tick>
    ensures { result ≡ spec.end_in place last }
{
    let last = last?;
    (last.place == place).then_some(last.end)
}

/// The last segment, where it is in the section of this number.
fn behind_in(last: Option<LastKept>, number: u64) -> Option<Behind>
    ensures { result ≡ spec.behind_in number last }
{
    let last = last?;
    let behind = Behind {
        first: last.begin,
        former: last.end,
    };
    (last.section == number).then_some(behind)
}

/// The date of a segment, by its start in its Period.
#[tactic(auto, using(crate::proofs::Paced::dated))]
fn date_of(availability_start: Instant, period_start: Nanos, start: Tick) -> Instant
    requires readable { IsReadable availability_start }
    requires near { spec.IsNear (time_of start) }
    ensures date { result ≡ date_of availability_start period_start (time_of start) }
    ensures writable { IsWritable result }
{
    let nanos = whole_nanos(start);
    Instant(availability_start.0 + i128::from(period_start.0) + nanos)
}

/// A time in whole nanoseconds, rounded down.
fn whole_nanos(time: Tick) -> i128
    ensures { result ≡ whole_nanos (time_of time) }
{
    (time.n * 1_000_000_000).div_euclid(i128::from(time.scale))
}

/// The fault of a segment that has no URL, or for which memory runs out.
fn fault_of(fault: ListFault, section: usize, track: usize, segment: u64) -> PresentationFault
    ensures { result ≡ fault_at section track segment fault }
{
    match fault {
        ListFault::Memory => PresentationFault::Memory,
        ListFault::Url(fault) => {
            let spot = Spot::Segment {
                section,
                track,
                segment,
            };
            PresentationFault::Url(fault, spot)
        }
    }
}
