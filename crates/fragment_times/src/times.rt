// The decode times of all segments of a presentation, by their files.
ghost use Rattle.std.specs.Prelude.{◌≡◌, ◌+◌, ◌*◌, ◌<◌, ◌^◌, All, IfOk, MatchResult, MatchOption, length};
ghost use Rattle.std.specs.Option.{ForSome};
ghost use Rattle.bridge_io.specs.Answer.{Gives};
ghost use Rattle.bridge_io.specs.Fault.{HasCause};
ghost use Rattle.timeline.specs.Listed.{IsDone, IsMade};
ghost use Rattle.presentation.specs.Laws.{HasAddress};
ghost use Rattle.presentation.specs.Listable.{AreListable};
ghost use Rattle.presentation.specs.Presented.{listed_at};
ghost use Rattle.fragment_times.specs.declared.fault.TimesFault.TheVariants.{Fault};
ghost use Rattle.fragment_times.specs.Origins.{first_of};
ghost use Rattle.fragment_times.specs.Refusals.{refusal};
ghost use Rattle.fragment_times.specs.Times as spec;

use crate::TimesFault;
use crate::listing::listing_at;
use crate::part::{part_scale, part_start};
use bridge_io::{Ledger, NoMemory, Sequence, Steps, Store};
use presentation::Presentation;
use std::alloc::Global;
use timeline::{ListFault, Listing, Segment};
use url_parts::Base;

/// The times of the files of a track in a section.
#[derive(Drop)]
pub struct SegmentTimes {
    /// The timescale: ticks per second, at least 1.
    pub scale: u32,
    /// When each listed segment begins, in ticks.
    pub starts: StartList,
}

impl SegmentTimes {
    /// When the first segment begins, in ticks; 0 without segments.
    pub fn first(&self) -> u64
        ensures { result ≡ first_of self.now }
    {
        self.starts.as_slice().first().copied().unwrap_or(0)
    }
}

/// Times in ticks, one for each segment, below 2^63.
pub type StartList = Sequence<u64>;

/// The times of all files: by section, then by track.
pub type TimesList = Sequence<SegmentTimes>;

/// The media times of a presentation's listed segments by their files: for each track in each section the timescale of its
/// init segment (ISO/IEC 14496-12, 8.4.2), and the decode time of each segment's first sample (8.8.12). `folder` is the URL of
/// the store's folder.
///
/// At most the first 1,048,576 bytes of a whole file are read, and of a byte range at most as many: 8,192, and then each time as
/// many as were read before, until the box that has the time ends within them. The store's files stay as they are.
///
/// The parts are read by section, then by track, the init segment first and then the segments in order. `OutsideBase` comes
/// before the faults of a file, which come in the order of [`FileFault`](crate::FileFault). `Fault` comes only where the
/// store's count of failed reads rose.
///
/// Requires that the presentation came from playlists, or from a static MPD and was verified.
#[tactic(auto, unfolding(crate::specs::Times::times_of))]
pub fn fragment_times<F: Store, L: Ledger>(
    alloc: Global,
    presentation: &Presentation,
    folder: &Base,
    store: &mut F,
    steps: &mut Steps<L>,
) -> Result<TimesList, TimesFault>
    requires { AreListable presentation.now }
    ensures times { ForSome (F.files store.old) (λ files.
        Gives (λ times. times) refusal result (spec.times_of folder.now files presentation.now)) }
    ensures filled { IfOk result (λ times. spec.FillPlaces presentation.now (length times)) }
    ensures scaled { IfOk result (λ times. All spec.IsScaled times) }
    ensures cause { HasCause Fault (F.read_faults store.old) (F.read_faults store.new) result }
    ensures files { F.files store.new ≡ F.files store.old }
    ensures writes { F.write_faults store.new ≡ F.write_faults store.old }
{
    let reading = Reading {
        presentation,
        folder,
    };
    let mut times = TimesList::new(alloc);
    for section in 0..presentation.sections().len() {
        times = reading.with_section(alloc, section, times, store, steps)?;
    }
    Ok(times)
}

/// A presentation whose files are being read, and the URL of the store's folder.
#[derive(Clone, Copy)]
struct Reading<'a> {
    presentation: &'a Presentation,
    folder: &'a Base,
}

impl Reading<'_> {
    /// Adds the times of the files of a section, track by track.
    fn with_section<F: Store, L: Ledger>(
        &self,
        alloc: Global,
        section: usize,
        former: TimesList,
        store: &mut F,
        steps: &mut Steps<L>,
    ) -> Result<TimesList, TimesFault>
        requires listable { AreListable self.now.presentation.now }
        requires section { section < length self.now.presentation.now.sections }
        requires scaled { All spec.IsScaled former }
        ensures times { ForSome (F.files store.old) (λ files. Gives (λ times. times) refusal result
            (spec.behind former (spec.section_times self.now.folder.now files self.now.presentation.now section))) }
        ensures filled { IfOk result (λ times. length times ≡ length former + length self.now.presentation.now.tracks) }
        ensures scaled { IfOk result (λ times. All spec.IsScaled times) }
        ensures cause { HasCause Fault (F.read_faults store.old) (F.read_faults store.new) result }
        ensures files { F.files store.new ≡ F.files store.old }
        ensures writes { F.write_faults store.new ≡ F.write_faults store.old }
    {
        let mut times = former;
        for track in 0..self.presentation.tracks().len() {
            let own = self.track_times(alloc, section, track, store, steps)?;
            times.push(own)?;
        }
        Ok(times)
    }

    /// The times of the files of a track in a section.
    #[tactic(auto, unfolding(crate::specs::Times::times_at))]
    fn track_times<F: Store, L: Ledger>(
        &self,
        alloc: Global,
        section: usize,
        track: usize,
        store: &mut F,
        steps: &mut Steps<L>,
    ) -> Result<SegmentTimes, TimesFault>
        requires listable { AreListable self.now.presentation.now }
        requires section { section < length self.now.presentation.now.sections }
        requires track { track < length self.now.presentation.now.tracks }
        ensures times { ForSome (F.files store.old) (λ files. Gives (λ times. times) refusal result
            (spec.times_at self.now.folder.now files self.now.presentation.now section track)) }
        ensures scaled { IfOk result spec.IsScaled }
        ensures cause { HasCause Fault (F.read_faults store.old) (F.read_faults store.new) result }
        ensures files { F.files store.new ≡ F.files store.old }
        ensures writes { F.write_faults store.new ≡ F.write_faults store.old }
    {
        let initialization = self.presentation.initialization(section, track);
        let scale = part_scale(alloc, self.folder, initialization, store)?.value;
        let listing = listing_at(self.presentation, section, track);
        let starts = self.starts(alloc, listing, store, steps)?;
        Ok(SegmentTimes { scale, starts })
    }

    /// The decode times of the remaining segments.
    fn starts<F: Store, L: Ledger>(
        &self,
        alloc: Global,
        mut listing: Listing<'_>,
        store: &mut F,
        steps: &mut Steps<L>,
    ) -> Result<StartList, TimesFault>
        requires { All (HasAddress listing.timeline) listing.left }
        ensures starts { ForSome (F.files store.old) (λ files. Gives (λ starts. starts) refusal result
            (spec.all_starts self.now.folder.now files (spec.parts_of listing.entry.timeline listing.entry.left))) }
        ensures cause { HasCause Fault (F.read_faults store.old) (F.read_faults store.new) result }
        ensures files { F.files store.new ≡ F.files store.old }
        ensures writes { F.write_faults store.new ≡ F.write_faults store.old }
    {
        let mut starts = StartList::new(alloc);
        while let Some(segment) = next_segment(alloc, &mut listing, steps)? {
            let part = segment.into_part();
            starts.push(part_start(alloc, self.folder, &part, store)?.value)?;
        }
        Ok(starts)
    }
}

/// Makes the next segment of those that all have URLs.
fn next_segment<L: Ledger>(
    alloc: Global,
    listing: &mut Listing<'_>,
    steps: &mut Steps<L>,
) -> Result<Option<Segment>, NoMemory>
    requires { All (HasAddress listing.old.timeline) listing.old.left }
    ensures { IfOk result (λ next. MatchOption next (IsDone listing.old listing.new) (λ made. IsMade listing.old made listing.new)) }
{
    match listing.next(alloc, steps) {
        Ok(next) => Ok(next),
        Err(ListFault::Memory) => Err(NoMemory),
        Err(ListFault::Url(_)) => unreachable!(),
    }
}
