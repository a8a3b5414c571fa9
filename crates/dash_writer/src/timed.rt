// The MPD of a presentation with the decode times of its files.
ghost use Rattle.std.specs.Prelude.{◌≡◌, ◌⊎◌, ◌*◌, ◌<◌, ◌^◌, All, MatchResult, OnErr, OnOk, length, sum};
ghost use Rattle.bridge_io.specs.Fault.{HasCause};
ghost use Rattle.bridge_io.specs.Outside.{put, Changes};
ghost use Rattle.bridge_io.specs.Written.{HasFront};
ghost use Rattle.bridge_io.specs.declared.outside.Fail.TheVariants.{Memory};
ghost use Rattle.bridge_io.specs.Adding.{Adds};
ghost use Rattle.bridge_io.specs.declared.out_fault.OutFault.TheVariants.{WriteFault};
ghost use Rattle.presentation.specs.Origins.{IsAddressed};
ghost use Rattle.dash_writer.specs.Timed as spec;
ghost use Rattle.dash_writer.specs.Written.{element_text};

use crate::listed::Listed;
use crate::manifest::{finished_root, last_end};
use crate::outline::Outline;
use crate::segments::ListHead;
use crate::sets::TrackLists;
use crate::times::Ticks;
use bridge_io::{Fail, Ledger, Name, OutFault, Sequence, Sheet, Steps, Store, Text};
use exact_time::Nanos;
use presentation::{Presentation, Section, SectionList};
use segment_forms::Form;
use std::alloc::Global;
use url_parts::Part;

/// The segments of a track in a section by their media times (ISO/IEC 23009-1, 5.3.9.6).
#[derive(Drop)]
pub struct TickRun {
    /// How many ticks make a second.
    pub scale: u32,
    /// The media time of the Period's start, in ticks: `@presentationTimeOffset` (5.3.9.2).
    pub offset: u64,
    /// When the first segment begins, in ticks.
    pub first: u64,
    /// How long each segment lasts, in ticks.
    pub durations: TickSeq,
}

/// Numbers of ticks, one for each segment.
pub type TickSeq = Sequence<u64>;

/// The media times of all segments: by section, then by track.
pub type TickList = Sequence<TickRun>;

/// Writes the MPD of a presentation that came from playlists with the media times of its segments (ISO/IEC 23009-1, 5.3.9):
/// as [`write_mpd`](crate::write_mpd) does, but the segments of each track are in its own ticks, with the media time of the
/// Period's start in `@presentationTimeOffset` and the first segment's time in the first S. A Period lasts until its longest track
/// ends, rounded up to nanoseconds, and begins where the one before it ends.
///
/// Requires that the presentation came from playlists, and that there is one run for each section and track, by section, then
/// by track, with at least 1 tick per second, a first segment that doesn't begin before the Period and an end below 2^63 ticks;
/// that all Periods together last less than 10^19 ns. The text has each segment's start where a run has one duration for each listed segment.
///
/// An error leaves the file as it was, or with a prefix of the text. [`OutFault::WriteFault`] comes only where the store's
/// count of failed writes rose.
pub fn write_mpd_timed<F: Store, L: Ledger>(
    alloc: Global,
    form: Form,
    presentation: &Presentation,
    times: &TickList,
    store: &mut F,
    name: &Name,
    steps: &mut Steps<L>,
) -> Result<(), OutFault>
    requires { spec.CanBeTimed presentation.now times.now }
    ensures ok { OnOk result (Changes (put name.now (spec.timed_text form presentation.now times.now)) (F.files store.old) (F.files store.new)) }
    ensures err { OnErr result ((F.files store.new ≡ F.files store.old)
        ⊎ HasFront name.now (spec.timed_text form presentation.now times.now) (F.files store.old) (F.files store.new)) }
    ensures cause { HasCause WriteFault (F.write_faults store.old) (F.write_faults store.new) result }
    ensures reads { F.read_faults store.new ≡ F.read_faults store.old }
{
    let tracks = presentation.tracks().as_slice();
    let times = times.as_slice();
    let sections = sections_of(alloc, presentation.sections().len(), tracks.len(), times)?;
    let root = finished_root(last_end(sections.as_slice()));
    let lists = TimedLists {
        form,
        presentation,
        times,
    };
    let outline = Outline {
        root: &root,
        periods: sections.as_slice(),
        tracks,
        lists: &lists,
    };
    outline.write(alloc, store, name, steps)
}

/// The sections, one after another, of `tracks` tracks each.
fn sections_of(
    alloc: Global,
    count: usize,
    tracks: usize,
    times: &[TickRun],
) -> Result<SectionList, Fail>
    requires filled { length times.now ≡ count * tracks }
    requires ends { All spec.CanBeCounted times.now }
    requires total { sum (spec.lengths tracks count times.now) < 10 ^ 19 }
    ensures { MatchResult result (λ sections. sections ≡ spec.sections_from 0 (spec.lengths tracks count times.now))
        (λ fail. fail ≡ Memory) }
{
    let mut sections = SectionList::new(alloc);
    let mut start = 0;
    let mut rest = times;
    while sections.len() < count {
        let (row, behind) = rest.split_at(tracks);
        let length = longest(row);
        sections.push(Section {
            id: Text::from(String::new(alloc)),
            start: Nanos(start),
            length: Some(Nanos(length)),
        })?;
        start += length;
        rest = behind;
    }
    Ok(sections)
}

/// When the last of some tracks ends, in nanoseconds after their Period's start.
fn longest(runs: &[TickRun]) -> u64
    requires ends { All spec.CanBeCounted runs.now }
    requires short { spec.longest runs.now < 10 ^ 19 }
    ensures { result ≡ spec.longest runs.now }
{
    let mut longest = 0;
    for run in runs {
        longest = longest.max(lasting(run));
    }
    longest as u64
}

/// When a track's last segment ends, in nanoseconds after its Period's start, rounded up.
fn lasting(run: &TickRun) -> u128
    requires { spec.CanBeCounted run.now }
    ensures { result ≡ spec.lasting run.now }
{
    let ticks: u64 = run.durations.as_slice().iter().sum();
    let ticks = run.first - run.offset + ticks;
    (u128::from(ticks) * 1_000_000_000).div_ceil(u128::from(run.scale))
}

/// The contents of the tracks of a presentation in its sections, with the times of their segments.
#[derive(Clone, Copy)]
struct TimedLists<'a> {
    form: Form,
    presentation: &'a Presentation,
    times: &'a [TickRun],
}

impl<L: Ledger> TrackLists<Steps<L>> for TimedLists<'_> {
    ghost lists = { λ lists. spec.timed_lists lists.form lists.presentation.now lists.times.now };

    ghost can_list = { λ lists. spec.CanBeListed lists.presentation.now lists.times.now };

    fn push_list<F: Store>(
        &self,
        alloc: Global,
        section: usize,
        track: usize,
        sheet: &mut Sheet<F>,
        steps: &mut Steps<L>,
    ) -> Result<(), Fail> {
        let presentation = self.presentation;
        let run = &self.times[section * presentation.tracks().len() + track];
        let listed = Listed {
            form: self.form,
            runs: presentation.runs(section, track),
            window: presentation.window(section),
        };
        let part = presentation.initialization(section, track);
        push_timed(alloc, &listed, run, part, sheet, steps)
    }
}

/// Writes the listed segments with the decode times of their files.
fn push_timed<F: Store, L: Ledger>(
    alloc: Global,
    listed: &Listed<'_>,
    run: &TickRun,
    part: &Part,
    sheet: &mut Sheet<F>,
    steps: &mut Steps<L>,
) -> Result<(), Fail>
    requires { IsAddressed listed.now.runs.now }
    ensures { Adds F.Store (element_text (spec.list_of listed.now.form listed.now.window listed.now.runs.now part.now run.now)) sheet.old sheet.new result }
{
    let head = ListHead {
        ticks: u64::from(run.scale),
        offset: Some(run.offset),
        first: run.first,
        initialization: part,
    };
    let mut durations = Ticks {
        left: run.durations.as_slice(),
    };
    listed.push(alloc, &head, &mut durations, sheet, steps)
}
