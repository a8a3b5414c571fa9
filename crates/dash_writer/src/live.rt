// The MPD of a live presentation.
ghost use Rattle.std.specs.Prelude.{⊤, ◌≡◌, ◌⊎◌, OnErr, OnOk, if◌then◌else◌, map};
ghost use Rattle.bridge_io.specs.Fault.{HasCause};
ghost use Rattle.bridge_io.specs.Outside.{put, Changes};
ghost use Rattle.bridge_io.specs.Written.{HasFront};
ghost use Rattle.bridge_io.specs.Adding.{Adds};
ghost use Rattle.bridge_io.specs.declared.out_fault.OutFault.TheVariants.{WriteFault};
ghost use Rattle.dash_writer.specs.Live as spec;
ghost use Rattle.dash_writer.specs.Written.{all_told, element_text};

use crate::attribute::{Attribute, Value};
use crate::manifest::finished_root;
use crate::outline::{Outline, Period};
use crate::segments::{Files, ListHead, push_segments, push_url};
use crate::sets::TrackLists;
use crate::times::Durations;
use bridge_io::{Fail, Name, OutFault, Sequence, Sheet, Store};
use exact_time::Nanos;
use iso_time::{Instant, write_instant_ms};
use presentation::TrackList;
use segment_forms::{Form, PatternFinder};
use std::alloc::Global;
use url_parts::{Address, Part, Range};

/// A live presentation, by a snapshot of its playlists.
#[derive(Drop)]
pub struct LiveMpd {
    /// When the first Period begins: `@availabilityStartTime` (ISO/IEC 23009-1, 5.3.1.2).
    pub start: Instant,
    /// The time of the snapshot: `@publishTime`.
    pub published: Instant,
    /// The greatest target duration in seconds, after which there may be more: `@minimumUpdatePeriod`.
    pub target: u64,
    /// Whether the presentation has ended.
    pub ended: bool,
    /// The tracks: video, then audio, then text.
    pub tracks: TrackList,
    /// The Periods in order.
    pub periods: LivePeriodList,
}

/// The listed segments of one discontinuity sequence number (RFC 8216, 4.3.3.3).
#[derive(Drop)]
pub struct LivePeriod {
    /// That number.
    pub number: u64,
    /// When it begins, from the presentation's start.
    pub start: Nanos,
    /// When the longest of its tracks ends, relative to its own start.
    pub longest: Nanos,
    /// The content of each track in it.
    pub runs: LiveRunList,
}

/// The content of a track in a Period.
#[derive(Drop)]
pub struct LiveRun {
    /// The init segment.
    pub initialization: Part,
    /// How many ticks make a second: `@timescale` (5.3.9.2).
    pub scale: u32,
    /// The media time of the Period's start, in ticks: `@presentationTimeOffset`; `None` isn't written, and is 0.
    pub offset: Option<u64>,
    /// The listed segments in order, one after another.
    pub segments: LiveSegmentList,
}

/// A listed segment.
#[derive(Drop)]
pub struct LiveSegment {
    /// The URL of its file.
    pub address: Address,
    /// Its byte range; `None` is the whole file.
    pub range: Option<Range>,
    /// Its media time: when it begins, in ticks of the run.
    pub time: u64,
    /// How long it lasts, in ticks.
    pub duration: u64,
}

/// Periods in order.
pub type LivePeriodList = Sequence<LivePeriod>;

/// The contents of the tracks in a Period, in order.
pub type LiveRunList = Sequence<LiveRun>;

/// Listed segments in order.
pub type LiveSegmentList = Sequence<LiveSegment>;

/// Writes the MPD of a live presentation (ISO/IEC 23009-1, 5.3): until the presentation has ended a dynamic one with
/// `@publishTime` and `@minimumUpdatePeriod`, and then a static one that lasts until the last Period's longest track ends. A
/// Period has its number and its start, and the segments of a track are in the ticks of its run; the first S has the time of the
/// first listed segment. Each track is written in the form, as by [`write_mpd`](crate::write_mpd).
///
/// Requires that the years of the timestamps are 1000 to 9999, and that each track has a run in each Period. The text has the
/// segments' times where each one begins when the one before it ends.
///
/// An error leaves the file as it was, or with a prefix of the text. [`OutFault::WriteFault`] comes only where the store's
/// count of failed writes rose.
pub fn write_live_mpd<F: Store>(
    alloc: Global,
    form: Form,
    mpd: &LiveMpd,
    store: &mut F,
    name: &Name,
) -> Result<(), OutFault>
    requires { spec.IsLive mpd.now }
    ensures ok { OnOk result (Changes (put name.now (spec.live_text form mpd.now)) (F.files store.old) (F.files store.new)) }
    ensures err { OnErr result ((F.files store.new ≡ F.files store.old)
        ⊎ HasFront name.now (spec.live_text form mpd.now) (F.files store.old) (F.files store.new)) }
    ensures cause { HasCause WriteFault (F.write_faults store.old) (F.write_faults store.new) result }
    ensures reads { F.read_faults store.new ≡ F.read_faults store.old }
{
    let periods = mpd.periods.as_slice();
    let start = write_instant_ms(mpd.start);
    let published = write_instant_ms(mpd.published);
    let finished = finished_root(last_end(periods));
    let growing = growing_root(&start, &published, mpd.target);
    let lists = LiveLists { form, mpd };
    let outline = Outline {
        root: one_of(mpd.ended, &finished, &growing),
        periods,
        tracks: mpd.tracks.as_slice(),
        lists: &lists,
    };
    outline.write(alloc, store, name, &mut ())
}

/// The attributes of a dynamic MPD (5.3.1.2).
fn growing_root<'a>(start: &'a [u8; 24], published: &'a [u8; 24], target: u64) -> [Attribute<'a>; 7]
    ensures { all_told result ≡ spec.growing_root start.now published.now target }
{
    [
        ("xmlns", Some(Value::Text("urn:mpeg:dash:schema:mpd:2011"))),
        (
            "profiles",
            Some(Value::Text("urn:mpeg:dash:profile:full:2011")),
        ),
        ("type", Some(Value::Text("dynamic"))),
        ("availabilityStartTime", Some(Value::Instant(start))),
        ("publishTime", Some(Value::Instant(published))),
        ("minimumUpdatePeriod", Some(Value::Seconds(target))),
        ("minBufferTime", Some(Value::Text("PT2S"))),
    ]
}

fn one_of<'a, T>(first: bool, one: &'a [T], other: &'a [T]) -> &'a [T]
    ensures { result.now ≡ (if first then one.now else other.now) }
{
    if first { one } else { other }
}

/// When the last Period ends, where there is one.
fn last_end(periods: &[LivePeriod]) -> Option<Nanos>
    ensures { result ≡ spec.last_live_end periods.now }
{
    Some(end_of(periods.last()?))
}

fn end_of(period: &LivePeriod) -> Nanos
    ensures { result ≡ spec.live_end period.now }
{
    let end = period.start.0.saturating_add(period.longest.0);
    Nanos(end.min(9_999_999_999_999_999_999))
}

impl Period for LivePeriod {
    ghost head = { spec.live_period };

    fn attributes(&self, place: usize) -> [Attribute<'_>; 3] {
        let _ = place; // unused: the id is its number
        [
            ("id", Some(Value::Number(self.number))),
            ("start", Some(Value::Duration(self.start))),
            ("duration", None),
        ]
    }
}

/// The contents of the tracks in the Periods, in a form.
#[derive(Clone, Copy)]
struct LiveLists<'a> {
    form: Form,
    mpd: &'a LiveMpd,
}

impl TrackLists<()> for LiveLists<'_> {
    ghost lists = { λ lists. spec.live_lists lists.form lists.mpd.now };

    ghost can_list = { λ lists. spec.HasRun lists.mpd.now };

    fn push_list<F: Store>(
        &self,
        alloc: Global,
        section: usize,
        track: usize,
        sheet: &mut Sheet<F>,
        steps: &mut (),
    ) -> Result<(), Fail> {
        let run = &self.mpd.periods.as_slice()[section].runs.as_slice()[track];
        push_run(alloc, self.form, run, sheet, steps)
    }
}

/// Writes the segments of a track in a Period.
fn push_run<F: Store>(
    alloc: Global,
    form: Form,
    run: &LiveRun,
    sheet: &mut Sheet<F>,
    steps: &mut (),
) -> Result<(), Fail>
    ensures { Adds F.Store (element_text (spec.live_list form run.now)) sheet.old sheet.new result }
{
    let segments = run.segments.as_slice();
    let head = ListHead {
        ticks: u64::from(run.scale),
        offset: run.offset,
        first: first_time(segments),
        initialization: &run.initialization,
    };
    let mut durations = LiveSegments { left: segments };
    let mut files = LiveSegments { left: segments };
    let mut again = LiveSegments { left: segments };
    push_segments(
        alloc,
        form,
        &head,
        &mut durations,
        &mut files,
        &mut again,
        sheet,
        steps,
    )
}

/// When the first segment begins.
fn first_time(segments: &[LiveSegment]) -> u64
    ensures { result ≡ spec.first_time segments.now }
{
    match segments.first() {
        Some(first) => first.time,
        None => 0,
    }
}

/// The remaining segments.
#[derive(Drop)]
struct LiveSegments<'a> {
    left: &'a [LiveSegment],
}

impl Durations for LiveSegments<'_> {
    ghost durations = { λ segments. map (λ segment. segment.duration) segments.left.now };

    fn next_duration(&mut self) -> Option<u128> {
        let (first, others) = self.left.split_first()?;
        self.left = others;
        Some(u128::from(first.duration))
    }
}

impl Files<()> for LiveSegments<'_> {
    ghost parts = { λ segments. map spec.part_of segments.left.now };

    ghost can_push = { λ segments. ⊤ };

    fn push_urls<F: Store>(
        &mut self,
        _alloc: Global,
        sheet: &mut Sheet<F>,
        _steps: &mut (),
    ) -> Result<(), Fail> {
        for segment in self.left {
            push_url(segment.address.as_str(), segment.range, sheet)?;
        }
        Ok(())
    }

    fn push_addresses(
        &mut self,
        _alloc: Global,
        finder: &mut PatternFinder,
        _steps: &mut (),
    ) -> Result<bool, Fail> {
        for segment in self.left {
            if segment.range.is_some() {
                return Ok(false);
            }
            finder.push(segment.address.as_str())?;
        }
        Ok(true)
    }
}
