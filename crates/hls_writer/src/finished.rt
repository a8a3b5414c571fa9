// The media playlists of a VOD presentation.
ghost use Rattle.std.specs.Prelude.{◌≡◌, ◌⊎◌, ◌^◌, ◌<◌, ◌≤◌, ◌/◌, length, All, IfOk, IfSome, None, Ok, option_map, OnOk, OnErr};
ghost use Rattle.std.specs.Prelude.{MatchResult};
ghost use Rattle.bridge_io.specs.Fault.{HasCause};
ghost use Rattle.bridge_io.specs.Outside.{put, Changes};
ghost use Rattle.bridge_io.specs.Written.{HasFront};
ghost use Rattle.bridge_io.specs.declared.media.Kind.TheVariants.{Text};
ghost use Rattle.bridge_io.specs.declared.outside.Fail.TheVariants.{Memory};
ghost use Rattle.presentation.specs.Order.{is_of};
ghost use Rattle.presentation.specs.Laws.{HasAddress};
ghost use Rattle.presentation.specs.Verifying.{verified};
ghost use Rattle.hls_writer.specs.Verified.{IsVerified};
ghost use Rattle.bridge_io.specs.Adding.{Adds};
ghost use Rattle.hls_writer.specs.Finished as spec;
ghost use Rattle.hls_writer.specs.Spelled.{spelled_items, spelled_part};
ghost use Rattle.hls_writer.specs.Lines.{lines_text, on_demand};
ghost use Rattle.hls_writer.specs.Playlists.{head_lines, items_lines, item_lines, last_section};
ghost use Rattle.hls_writer.specs.Rows.{all_written, CanBeThere};
ghost use Rattle.timeline.specs.Listed.{CanBeNamed, part_of_timing, timing_of};
ghost use Rattle.timeline.specs.Written.{part_with, spelled_in};
ghost use Rattle.bridge_io.specs.declared.out_fault.OutFault.TheVariants.{WriteFault};

use crate::OutFault;
use crate::entry::Entry;
use crate::line::{Tag, push_lines};
use bridge_io::{Fail, FileWriter, Kind, Ledger, Name, Sheet, Steps, Store};
use exact_time::Digits;
use presentation::{Longest, Presentation, PrintedSegments, Track};
use std::alloc::Global;
use timeline::{AddressWriter, ListFault, Span};
use track_hints::Hints;
use url_parts::{Part, Range, Reference, Spelling};

/// What the target durations (RFC 8216, 4.3.3.1) of the playlists of a VOD presentation are.
#[derive(Clone, Copy)]
pub enum Targets {
    /// Each playlist has its own.
    Own,
    /// Those of the video and audio tracks have the greatest of theirs (6.2.4); a text track has its own.
    Shared,
}

impl Targets {
    /// Shared in the form for players.
    pub fn of(players: Option<&Hints>) -> Targets
        ensures { result ≡ spec.targets_of (option_map (λ h. h.now) players.entry) }
    {
        match players {
            None => Targets::Own,
            Some(_) => Targets::Shared,
        }
    }
}

/// Writes the media playlist of a track of a VOD presentation: each listed segment with its URL and its printed duration, an
/// EXT-X-DISCONTINUITY for each step by which the section number rises, and an EXT-X-MAP for the first segment and for the
/// first one of each section. The target duration is the longest printed duration, rounded to the nearest second, halves up,
/// and at least 1, or where targets are shared, the greatest one of the video and audio tracks. URLs are spelled so.
///
/// Requires that the track is in range, and that `verify` returned `longest` for this presentation and these digits.
///
/// An error leaves the file as it was, or with a prefix of the text. [`OutFault::WriteFault`] comes only where the store's
/// count of failed writes rose.
pub fn write_media<'a, F: Store, L: Ledger>(
    alloc: Global,
    presentation: &'a Presentation,
    track: usize,
    longest: &Longest,
    targets: Targets,
    digits: Digits,
    spelling: &'a Spelling,
    store: &mut F,
    name: &Name,
    steps: &mut Steps<L>,
) -> Result<(), OutFault>
    requires track { track < length presentation.now.tracks }
    requires verified { verified presentation.now (10 ^ digits) ≡ Ok longest.now }
    ensures ok { let text = spec.media_text spelling.now targets presentation.now digits track in
        OnOk result (Changes (put name.now text) (F.files store.old) (F.files store.new)) }
    ensures err { let text = spec.media_text spelling.now targets presentation.now digits track in
        OnErr result ((F.files store.new ≡ F.files store.old) ⊎ HasFront name.now text (F.files store.old) (F.files store.new)) }
    ensures cause { HasCause WriteFault (F.write_faults store.old) (F.write_faults store.new) result }
    ensures reads { F.read_faults store.new ≡ F.read_faults store.old }
{
    let durations = Durations {
        presentation,
        longest,
        digits,
    };
    let target = durations.target(targets, track);
    let track = WrittenTrack {
        presentation,
        track,
        digits,
        spelling,
    };
    write_playlist(alloc, &track, target, store, name, steps)
}

/// A track whose playlist is written.
#[derive(Clone, Copy)]
struct WrittenTrack<'a> {
    presentation: &'a Presentation,
    track: usize,
    digits: Digits,
    spelling: &'a Spelling,
}

/// Writes the playlist with this target duration.
fn write_playlist<F: Store, L: Ledger>(
    alloc: Global,
    track: &WrittenTrack<'_>,
    target: u64,
    store: &mut F,
    name: &Name,
    steps: &mut Steps<L>,
) -> Result<(), OutFault>
    requires track { track.now.track < length track.now.presentation.now.tracks }
    requires verified { IsVerified track.now.presentation.now track.now.digits }
    ensures ok { let text = spec.track_text track.now.spelling.now track.now.presentation.now track.now.digits
        track.now.track target in
        OnOk result (Changes (put name.now text) (F.files store.old) (F.files store.new)) }
    ensures err { let text = spec.track_text track.now.spelling.now track.now.presentation.now track.now.digits
        track.now.track target in
        OnErr result ((F.files store.new ≡ F.files store.old) ⊎ HasFront name.now text (F.files store.old) (F.files store.new)) }
    ensures cause { HasCause WriteFault (F.write_faults store.old) (F.write_faults store.new) result }
    ensures reads { F.read_faults store.new ≡ F.read_faults store.old }
{
    let writer = &mut FileWriter::create(alloc, store, name)?;
    push_playlist(alloc, track, target, &mut Sheet { writer, store }, steps)?;
    writer.flush(store)?;
    Ok(())
}

/// Writes the whole text.
fn push_playlist<F: Store, L: Ledger>(
    alloc: Global,
    track: &WrittenTrack<'_>,
    target: u64,
    sheet: &mut Sheet<F>,
    steps: &mut Steps<L>,
) -> Result<(), Fail>
    requires track { track.now.track < length track.now.presentation.now.tracks }
    requires verified { IsVerified track.now.presentation.now track.now.digits }
    ensures { let text = spec.track_text track.now.spelling.now track.now.presentation.now track.now.digits
        track.now.track target in
        Adds F.Store text sheet.old sheet.new result }
{
    push_lines(sheet, &head_lines(target))?;
    push_sections(alloc, track, sheet, steps)?;
    push_lines(sheet, &[Some(Tag::EndList)])
}

fn head_lines(target: u64) -> [Option<Tag<'static>>; 5]
    ensures written { all_written result ≡ head_lines target 0 on_demand }
    ensures can { All CanBeThere result }
{
    [
        Some(Tag::Header),
        Some(Tag::Version(6)),
        Some(Tag::TargetDuration(target)),
        Some(Tag::MediaSequence(0)),
        Some(Tag::OnDemand),
    ]
}

/// Writes the lines of a track's segments.
fn push_sections<F: Store, L: Ledger>(
    alloc: Global,
    track: &WrittenTrack<'_>,
    sheet: &mut Sheet<F>,
    steps: &mut Steps<L>,
) -> Result<(), Fail>
    requires track { track.now.track < length track.now.presentation.now.tracks }
    requires verified { IsVerified track.now.presentation.now track.now.digits }
    ensures { let items = spec.track_items track.now.presentation.now (10 ^ track.now.digits) track.now.track in
        Adds F.Store (lines_text (items_lines track.now.digits None (spelled_items track.now.spelling.now items)))
        sheet.old sheet.new result }
{
    let mut former = None;
    for section in 0..track.presentation.sections().len() {
        former = push_section(alloc, track, section, former, sheet, steps)?;
    }
    Ok(())
}

/// Writes the lines of a track's segments in a section, and returns the section of the last segment so far.
fn push_section<F: Store, L: Ledger>(
    alloc: Global,
    track: &WrittenTrack<'_>,
    section: usize,
    former: Option<u64>,
    sheet: &mut Sheet<F>,
    steps: &mut Steps<L>,
) -> Result<Option<u64>, Fail>
    requires section { section < length track.now.presentation.now.sections }
    requires track { track.now.track < length track.now.presentation.now.tracks }
    requires verified { IsVerified track.now.presentation.now track.now.digits }
    ensures adds { let items = spec.section_items track.now.presentation.now (10 ^ track.now.digits) track.now.track section in
        Adds F.Store (lines_text (items_lines track.now.digits former (spelled_items track.now.spelling.now items)))
        sheet.old sheet.new result }
    ensures last { let items = spec.section_items track.now.presentation.now (10 ^ track.now.digits) track.now.track section in
        IfOk result (λ last. last ≡ last_section former (spelled_items track.now.spelling.now items)) }
{
    let place = InSection {
        map: track.presentation.initialization(section, track.track),
        section: section as u64,
        digits: track.digits,
        spelling: track.spelling,
    };
    let segments = track
        .presentation
        .segments(section, track.track, track.digits);
    push_segments(alloc, segments, &place, former, sheet, steps)
}

/// What the segments of a section have in common.
#[derive(Clone, Copy)]
struct InSection<'a> {
    map: &'a Part,
    section: u64,
    digits: Digits,
    spelling: &'a Spelling,
}

/// Writes the URL of a segment that has one, and returns its byte range.
#[inline(always)]
fn write_address(
    alloc: Global,
    addresses: &mut AddressWriter<'_>,
    span: &Span,
) -> Result<Option<Range>, Fail>
    requires named { CanBeNamed addresses.old.timeline (timing_of span.now) }
    requires has { HasAddress addresses.old.timeline (timing_of span.now) }
    ensures part { MatchResult result
        (λ range. spelled_in addresses.old.place (part_of_timing addresses.old.timeline (timing_of span.now))
        ≡ Ok (part_with addresses.new.text range))
        (λ fail. fail ≡ Memory) }
    ensures timeline { addresses.new.timeline ≡ addresses.old.timeline }
    ensures place { addresses.new.place ≡ addresses.old.place }
{
    match addresses.write(alloc, span) {
        Ok(range) => Ok(range),
        Err(ListFault::Memory) => Err(Fail::Memory),
        Err(ListFault::Url(_)) => unreachable!(),
    }
}

/// `units / unit`, rounded to the nearest whole number, halves up.
pub(crate) fn rounded(units: u64, unit: u64) -> u64
    requires { 0 < unit }
    ensures { result ≡ spec.rounded unit units }
{
    let whole = units / unit;
    let rest = units % unit;
    if rest >= unit - rest {
        whole + 1
    } else {
        whole
    }
}

/// The same, and at least 1 (RFC 8216, 4.3.3.1).
fn target_of(units: u64, digits: Digits) -> u64
    ensures { result ≡ spec.target_of (10 ^ digits) units }
{
    rounded(units, u64::from(digits.unit())).max(1)
}

/// The longest printed durations of a presentation's tracks.
#[derive(Clone, Copy)]
struct Durations<'a> {
    presentation: &'a Presentation,
    longest: &'a Longest,
    digits: Digits,
    ghost told: { verified presentation.now (10 ^ digits) ≡ Ok longest.now },
}

impl Durations<'_> {
    /// The target of a track.
    fn target(&self, targets: Targets, track: usize) -> u64
        requires { track < length self.now.presentation.now.tracks }
        ensures { result ≡ spec.target_in targets self.now.presentation.now (10 ^ self.now.digits) track }
    {
        match targets {
            Targets::Own => self.own_target(track),
            Targets::Shared => self.shared_target_of(track),
        }
    }

    fn shared_target_of(&self, track: usize) -> u64
        requires { track < length self.now.presentation.now.tracks }
        ensures { result ≡ spec.shared_target_of self.now.presentation.now (10 ^ self.now.digits) track }
    {
        if is_text(self.presentation.tracks().as_slice(), track) {
            return self.own_target(track);
        }
        self.shared_target()
    }

    fn own_target(&self, track: usize) -> u64
        requires { track < length self.now.presentation.now.tracks }
        ensures { result ≡ spec.own_target self.now.presentation.now (10 ^ self.now.digits) track }
    {
        target_of(self.longest.of(track), self.digits)
    }

    /// The greatest target of the video and audio tracks.
    fn shared_target(&self) -> u64
        ensures { result ≡ spec.shared_target self.now.presentation.now (10 ^ self.now.digits) }
    {
        let tracks = self.presentation.tracks().as_slice();
        let mut most = 0;
        for (place, track) in tracks.iter().enumerate() {
            most = self.with_target(most, place, track);
        }
        most
    }

    fn with_target(&self, most: u64, place: usize, track: &Track) -> u64
        requires { place < length self.now.presentation.now.tracks }
        ensures { result ≡ spec.with_target (spec.own_target self.now.presentation.now (10 ^ self.now.digits)) most place track.now }
    {
        if is_text_kind(track.kind) {
            return most;
        }
        most.max(self.own_target(place))
    }
}

fn is_text_kind(kind: Kind) -> bool
    ensures { result ≡ is_of Text kind }
{
    matches!(kind, Kind::Text)
}

fn is_text(tracks: &[Track], track: usize) -> bool
    ensures { result ≡ spec.is_text tracks.now track }
{
    match tracks.get(track) {
        Some(track) => is_text_kind(track.kind),
        None => false,
    }
}

/// Writes the lines of the remaining segments of a section, after a segment of the section `former` or as the playlist's
/// first ones, and returns the section of the last segment so far.
fn push_segments<F: Store, L: Ledger>(
    alloc: Global,
    mut segments: PrintedSegments<'_>,
    place: &InSection<'_>,
    former: Option<u64>,
    sheet: &mut Sheet<F>,
    steps: &mut Steps<L>,
) -> Result<Option<u64>, Fail>
    requires { All (λ x. HasAddress segments.timeline x.times) segments.left }
    ensures adds { let items = spec.items_at segments.entry.timeline place.now.map.now place.now.section segments.entry.left in
        Adds F.Store (lines_text (items_lines place.now.digits former (spelled_items place.now.spelling.now items)))
        sheet.old sheet.new result }
    ensures last { let items = spec.items_at segments.entry.timeline place.now.map.now place.now.section segments.entry.left in
        IfOk result (λ last. last ≡ last_section former (spelled_items place.now.spelling.now items)) }
{
    let mut addresses = segments.addresses(alloc, place.spelling)?;
    let mut former = former;
    while let Some((span, duration)) = segments.pass(steps) {
        let range = write_address(alloc, &mut addresses, &span)?;
        push_segment(alloc, &addresses, range, duration, place, former, sheet)?;
        former = Some(place.section);
    }
    Ok(former)
}

/// Writes the lines of the segment whose URL was written last.
fn push_segment<F: Store>(
    alloc: Global,
    addresses: &AddressWriter<'_>,
    range: Option<Range>,
    duration: u64,
    place: &InSection<'_>,
    former: Option<u64>,
    sheet: &mut Sheet<F>,
) -> Result<(), Fail>
    ensures { let map = spelled_part place.now.spelling.now place.now.map.now in
        let item = spec.item_of (part_with addresses.now.text range) map place.now.section duration in
        Adds F.Store (lines_text (item_lines place.now.digits former item)) sheet.old sheet.new result }
{
    let entry = Entry {
        address: Reference {
            up: "",
            rest: addresses.as_str(),
        },
        range,
        map: place.map,
        duration,
        section: place.section,
        date: None,
        spelling: place.spelling,
    };
    entry.push_to(sheet, alloc, place.digits, former)
}
