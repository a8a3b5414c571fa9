// The lines of a playlist, one after another.
ghost use Rattle.std.specs.Prelude.{◌≡◌, ◌^◌, ◌<◌, [], Some, None, option_map, IfOk, IfErr, IfSome};
ghost use Rattle.bridge_io.specs.Answer.{Gives};
ghost use Rattle.bridge_io.specs.Firsts.{first_of};
ghost use Rattle.hls_lines.specs.Attributes.{attributes_of};
ghost use Rattle.url_parts.specs.Addresses.{resolve};
ghost use Rattle.hls_media.specs.Media.{target_of, early_number_of, length_of, key_of, written_range_of, address_or_fault};
ghost use Rattle.hls_media.specs.Media.{attributes_or_fault, map_of, map_range_of, end_within, former_end, segment_range, segment_of};
ghost use Rattle.hls_media.specs.Media.{fault_in, refusal, after_tag, tag_fault, after_uri, after_all, line_faults, media_at};
ghost use Rattle.hls_media.specs.States.{nothing};
ghost use Rattle.hls_media.specs.declared.tag.Tag.TheVariants.{Map};
ghost use Rattle.hls_media.specs.Views.{state_of, Does};

use crate::copies::copy_of_map;
use crate::shared::{MapTexts, shared, shared_part};
use crate::state::{Reader, WrittenMap, WrittenRange};
use crate::tag::{Tag, tag_of};
use crate::value::{is_range, read_duration, read_number, read_range};
use crate::{Media, MediaFault, MediaList, MediaSegment};
use bridge_io::{NoMemory, Place};
use exact_time::Nanos;
use hls_lines::{Attributes, Line, LineFault, Lines, read_attributes};
use std::alloc::Global;
use url_parts::{Address, Base, Part, Range, Resolver, UrlFault};

/// The most segments of a playlist.
const MOST_SEGMENTS: usize = 100_000;

/// The bound of numbers of segments and sections.
const NUMBERS: u64 = 1 << 63;

/// The bound of target durations.
const TARGETS: u64 = 1 << 31;

/// The most nanoseconds of a segment.
const LONGEST: u128 = 1_000_000_000_000_000;

impl<'a> Reader<'a> {
    /// The state before the first line, with room for some segments.
    fn new(
        alloc: Global,
        segments: usize,
        former: Option<&'a Media>,
    ) -> Result<Reader<'a>, MediaFault>
        ensures ok { IfOk result (λ reader. state_of reader ≡ nothing) }
        ensures fault { IfErr result (λ fault. refusal fault ≡ None) }
    {
        let segments = Vec::with_capacity(alloc, segments.min(MOST_SEGMENTS)).map_err(
            |_| MediaFault::Memory,
        )?;
        Ok(Reader {
            target: None,
            sequence: None,
            first_section: None,
            discontinuities: 0,
            ended: false,
            duration: None,
            range: None,
            map: None,
            segments,
            resolver: Resolver::new(),
            new_map: None,
            maps: MapTexts::new(alloc),
            former,
        })
    }

    fn target_of(&self, rest: &str, place: Place) -> Result<u64, MediaFault>
        ensures { result ≡ target_of (state_of self.now) rest.now place }
    {
        if self.target.is_some() {
            return Err(MediaFault::Misplaced(place));
        }
        read_number(rest, TARGETS).ok_or(MediaFault::Value(place))
    }

    /// A number that has to be before the first segment, and may occur only once.
    fn early_number_of(
        &self,
        former: Option<u64>,
        rest: &str,
        place: Place,
    ) -> Result<u64, MediaFault>
        ensures { result ≡ early_number_of (state_of self.now) former rest.now place }
    {
        if former.is_some() || !self.segments.is_empty() {
            return Err(MediaFault::Misplaced(place));
        }
        read_number(rest, NUMBERS).ok_or(MediaFault::Value(place))
    }

    fn length_of(&self, rest: &str, place: Place, uri_follows: bool) -> Result<Nanos, MediaFault>
        ensures { result ≡ length_of (state_of self.now) rest.now place uri_follows }
    {
        if self.duration.is_some() || !uri_follows {
            return Err(MediaFault::Misplaced(place));
        }
        let nanos = read_duration(rest).ok_or(MediaFault::Value(place))?;
        if nanos > LONGEST {
            return Err(MediaFault::Duration(place));
        }
        Ok(Nanos(nanos as u64))
    }

    /// Reads a tag, given whether a URI follows in the file.
    fn read_tag(
        &mut self,
        alloc: Global,
        base: &Base,
        tag: Tag,
        rest: &'a str,
        place: Place,
        uri_follows: bool,
    ) -> Result<(), MediaFault>
        requires { self.old.discontinuities < 2 ^ 63 }
        ensures { Does (tag_fault base.now (state_of self.old) tag rest.now place uri_follows)
            (after_tag base.now (state_of self.old) tag rest.now place) result (state_of self.new) }
    {
        match tag {
            Tag::TargetDuration => self.target = Some(self.target_of(rest, place)?),
            Tag::MediaSequence => self.sequence = Some(self.early_number_of(
                self.sequence,
                rest,
                place,
            )?),
            Tag::DiscontinuitySequence => self.first_section = Some(self.early_number_of(
                self.first_section,
                rest,
                place,
            )?),
            Tag::Duration => self.duration = Some(self.length_of(rest, place, uri_follows)?),
            Tag::ByteRange => self.range = Some(written_range_of(rest, place, uri_follows)?),
            Tag::Discontinuity => self.discontinuities += 1,
            Tag::Map => self.read_map(alloc, base, rest, place)?,
            Tag::EndList => self.ended = true,
            Tag::Key => check_key(alloc, rest, place)?,
            Tag::SessionKey => return Err(MediaFault::Encryption(place)),
            Tag::DateRange => return Err(MediaFault::Events(place)),
            Tag::LowLatency => return Err(MediaFault::LowLatency(place)),
            Tag::Unsupported => return Err(MediaFault::Unsupported(place)),
            Tag::Master => return Err(MediaFault::Misplaced(place)),
            Tag::Other => {}
        }
        Ok(())
    }

    fn read_map(
        &mut self,
        alloc: Global,
        base: &Base,
        rest: &'a str,
        place: Place,
    ) -> Result<(), MediaFault>
        ensures { Does (fault_in (map_of base.now rest.now place))
            (after_tag base.now (state_of self.old) Map rest.now place) result (state_of self.new) }
    {
        let map = map_of(alloc, &mut self.resolver, base, rest, place)?;
        self.map = Some(map.part);
        self.new_map = Some(map.reference);
        Ok(())
    }

    /// Where a byte range without offset begins for a URL: where the segment before it ends.
    fn former_end(&self, address: &Address) -> Option<u128>
        ensures { result ≡ former_end address.now self.now.segments.items }
    {
        match self.segments.last() {
            Some(former) => end_within(former, address),
            None => None,
        }
    }

    fn segment_range(&self, address: &Address) -> Result<Option<Range>, MediaFault>
        ensures { result ≡ segment_range (state_of self.now) address.now (state_of self.now).range }
    {
        let Some(written) = self.range else {
            return Ok(None);
        };
        match read_range(written.text, self.former_end(address)) {
            Some(range) => Ok(Some(range)),
            None => Err(MediaFault::RangeStart(written.place)),
        }
    }

    /// The segment that a URI ends.
    #[tactic(auto, unfolding(crate::specs::Media::segment_of))]
    fn segment_of(
        &mut self,
        alloc: Global,
        base: &Base,
        text: &str,
        place: Place,
    ) -> Result<MediaSegment, MediaFault>
        requires { self.old.discontinuities < 2 ^ 63 }
        ensures segment { Gives (λ segment. segment) refusal result (segment_of base.now (state_of self.old) text.now place) }
        ensures state { state_of self.new ≡ state_of self.old }
    {
        let duration = self.duration.ok_or(MediaFault::Misplaced(place))?;
        if self.segments.len() == MOST_SEGMENTS {
            return Err(MediaFault::Limit(place));
        }
        let address = join(alloc, &mut self.resolver, base, text, place)?;
        let address = self.shared_address(alloc, address)?;
        let range = self.segment_range(&address)?;
        let section = self.first_section.unwrap_or(0) + self.discontinuities;
        let map = self.next_map(alloc)?;
        Ok(MediaSegment {
            address,
            range,
            map,
            duration,
            section,
        })
    }

    /// The segment of the former playlist that has the next segment's number.
    fn former_segment(&self) -> Option<&'a MediaSegment> {
        let former = self.former?;
        let number = self
            .sequence
            .unwrap_or(0)
            .checked_add(self.segments.len() as u64)?;
        let index = number.checked_sub(former.sequence)?;
        former.segments.as_slice().get(index as usize)
    }

    /// The same URL of the next segment. It shares the text of the segment before or of the former one, if that is equal.
    fn shared_address(&self, alloc: Global, address: Address) -> Result<Address, NoMemory>
        ensures { IfOk result (λ shared. shared ≡ address) }
    {
        let mut address = address;
        if let Some(former) = self.former_segment() {
            address = shared(alloc, address, &former.address)?;
        }
        if let Some(before) = self.segments.last() {
            address = shared(alloc, address, &before.address)?;
        }
        Ok(address)
    }

    /// The map of the next segment.
    fn next_map(&mut self, alloc: Global) -> Result<Option<Part>, NoMemory>
        ensures map { IfOk result (λ map. map ≡ self.old.map) }
        ensures state { state_of self.new ≡ state_of self.old }
    {
        let Some(reference) = self.new_map else {
            return copy_of_map(alloc, &self.map);
        };
        let Some(map) = copy_of_map(alloc, &self.map)? else {
            return Ok(None);
        };
        let map = self.shared_map(alloc, reference, map)?;
        self.map = Some(map.copy(alloc)?);
        self.new_map = None;
        Ok(Some(map))
    }

    /// The same map of the next segment. It shares the text of the former segment's or of an earlier one with the same
    /// reference, if that is equal.
    fn shared_map(&mut self, alloc: Global, reference: &'a str, map: Part) -> Result<Part, NoMemory>
        ensures map { IfOk result (λ shared. shared ≡ map) }
        ensures state { state_of self.new ≡ state_of self.old }
    {
        let Part { address, range } = match self.former_segment() {
            Some(former) => shared_part(alloc, map, &former.map)?,
            None => map,
        };
        let address = self.maps.shared(alloc, reference, address)?;
        Ok(Part { address, range })
    }

    fn read_uri(
        &mut self,
        alloc: Global,
        base: &Base,
        text: &str,
        place: Place,
    ) -> Result<(), MediaFault>
        requires { self.old.discontinuities < 2 ^ 63 }
        ensures { Does (fault_in (segment_of base.now (state_of self.old) text.now place))
            (after_uri base.now (state_of self.old) text.now) result (state_of self.new) }
    {
        let segment = self.segment_of(alloc, base, text, place)?;
        self.segments.push(segment)?;
        self.duration = None;
        self.range = None;
        Ok(())
    }
}

/// Where a segment's byte range ends, if it has one of that URL.
fn end_within(segment: &MediaSegment, address: &Address) -> Option<u128>
    ensures { result ≡ end_within address.now segment.now }
{
    if segment.address.as_str() != address.as_str() {
        return None;
    }
    let range = segment.range?;
    Some(u128::from(range.first) + u128::from(range.count))
}

fn written_range_of(
    rest: &str,
    place: Place,
    uri_follows: bool,
) -> Result<WrittenRange<'_>, MediaFault>
    ensures text { Gives (λ range. range.text.now) (λ fault. Some fault) result (written_range_of rest.now place uri_follows) }
    ensures place { IfOk result (λ range. range.place ≡ place) }
{
    if !uri_follows {
        return Err(MediaFault::Misplaced(place));
    }
    if !is_range(rest) {
        return Err(MediaFault::Value(place));
    }
    Ok(WrittenRange { text: rest, place })
}

fn join(
    alloc: Global,
    resolver: &mut Resolver,
    base: &Base,
    reference: &str,
    place: Place,
) -> Result<Address, MediaFault>
    ensures { Gives (λ address. address) refusal result (address_or_fault place (resolve base.now reference.now)) }
{
    match resolver.join(alloc, base, reference) {
        Ok(address) => Ok(address),
        Err(UrlFault::Memory) => Err(MediaFault::Memory),
        Err(fault) => Err(MediaFault::Url(fault, place)),
    }
}

fn attributes_of<'a>(
    alloc: Global,
    rest: &'a str,
    place: Place,
) -> Result<Attributes<'a>, MediaFault>
    ensures { Gives (λ attributes. attributes) refusal result (attributes_or_fault (attributes_of rest.now place)) }
{
    match read_attributes(alloc, rest, place) {
        Ok(attributes) => Ok(attributes),
        Err(LineFault::Memory) => Err(MediaFault::Memory),
        Err(fault) => Err(MediaFault::Line(fault)),
    }
}

/// The init segment of an EXT-X-MAP.
#[tactic(auto, unfolding(crate::specs::Media::map_of))]
fn map_of<'a>(
    alloc: Global,
    resolver: &mut Resolver,
    base: &Base,
    rest: &'a str,
    place: Place,
) -> Result<WrittenMap<'a>, MediaFault>
    ensures { Gives (λ map. map.part) refusal result (map_of base.now rest.now place) }
{
    let attributes = attributes_of(alloc, rest, place)?;
    let reference = attributes.get("URI").ok_or(MediaFault::Value(place))?;
    let range = map_range_of(attributes.get("BYTERANGE"), place)?;
    let address = join(alloc, resolver, base, reference, place)?;
    let part = Part { address, range };
    Ok(WrittenMap { part, reference })
}

fn map_range_of(text: Option<&str>, place: Place) -> Result<Option<Range>, MediaFault>
    ensures { result ≡ map_range_of place (option_map (λ text. text.now) text.entry) }
{
    let Some(text) = text else {
        return Ok(None);
    };
    let range = read_range(text, Some(0)).ok_or(MediaFault::Value(place))?;
    Ok(Some(range))
}

/// Rejects a key whose method isn't NONE.
#[tactic(auto, unfolding(crate::specs::Media::key_of))]
fn check_key(alloc: Global, rest: &str, place: Place) -> Result<(), MediaFault>
    ensures { Gives (λ done. done) refusal result (key_of rest.now place) }
{
    let attributes = attributes_of(alloc, rest, place)?;
    let method = attributes.get("METHOD").ok_or(MediaFault::Value(place))?;
    if method != "NONE" {
        return Err(MediaFault::Encryption(place));
    }
    Ok(())
}

impl Reader<'_> {
    /// The playlist, once all lines were read.
    pub(crate) fn finish(self, target: u64) -> Media
        requires { self.target ≡ Some target }
        ensures { result ≡ media_at (state_of self.entry) }
    {
        Media {
            target,
            sequence: self.sequence.unwrap_or(0),
            ended: self.ended,
            segments: MediaList::from(self.segments),
        }
    }
}

/// Reads all lines.
pub(crate) fn read_lines<'a>(
    alloc: Global,
    lines: Lines<'a>,
    base: &Base,
    former: Option<&'a Media>,
) -> Result<Reader<'a>, MediaFault>
    ensures ok { IfOk result (λ reader. (line_faults base.now nothing lines.entry ≡ [])
        × (state_of reader ≡ after_all base.now nothing lines.entry)) }
    ensures fault { IfErr result (λ fault. IfSome (refusal fault) (λ told. first_of (line_faults base.now nothing lines.entry)
        ≡ Some told)) }
{
    let mut lines = lines;
    let mut uris = lines.count_uris();
    let mut reader = Reader::new(alloc, uris, former)?;
    while let Some(line) = lines.next() {
        match line {
            Line::Tag { name, rest, place } => reader.read_tag(
                alloc,
                base,
                tag_of(name),
                rest,
                place,
                uris > 0,
            )?,
            Line::Uri { text, place } => {
                uris -= 1;
                reader.read_uri(alloc, base, text, place)?;
            }
        }
    }
    Ok(reader)
}
