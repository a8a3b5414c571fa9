// The contents of the tracks in the sections.
ghost use Rattle.std.specs.Prelude.{◌≡◌, ◌<◌, ◌/◌, ◌^◌, false, map, IfOk};
ghost use Rattle.std.specs.List.{list_all};
ghost use Rattle.bridge_io.specs.Answer.{Gives};
ghost use Rattle.exact_time.specs.Tick.{time_of};
ghost use Rattle.exact_time.specs.Time.{in_units};
ghost use Rattle.timeline.specs.Durations.{extent_of};
ghost use Rattle.hls_presentation.specs.Presenting as spec;
ghost use Rattle.hls_presentation.specs.Sections.{is_over_limit, length_of, row_at, row_length, rows_of};
ghost use Rattle.hls_presentation.specs.Views.{source_of};

use crate::HlsFault;
use crate::groups::{Groups, Segments, section_count};
use crate::kept::Source;
use bridge_io::NoMemory;
use exact_time::Tick;
use hls_media::MediaSegment;
use presentation::{Content, ContentList};
use std::alloc::Global;
use timeline::{Names, PartList, Runs, Scale, Span, SpanList, TimeFault};
use url_parts::Part;

/// The unit of times.
#[derive(Clone, Copy)]
pub(crate) struct Ticks {
    /// The nanoseconds of a tick.
    nanos: u64,
    /// How many ticks make a second.
    by_second: u32,
    ghost lasting: { 0 < nanos },
    ghost positive: { 0 < by_second },
    ghost counted: { by_second ≡ spec.ticks_by_second nanos },
}

impl Ticks {
    /// Microseconds where every duration is a whole number of them, otherwise nanoseconds.
    pub(crate) fn of(tracks: &[Source<'_>]) -> Ticks
        ensures { result.nanos ≡ spec.nanos_by_tick (map source_of tracks.now) }
    {
        if are_all_micros(tracks) {
            return Ticks {
                nanos: 1_000,
                by_second: 1_000_000,
            };
        }
        Ticks {
            nanos: 1,
            by_second: 1_000_000_000,
        }
    }

    fn tick(self, time: u64) -> Tick
        ensures { time_of result ≡ in_units (spec.ticks_by_second self.nanos) (time / self.nanos) }
    {
        Tick {
            n: i128::from(time / self.nanos),
            scale: self.by_second,
        }
    }

    fn scale(self) -> Scale
        ensures ticks { result.ticks ≡ spec.ticks_by_second self.nanos }
        ensures offset { result.offset ≡ 0 }
        ensures first { result.start_number ≡ 1 }
    {
        Scale {
            ticks: self.by_second,
            offset: 0,
            start_number: 1,
        }
    }

    /// The contents of the tracks in the sections: by section, then by track.
    pub(crate) fn contents(
        self,
        alloc: Global,
        tracks: &[Groups<'_>],
    ) -> Result<ContentList, HlsFault>
        requires { is_over_limit (rows_of tracks.now) ≡ false }
        ensures { Gives (λ contents. contents) spec.refusal result (spec.contents_of self.nanos (rows_of tracks.now)) }
    {
        let mut contents = ContentList::new(alloc);
        for place in 0..section_count(tracks) {
            self.add_row(alloc, tracks, place, &mut contents)?;
        }
        Ok(contents)
    }

    /// Adds the contents of the tracks in the section at an index.
    fn add_row(
        self,
        alloc: Global,
        tracks: &[Groups<'_>],
        place: usize,
        contents: &mut ContentList,
    ) -> Result<(), HlsFault>
        requires { row_length (row_at tracks.now place) < 2 ^ 63 }
        ensures { Gives (λ _. contents.new) spec.refusal result
            (spec.behind contents.old (spec.gathered (spec.content_of self.nanos) (row_at tracks.now place))) }
    {
        for track in tracks {
            let content = self.content(alloc, track.at(place))?;
            contents.push(content)?;
        }
        Ok(())
    }

    fn content(self, alloc: Global, group: Segments<'_>) -> Result<Content, HlsFault>
        requires { length_of group.now < 2 ^ 63 }
        ensures { Gives (λ content. content) spec.refusal result (spec.content_of self.nanos group.now) }
    {
        let initialization = initialization_of(alloc, group)?;
        let runs = self.runs(alloc, group)?;
        Ok(Content {
            initialization,
            runs,
        })
    }

    fn runs(self, alloc: Global, group: Segments<'_>) -> Result<Runs, HlsFault>
        requires { length_of group.now < 2 ^ 63 }
        ensures { Gives (λ runs. runs) spec.refusal result (spec.runs_of self.nanos group.now) }
    {
        let spans = self.spans(alloc, group)?;
        let names = Names::of_addresses(parts_of(alloc, group)?);
        match Runs::from_list(alloc, &spans, self.scale(), names) {
            Ok(runs) => Ok(runs),
            Err(fault) => Err(fault_of_times(fault)),
        }
    }

    /// The times of segments, each of which begins where the one before it ends.
    fn spans(self, alloc: Global, group: Segments<'_>) -> Result<SpanList, NoMemory>
        requires { length_of group.now < 2 ^ 63 }
        ensures { IfOk result (λ spans. map extent_of spans ≡ spec.extents_from self.nanos 0 group.now) }
    {
        let mut spans = Vec::with_capacity(alloc, group.len())?;
        let mut time = 0;
        let mut start = self.tick(time);
        for segment in group {
            time += segment.duration.0;
            let end = self.tick(time);
            spans.push(Span {
                start,
                end,
                number: 0,
            })?;
            start = end;
        }
        Ok(SpanList::from(spans))
    }
}

/// Times that aren't a valid timeline are beyond a limit.
fn fault_of_times(fault: TimeFault) -> HlsFault
    ensures { result ≡ spec.fault_of_times fault }
{
    match fault {
        TimeFault::Memory => HlsFault::Memory,
        _ => HlsFault::Limit,
    }
}

/// Whether every duration is a whole number of microseconds.
fn are_all_micros(tracks: &[Source<'_>]) -> bool
    ensures { result ≡ list_all (λ s. spec.are_micros (source_of s)) tracks.now }
{
    tracks.iter().all(are_micros)
}

fn are_micros(source: &Source<'_>) -> bool
    ensures { result ≡ spec.are_micros (source_of source.now) }
{
    source.media.segments.as_slice().iter().all(is_micros)
}

fn is_micros(segment: &MediaSegment) -> bool
    ensures { result ≡ spec.is_micros segment.now }
{
    segment.duration.0 % 1_000 == 0
}

/// The map of the first segment.
fn initialization_of(alloc: Global, group: Segments<'_>) -> Result<Part, HlsFault>
    ensures { Gives (λ part. part) spec.refusal result (spec.initialization_of group.now) }
{
    let Some(first) = group.first() else {
        return Err(HlsFault::NoMap);
    };
    match &first.map {
        Some(map) => Ok(map.copy(alloc)?),
        None => Err(HlsFault::NoMap),
    }
}

fn parts_of(alloc: Global, group: Segments<'_>) -> Result<PartList, NoMemory>
    ensures { IfOk result (λ parts. parts ≡ spec.parts_of group.now) }
{
    let mut parts = Vec::with_capacity(alloc, group.len())?;
    for segment in group {
        let address = segment.address.copy(alloc)?;
        let range = segment.range;
        parts.push(Part { address, range })?;
    }
    Ok(PartList::from(parts))
}
